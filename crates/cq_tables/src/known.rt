//! The keys that a table may have.
ghost use Rattle.std.specs.Prelude.{◌≡◌, None, IfOk, IfErr, find, map, not, option_copied, string_bytes};
ghost use Rattle.std.specs.BTreeMap.{IsOrdered, keys};
ghost use Rattle.std.specs.List.{list_any};
ghost use Rattle.std.specs.Str.{bytes_eq};
ghost use Rattle.std.specs.String.{string_cmp};
ghost use Rattle.cq_tables.specs.Terms.{table_view, Refuses, least_unknown, no_other};

use crate::entries::Entries;
use crate::refusal::{TableRefusal, Wrong};
use toml::Table;

// Whether the name is one of these.
fn is_among(names: &[&str], name: &str) -> bool
    ensures { result ≡ list_any (λ known. bytes_eq name.now known.now) names.now }
{
    names.iter().any(|known| name == *known)
}

// The first key of the table that is none of these.
fn first_unknown<'a>(names: &[&str], table: &'a Table) -> Option<&'a String>
    ensures first { option_copied result ≡ find (λ key. not (list_any (λ known. bytes_eq (string_bytes key) known.now)
        names.now)) (keys table.now) }
    ensures ordered { IsOrdered string_cmp table.now }
{
    table.keys().find(|key| !is_among(names, key.as_str()))
}

// The least key of the table, in the order of bytes, that is none of these.
fn least_unknown<'a>(names: &[&str], table: &'a Table) -> Option<&'a str>
    ensures { option_copied result ≡ least_unknown (map (λ known. known.now) names.now) (table_view table.now) }
{
    match first_unknown(names, table) {
        None => None,
        Some(key) => Some(key.as_str()),
    }
}

impl<'a> Entries<'a> {
    /// Refuses the least key that is none of these.
    pub fn only(self, names: &[&str]) -> Result<(), TableRefusal>
        ensures held { IfOk result (λ _. no_other self.entry.place (map (λ k. k.now) names.now)
            (table_view self.entry.table.now) ≡ None) }
        ensures refused { IfErr result (Refuses (no_other self.entry.place (map (λ k. k.now) names.now)
            (table_view self.entry.table.now))) }
    {
        match least_unknown(names, self.table) {
            None => Ok(()),
            Some(key) => Err(self.refuse(key, Wrong::UnknownKey)),
        }
    }
}
