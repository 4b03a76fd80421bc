//! The tables of a document, and how their keys are read. The error of each reading is the refusal for what is wrong at
//! the key, or want of memory.
ghost use Rattle.std.specs.Prelude.{◌≡◌, ◌≤◌, ◌<◌, ℕ, List, None, Some, IfOk, IfErr, IfSome, length, map};
ghost use Rattle.std.specs.Int.{IsInRange};
ghost use Rattle.cq_tables.specs.Terms.{get_member, view, table_view, Refuses, at, elements_at, number_below, found, found_or, key_check, optional, required, path, array_of, discipline, file_name, integer_in, integer_value, kind_value, text_value, wide_from, wide_value};

use crate::place::Place;
use crate::refusal::{TableRefusal, Wrong, refusal};
use crate::value::{discipline, elements, file_name, integer, number_below, value_at, wide};
use cq_base::{Kind, Name};
use std::alloc::Global;
use toml::{Table, Value};

/// A table of the document, with its place.
#[derive(Clone, Copy)]
pub struct Entries<'a> {
    /// What gives memory for names and for the paths of refusals.
    pub alloc: Global,
    /// Where the table stands.
    pub place: Place,
    /// Its keys, with their values.
    pub table: &'a Table,
}

// What is made of what the value at a key says, or the refusal for what is wrong with the value. Where the key is left
// out, `$absent` is answered.
macro_rules! at_key {
    ($entries:expr, $key:expr, $absent:expr, $value:ident => $read:expr, $says:ident => $made:expr) => {
        match value_at($entries.table, $key) {
            None => $absent,
            Some($value) => match $read {
                Ok($says) => Ok($made),
                Err(wrong) => Err($entries.refuse($key, wrong)),
            },
        }
    };
}

// The same of a key that may be left out: then it is the default.
macro_rules! optional {
    ($entries:expr, $key:expr, $default:expr, $($rest:tt)*) => {
        at_key!($entries, $key, Ok($default), $($rest)*)
    };
}

// The same of a key that has to be there.
macro_rules! required {
    ($entries:expr, $key:expr, $($rest:tt)*) => {
        at_key!($entries, $key, Err($entries.refuse($key, Wrong::Missing)), $($rest)*)
    };
}

impl<'a> Entries<'a> {
    /// The refusal for what is wrong with a key of the table.
    pub fn refuse(self, key: &str, wrong: Wrong) -> TableRefusal
        ensures { Refuses (at (path self.entry.place key.now) (Some wrong)) result }
    {
        refusal(self.alloc, wrong, self.place, key)
    }

    /// The integer at a key that may be left out.
    pub fn integer(self, key: &str, least: u64, most: u64) -> Result<Option<u64>, TableRefusal>
        ensures held { IfOk result (λ _. key_check self.entry.place key.now (optional (integer_in least most))
            (table_view self.entry.table.now) ≡ None) }
        ensures value { IfOk result (λ n. n ≡ found integer_value key.now (table_view self.entry.table.now)) }
        ensures range { IfOk result (λ n. IfSome n (IsInRange least most)) }
        ensures refused { IfErr result (Refuses (key_check self.entry.place key.now (optional (integer_in least most))
            (table_view self.entry.table.now))) }
    {
        optional!(self, key, None, value => integer(value, least, most), n => Some(n))
    }

    /// The integer at a key, or else the default.
    pub fn integer_or(
        self,
        key: &str,
        least: u64,
        most: u64,
        default: u64,
    ) -> Result<u64, TableRefusal>
        requires { IsInRange least most default }
        ensures held { IfOk result (λ _. key_check self.entry.place key.now (optional (integer_in least most))
            (table_view self.entry.table.now) ≡ None) }
        ensures value { IfOk result (λ n. n ≡ found_or default integer_value key.now
            (table_view self.entry.table.now)) }
        ensures range { IfOk result (IsInRange least most) }
        ensures refused { IfErr result (Refuses (key_check self.entry.place key.now (optional (integer_in least most))
            (table_view self.entry.table.now))) }
    {
        optional!(self, key, default, value => integer(value, least, most), n => n)
    }

    /// The integer at a key that has to be there.
    pub fn required_integer(self, key: &str, least: u64, most: u64) -> Result<u64, TableRefusal>
        ensures held { IfOk result (λ _. key_check self.entry.place key.now (required (integer_in least most))
            (table_view self.entry.table.now) ≡ None) }
        ensures value { (default : ℕ) → IfOk result (λ n. n ≡ found_or default integer_value key.now
            (table_view self.entry.table.now)) }
        ensures range { IfOk result (IsInRange least most) }
        ensures refused { IfErr result (Refuses (key_check self.entry.place key.now (required (integer_in least most))
            (table_view self.entry.table.now))) }
    {
        required!(self, key, value => integer(value, least, most), n => n)
    }

    /// The wide number at a key, or else the default.
    pub fn wide_or(self, key: &str, least: u128, default: u128) -> Result<u128, TableRefusal>
        requires { least ≤ default }
        ensures held { IfOk result (λ _. key_check self.entry.place key.now (optional (wide_from least))
            (table_view self.entry.table.now) ≡ None) }
        ensures value { IfOk result (λ n. n ≡ found_or default wide_value key.now (table_view self.entry.table.now)) }
        ensures range { IfOk result (λ n. least ≤ n) }
        ensures refused { IfErr result (Refuses (key_check self.entry.place key.now (optional (wide_from least))
            (table_view self.entry.table.now))) }
    {
        optional!(self, key, default, value => wide(value, least), n => n)
    }

    /// The file name at a key that may be left out.
    pub fn file(self, key: &str) -> Result<Option<Name>, TableRefusal>
        ensures held { IfOk result (λ _. key_check self.entry.place key.now (optional file_name)
            (table_view self.entry.table.now) ≡ None) }
        ensures value { IfOk result (λ n. n ≡ found text_value key.now (table_view self.entry.table.now)) }
        ensures refused { IfErr result (Refuses (key_check self.entry.place key.now (optional file_name)
            (table_view self.entry.table.now))) }
    {
        optional!(self, key, None, value => file_name(value), text => Some(Name::of(self.alloc, text)?))
    }

    /// The file name at a key that has to be there.
    pub fn required_file(self, key: &str) -> Result<Name, TableRefusal>
        ensures held { IfOk result (λ _. key_check self.entry.place key.now (required file_name)
            (table_view self.entry.table.now) ≡ None) }
        ensures value { (default : List ℕ) → IfOk result (λ n. n ≡ found_or default text_value key.now
            (table_view self.entry.table.now)) }
        ensures refused { IfErr result (Refuses (key_check self.entry.place key.now (required file_name)
            (table_view self.entry.table.now))) }
    {
        required!(self, key, value => file_name(value), text => Name::of(self.alloc, text)?)
    }

    /// The discipline at a key that may be left out.
    pub fn discipline(self, key: &str) -> Result<Kind, TableRefusal>
        ensures held { IfOk result (λ _. key_check self.entry.place key.now (optional discipline)
            (table_view self.entry.table.now) ≡ None) }
        ensures value { IfOk result (λ kind. kind ≡ found_or Kind.FirstCome kind_value key.now
            (table_view self.entry.table.now)) }
        ensures refused { IfErr result (Refuses (key_check self.entry.place key.now (optional discipline)
            (table_view self.entry.table.now))) }
    {
        optional!(self, key, Kind::FirstCome, value => discipline(value), kind => kind)
    }

    /// The port or class at a key that may be left out, by its number, which is below the count.
    pub fn number(self, key: &str, greatest: u16, count: usize) -> Result<Option<u16>, TableRefusal>
        ensures held { IfOk result (λ _. key_check self.entry.place key.now (optional (number_below greatest count))
            (table_view self.entry.table.now) ≡ None) }
        ensures value { IfOk result (λ n. n ≡ found integer_value key.now (table_view self.entry.table.now)) }
        ensures range { IfOk result (λ n. IfSome n (λ n. n < count)) }
        ensures refused { IfErr result (Refuses (key_check self.entry.place key.now
            (optional (number_below greatest count)) (table_view self.entry.table.now))) }
    {
        optional!(self, key, None, value => number_below(value, greatest, count), n => Some(n))
    }

    /// The port or class at a key that has to be there, by its number, which is below the count.
    pub fn required_number(
        self,
        key: &str,
        greatest: u16,
        count: usize,
    ) -> Result<u16, TableRefusal>
        ensures held { IfOk result (λ _. key_check self.entry.place key.now (required (number_below greatest count))
            (table_view self.entry.table.now) ≡ None) }
        ensures value { (default : ℕ) → IfOk result (λ n. n ≡ found_or default integer_value key.now
            (table_view self.entry.table.now)) }
        ensures range { IfOk result (λ n. n < count) }
        ensures refused { IfErr result (Refuses (key_check self.entry.place key.now
            (required (number_below greatest count)) (table_view self.entry.table.now))) }
    {
        required!(self, key, value => number_below(value, greatest, count), n => n)
    }

    /// The elements of the array at a key that may be left out: none where it is.
    pub fn elements(self, key: &str, least: usize, most: usize) -> Result<&'a [Value], TableRefusal>
        ensures held { IfOk result (λ _. key_check self.entry.place key.now (optional (array_of least most))
            (table_view self.entry.table.now) ≡ None) }
        ensures value { IfOk result (λ items. map view items.now ≡ elements_at
            (get_member key.now (table_view self.entry.table.now))) }
        ensures range { IfOk result (λ items. length items.now ≤ most) }
        ensures refused { IfErr result (Refuses (key_check self.entry.place key.now (optional (array_of least most))
            (table_view self.entry.table.now))) }
    {
        optional!(self, key, &[], value => elements(value, least, most), items => items)
    }

    /// The elements of the array at a key that has to be there.
    pub fn required_elements(
        self,
        key: &str,
        least: usize,
        most: usize,
    ) -> Result<&'a [Value], TableRefusal>
        ensures held { IfOk result (λ _. key_check self.entry.place key.now (required (array_of least most))
            (table_view self.entry.table.now) ≡ None) }
        ensures value { IfOk result (λ items. map view items.now ≡ elements_at
            (get_member key.now (table_view self.entry.table.now))) }
        ensures range { IfOk result (λ items. IsInRange least most (length items.now)) }
        ensures refused { IfErr result (Refuses (key_check self.entry.place key.now (required (array_of least most))
            (table_view self.entry.table.now))) }
    {
        required!(self, key, value => elements(value, least, most), items => items)
    }
}
