//! What files in memory keep of each name, in a list of entries.
//!
//! A name has one entry, which stays where it is: the state names it by its place. A name that is only
//! cut has an entry without bytes.
ghost use Rattle.std.specs.Prelude.{◌≡◌, ◌<◌, [], ◌++◌, length, string_bytes, IsSome, unwrap_or, IfOk, OnOk, OnErr};
ghost use Rattle.std.specs.Option.{option_map};
ghost use Rattle.std.specs.List.{position};
ghost use Rattle.cq_space.specs.Entries.{columns_of, same_name, IsEntryOf, SaysTheSame, bytes_at, told_at, with_bytes, with_read_cut, with_write_cut};

use cq_base::NoMemory;
use std::alloc::Global;

/// What is kept of a name: its bytes, where there is such a name, and where reading and writing it are
/// cut.
#[derive(Drop)]
pub(crate) struct Entry {
    name: String,
    pub(crate) bytes: Option<Vec<u8>>,
    pub(crate) read_cut: Option<u64>,
    pub(crate) write_cut: Option<u64>,
}

/// Which entry is open, by its place, and how far it was read.
#[derive(Clone, Copy)]
pub(crate) enum State {
    Shut,
    Reads { at: usize, place: usize },
    Writes { at: usize },
}

#[tactic(auto, using(crate::proofs::InMemory::name_steps))]
fn is_named(entry: &Entry, name: &str) -> bool
    ensures { result ≡ same_name name.now (string_bytes entry.now.name) }
{
    name == entry.name.as_str()
}

/// The place of the name's entry.
pub(crate) fn find(entries: &[Entry], name: &str) -> Option<usize>
    ensures { result ≡ position (λ e. same_name name.now (string_bytes e.name)) entries.now }
{
    entries.iter().position(|entry| is_named(entry, name))
}

/// The bytes of an entry, none where there is no such name.
pub(crate) fn held(entry: &Entry) -> &[u8]
    ensures { result.now ≡ unwrap_or (option_map (λ v. v.items) entry.now.bytes) [] }
{
    match &entry.bytes {
        Some(bytes) => bytes.as_slice(),
        None => &[],
    }
}

/// The place of the name's entry, which is put at the end where there is none.
pub(crate) fn place_of(
    alloc: Global,
    entries: &mut Vec<Entry>,
    name: &str,
) -> Result<usize, NoMemory>
    ensures ok { IfOk result (λ i. IsEntryOf (columns_of entries.new.items).names i name.now) }
    ensures same { SaysTheSame (columns_of entries.old.items) (columns_of entries.new.items) }
{
    if let Some(at) = find(entries, name) {
        return Ok(at);
    }
    let at = entries.len();
    entries.push(Entry {
        name: String::from_str(alloc, name)?,
        bytes: None,
        read_cut: None,
        write_cut: None,
    })?;
    Ok(at)
}

/// Gives the entry these bytes.
#[tactic(auto, using(crate::proofs::InMemory::given_bytes))]
pub(crate) fn put_bytes(entries: &mut [Entry], at: usize, bytes: Vec<u8>)
    requires { at < length entries.old }
    ensures { columns_of entries.new ≡ with_bytes (columns_of entries.old) at bytes.items }
{
    entries[at].bytes = Some(bytes);
}

/// Appends to the bytes of an entry that has some.
#[tactic(auto, using(crate::proofs::InMemory::lengthened))]
pub(crate) fn append(entries: &mut [Entry], at: usize, piece: &[u8]) -> Result<(), NoMemory>
    requires there { at < length entries.old }
    requires some { IsSome (told_at (columns_of entries.old) at) }
    ensures ok { let old = columns_of entries.old in
        OnOk result (columns_of entries.new ≡ with_bytes old at (bytes_at old at ++ piece.now)) }
    ensures err { OnErr result (columns_of entries.new ≡ columns_of entries.old) }
{
    match &mut entries[at].bytes {
        Some(bytes) => Ok(bytes.extend_from_slice(piece)?),
        None => unreachable!(),
    }
}

/// Cuts reading the name of the entry at `after` bytes.
#[tactic(auto, using(crate::proofs::InMemory::cut_steps))]
pub(crate) fn cut_reading(entries: &mut [Entry], at: usize, after: u64)
    requires { at < length entries.old }
    ensures { columns_of entries.new ≡ with_read_cut (columns_of entries.old) at after }
{
    entries[at].read_cut = Some(after);
}

/// Cuts writing the name of the entry at `after` bytes.
#[tactic(auto, using(crate::proofs::InMemory::cut_steps))]
pub(crate) fn cut_writing(entries: &mut [Entry], at: usize, after: u64)
    requires { at < length entries.old }
    ensures { columns_of entries.new ≡ with_write_cut (columns_of entries.old) at after }
{
    entries[at].write_cut = Some(after);
}
