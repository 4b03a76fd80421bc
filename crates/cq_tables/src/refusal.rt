//! Why a configuration is refused.
ghost use Rattle.std.specs.Prelude.{◌≡◌, ℕ, List, Some, IfOk};
ghost use Rattle.cq_tables.specs.Terms.{Refuses, code_of, refused, element_path, path};
ghost use Rattle.cq_tables.specs.declared.refusal.TableRefusal.TheVariants.{NoMemory as none};

use crate::place::{Array, Place, element_name, key_name};
use cq_base::{Name, NoMemory};
use std::alloc::Global;
use std::fmt;
use thiserror::Error;

/// Why a configuration gives no tables.
#[derive(Drop, Error)]
pub enum TableRefusal {
    /// The first check that does not hold.
    #[error("configuration: {code}")]
    At {
        /// The number of the check, 1 to 10.
        code: u8,
        /// The path of its key, as `port[1].write`. The whole text has the path `-`.
        path: Name,
    },
    /// The tables, or the path of a refusal, found no memory.
    #[error("out of memory")]
    NoMemory,
}

impl fmt::Debug for TableRefusal {
    fn fmt<W: fmt::Write>(&self, f: &mut fmt::Formatter<W>) -> fmt::Result {
        match self {
            TableRefusal::At { code, path } => {
                let path = path.text();
                write!(f, "At {{ code: {code}, path: {path:?} }}")
            }
            TableRefusal::NoMemory => f.write_str("NoMemory"),
        }
    }
}

impl From<NoMemory> for TableRefusal {
    ghost from_gives = { λ _ e. e ≡ none };

    fn from(_: NoMemory) -> Self {
        TableRefusal::NoMemory
    }
}

/// What is wrong with a document.
#[derive(Clone, Copy)]
pub enum Wrong {
    /// The text is no TOML document, or has arrays, tables or parts of a dotted key in each other more than 80 deep.
    NotToml = 1,
    /// A key that is required is not there.
    Missing = 2,
    /// A value has another type.
    WrongType = 3,
    /// A value is out of its range.
    OutOfRange = 4,
    /// A key is none of its table.
    UnknownKey = 5,
    /// An address stands there twice.
    DuplicateAddress = 6,
    /// A file is named twice.
    DuplicateFile = 7,
    /// A text writes no address of one station.
    BadAddress = 8,
    /// There is no port, or no class, of this number.
    NoSuchPortOrClass = 9,
    /// The text is longer than a configuration may be.
    TooLong = 10,
}

impl Wrong {
    /// Its number, as refusals tell it.
    pub fn code(self) -> u8
        ensures { result ≡ code_of self }
    {
        self as u8
    }
}

/// The number of the refusal of a text that is longer than a configuration may be. Its path is `-`.
pub const TOO_LONG: u8 = Wrong::TooLong as u8;

// The refusal for what is wrong at a path, or for want of memory for the path.
fn refuse(wrong: Wrong, named: Result<Name, NoMemory>) -> TableRefusal
    ensures { (p : List ℕ) → IfOk named (λ name. name ≡ p) → Refuses (Some (refused p wrong)) result }
{
    match named {
        Ok(path) => TableRefusal::At {
            code: wrong.code(),
            path,
        },
        Err(NoMemory) => TableRefusal::NoMemory,
    }
}

/// The refusal for what is wrong with a key.
#[cold]
pub fn refusal(alloc: Global, wrong: Wrong, place: Place, key: &str) -> TableRefusal
    ensures { Refuses (Some (refused (path place key.now) wrong)) result }
{
    refuse(wrong, key_name(alloc, place, key))
}

/// The refusal for what is wrong with an element of an array.
#[cold]
pub fn element_refusal(alloc: Global, wrong: Wrong, array: Array, index: usize) -> TableRefusal
    ensures { Refuses (Some (refused (element_path array index) wrong)) result }
{
    refuse(wrong, element_name(alloc, array, index))
}
