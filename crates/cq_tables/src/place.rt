//! Where a key stands in a configuration, and how its path is written.
ghost use Rattle.std.specs.Prelude.{◌≡◌, IfOk};
ghost use Rattle.cq_tables.specs.Terms.{array_key, element_path, path};

use cq_base::{Name, NoMemory};
use std::alloc::Global;

/// The arrays of tables.
#[derive(Clone, Copy)]
pub enum Array {
    Classes,
    Ports,
    Addresses,
    Rules,
}

impl Array {
    /// The key of the array.
    pub fn key(self) -> &'static str
        ensures { result.now ≡ array_key self }
    {
        match self {
            Array::Classes => "class",
            Array::Ports => "port",
            Array::Addresses => "address",
            Array::Rules => "rule",
        }
    }
}

/// The table in which a key stands: the top one, or an element of an array, by its index.
#[derive(Clone, Copy)]
pub enum Place {
    Top,
    Element(Array, usize),
}

/// The path of an element. The error is want of memory.
pub fn element_name(alloc: Global, array: Array, index: usize) -> Result<Name, NoMemory>
    ensures { IfOk result (λ name. name ≡ element_path array index) }
{
    let key = array.key();
    let text = format!(in alloc; "{key}[{index}]")?;
    Name::of(alloc, text.as_str())
}

/// The path of a key. The error is want of memory.
pub fn key_name(alloc: Global, place: Place, key: &str) -> Result<Name, NoMemory>
    ensures { IfOk result (λ name. name ≡ path place key.now) }
{
    match place {
        Place::Top => Name::of(alloc, key),
        Place::Element(array, index) => {
            let element = element_name(alloc, array, index)?;
            let start = element.text();
            let text = format!(in alloc; "{start}.{key}")?;
            Name::of(alloc, text.as_str())
        }
    }
}
