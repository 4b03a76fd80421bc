//! What is to be written.
ghost use Rattle.std.specs.Prelude.{◌≡◌};

use cq_base::Name;
use std::marker::Model;

/// A name that is to have these bytes, seen as the pair of both.
#[derive(Drop)]
pub struct Write {
    name: Name,
    bytes: Vec<u8>,
}

impl Model for Write {
    ghost use Rattle.std.specs.Prelude.{List, ℕ};

    ghost Value = { List ℕ × List ℕ };

    ghost view = { λ w. (w.name, w.bytes.items) };
}

impl Write {
    /// The name is to have these bytes.
    pub fn of(name: Name, bytes: Vec<u8>) -> Write
        ensures { result ≡ (name, bytes.items) }
    {
        Write { name, bytes }
    }

    /// The name.
    pub fn name(&self) -> &str
        ensures { result.now ≡ self.now.0 }
    {
        self.name.text()
    }

    /// The bytes that it is to have.
    pub fn bytes(&self) -> &[u8]
        ensures { result.now ≡ self.now.1 }
    {
        self.bytes.as_slice()
    }

    /// The name, without the bytes.
    pub fn into_name(self) -> Name
        ensures { result ≡ self.0 }
    {
        let Write { name, bytes: _ } = self;
        name
    }
}

/// What is to be written: names with their bytes, in order, and the text for standard output.
#[derive(Drop)]
pub struct Work {
    writes: Vec<Write>,
    text: Vec<u8>,
}

impl Model for Work {
    ghost use Rattle.cq_run.specs.Plan.{Plan};

    ghost Value = { Plan };

    ghost view = { λ w. record { writes = w.writes.items; text = w.text.items } };
}

impl Work {
    /// These names with their bytes, and this text.
    pub fn of(writes: Vec<Write>, text: Vec<u8>) -> Work
        ensures writes { result.writes ≡ writes.items }
        ensures text { result.text ≡ text.items }
    {
        Work { writes, text }
    }

    /// The names with their bytes, and the text.
    pub fn into_parts(self) -> (Vec<Write>, Vec<u8>)
        ensures writes { result.0.items ≡ self.writes }
        ensures text { result.1.items ≡ self.text }
    {
        let Work { writes, text } = self;
        (writes, text)
    }
}
