//! The addresses that are known.
ghost use Rattle.std.specs.Prelude.{ℕ, ◌≡◌, ◌<◌, ◌==◌, length, nat_eq, IfOk, OnOk, Some, None};
ghost use Rattle.std.specs.HashMap.{get};
ghost use Rattle.std.specs.Option.{option_or};
ghost use Rattle.cq_route.specs.Directory.{IsAddress, IsDirectoryOf, number_of, some_if};
ghost use Rattle.cq_route.specs.Route.{output_for, route};
ghost use Rattle.cq_route.specs.Tables.{AreTables, classes_of, ports_of};

use crate::Tables;
use cq_base::{Class, NoMemory, Port};
use cq_frame::{destination, parts};
use std::alloc::Global;
use std::collections::HashMap;

/// The outputs of the addresses that the rows of tables speak of. It is made once for many packets: each looks its
/// address up in a few steps, however many there are, and does not go through the rows.
#[derive(Drop)]
pub struct Directory {
    // By the number of the address.
    outputs: HashMap<u64, Port>,
}

impl Directory {
    /// The directory of the tables. Where an address stands in more than one row, the first of them decides, as it does
    /// in the tables. The error is want of memory.
    pub fn of(alloc: Global, tables: &Tables) -> Result<Directory, NoMemory>
        ensures { IfOk result (λ directory. IsDirectoryOf tables.now directory) }
    {
        let mut outputs = HashMap::new(alloc);
        let rows = tables.addresses.as_slice();
        'rows: for row in rows {
            learn(&mut outputs, number_of(&row.mac), row.output)?;
        }
        Ok(Directory { outputs })
    }

    /// The output and the class of a packet that arrives at the input with these bytes, by the tables of which this is
    /// the directory. It is what `Tables::route` answers.
    #[tactic(auto, using(crate::proofs::Bounds::output_below, crate::proofs::Bounds::class_below), unfolding(crate::specs::Route::route))]
    pub fn route(&self, tables: &Tables, input: Port, bytes: &[u8]) -> (Port, Class)
        requires { IsDirectoryOf tables.now self.now }
        ensures route { result ≡ route tables.now input bytes.now }
        ensures output { AreTables tables.now → result.0 < ports_of tables.now.setup }
        ensures class { AreTables tables.now → result.1 < classes_of tables.now.setup }
    {
        let output = self.output_for(tables, destination(bytes));
        if tables.rules.as_slice().is_empty() {
            return (output, tables.default_class);
        }
        (output, tables.class_for(input, &parts(bytes)))
    }

    #[tactic(auto, using(crate::proofs::Listed::goes_to, crate::proofs::Listed::goes_nowhere))]
    fn output_for(&self, tables: &Tables, dest: Option<[u8; 6]>) -> Port
        requires { IsDirectoryOf tables.now self.now }
        ensures { result ≡ output_for tables.now dest }
    {
        match dest {
            Some(mac) => self.output_of(mac).unwrap_or(tables.default_output),
            None => tables.default_output,
        }
    }

    // The output of frames to the address, or None where it is not known.
    fn output_of(&self, mac: [u8; 6]) -> Option<Port>
        ensures output { result ≡ get nat_eq self.now.outputs (number_of mac) }
        ensures address { IsAddress mac }
    {
        self.outputs.get(&number_of(&mac)).copied()
    }
}

// The address of this number goes to the output, where it was not known before.
fn learn(outputs: &mut HashMap<u64, Port>, number: u64, output: Port) -> Result<(), NoMemory>
    ensures { OnOk result ((q : ℕ) → get nat_eq outputs.new q
        ≡ option_or (get nat_eq outputs.old q) (some_if (number == q) output)) }
{
    if !outputs.contains_key(&number) {
        outputs.insert(number, output)?;
    }
    Ok(())
}

// The number that the six bytes of an address write, of which the first weighs most.
#[tactic(auto, unfolding(crate::specs::Directory::number_of))]
fn number_of(mac: &[u8]) -> u64
    requires { length mac.now ≡ 6 }
    ensures number { result ≡ number_of mac.now }
    ensures address { IsAddress mac.now }
{
    u64::from_be_bytes([0, 0, mac[0], mac[1], mac[2], mac[3], mac[4], mac[5]])
}
