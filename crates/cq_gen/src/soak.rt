//! Made traffic, whole.
ghost use Rattle.std.specs.Prelude.{◌≡◌, length, All, IfOk};
ghost use Rattle.std.specs.Int.{IsInRange};
ghost use Rattle.cq_base.specs.Limits.{most_ports, most_soak_slots};
ghost use Rattle.cq_gen.specs.Packets.{soak_captures};
ghost use Rattle.cq_gen.specs.Tables.{soak_tables};
ghost use Rattle.cq_route.specs.Tables.{AreTables, ports_of};

use crate::captures::captures_of;
use crate::draws::first_draws;
use crate::tables::soak_tables;
use cq_base::NoMemory;
use cq_pcap::Capture;
use cq_route::Tables;
use std::alloc::Global;

/// Made traffic, and the switch that it goes through.
#[derive(Drop)]
pub struct Soak {
    /// What the switch is told.
    pub tables: Tables,
    /// What arrives: capture i at input i.
    pub captures: Vec<Capture>,
}

/// Makes traffic for a switch of 1 to 64 ports, over 1 to 20,000 slots of 512 nanoseconds.
///
/// The words are those of PCG32 (O'Neill 2014) made from the seed, one for each slot and in it for each
/// input, in order. A word's packet goes to the output that is the word modulo the number of ports, with
/// its top three bits as the priority of its tag. It has 60 bytes, which is one cell, and arrives when
/// its slot begins. The outputs are first-come, by priority and fair by turns, and each priority has a
/// class and a rule.
///
/// The error is want of memory. The same seed, ports and slots make the same traffic.
#[tactic(auto, using(crate::proofs::InRange::make_steps), unfolding(crate::specs::Packets::soak_captures))]
pub fn make(alloc: Global, seed: u64, ports: u16, slots: u32) -> Result<Soak, NoMemory>
    requires ports { IsInRange 1 most_ports ports }
    requires slots { IsInRange 1 most_soak_slots slots }
    ensures tables { IfOk result (λ soak. soak.tables ≡ soak_tables ports) }
    ensures in_range { IfOk result (λ soak. AreTables soak.tables) }
    ensures ports { IfOk result (λ soak. ports_of soak.tables.setup ≡ ports) }
    ensures captures { IfOk result (λ soak. soak.captures.items ≡ soak_captures seed ports slots) }
    ensures inputs { IfOk result (λ soak. length soak.captures.items ≡ ports) }
    ensures packets { IfOk result (λ soak. All (λ packets. length packets ≡ slots) soak.captures.items) }
{
    let tables = soak_tables(alloc, ports)?;
    let words = first_draws(alloc, seed, slots as usize * ports as usize)?;
    let captures = captures_of(alloc, words.as_slice(), ports, slots)?;
    Ok(Soak { tables, captures })
}
