//! The open packets, each at the place of its pair.
//!
//! The packets themselves lie in a slab, which uses the place of a packet that was closed again, and a
//! table tells under which key. No packet is in the slab but those in the table.
ghost use Rattle.std.specs.Prelude.{◌≡◌, ◌<◌, length, replicate, slice_index_or, slice_set, option_map, IfOk, None, OnOk, OnErr, Some, ℕ, ◌≢◌};
ghost use Rattle.slab.specs.Slab.{get, ContainsKey};
ghost use Rattle.cq_reasm.specs.Open.{with_piece, grown, cells_taken};
ghost use Rattle.cq_reasm.specs.Table.{packet_under};

use cq_base::NoMemory;
use slab::Slab;
use std::alloc::Global;
use std::marker::Model;

/// A packet that is open: its number, how many of its cells were taken, and their bytes in order.
#[derive(Drop)]
pub struct OpenPacket {
    number: u32,
    taken: u64,
    body: Vec<u8>,
}

/// The packets that are open, each at the place of its input and class. Contracts see at each place the packet that is
/// open there, if one is.
#[derive(Drop)]
pub struct OpenPackets {
    alloc: Global,
    keys: Vec<Option<usize>>,
    packets: Slab<OpenPacket>,
}

impl Model for OpenPackets {
    ghost use Rattle.std.specs.Prelude.{List, Option};
    ghost use Rattle.cq_reasm.specs.Open.{Open};

    ghost Value = { List (Option Open) };

    ghost use Rattle.std.specs.Prelude.{map};
    ghost use Rattle.cq_reasm.specs.Table.{packet_under, IsTable};

    ghost view = { λ t. map (packet_under t.packets) t.keys.items };

    ghost invariant = { λ t. IsTable t.packets t.keys.items };
}

impl OpenPackets {
    /// So many places, and no packet is open. The error is want of memory.
    pub fn new(alloc: Global, places: usize) -> Result<OpenPackets, NoMemory>
        ensures { IfOk result (λ t. t ≡ replicate places None) }
    {
        let keys = vec![in alloc; None; places]?;
        let packets = Slab::new(alloc);
        Ok(OpenPackets {
            alloc,
            keys,
            packets,
        })
    }

    /// Puts the piece of the cell with this index behind those of the packet that is open at the place, or opens
    /// with it the packet with this number, with memory for so many bytes. The error is want of memory, and then all
    /// is as before.
    #[tactic(auto, using(crate::proofs::Tables::add_steps))]
    pub fn add(
        &mut self,
        place: usize,
        number: u32,
        index: u32,
        piece: &[u8],
        room: usize,
    ) -> Result<(), NoMemory>
        requires place { place < length self.old }
        requires next { cells_taken (slice_index_or self.old place None) ≡ index }
        ensures added { OnOk result (self.new ≡ slice_set self.old place
            (Some (with_piece (slice_index_or self.old place None) number piece.now))) }
        ensures as_before { OnErr result (self.new ≡ self.old) }
    {
        match self.keys[place] {
            Some(key) => grow(&mut self.packets, key, index, piece),
            None => {
                let key = start(self.alloc, &mut self.packets, number, piece, room)?;
                self.keys[place] = Some(key);
                Ok(())
            }
        }
    }

    /// Closes the packet that is open at the place, and gives its bytes.
    #[tactic(auto, using(crate::proofs::Tables::closed_table))]
    pub fn close(&mut self, place: usize) -> Option<Vec<u8>>
        requires { place < length self.old }
        ensures bytes { option_map (λ v. v.items) result ≡ option_map (λ o. o.body)
            (slice_index_or self.old place None) }
        ensures closed { self.new ≡ slice_set self.old place None }
    {
        let key = self.keys[place]?;
        self.keys[place] = None;
        finish(&mut self.packets, key)
    }
}

// One more piece of the packet under the key.
#[tactic(auto, using(std::proofs::lemmas::Grind::common_steps))]
fn grow(
    packets: &mut Slab<OpenPacket>,
    key: usize,
    index: u32,
    piece: &[u8],
) -> Result<(), NoMemory>
    requires next { cells_taken (packet_under packets.old (Some key)) ≡ index }
    ensures present { ContainsKey packets.old key → ContainsKey packets.new key }
    ensures others { (other : ℕ) → other ≢ key → get packets.new other ≡ get packets.old other }
    ensures grown { OnOk result (packet_under packets.new (Some key)
        ≡ option_map (grown piece.now) (packet_under packets.old (Some key))) }
    ensures as_before { OnErr result (packet_under packets.new (Some key) ≡ packet_under packets.old (Some key)) }
{
    if let Some(packet) = packets.get_mut(key) {
        packet.body.extend_from_slice(piece)?;
        packet.taken = u64::from(index) + 1;
    }
    Ok(())
}

// A packet with its first piece, and its key. It has memory for so many bytes, or for the piece where that is longer.
fn start(
    alloc: Global,
    packets: &mut Slab<OpenPacket>,
    number: u32,
    piece: &[u8],
    room: usize,
) -> Result<usize, NoMemory>
    ensures vacant { IfOk result (λ key. get packets.old key ≡ None) }
    ensures others { IfOk result (λ key. (other : ℕ) → other ≢ key → get packets.new other ≡ get packets.old other) }
    ensures started { IfOk result (λ key. packet_under packets.new (Some key)
        ≡ Some (with_piece None number piece.now)) }
    ensures as_before { OnErr result ((key : ℕ) → get packets.new key ≡ get packets.old key) }
{
    let mut body = Vec::with_capacity(alloc, room.max(piece.len()))?;
    body.extend_from_slice(piece)?;
    packets.reserve(1)?;
    Ok(packets.insert_reserved(OpenPacket {
        number,
        taken: 1,
        body,
    }))
}

// Takes the packet under the key out of the slab, and gives its bytes.
#[tactic(auto, using(std::proofs::lemmas::Grind::common_steps))]
fn finish(packets: &mut Slab<OpenPacket>, key: usize) -> Option<Vec<u8>>
    ensures bytes { option_map (λ v. v.items) result ≡ option_map (λ o. o.body) (packet_under packets.old (Some key)) }
    ensures gone { get packets.new key ≡ None }
    ensures others { (other : ℕ) → other ≢ key → get packets.new other ≡ get packets.old other }
{
    let packet = packets.try_remove(key)?;
    Some(packet.body)
}
