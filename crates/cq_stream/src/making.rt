//! Readers and intakes are made in pairs.
ghost use Rattle.std.specs.Prelude.{◌≡◌, ◌≤◌, [], length, IfOk};
ghost use Rattle.cq_base.specs.Limits.{longest_file};
ghost use Rattle.cq_stream.specs.Rings.{IsPairOf, bytes_to_read, room_of, taken, told};

use crate::{Intake, Reader};
use cq_base::NoMemory;
use rtrb::RingBuffer;
use std::alloc::Global;

/// A reader of the bytes, at most 2^28 of them, and the intake of its items, with room for this many of
/// them, at least one, in the ring between the two. What the intake is told goes to this reader. Nothing
/// is told, sent or taken yet. Want of memory drops the bytes.
pub fn pair(alloc: Global, bytes: Vec<u8>, room: u16) -> Result<(Reader, Intake), NoMemory>
    requires small { length bytes.items ≤ longest_file }
    requires room { 1 ≤ room }
    ensures pair { IfOk result (λ r. IsPairOf r.0 r.1) }
    ensures space { IfOk result (λ r. room_of r.1 ≡ room) }
    ensures bytes { IfOk result (λ r. bytes_to_read r.0 ≡ bytes.items) }
    ensures taken { IfOk result (λ r. taken r.1 ≡ []) }
    ensures told { IfOk result (λ r. told r.1 ≡ []) }
{
    let (items, taken) = RingBuffer::new(alloc, usize::from(room))?;
    let (told, orders) = RingBuffer::new(alloc, 1)?;
    let reader = Reader {
        bytes,
        items,
        orders,
    };
    let intake = Intake {
        items: taken,
        orders: told,
    };
    Ok((reader, intake))
}
