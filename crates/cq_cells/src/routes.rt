//! Where the packets of a capture go. Each is routed on its own, so threads share those of a long capture.
ghost use Rattle.std.specs.Prelude.{◌≡◌, ◌<◌, length, map, IfOk};
ghost use Rattle.cq_cells.specs.Terms.{packet_in, IsDirectoryOf, route};

use cq_base::{Class, NoMemory, Port};
use cq_pcap::Capture;
use cq_route::{Directory, Tables};
use rayon::prelude::*;
use std::alloc::Global;
use std::thread::Threads;

// So many packets are worth a thread of their own: to start and to join one costs as much as to route thousands.
const WORTH_A_THREAD: usize = 8192;

/// The output and the class of each packet of a capture at the input, in order, by the tables and their directory. The
/// error is want of memory.
pub fn routes_of<R: Threads + Sync>(
    rt: &R,
    alloc: Global,
    input: Port,
    capture: &Capture,
    tables: &Tables,
    directory: &Directory,
) -> Result<Vec<(Port, Class)>, NoMemory>
    requires { IsDirectoryOf tables.now directory.now }
    ensures { IfOk result (λ routes. routes.items ≡ map (λ p. route tables.now input p.body) capture.now) }
{
    let packets = capture.rows().len();
    let routes = (0..packets)
        .into_par_iter()
        .with_min_len(WORTH_A_THREAD)
        .map(
            |k: usize| -> (Port, Class)
                requires inside { k < length capture.now }
                requires directory { IsDirectoryOf tables.now directory.now }
                ensures { result ≡ route tables.entry.now input (packet_in capture.entry.now k).body }
            { directory.route(tables, input, capture.body(k)) },
        )
        .collect(rt, alloc)?;
    Ok(routes)
}
