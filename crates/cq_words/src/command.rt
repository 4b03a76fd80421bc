//! The commands, and the reading of the numbers of one.
ghost use Rattle.std.specs.Prelude.{◌≡◌};
ghost use Rattle.cq_words.specs.Numbers.{number_from};
ghost use Rattle.cq_words.specs.Words.{most_slots, numbered};

use crate::number::number;
use cq_base::{MOST_PORTS, Name};

/// What the program is asked to do. Files are named by their paths.
#[derive(Drop)]
pub enum Command {
    /// Sends a capture through a switch of one port, and writes what leaves it.
    Pass {
        /// The capture that is read.
        from: Name,
        /// The capture that is written.
        to: Name,
    },
    /// Reads a configuration, and says what is in it.
    Check {
        /// The configuration.
        config: Name,
    },
    /// Runs the ideal switch over the captures of a configuration, and writes what leaves it.
    Ideal {
        /// The configuration.
        config: Name,
    },
    /// Runs the fabric over the captures of a configuration, and writes what leaves it.
    Run {
        /// The configuration.
        config: Name,
    },
    /// Runs the fabric with made traffic.
    Soak {
        /// What the traffic is drawn from.
        seed: u64,
        /// How many ports there are, 1 to 64.
        ports: u16,
        /// In how many slots packets come, 1 to 20,000.
        slots: u32,
    },
    /// Checks the trace and the log that a configuration names, whoever wrote them.
    Audit {
        /// The configuration.
        config: Name,
    },
    /// Runs the fabric over the captures of a configuration for some slots, and writes the state in which it stands
    /// then.
    Part {
        /// The configuration.
        config: Name,
        /// After how many slots the run stops, fewer than 2^63.
        slots: u64,
        /// The file of the state, which is written.
        state: Name,
    },
    /// Runs the fabric on from such a state, and writes what leaves it from the first slot on.
    Resume {
        /// The configuration.
        config: Name,
        /// The file of the state, which is read.
        state: Name,
    },
}

// The greatest number of slots after which a run can stop.
const MOST_SLOTS: u64 = (1 << 63) - 1;

// The most slots in which made packets come.
const MOST_SOAK_SLOTS: u64 = 20_000;

/// The number of slots after which a run is to stop.
pub fn slots_of(slots: &str) -> Option<u64>
    ensures { result ≡ number_from 0 most_slots slots.now }
{
    number(slots, 0, MOST_SLOTS)
}

/// The command of the texts of three numbers, where each is in its range.
pub fn soak(seed: &str, ports: &str, slots: &str) -> Option<Command>
    ensures { result ≡ numbered seed.now ports.now slots.now }
{
    let seed = number(seed, 0, u64::MAX)?;
    let ports = number(ports, 1, MOST_PORTS as u64)? as u16;
    let slots = number(slots, 1, MOST_SOAK_SLOTS)? as u32;
    Some(Command::Soak { seed, ports, slots })
}
