//! What comes in a slot of a trial.
ghost use Rattle.std.specs.Prelude.{◌<◌, ◌≤◌};
ghost use Rattle.cq_base.specs.Limits.{most_ports};
ghost use Rattle.cq_ideal.specs.Ranking.{AreForPorts};

use cq_base::{Arrivals, Cell, CellId, Class, Port};

/// The arrivals of a slot at some of the first ports, for some of these, in two classes.
#[derive(Clone, Copy)]
pub(super) struct Coming<const PORTS: u16> {
    pub(super) arrivals: Arrivals,
    ghost for_ports: { AreForPorts PORTS 2 arrivals },
}

impl<const PORTS: u16> Coming<PORTS> {
    /// No cell comes.
    pub(super) fn nothing() -> Coming<PORTS> {
        Coming {
            arrivals: Arrivals::none(),
        }
    }

    /// A packet of one cell comes to each of the inputs 0, 1 and 2, for output 0.
    pub(super) fn three() -> Coming<PORTS>
        requires some { 3 ≤ PORTS }
        requires few { PORTS ≤ most_ports }
    {
        Coming::nothing()
            .with_packet(0, 0, 0, 0)
            .with_packet(1, 0, 0, 0)
            .with_packet(2, 0, 0, 0)
    }

    /// And a packet of one cell comes to the input.
    pub(super) fn with_packet(
        self,
        input: Port,
        packet: u32,
        output: Port,
        class: Class,
    ) -> Coming<PORTS>
        requires few { PORTS ≤ most_ports }
        requires input { input < PORTS }
        requires output { output < PORTS }
        requires class { class < 2 }
    {
        let id = CellId {
            input,
            packet,
            index: 0,
        };
        self.with_cell(id, output, class)
    }

    /// And the second cell of the packet comes to the input, in class 0.
    pub(super) fn with_second(self, input: Port, packet: u32, output: Port) -> Coming<PORTS>
        requires few { PORTS ≤ most_ports }
        requires input { input < PORTS }
        requires output { output < PORTS }
    {
        let id = CellId {
            input,
            packet,
            index: 1,
        };
        self.with_cell(id, output, 0)
    }

    /// And the cell with this id comes to its input.
    #[tactic(auto, using(crate::proofs::Arriving::for_ports_with))]
    pub(super) fn with_cell(self, id: CellId, output: Port, class: Class) -> Coming<PORTS>
        requires few { PORTS ≤ most_ports }
        requires input { id.input < PORTS }
        requires output { output < PORTS }
        requires class { class < 2 }
    {
        let cell = Cell {
            id,
            output,
            class,
            last: true,
            at: 0,
            len: 60,
        };
        let mut arrivals = self.arrivals;
        arrivals.set(id.input, cell);
        Coming { arrivals }
    }
}
