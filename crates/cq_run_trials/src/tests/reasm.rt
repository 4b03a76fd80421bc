//! Packets of several cells, some of them interleaved.
ghost use Rattle.std.specs.Prelude.{◌≡◌, ◌≤◌};
ghost use Rattle.cq_base.specs.Limits.{most_classes, most_ports};
ghost use Rattle.cq_reasm.specs.Joining.{HasTaken, IsTakable};

use cq_base::{Cell, CellId, Class, NoMemory, Port};
use cq_reasm::{Joined, Joiner};
use std::alloc::Global;
use std::marker::Model;

/// A joiner, and what is open in it: of each input and class, at the place of the pair, the number of the packet of
/// which the first cell was taken, and the piece of that cell.
#[derive(Drop)]
struct Taking {
    joiner: Joiner,
    inputs: u16,
    classes: u16,
    opened: Vec<Option<(u32, &'static [u8])>>,
}

impl Model for Taking {
    ghost use Rattle.std.specs.Prelude.{◌≡◌, option_map, map};
    ghost use Rattle.cq_reasm.specs.Joining.{JoinerView};

    ghost Value = { Unit {0} };

    ghost view = { λ _. tt };

    ghost invariant = { λ t. t.joiner ≡ record {
      inputs = t.inputs;
      classes = t.classes;
      open_packets = map (option_map (λ o. record { packet = o.0; taken = 1; body = o.1.now })) t.opened.items;
    } };
}

/// A cell that is the next of its input and class: the two, its packet, its bytes, the memory that a packet is opened
/// with, where that is told, and the body of the packet that is whole with it, if it is its last.
type Taken = (
    Port,
    Class,
    u32,
    &'static [u8],
    Option<usize>,
    Option<&'static [u8]>,
);

/// Whether the packet of the cell is whole, with this body, or none is.
fn is_whole(joined: Option<Joined>, cell: &Cell, body: Option<&[u8]>) -> bool {
    match joined {
        Some(whole) => {
            (whole.input, whole.packet) == (cell.id.input, cell.id.packet)
                && body == Some(whole.body.as_slice())
        }
        None => body.is_none(),
    }
}

/// Takes a cell, where a packet that is opened gets memory for so many bytes, if that is told.
fn take(
    joiner: &mut Joiner,
    cell: &Cell,
    piece: &[u8],
    room: Option<usize>,
) -> Result<Option<Joined>, NoMemory>
    requires { IsTakable joiner.old cell.now piece.now }
    ensures { HasTaken joiner.old joiner.new cell.now piece.now result }
{
    match room {
        Some(room) => joiner.take_reserving(cell, piece, room),
        None => joiner.take(cell, piece),
    }
}

impl Taking {
    /// With nothing open.
    fn new(alloc: Global, inputs: u16, classes: u16) -> Result<Taking, NoMemory>
        requires inputs { 1 ≤ inputs × inputs ≤ most_ports }
        requires classes { 1 ≤ classes × classes ≤ most_classes }
    {
        let places = usize::from(inputs) * usize::from(classes);
        let joiner = Joiner::new(alloc, inputs, classes)?;
        let mut opened = Vec::new(alloc);
        opened.resize(places, None)?;
        Ok(Taking {
            joiner,
            inputs,
            classes,
            opened,
        })
    }

    /// Takes a cell, and tells whether it is the next of its input and class, and its packet is whole with the body, or
    /// none is.
    fn takes(&mut self, taken: &Taken) -> bool {
        let (input, class, packet, piece, room, body) = *taken;
        let place = usize::from(input) * usize::from(self.classes) + usize::from(class);
        if input >= self.inputs
            || class >= self.classes
            || place >= self.opened.len()
            || piece.len() > 8
        {
            return false;
        }
        let index = match self.opened[place] {
            None => 0,
            Some((number, _)) if number == packet && body.is_some() => 1,
            Some(_) => return false,
        };
        let cell = Cell {
            id: CellId {
                input,
                packet,
                index,
            },
            output: 0,
            class,
            last: body.is_some(),
            at: 0,
            len: piece.len() as u32,
        };
        match take(&mut self.joiner, &cell, piece, room) {
            Ok(joined) => {
                self.opened[place] = match body {
                    Some(_) => None,
                    None => Some((packet, piece)),
                };
                is_whole(joined, &cell, body)
            }
            Err(_) => false,
        }
    }
}

/// How many inputs and classes there are, and the cells that come in turn.
type Trial = (u16, u16, &'static [Taken]);

const TRIALS: &[Trial] = &[
    // A packet of one cell is whole at once, and two packets of two cells are at their second.
    (
        1,
        1,
        &[
            (0, 0, 0, b"abcd", None, Some(b"abcd")),
            (0, 0, 1, b"efgh", None, None),
            (0, 0, 1, b"i", None, Some(b"efghi")),
            (0, 0, 2, b"jklm", None, None),
            (0, 0, 2, b"nopq", None, Some(b"jklmnopq")),
        ],
    ),
    // A packet is whole that was opened with memory for no byte, and one that was with memory for more than it has.
    (
        1,
        1,
        &[
            (0, 0, 0, b"abcd", Some(0), None),
            (0, 0, 0, b"e", Some(0), Some(b"abcde")),
            (0, 0, 1, b"fghi", Some(9), None),
            (0, 0, 1, b"j", Some(9), Some(b"fghij")),
        ],
    ),
    // Two inputs are kept apart, whose cells take turns.
    (
        2,
        1,
        &[
            (0, 0, 3, b"ab", None, None),
            (1, 0, 5, b"uvw", None, None),
            (0, 0, 3, b"c", None, Some(b"abc")),
            (1, 0, 5, b"xyz", None, Some(b"uvwxyz")),
        ],
    ),
    // Two classes of an input are kept apart, where a packet of the second is opened and whole within one of the first.
    (
        1,
        2,
        &[
            (0, 0, 0, b"ab", None, None),
            (0, 1, 1, b"uvw", None, None),
            (0, 1, 1, b"xyz", None, Some(b"uvwxyz")),
            (0, 0, 0, b"c", None, Some(b"abc")),
        ],
    ),
    // A packet of no bytes is whole at its cell, of the last input and class.
    (64, 16, &[(63, 15, 0, b"", None, Some(b""))]),
];

/// Whether each of the cells is answered so.
fn are_taken(taking: &mut Taking, cells: &[Taken]) -> bool {
    for taken in cells {
        if !taking.takes(taken) {
            return false;
        }
    }
    true
}

fn holds(alloc: Global, trial: &Trial) -> bool {
    let (inputs, classes, cells) = *trial;
    if inputs == 0 || inputs > 64 || classes == 0 || classes > 16 {
        return false;
    }
    match Taking::new(alloc, inputs, classes) {
        Ok(mut taking) => are_taken(&mut taking, cells),
        Err(_) => false,
    }
}

#[test]
fn packets_are_whole_at_their_last_cells_whatever_comes_between(rt: HostRuntime) {
    for trial in TRIALS {
        assert!(rt; holds(rt.alloc(), trial));
    }
}
