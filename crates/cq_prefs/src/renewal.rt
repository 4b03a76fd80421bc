//! Orders renewed at one port.
//!
//! Where the cells of one input for one output have changed, the order of the input is as before but for this output,
//! and that of the output but for this input. So the port leaves the order, and goes in again at its place if there
//! still is a cell. The first cells tell this place: no other port moves, and nothing is put in order anew.
ghost use Rattle.std.specs.Prelude.{◌≡◌, ◌≤◌, length, nat_eq};
ghost use Rattle.std.specs.List.{IsDistinct};
ghost use Rattle.cq_base.specs.Limits.{most_ports};
ghost use Rattle.cq_list.specs.InputList.{cells_of};
ghost use Rattle.cq_prefs.specs.FirstCells.{FirstKeysDiffer, input_order, output_order};
ghost use Rattle.cq_prefs.specs.Renewal.{without};

use crate::by_key::{key_of, place_by_key};
use crate::by_place::place_by_place;
use crate::preference::Preference;
use cq_base::Port;
use cq_list::InputList;

/// Renews the order of an input at one output.
pub fn renew_outputs(order: &mut Preference, list: &InputList, output: Port)
    requires differ { IsDistinct nat_eq order.old }
    requires others { without output order.old ≡ without output (output_order list.now.cells) }
    requires few { length (output_order list.now.cells) ≤ most_ports }
    ensures { order.new ≡ output_order list.now.cells }
{
    order.leave(output);
    if let Some(place) = list.place_for(output) {
        let at = place_by_place(list, order.as_slice(), place);
        order.insert(at, output);
    }
}

/// Renews the order of an output at one input.
pub fn renew_inputs(order: &mut Preference, lists: &[InputList], output: Port, input: Port)
    requires differ { IsDistinct nat_eq order.old }
    requires others { without input order.old ≡ without input (input_order (cells_of lists.now) output) }
    requires few { length (input_order (cells_of lists.now) output) ≤ most_ports }
    requires keys { FirstKeysDiffer (cells_of lists.now) }
    ensures { order.new ≡ input_order (cells_of lists.now) output }
{
    order.leave(input);
    if let Some(key) = key_of(lists, input, output) {
        let at = place_by_key(lists, output, order.as_slice(), key);
        order.insert(at, input);
    }
}
