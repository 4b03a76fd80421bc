//! Offers: a worked example, and the calls that want memory, with ample memory.
ghost use Rattle.std.specs.Prelude.{◌≡◌, ◌<◌, IfOk};
ghost use Rattle.cq_prefs.specs.Orders.{ports};

use super::opposed::filled;
use cq_base::{NoMemory, Port};
use cq_prefs::Offers;
use cq_trial_kit::list_of;
use std::alloc::Global;
use std::test::Fail;

// The cells of three inputs, two of each: of each cell the output and the rank.
const CELLS: [[(Port, u128); 2]; 3] = [[(0, 1), (1, 0)], [(1, 1), (0, 0)], [(0, 2), (2, 0)]];

// Their offers.
fn three_offers(alloc: Global) -> Result<Offers, NoMemory>
    ensures { IfOk result (λ offers. ports offers ≡ 3) }
{
    let mut lists = Vec::new(alloc);
    'lists: for input in 0..3 {
        let [(first, urgent), (second, later)] = CELLS[input as usize];
        let cells = [(first % 3, urgent), (second % 3, later)];
        lists.push(list_of(alloc, input, 3, &cells)?)?;
    }
    filled(alloc, 3, &lists)
}

// Whether a port of each side prefers the others in this order.
fn prefer(offers: &Offers, port: Port, outputs: &[Port], inputs: &[Port]) -> bool
    requires { port < ports offers.now }
{
    offers.outputs_of(port) == outputs && offers.inputs_of(port) == inputs
}

// Whether a copy of the offers prefers by the first cells of both sides.
fn copy_prefers(alloc: Global, offers: &Offers) -> Result<bool, NoMemory>
    requires { ports offers.now ≡ 3 }
{
    let copy = offers.copy(alloc)?;
    let prefers = copy.ports() == 3
        && prefer(&copy, 0, &[0, 1], &[1, 0, 2])
        && prefer(&copy, 1, &[1, 0], &[0, 1])
        && prefer(&copy, 2, &[0, 2], &[2]);
    drop(copy);
    Ok(prefers)
}

#[test]
fn each_side_prefers_by_first_cells(rt: HostRuntime) -> Result<(), Fail> {
    let offers = three_offers(rt.alloc())?;
    assert!(rt; copy_prefers(rt.alloc(), &offers) == Ok(true));
    Ok(())
}
