//! Offers that are filled from lists, and those in which each output prefers the inputs from the last to the first.
ghost use Rattle.std.specs.Prelude.{◌≡◌, ◌≤◌, All, IfOk, length};
ghost use Rattle.cq_base.specs.Limits.{most_ports};
ghost use Rattle.cq_prefs.specs.Orders.{ports};

use cq_base::{NoMemory, Port};
use cq_list::InputList;
use cq_prefs::Offers;
use cq_trial_kit::{arrive, waiting};
use std::alloc::Global;

/// Offers of so many ports, filled from these lists.
pub(super) fn filled(alloc: Global, count: u16, lists: &[InputList]) -> Result<Offers, NoMemory>
    requires few { count ≤ most_ports }
    requires len { length lists.now ≡ count }
    requires outputs { All (λ list. list.outputs ≡ count) lists.now }
    ensures { IfOk result (λ offers. ports offers ≡ count) }
{
    let mut offers = Offers::new(alloc, count)?;
    offers.fill(lists);
    Ok(offers)
}

// The list of an input, with a cell of one rank for each of so many outputs, from the first on.
fn list_for(
    alloc: Global,
    input: Port,
    outputs: u16,
    wanted: u16,
    rank: u16,
) -> Result<InputList, NoMemory>
    requires few { outputs ≤ most_ports }
    requires wanted { wanted ≤ outputs }
    ensures { IfOk result (λ list. list.outputs ≡ outputs) }
{
    let mut list = InputList::new(alloc, outputs, wanted as u64)?;
    'cells: for output in 0..wanted {
        arrive(
            &mut list,
            waiting(input, output, rank as u128, output as u32),
        );
    }
    Ok(list)
}

// Each input prefers the first of the outputs, so many, from the first to the last, and has no offer to others.
fn offers_for(alloc: Global, count: u16, wanted: u16) -> Result<Offers, NoMemory>
    requires few { count ≤ most_ports }
    requires wanted { wanted ≤ count }
    ensures { IfOk result (λ offers. ports offers ≡ count) }
{
    let mut lists = Vec::new(alloc);
    'lists: for input in 0..count {
        lists.push(list_for(alloc, input, count, wanted, count - 1 - input)?)?;
    }
    filled(alloc, count, &lists)
}

/// Each input prefers the outputs from the first to the last, and each output the inputs from the last to the first.
pub(super) fn opposed_offers(alloc: Global, count: u16) -> Result<Offers, NoMemory>
    requires { count ≤ most_ports }
    ensures { IfOk result (λ offers. ports offers ≡ count) }
{
    offers_for(alloc, count, count)
}

/// Each of three inputs has an offer to output 0 alone, which prefers inputs 2, 1 and 0 in this order.
pub(super) fn contested_offers(alloc: Global) -> Result<Offers, NoMemory>
    ensures { IfOk result (λ offers. ports offers ≡ 3) }
{
    offers_for(alloc, 3, 1)
}
