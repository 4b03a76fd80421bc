//! Offers that are renewed after each of many drawn changes, and offers that are filled anew, compared with a plain
//! slow reading of the lists.
ghost use Rattle.std.specs.Prelude.{◌≡◌, ◌+◌, ◌<◌, ◌≤◌, All, IfOk, length};
ghost use Rattle.cq_base.specs.Limits.{most_ports};
ghost use Rattle.cq_list.specs.InputList.{cells_of};
ghost use Rattle.cq_prefs.specs.FirstCells.{orders_of};
ghost use Rattle.cq_list_trials.specs.Followed.{AreOwn, HasChanged, IsOwn};
ghost use Rattle.cq_prefs.specs.Orders.{ports};

use super::list::{cut_in, depart};
use cq_base::{NoMemory, Port};
use cq_list::InputList;
use cq_prefs::{Matching, Offers};
use cq_trial_kit::{Draws, waiting};
use std::alloc::Global;
use std::marker::Model;

// The lists of a switch, and offers that are renewed after each change of them. Contracts see the number of ports.
#[derive(Drop)]
struct Followed {
    lists: Vec<InputList>,
    kept: Offers,
    slot: u32,
}

impl Model for Followed {
    ghost use Rattle.std.specs.Prelude.{ℕ, length};
    ghost use Rattle.cq_list_trials.specs.Followed.{IsFollowed};

    ghost Value = { ℕ };

    ghost view = { λ s. length s.lists.items };

    ghost invariant = { λ s. IsFollowed s.slot s.lists.items s.kept };
}

// Lists without cells, each with room for 32 of them.
fn new_lists(alloc: Global, ports: u16) -> Result<Vec<InputList>, NoMemory>
    requires { ports ≤ most_ports }
    ensures len { IfOk result (λ lists. length lists.items ≡ ports) }
    ensures outputs { IfOk result (λ lists. All (λ list. list.outputs ≡ ports) lists.items) }
    ensures own { IfOk result (λ lists. AreOwn 0 lists.items) }
{
    let mut lists = Vec::new(alloc);
    for _ in 0..ports {
        lists.push(InputList::new(alloc, ports, 32)?)?;
    }
    Ok(lists)
}

// Joins two ports, if both have no partner yet.
fn join_free(matching: &mut Matching, input: Port, output: Port)
    requires input { input < length matching.old }
    requires output { output < length matching.old }
    ensures { length matching.new ≡ length matching.old }
{
    if matching.partner_of(input).is_none() && matching.has_free(output) {
        matching.join(input, output);
    }
}

// A matching of drawn pairs, and of no more of them than there are ports.
fn drawn_matching(drawn: &mut Draws, ports: u16) -> Matching
    requires some { 0 < ports }
    requires few { ports ≤ most_ports }
    ensures { length result ≡ ports }
{
    let mut matching = Matching::none(ports);
    for _ in 0..drawn.below(ports as u64) + 1 {
        let input = drawn.below(ports as u64) as Port;
        let output = drawn.below(ports as u64) as Port;
        join_free(&mut matching, input, output);
    }
    matching
}

// A cell comes to a list for an output, or the first one for it goes, as it does where 32 wait.
#[tactic(auto, using(cq_base::proofs::Lists::all_left, cq_base::proofs::Lists::all_insert))]
fn change_one(drawn: &mut Draws, list: &mut InputList, input: Port, output: Port, slot: u32)
    requires output { output < list.old.outputs }
    requires own { IsOwn slot input list.old }
    ensures outputs { list.new.outputs ≡ list.old.outputs }
    ensures own { IsOwn (slot + 1) input list.new }
    ensures changed { HasChanged output list.old.cells list.new.cells }
{
    if drawn.below(3) == 0 || list.len() >= 32 {
        depart(list, output, slot);
    } else {
        let queued = waiting(input, output, drawn.below(4) as u128, slot);
        cut_in(list, queued, drawn.below(8));
    }
}

// The list of each input that has a partner changes for this partner, in a slot of its own, and the offers are renewed.
// The next slot is the answer.
fn change_each(
    drawn: &mut Draws,
    lists: &mut [InputList],
    kept: &mut Offers,
    changed: &Matching,
    first: u32,
) -> u32
    requires ports { length lists.old ≡ length changed.now }
    requires outputs { All (λ list. list.outputs ≡ length lists.old) lists.old }
    requires slot { first < 1000 }
    requires own { AreOwn first lists.old }
    requires offers { kept.old ≡ orders_of (cells_of lists.old) }
    ensures ports { length lists.new ≡ length lists.old }
    ensures outputs { All (λ list. list.outputs ≡ length lists.new) lists.new }
    ensures own { AreOwn result lists.new }
    ensures offers { kept.new ≡ orders_of (cells_of lists.new) }
{
    let mut slot = first;
    for input in 0..changed.ports() {
        if let Some(output) = changed.partner_of(input) {
            change_one(drawn, &mut lists[input as usize], input, output, slot);
            slot += 1;
        }
    }
    kept.renew(lists, changed);
    slot
}

// How many of the ports stand before an output, by the places in the list, or None where it has no cell for it.
fn slow_place(list: &InputList, ports: u16, output: Port) -> Option<u16> {
    let place = list.place_for(output)?;
    let mut ahead = 0u16;
    for other in 0..ports {
        if let Some(at) = list.place_for(other)
            && at < place
        {
            ahead = ahead.wrapping_add(1);
        }
    }
    Some(ahead)
}

// How many of the lists have a more urgent first cell for an output, or None where the list has none for it.
fn slow_position(lists: &[InputList], list: &InputList, output: Port) -> Option<u16> {
    let queued = list.front_for(output)?;
    let mut ahead = 0u16;
    for other in lists {
        if let Some(front) = other.front_for(output)
            && front.key < queued.key
        {
            ahead = ahead.wrapping_add(1);
        }
    }
    Some(ahead)
}

// Whether the offers say of an input what the slow reading of the lists says.
fn say_of(offers: &Offers, lists: &[InputList], list: &InputList, input: Port) -> bool {
    let ports = offers.ports();
    for output in 0..ports {
        if offers.place_of(input, output) != slow_place(list, ports, output)
            || offers.position_of(output, input) != slow_position(lists, list, output)
        {
            return false;
        }
    }
    true
}

// Whether they do of each input.
fn are_as_read(offers: &Offers, lists: &[InputList]) -> bool {
    for input in 0..offers.ports() {
        if let Some(list) = lists.get(input as usize)
            && !say_of(offers, lists, list, input)
        {
            return false;
        }
    }
    offers.ports() as usize == lists.len()
}

impl Followed {
    fn new(alloc: Global, ports: u16) -> Result<Followed, NoMemory>
        requires some { 0 < ports }
        requires few { ports ≤ most_ports }
        ensures { IfOk result (λ switch. switch ≡ ports) }
    {
        let lists = new_lists(alloc, ports)?;
        let mut kept = Offers::new(alloc, ports)?;
        kept.fill(&lists);
        Ok(Followed {
            lists,
            kept,
            slot: 0,
        })
    }

    // A cell comes or goes in each pair of a drawn matching, and the offers are renewed. From slot 1000 on all stays.
    fn change(&mut self, drawn: &mut Draws)
        ensures { self.new ≡ self.old }
    {
        if self.slot < 1000 {
            let changed = drawn_matching(drawn, self.lists.len() as u16);
            let slot = change_each(drawn, &mut self.lists, &mut self.kept, &changed, self.slot);
            self.slot = slot;
        }
    }

    // Whether the offers that were renewed, and those that are filled anew, are what the slow reading says.
    fn agrees(&self, filled: &mut Offers) -> bool
        requires { ports filled.old ≡ self.now }
        ensures { ports filled.new ≡ ports filled.old }
    {
        filled.fill(&self.lists);
        are_as_read(&self.kept, &self.lists) && are_as_read(filled, &self.lists)
    }
}

// Whether they are, after each of 32 changes.
fn agree_after_changes(switch: &mut Followed, filled: &mut Offers, drawn: &mut Draws) -> bool
    requires { ports filled.old ≡ switch.old }
{
    for _ in 0..32 {
        switch.change(drawn);
        if !switch.agrees(filled) {
            return false;
        }
    }
    true
}

// Whether they are in a new switch of so many ports.
fn agree_from_new(alloc: Global, drawn: &mut Draws, count: u16) -> Result<bool, NoMemory>
    requires some { 0 < count }
    requires few { count ≤ most_ports }
{
    let mut filled = Offers::new(alloc, count)?;
    let mut switch = Followed::new(alloc, count)?;
    let agree = agree_after_changes(&mut switch, &mut filled, drawn);
    drop(switch);
    drop(filled);
    Ok(agree)
}

#[test]
fn renewed_and_filled_offers_are_as_a_slow_reading_says(rt: HostRuntime) {
    let mut drawn = Draws::from_seed(2);
    for ports in 1..13 {
        assert!(rt; agree_from_new(rt.alloc(), &mut drawn, ports) == Ok(true));
    }
}
