//! The rank machines of all outputs.
ghost use Rattle.std.specs.Prelude.{◌≡◌, ◌↔◌, ◌+◌, ◌<◌, ◌≤◌, ◌^◌, ◌∷◌, List, Option, Ok, Err, IfErr, IfOk, IsErr, None, OnErr, OnOk, Some, length, map, slice_index_or, slice_set, []};
ghost use Rattle.cq_ideal.specs.Terms.{Cell, machine_at, told, AreForOneSwitch, AreSized, class_count, admitted, idled, given_at, level_at, rank_at, AreForPorts, after_input, keyed, ranking, most_ports};

use crate::limiter::Limiter;
use crate::newcomers::Newcomers;
use cq_base::{Arrivals, Cell, Class, Key, NoMemory, Port, Queued, Sequence, Slot, TagFault};
use cq_rank::{Rank, TagOverflow};
use std::alloc::Global;
use std::marker::Model;

/// Per output what ranks its cells. Contracts see the numbers that give the machines, and their states.
#[derive(Drop)]
pub struct Ranks<R: Rank> {
    ranks: Vec<R>,
}

impl<R: Rank> Model for Ranks<R> {
    ghost use Rattle.std.specs.Prelude.{map};
    ghost use Rattle.cq_ideal.specs.Parts.{RanksView};

    ghost Value = { RanksView };

    ghost view = { λ a. record { fixed = map R.fixed a.ranks.items; states = map R.state a.ranks.items } };
}

// What a machine is told at the end of a slot.
#[tactic(auto, using(std::proofs::lemmas::Grind::common_steps))]
fn tell<R: Rank>(rank: &mut R, gone: Option<Queued>)
    ensures fixed { R.fixed rank.new ≡ R.fixed rank.old }
    ensures state { R.state rank.new ≡ told (R.machine (R.fixed rank.old)) (R.state rank.old) gone }
{
    match gone {
        Some(queued) => rank.sent(queued.key.level, queued.key.rank),
        None => rank.idle(),
    }
}

// A machine is told that its output was idle. A second idle slot would change nothing, as its state has its size.
fn tell_idle<R: Rank>(rank: &mut R)
    ensures fixed { R.fixed rank.new ≡ R.fixed rank.old }
    ensures state { R.state rank.new ≡ told (R.machine (R.fixed rank.old)) (R.state rank.old) None }
    ensures sized { length (R.state rank.old) ≡ (R.machine (R.fixed rank.old)).size }
{
    // Its contract tells that the state has its size.
    let _classes = rank.classes();
    rank.idle();
}

// The numbers of a machine's state. The error is want of memory.
#[tactic(auto, using(crate::proofs::Changed::list_steps))]
fn numbers_of<R: Rank>(alloc: Global, rank: &R) -> Result<Sequence<u128>, NoMemory>
    ensures { IfOk result (λ numbers. numbers ≡ R.state rank.now) }
{
    let count = rank.width();
    let mut numbers = Vec::with_capacity(alloc, count as usize)?;
    'places: for at in 0..count {
        numbers.push_reserved(rank.number(at));
    }
    Ok(Sequence::of(numbers))
}

// These become the numbers of a machine's state.
#[tactic(auto, using(crate::proofs::Changed::put_steps))]
fn put_numbers<R: Rank>(rank: &mut R, numbers: &[u128])
    requires { length numbers.now ≡ (R.machine (R.fixed rank.old)).size }
    ensures fixed { R.fixed rank.new ≡ R.fixed rank.old }
    ensures state { R.state rank.new ≡ numbers.now }
{
    let count = rank.width();
    'places: for at in 0..count {
        rank.put(at, numbers[at as usize]);
    }
}

#[tactic(auto, using(crate::proofs::Changed::machine_steps))]
impl<R: Rank> Ranks<R> {
    /// One for each output, in order.
    pub fn of(ranks: Vec<R>) -> Ranks<R>
        ensures fixed { result.fixed ≡ map R.fixed ranks.items }
        ensures states { result.states ≡ map R.state ranks.items }
    {
        Ranks { ranks }
    }

    // How many machines there are. Each has a state.
    fn len(&self) -> Port
        requires { length self.now.fixed ≤ most_ports }
        ensures value { result ≡ length self.now.fixed }
        ensures as_many { length self.now.states ≡ length self.now.fixed }
    {
        self.ranks.len() as Port
    }

    // The numbers of the state of one machine. The error is want of memory.
    fn numbers_at(&self, alloc: Global, output: Port) -> Result<Sequence<u128>, NoMemory>
        requires { output < length self.now.fixed }
        ensures { IfOk result (λ numbers. numbers ≡ slice_index_or self.now.states output []) }
    {
        numbers_of(alloc, &self.ranks[output as usize])
    }

    /// The numbers of the state of each machine, in order of output. The error is want of memory.
    #[tactic(auto, using(crate::proofs::Changed::list_steps))]
    pub fn numbers(&self, alloc: Global) -> Result<Sequence<Sequence<u128>>, NoMemory>
        requires { length self.now.fixed ≤ most_ports }
        ensures { IfOk result (λ states. states ≡ self.now.states) }
    {
        let ports = self.len();
        let mut states = Vec::with_capacity(alloc, ports as usize)?;
        'outputs: for output in 0..ports {
            let numbers = self.numbers_at(alloc, output)?;
            states.push_reserved(numbers);
        }
        Ok(Sequence::of(states))
    }

    // These become the numbers of the state of one machine.
    fn put_at(&mut self, output: Port, numbers: &[u128])
        requires output { output < length self.old.fixed }
        requires sized { length numbers.now ≡ (machine_at (map R.machine self.old.fixed) output).size }
        ensures fixed { self.new.fixed ≡ self.old.fixed }
        ensures states { self.new.states ≡ slice_set self.old.states output numbers.now }
    {
        put_numbers(&mut self.ranks[output as usize], numbers);
    }

    /// These become the numbers of the states of the machines, in order of output.
    pub fn put(&mut self, states: &[Sequence<u128>])
        requires few { length self.old.fixed ≤ most_ports }
        requires outputs { length states.now ≡ length self.old.fixed }
        requires sized { AreSized (map R.machine self.old.fixed) states.now }
        ensures fixed { self.new.fixed ≡ self.old.fixed }
        ensures states { self.new.states ≡ states.now }
    {
        let ports = self.len();
        'outputs: for output in 0..ports {
            self.put_at(output, states[output as usize].as_slice());
        }
    }

    // The level of a cell of the class that arrives for an output.
    fn level(&self, output: Port, class: Class) -> u8
        requires output { output < length self.now.fixed }
        requires class { class < (machine_at (map R.machine self.now.fixed) output).classes }
        ensures { result ≡ level_at (map R.machine self.now.fixed) output class }
    {
        self.ranks[output as usize].level(class)
    }

    // The rank of a cell of the class that arrives for an output, whose machine then knows of it.
    fn rank(&mut self, output: Port, class: Class) -> Result<u128, TagOverflow>
        requires output { output < length self.old.fixed }
        requires class { class < (machine_at (map R.machine self.old.fixed) output).classes }
        ensures fixed { self.new.fixed ≡ self.old.fixed }
        ensures rank { IfOk result (λ rank. rank
            ≡ rank_at (map R.machine self.old.fixed) self.old.states output class) }
        ensures given { OnOk result (self.new.states
            ≡ given_at (map R.machine self.old.fixed) self.old.states output class) }
        ensures refused { OnErr result (self.new.states ≡ self.old.states) }
        ensures many { length self.new.states ≡ length self.old.states }
        ensures overflow { IsErr result
            ↔ (2 ^ 128 ≤ rank_at (map R.machine self.old.fixed) self.old.states output class) }
    {
        self.ranks[output as usize].rank(class)
    }

    // A cell arrives at an input. It gets its key by its level and the rank that the output's machine gives it.
    fn keyed(&mut self, slot: Slot, input: Port, cell: Cell) -> Result<Queued, TagFault>
        requires output { cell.output < length self.old.fixed }
        requires class { cell.class < (machine_at (map R.machine self.old.fixed) cell.output).classes }
        ensures fixed { self.new.fixed ≡ self.old.fixed }
        ensures came { IfOk result (λ queued. (cells : List (Option Cell)) →
            ranking (map R.machine self.old.fixed) slot input (Some cell ∷ cells) self.old.states
            ≡ after_input (Some queued) (ranking (map R.machine self.old.fixed) slot (input + 1) cells
            self.new.states)) }
        ensures many { length self.new.states ≡ length self.old.states }
        ensures fault { IfErr result (λ fault. (cells : List (Option Cell)) →
            ranking (map R.machine self.old.fixed) slot input (Some cell ∷ cells) self.old.states ≡ Err fault) }
    {
        let level = self.level(cell.output, cell.class);
        match self.rank(cell.output, cell.class) {
            Err(_) => Err(TagFault {
                slot,
                input,
                output: cell.output,
            }),
            Ok(rank) => Ok(Queued {
                cell,
                key: Key {
                    level,
                    rank,
                    slot,
                    input,
                },
            }),
        }
    }

    /// The cells that are admitted in a slot are ranked in order of input, each by its output's machine, and put into
    /// `came` at the places of their inputs, in place of those that stood there. The error is the first rank that does
    /// not fit 128 bits, and then it is told neither what stands in `came` nor in which states the machines are.
    pub fn take(
        &mut self,
        slot: Slot,
        arrivals: &Arrivals,
        limiter: &Limiter,
        came: &mut Newcomers,
    ) -> Result<(), TagFault>
        requires machines { AreForOneSwitch (map R.machine self.old.fixed) }
        requires some { 0 < length self.old.fixed }
        requires few { length self.old.fixed ≤ most_ports }
        requires arrivals { AreForPorts (length self.old.fixed) (class_count (map R.machine self.old.fixed))
            arrivals.now }
        requires marks { length limiter.now.marks ≡ length self.old.fixed }
        ensures fixed { self.new.fixed ≡ self.old.fixed }
        ensures came { OnOk result (ranking (map R.machine self.old.fixed) slot 0 (admitted limiter.now.marks
            arrivals.now) self.old.states ≡ Ok (record { came = came.new; ranks = self.new.states })) }
        ensures many { length self.new.states ≡ length self.old.states }
        ensures long { length came.new ≡ most_ports }
        ensures fault { IfErr result (λ fault. ranking (map R.machine self.old.fixed) slot 0 (admitted
            limiter.now.marks arrivals.now) self.old.states ≡ Err fault) }
    {
        let ports = self.len();
        came.begin(ports);
        'inputs: for input in 0..ports {
            match limiter.admitted(arrivals, input) {
                None => came.put(input, None),
                Some(cell) => {
                    let queued = self.keyed(slot, input, cell)?;
                    came.put(input, Some(queued));
                }
            }
        }
        Ok(())
    }

    /// The output sent this cell in the slot that ends, or nothing.
    pub fn told(&mut self, output: Port, gone: Option<Queued>)
        requires { output < length self.old.fixed }
        ensures fixed { self.new.fixed ≡ self.old.fixed }
        ensures states { self.new.states ≡ slice_set self.old.states output
            (told (machine_at (map R.machine self.old.fixed) output) (slice_index_or self.old.states output []) gone) }
    {
        tell(&mut self.ranks[output as usize], gone);
    }

    // The output was idle.
    fn idle(&mut self, output: Port)
        requires { output < length self.old.fixed }
        ensures fixed { self.new.fixed ≡ self.old.fixed }
        ensures states { self.new.states ≡ slice_set self.old.states output
            (told (machine_at (map R.machine self.old.fixed) output) (slice_index_or self.old.states output []) None) }
        ensures sized { length (slice_index_or self.old.states output [])
            ≡ (machine_at (map R.machine self.old.fixed) output).size }
    {
        tell_idle(&mut self.ranks[output as usize]);
    }

    /// All outputs were idle. However many more idle slots follow, they change nothing.
    #[tactic(auto, using(crate::proofs::Resting::resting_again))]
    pub fn rest(&mut self)
        requires few { length self.old.fixed ≤ most_ports }
        requires states { length self.old.states ≡ length self.old.fixed }
        ensures fixed { self.new.fixed ≡ self.old.fixed }
        ensures states { self.new.states
            ≡ idled (map R.machine self.old.fixed) (length self.old.fixed) self.old.states }
        ensures again { idled (map R.machine self.old.fixed) (length self.old.fixed) self.new.states
            ≡ self.new.states }
    {
        let ports = self.len();
        'outputs: for output in 0..ports {
            self.idle(output);
        }
    }
}
