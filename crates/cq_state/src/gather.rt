//! What the lines of a state tell, put together while they are read.
ghost use Rattle.std.specs.Prelude.{◌≡◌, ◌<◌, ◌^◌, map, unwrap_or, OnOk, IfOk};
ghost use Rattle.cq_state.specs.Gather.{number_at, seen_of, rank_of, named_of, moved_of, with_shape, added, nothing};
ghost use Rattle.cq_state.specs.Gather.{AreLow, AreShape, AreSeen, AreNamedAt, AreMoved};

use crate::kind::Kind;
use crate::state::{Head, Named, Seen, Sent, State};
use cq_base::{CellId, NoMemory, Sequence, Transfer};
use std::alloc::{AllocError, Global};

impl State {
    /// What is told where no line is read. It takes no memory.
    pub(crate) fn untold(alloc: Global) -> State
        ensures { result ≡ nothing }
    {
        State {
            head: Head {
                next: 0,
                ports: 0,
                classes: 0,
                t0: 0,
                total: 0,
                proposals: 0,
                most: 0,
            },
            inputs: Sequence::of(Vec::new(alloc)),
            ranks: Sequence::of(Vec::new(alloc)),
            listed: Sequence::of(Vec::new(alloc)),
            buffered: Sequence::of(Vec::new(alloc)),
            sent: Sequence::of(Vec::new(alloc)),
            moved: Sequence::of(Vec::new(alloc)),
        }
    }

    /// Adds what a line of this kind with these fields tells. The error is want of memory.
    pub(crate) fn add(
        &mut self,
        alloc: Global,
        kind: Kind,
        fields: &[Option<u128>],
    ) -> Result<(), NoMemory>
        requires { AreLow kind fields.now }
        ensures { OnOk result (self.new ≡ added kind fields.now self.old) }
    {
        match kind {
            Kind::Version | Kind::End => {}
            Kind::Next => self.head.next = count(fields, 0),
            Kind::Shape => self.head = shape(self.head, fields),
            Kind::Sum => {
                self.head.proposals = count(fields, 0);
                self.head.most = count(fields, 1);
            }
            Kind::Input => self.inputs.push(seen(fields))?,
            Kind::Rank => self.ranks.push(rank(alloc, fields)?)?,
            Kind::Listed => self.listed.push(named(fields, 0))?,
            Kind::Buffered => self.buffered.push(named(fields, 0))?,
            Kind::Sent => {
                let slot = count(fields, 0);
                let cell = named(fields, 1);
                self.sent.push(Sent { slot, cell })?;
            }
            Kind::Moved => self.moved.push(moved(fields))?,
        }
        Ok(())
    }
}

// The number in a place, and 0 where there is none.
fn number(fields: &[Option<u128>], place: usize) -> u128
    ensures { result ≡ number_at fields.now place }
{
    match fields.get(place) {
        Some(Some(number)) => *number,
        _ => 0,
    }
}

fn count(fields: &[Option<u128>], place: usize) -> u64
    requires { number_at fields.now place < 2 ^ 63 }
    ensures { result ≡ number_at fields.now place }
{
    number(fields, place) as u64
}

fn port(fields: &[Option<u128>], place: usize) -> u16
    requires { number_at fields.now place < 2 ^ 16 }
    ensures { result ≡ number_at fields.now place }
{
    number(fields, place) as u16
}

fn shape(head: Head, fields: &[Option<u128>]) -> Head
    requires { AreShape fields.now }
    ensures { result ≡ with_shape head fields.now }
{
    Head {
        ports: port(fields, 0),
        classes: port(fields, 1),
        t0: count(fields, 2),
        total: count(fields, 3),
        ..head
    }
}

fn seen(fields: &[Option<u128>]) -> Seen
    requires { AreSeen fields.now }
    ensures { result ≡ seen_of fields.now }
{
    let slack = match fields.get(2) {
        Some(Some(slack)) => Some(*slack as u64),
        _ => None,
    };
    Seen {
        longest: count(fields, 1),
        slack,
    }
}

fn named(fields: &[Option<u128>], first: usize) -> Named
    requires { AreNamedAt fields.now first }
    ensures { result ≡ named_of fields.now first }
{
    Named {
        level: number(fields, first) as u8,
        rank: number(fields, first + 1),
        slot: count(fields, first + 2),
        input: port(fields, first + 3),
    }
}

fn moved(fields: &[Option<u128>]) -> Transfer
    requires { AreMoved fields.now }
    ensures { result ≡ moved_of fields.now }
{
    let input = port(fields, 2);
    Transfer {
        slot: count(fields, 0),
        phase: number(fields, 1) as u8,
        input,
        output: port(fields, 3),
        id: CellId {
            input,
            packet: number(fields, 4) as u32,
            index: number(fields, 5) as u32,
        },
    }
}

fn rank(alloc: Global, fields: &[Option<u128>]) -> Result<Sequence<u128>, NoMemory>
    ensures { IfOk result (λ numbers. numbers ≡ rank_of fields.now) }
{
    match fields {
        [_, rest @ ..] => Ok(Sequence::of(numbers(alloc, rest)?)),
        [] => Ok(Sequence::of(Vec::new(alloc))),
    }
}

fn numbers(alloc: Global, fields: &[Option<u128>]) -> Result<Vec<u128>, AllocError>
    ensures { IfOk result (λ numbers. numbers.items ≡ map (λ f. unwrap_or f 0) fields.now) }
{
    fields.iter().map(|field| field.unwrap_or(0)).collect(alloc)
}
