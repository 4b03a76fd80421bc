//! Fingers into a queue, from which a walk along it can begin.
ghost use Rattle.std.specs.Prelude.{◌≡◌, ℕ, List, [], ◌∷◌, ◌+◌, ◌<◌, ◌≤◌, ◌^◌, length, insert};
ghost use Rattle.cq_list.specs.Fingers.{finger_at, AreFingers, AreSet, AreShifted, EndsAt, IsShifted};

use arrayvec::ArrayVec;
use cq_base::{Class, MOST_CLASSES};
use std::marker::Model;

// A walk past fewer nodes than these needs no finger.
const FEW: usize = 8;

/// How many nodes of a queue stand ahead, and the place of the last of these, which is not read where there are none.
#[derive(Clone, Copy, Default)]
pub struct Ahead {
    /// How many they are.
    pub count: usize,
    /// The place of the last of them.
    pub last: usize,
}

/// The fingers of a queue, at most one for each class: what stands ahead of a cell that overtook others not long ago,
/// of that class once it has a finger of its own. A finger with no node ahead says nothing. Contracts see the fingers.
#[derive(Drop)]
pub struct Fingers {
    fingers: ArrayVec<Ahead, MOST_CLASSES>,
}

impl Model for Fingers {
    ghost use Rattle.std.specs.Prelude.{List};
    ghost use Rattle.cq_list.specs.declared.fingers.Ahead.{Ahead};

    ghost Value = { List Ahead };

    ghost view = { λ f. f.fingers.items };
}

// A finger of a queue that has a node less or more behind so many.
fn shifted(finger: Ahead, count: usize, less: usize, more: usize) -> Ahead
    requires less { less ≤ 1 }
    requires fits { 0 < more → finger.count + more < 2 ^ 64 }
    ensures { IsShifted count less more finger result }
{
    if finger.count <= count {
        return finger;
    }
    Ahead {
        count: finger.count - less + more,
        last: finger.last,
    }
}

// The same of each finger.
fn shift(fingers: &mut [Ahead], count: usize, less: usize, more: usize)
    requires less { less ≤ 1 }
    requires fits { 0 < more → (k : ℕ) → (finger_at fingers.old k).count + more < 2 ^ 64 }
    ensures { AreShifted count less more fingers.old fingers.new }
{
    'fingers: for finger in fingers.iter_mut() {
        *finger = shifted(*finger, count, less, more);
    }
}

impl Fingers {
    /// No finger.
    pub fn none() -> Fingers
        ensures { result ≡ [] }
    {
        Fingers {
            fingers: ArrayVec::new(),
        }
    }

    /// The fingers.
    pub fn as_slice(&self) -> &[Ahead]
        ensures { result.now ≡ self.now }
    {
        self.fingers.as_slice()
    }

    // Points the finger of a class here, where the walk to it is long. Until there are as many fingers as the class's
    // number, it goes behind the others.
    fn set(&mut self, class: Class, ahead: Ahead)
        ensures { AreSet ahead self.old self.new }
    {
        let at = class as usize;
        if ahead.count < FEW {
            return;
        }
        if at < self.fingers.len() {
            self.fingers.as_mut_slice()[at] = ahead;
            return;
        }
        if !self.fingers.is_full() {
            self.fingers.push(ahead);
        }
    }

    /// A cell of a class goes into a queue of this length, behind these of its nodes.
    pub fn put(&mut self, len: usize, class: Class, ahead: Ahead)
        requires inside { (k : ℕ) → (finger_at self.old k).count ≤ len }
        requires ahead { ahead.count ≤ len }
        requires fits { len + 1 < 2 ^ 64 }
        ensures { (places : List ℕ) (place : ℕ) → length places ≡ len → AreFingers places self.old →
            EndsAt places ahead.count ahead.last → AreFingers (insert places ahead.count place) self.new }
    {
        if ahead.count == len {
            return;
        }
        self.set(class, ahead);
        shift(self.fingers.as_mut_slice(), ahead.count, 0, 1);
    }

    /// The first node leaves the queue.
    pub fn take(&mut self)
        ensures { (places : List ℕ) (place : ℕ) → AreFingers (place ∷ places) self.old → AreFingers places self.new }
    {
        shift(self.fingers.as_mut_slice(), 0, 1, 0);
    }
}
