//! Watching the workers.
ghost use Rattle.std.specs.Prelude.{◌≡◌, Some};

use cq_base::Port;
use cq_ledger::{LedgerSeat, Outcome};

/// What the workers tell of their steps. Several threads call it at once, and a call may take its time. Whatever
/// it does, it changes no answer.
pub trait Gate: Sync {
    /// A worker has claimed an input. It has not proposed for it yet.
    fn claimed(&self, worker: u16, input: Port);

    /// An input has proposed, and this came of it. `seat` is the seat of the worker that made the proposal: its view
    /// keeps this input and this outcome as its last, and it began with the input of the worker's number.
    fn proposed(&self, worker: u16, input: Port, outcome: Outcome, seat: &LedgerSeat)
        requires worker { seat.now.view.began ≡ Some worker }
        requires told { seat.now.view.told ≡ Some (input, outcome) };
}

/// A gate that does nothing.
#[derive(Clone, Copy, Debug)]
pub struct OpenGate;

impl Gate for OpenGate {
    fn claimed(&self, _worker: u16, _input: Port) {}

    fn proposed(&self, _worker: u16, _input: Port, _outcome: Outcome, _seat: &LedgerSeat) {}
}
