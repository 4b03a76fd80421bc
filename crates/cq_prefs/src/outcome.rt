//! What proposals come to: one of them, and all those of a phase.
//!
//! Both stand here, and not with one way of making proposals, so that each way answers in the same words.

use crate::Matching;
use cq_base::Port;

/// What a proposal of an input to an output comes to.
#[derive(Clone, Copy, Debug, PartialEq, Eq)]
pub enum Outcome {
    /// The output held nobody. It holds the input now.
    Held,
    /// The output held this other input, which it prefers less. It holds the one that proposed now.
    Displaced(Port),
    /// The output keeps the input that it holds, which it prefers more.
    Rejected,
}

/// One phase's matching, and how many proposals were made for it.
#[derive(Clone, Copy)]
pub struct Phase {
    /// Who sends to whom.
    pub matching: Matching,
    /// The number of proposals.
    pub proposals: u64,
}
