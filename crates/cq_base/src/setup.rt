//! What the outputs of a switch do, as a configuration states it.
use crate::Sequence;

/// The discipline of an output: in which order it sends the cells of one level that wait for it. Those of a lesser
/// level go first at every output.
#[derive(Clone, Copy, Debug, PartialEq, Eq)]
pub enum Kind {
    /// In the order of arrival.
    FirstCome,
    /// By the priority of their class, the lesser first, and then in the order of arrival.
    Priority,
    /// By self-clocked fair queueing (Golestani 1994), where each class has a cost.
    Fair,
}

/// What the disciplines know of a class.
#[derive(Clone, Copy, Debug, PartialEq, Eq)]
pub struct ClassRow {
    /// A number up to 15 that stands first in the keys of its cells. So the lower level goes ahead, and a
    /// discipline decides among the cells of one level alone.
    pub level: u8,
    /// The rank of its cells at an output by priority.
    pub priority: u128,
    /// How much later a fair output ranks each further cell of it.
    pub cost: u128,
}

/// The classes of a switch, and the discipline of each of its ports.
#[derive(Drop)]
pub struct Setup {
    /// Class c is row c.
    pub classes: Sequence<ClassRow>,
    /// One for each port: output j sends by kind j.
    pub kinds: Sequence<Kind>,
}
