//! Who is told that a reader begins.
use cq_base::Port;

/// Is told when a reader begins to send. It changes no answer.
pub trait Watch: Drop + Send {
    /// The reader of this input begins to send.
    fn began(&self, input: Port);

    /// Another watch, for another reader.
    fn again(&self) -> Self;
}

/// The watch that does nothing.
#[derive(Clone, Copy)]
pub struct OpenWatch;

impl Watch for OpenWatch {
    fn began(&self, _input: Port) {}

    fn again(&self) -> Self {
        OpenWatch
    }
}
