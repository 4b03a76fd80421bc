//! The texts of a run that was worked by hand: two inputs have a cell each for output 0, and the lesser goes first.

/// Its trace.
pub const TRACE: &str = "0 0 0 0 0\n1 0 1 0 0\n";

/// Its log.
pub const LOG: &str = "0 1 0 0 0 0\n0 2 1 0 0 0\n";

/// Its state behind slot 0.
pub const STATE: &str =
    "cq-state 1\nnext 1\nshape 2 1 0 2\nsum 3 2\ninput 0 1 0\ninput 1 1 0\nrank 0\nrank 1\n\
    buffer 0 0 0 1\nsent 0 0 0 0 0\nmoved 0 1 0 0 0 0\nmoved 0 2 1 0 0 0\nend\n";
