//! What follows from the definitions alone. The law is the contract of a function that does nothing.
ghost use Rattle.std.specs.Prelude.{ℕ, List};
ghost use Rattle.cq_base.specs.declared.cell.Queued.{Queued};
ghost use Rattle.cq_prefs.specs.Moves.{Moves, transfers_of};
ghost use Rattle.cq_prefs.specs.Pairing.{ArePairs, Partners};
ghost use Rattle.cq_xbar.specs.Crossbar.{HaveCells, MovesOneEach, NotesOneEach};

/// In a transfer no input gives two cells and no output gets two, and the notes say the same.
pub fn one_cell_crosses_at_most()
    ensures moved { (m : Partners) (lists buffers lists' buffers' : List (List Queued)) → HaveCells m lists
        → Moves m lists buffers lists' buffers' → MovesOneEach lists buffers lists' buffers' }
    ensures noted { (m : Partners) (lists : List (List Queued)) (slot phase : ℕ) → ArePairs m
        → NotesOneEach (transfers_of m lists slot phase) }
{}
