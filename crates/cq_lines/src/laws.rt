//! What a line spells.
ghost use Rattle.std.specs.Prelude.{◌≡◌, ℕ, List, ◌∷◌, ◌++◌, Option, map};
ghost use Rattle.cq_base.specs.Decimal.{field};
ghost use Rattle.cq_base.specs.Texts.{line_of_words};
ghost use Rattle.cq_lines.specs.Lines.{line};

/// Behind one word a text begins with one line only: two lists of fields that are spelled the same, whatever
/// stands behind them, are the same. It does nothing: its contract is the claim.
#[tactic(auto, using(crate::proofs::Walk::one_line))]
pub fn lines_are_read_in_one_way()
    ensures { (word x y : List ℕ) (fs gs : List (Option ℕ)) → line word fs ++ x ≡ line word gs ++ y →
        (fs ≡ gs) × (x ≡ y) }
{}

/// A line is spelled as every line of words is: its word, and its fields as words behind it. It does nothing: its
/// contract is the claim.
#[tactic(auto, using(crate::proofs::Walk::line_spelled))]
pub fn lines_are_lines_of_words()
    ensures { (word : List ℕ) (fs : List (Option ℕ)) → line word fs ≡ line_of_words (word ∷ map field fs) }
{}
