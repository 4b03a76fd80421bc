//! Lists that are used up.
//!
//! What is kept of a run takes more memory than what is made of it. So it is used up from its front while that grows,
//! and gives its memory back as it goes.
ghost use Rattle.std.specs.Prelude.{◌≡◌, ◌∷◌, [], MatchOption};

use std::marker::Model;

// Each time that so many fewer items are left, memory is given back.
const PIECE: usize = 4096;

/// Items that are used up one after another. Contracts see those that are left, in order.
#[derive(Drop)]
pub struct Supply<T: Drop> {
    // The first one stands last, since a vector gives back what is behind its items.
    items: Vec<T>,
}

impl<T: Drop> Model for Supply<T> {
    ghost use Rattle.std.specs.Prelude.{List, reverse};

    ghost Value = { List T };

    ghost view = { λ s. reverse s.items.items };
}

impl<T: Drop> Supply<T> {
    /// The items of the vector, in its order. It takes no memory.
    #[tactic(auto, using(crate::proofs::Supplies::supply_steps))]
    pub fn of(mut items: Vec<T>) -> Self
        ensures { result ≡ items.items }
    {
        items.reverse();
        Supply { items }
    }

    /// The first item, which is gone then, or None where none is left.
    #[tactic(auto, using(crate::proofs::Supplies::supply_steps))]
    pub fn pop_first(&mut self) -> Option<T>
        ensures { MatchOption result ((self.old ≡ []) × (self.new ≡ [])) (λ item. self.old ≡ item ∷ self.new) }
    {
        give_back(&mut self.items);
        self.items.pop()
    }
}

// Gives back the memory behind the items, where a multiple of `PIECE` is left.
fn give_back<T>(items: &mut Vec<T>)
    ensures { items.new.items ≡ items.old.items }
{
    if items.len() % PIECE != 0 {
        return;
    }
    items.shrink_to_fit();
}
