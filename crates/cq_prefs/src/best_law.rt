//! The matching that is computed from the offers alone. The law is the contract of a function that does nothing.
ghost use Rattle.cq_prefs.specs.LeastFirst.{best};
ghost use Rattle.cq_prefs.specs.Orders.{Orders, AreOffers};
ghost use Rattle.cq_prefs.specs.Pairing.{IsInputBest};

/// Where the least free input proposes until nobody is free, the matching is the one that is best for the inputs.
pub fn best_is_input_best()
    ensures { (o : Orders) → AreOffers o → IsInputBest o (best o) }
{}
