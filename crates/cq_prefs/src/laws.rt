//! What follows from the definitions alone. Each law is the contract of a function that does nothing.
ghost use Rattle.std.specs.Prelude.{◌≡◌, List};
ghost use Rattle.cq_base.specs.declared.cell.Queued.{Queued};
ghost use Rattle.cq_prefs.specs.FirstCells.{AreOrdersOf, FirstKeysDiffer, orders_of};
ghost use Rattle.cq_prefs.specs.Orders.{Orders};
ghost use Rattle.cq_prefs.specs.Pairing.{Partners, IsInputBest};

/// There is only one matching that is best for the inputs.
#[tactic(auto, using(crate::proofs::Best::one_input_best))]
pub fn one_is_input_best()
    ensures { (o : Orders) (m n : Partners) → IsInputBest o m → IsInputBest o n → m ≡ n }
{}

/// The orders that are computed from lists of cells are those by the first cells, where their keys differ.
pub fn orders_are_by_first_cells()
    ensures { (lists : List (List Queued)) → FirstKeysDiffer lists → AreOrdersOf lists (orders_of lists) }
{}

/// There is only one way to order by first cells: what the offers of lists mean determines them.
#[tactic(auto, using(crate::proofs::OneOrder::one_orders))]
pub fn one_order_is_by_first_cells()
    ensures { (lists : List (List Queued)) (o p : Orders) → AreOrdersOf lists o → AreOrdersOf lists p → o ≡ p }
{}
