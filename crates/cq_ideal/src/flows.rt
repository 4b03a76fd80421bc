//! That flows keep their order.
ghost use Rattle.cq_ideal.specs.Terms.{FlowsLeaveAsTheyCame};

/// The cells of one input and class for one output leave it in the order in which they came, and none
/// is lost, in every run that ends without a tag fault. It does nothing: its contract is the claim.
///
/// The machines keep their laws and each starts in a state of its size, the arrivals are in range, and
/// those at one input are in the order of their slots, no two of them of one slot.
#[tactic(auto, using(crate::proofs::FlowLaw::flows_leave))]
pub fn flows_leave_as_they_came()
    ensures in_order { FlowsLeaveAsTheyCame }
{}
