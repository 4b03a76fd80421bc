//! What the definitions of pieces and packets say together. Each function does nothing: its contract is
//! the claim.
ghost use Rattle.cq_reasm.specs.Cutting.{PiecesGiveFrame};
ghost use Rattle.cq_reasm.specs.Whole.{WholeAreTaken};

/// A captured frame is cut into the pieces of its cells: they have one length, from its first byte on,
/// but that the last ends with the frame; a frame of no bytes has one cell of no bytes. The pieces of all
/// its cells, in order, give the frame.
#[tactic(auto, using(crate::proofs::Runs::pieces_give_frame))]
pub fn pieces_give_the_frame()
    ensures { PiecesGiveFrame }
{}

/// The cells of a run of whole packets of one input and one class, in order, can be taken one after
/// another: each is the next. Each packet is given whole, in order, with the pieces of its cells, and
/// in the end none is open.
#[tactic(auto, using(crate::proofs::Runs::whole_are_taken))]
pub fn whole_packets_are_given()
    ensures { WholeAreTaken }
{}
