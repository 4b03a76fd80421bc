//! What the versions of a configuration have in common.
ghost use Rattle.std.specs.Prelude.{◌≡◌, None};
ghost use Rattle.cq_tables.specs.Terms.{Members, One, Two, class_array, class_rows, check_of};

/// An array of classes that version 1 accepts is one that version 2 accepts, with the same rows. This function does
/// nothing: its contract is the claim, and says no word of the other keys of a configuration.
#[tactic(auto, using(crate::proofs::Versions::accepted, crate::proofs::Versions::same_classes))]
pub fn version_two_keeps_classes()
    ensures accepted { (top : Members) → check_of top (class_array One) ≡ None → check_of top (class_array Two) ≡ None }
    ensures classes { (top : Members) → check_of top (class_array One) ≡ None → class_rows Two top ≡ class_rows One
        top }
{}
