//! The pairs that the lines of a phase tell.
ghost use Rattle.std.specs.Prelude.{◌≡◌, ◌≢◌, ◌<◌, ◌≤◌, ◌↔◌, ◌⊎◌, ℕ, IfErr, IfOk, IsTrue, Some, false, length};
ghost use Rattle.std.specs.List.{AllByRecursion};
ghost use Rattle.cq_audit.specs.Terms.{cells_of, IsFreeOutput, partner_of, IsOf, AreRight, IsFirstWrong, RiseByInput, first_id, told, most_ports};

use crate::pairs::Pairs;
use cq_base::{Port, Transfer};
use cq_list::InputList;

// Whether a line names the first cell that the list has for its output.
fn names_first(list: &InputList, line: &Transfer) -> bool
    ensures { IsTrue result ↔ (first_id line.now.output list.now.cells ≡ Some line.now.id) }
{
    match list.front_for(line.output) {
        Some(front) => front.cell.id == line.id,
        None => false,
    }
}

// Whether a line names the first cell that the list has for its output, and this output has no partner yet.
fn is_right(list: &InputList, pairs: &Pairs, line: &Transfer) -> bool
    requires { line.now.output < length pairs.now }
    ensures right { IsTrue result → first_id line.now.output list.now.cells ≡ Some line.now.id }
    ensures free { IsTrue result → IsFreeOutput pairs.now line.now.output }
    ensures wrong { result ≡ false → (first_id line.now.output list.now.cells ≢ Some line.now.id) ⊎
        ((k : ℕ) × (partner_of pairs.now k ≡ Some line.now.output)) }
{
    names_first(list, line) && pairs.input_of(line.output).is_none()
}

/// The pairs that the lines of a phase tell, which come in order of input: each names its input's first cell for its
/// output, and no output is in two of them. The error is the least input whose line is wrong. It takes no memory, and
/// each line is looked at once.
#[tactic(auto, using(crate::proofs::PhaseExact::told_steps))]
pub fn told(lists: &[InputList], lines: &[Transfer]) -> Result<Pairs, Port>
    requires few { length lists.now ≤ most_ports }
    requires lines { AllByRecursion (IsOf (length lists.now)) lines.now }
    requires rise { RiseByInput lines.now }
    ensures pairs { IfOk result (λ pairs. pairs ≡ told (length lists.now) lines.now) }
    ensures right { IfOk result (λ pairs. AreRight (cells_of lists.now) lines.now) }
    ensures wrong { IfErr result (λ input. IsFirstWrong (cells_of lists.now) lines.now input) }
{
    let mut pairs = Pairs::none(lists.len() as u16);
    'lines: for line in lines {
        if !is_right(&lists[line.input as usize], &pairs, line) {
            return Err(line.input);
        }
        pairs.join(line.input, line.output);
    }
    Ok(pairs)
}
