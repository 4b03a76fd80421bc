//! A line of the log.
ghost use Rattle.std.specs.Prelude.{◌≡◌, ◌≢◌, ◌↔◌, ℕ, List, ◌++◌, Option, IfSome, IfNone, IsTrue, Some};
ghost use Rattle.cq_audit.specs.Terms.{log_line, IsTransfer, IsOf, IsTransferBefore, Comes, numbers_behind};

use cq_base::{CellId, Transfer};
use cq_lines::{take_fields, take_number};

/// The transfer whose line stands at the front and may come behind the line of the last one, and what stands
/// behind its line. None where no such line stands there.
pub fn next_transfer(text: &[u8], ports: u16, last: Option<Transfer>) -> Option<(Transfer, &[u8])>
    ensures found { IfSome result (λ f. Comes ports last f.0 (Some f.0) × (text.now ≡ log_line f.0 ++ f.1.now)) }
    ensures none { IfNone result ((t : Transfer) (next : Option Transfer) (rest : List ℕ) →
        Comes ports last t next → text.now ≢ log_line t ++ rest) }
{
    let (transfer, rest) = take_transfer(text)?;
    if may_come(ports, last, &transfer) {
        Some((transfer, rest))
    } else {
        None
    }
}

// The transfer whose line stands at the front, and what stands behind it.
#[tactic(auto, using(crate::proofs::LogLines::begins_with_slot, std::proofs::Common::append_assoc))]
fn take_transfer(text: &[u8]) -> Option<(Transfer, &[u8])>
    ensures found { IfSome result (λ f. IsTransfer f.0 × (text.now ≡ log_line f.0 ++ f.1.now)) }
    ensures none { IfNone result ((t : Transfer) (rest : List ℕ) → IsTransfer t → text.now ≢ log_line t ++ rest) }
{
    let (slot, rest) = take_number(text)?;
    let mut fields = [None; 5];
    let (count, rest) = take_fields(rest, &mut fields)?;
    let transfer = transfer_of(slot, &fields[..count])?;
    Some((transfer, rest))
}

// The transfer of these numbers. None where there are more or fewer, or one does not fit.
fn transfer_of(slot: u128, fields: &[Option<u128>]) -> Option<Transfer>
    ensures found { IfSome result (λ t. IsTransfer t × (slot ≡ t.slot) × (fields.now ≡ numbers_behind t)) }
    ensures none { IfNone result ((t : Transfer) → IsTransfer t → slot ≡ t.slot → fields.now ≢ numbers_behind t) }
{
    let [
        Some(phase),
        Some(input),
        Some(output),
        Some(packet),
        Some(index),
    ] = fields
    else {
        return None;
    };
    let input = u16::try_from(*input).ok()?;
    Some(Transfer {
        slot: u64::try_from(slot).ok()?,
        phase: u8::try_from(*phase).ok()?,
        input,
        output: u16::try_from(*output).ok()?,
        id: CellId {
            input,
            packet: u32::try_from(*packet).ok()?,
            index: u32::try_from(*index).ok()?,
        },
    })
}

// Whether it crosses a switch of so many ports, and comes behind the last one, if there is one.
fn may_come(ports: u16, last: Option<Transfer>, transfer: &Transfer) -> bool
    ensures { IsTrue result ↔ (IsOf ports transfer.now × IfSome last (λ u. IsTransferBefore u transfer.now)) }
{
    is_of(ports, transfer) && may_follow(last, transfer)
}

fn is_of(ports: u16, transfer: &Transfer) -> bool
    ensures { IsTrue result ↔ IsOf ports transfer.now }
{
    (1..=2).contains(&transfer.phase) && transfer.input < ports && transfer.output < ports
}

fn may_follow(last: Option<Transfer>, transfer: &Transfer) -> bool
    ensures { IsTrue result ↔ IfSome last (λ u. IsTransferBefore u transfer.now) }
{
    match last {
        Some(last) => {
            (last.slot, last.phase, last.input) < (transfer.slot, transfer.phase, transfer.input)
        }
        None => true,
    }
}
