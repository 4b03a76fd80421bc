//! The answer on the bytes of a reader.
ghost use Rattle.std.specs.Prelude.{◌≡◌, IfErr, Some};
ghost use Rattle.cq_pcap.specs.Rows.{AreRowsUntil};
ghost use Rattle.cq_stream.specs.Stream.{AnswersOn};

use cq_pcap::{Capture, PacketRow, PcapRefusal};

/// That of `read_capture`, where these are the rows up to the end of the bytes or up to their fault.
#[tactic(auto, using(crate::proofs::Closing::answer_steps))]
pub(crate) fn answer(
    bytes: Vec<u8>,
    fault: Option<PcapRefusal>,
    rows: Vec<PacketRow>,
) -> Result<Capture, PcapRefusal>
    requires { AreRowsUntil bytes.items fault rows.items }
    ensures rows { AreRowsUntil bytes.items fault rows.items }
    ensures found { IfErr result (λ refusal. fault ≡ Some refusal) }
    ensures answer { AnswersOn bytes.items result }
{
    match fault {
        None => Ok(Capture::of_rows(bytes, rows)),
        Some(refusal) => Err(refusal),
    }
}
