//! Reads the log of any maker.
ghost use Rattle.std.specs.Prelude.{IfOk, IfErr};
ghost use Rattle.cq_audit.specs.Terms.{IsLog, IsLogFault, IsCause};

use crate::transfer::next_transfer;
use cq_base::Transfer;
use cq_lines::LineRefusal;
use std::alloc::Global;

/// The transfers of the log, in order. The line that a refusal names is the first that is not allowed. No
/// memory is taken but for the lines that were read.
pub fn read_log(alloc: Global, log: &[u8], ports: u16) -> Result<Vec<Transfer>, LineRefusal>
    ensures read { IfOk result (λ note. IsLog ports note.items log.now) }
    ensures cause { IfErr result (IsCause (IsLogFault ports log.now)) }
{
    let mut note = Vec::new(alloc);
    let mut last = None;
    let mut rest = log;
    'lines: while let Some((transfer, behind)) = next_transfer(rest, ports, last) {
        note.push(transfer).or(Err(LineRefusal::NoMemory))?;
        last = Some(transfer);
        rest = behind;
    }
    if rest.is_empty() {
        Ok(note)
    } else {
        Err(LineRefusal::Line {
            line: note.len() as u64 + 1,
        })
    }
}
