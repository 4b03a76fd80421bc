//! What an audit says no to.
use cq_audit::AuditRefusal;

/// What an audit says no to: the first of these that applies.
#[derive(Clone, Copy, Debug, PartialEq, Eq)]
pub enum Denial {
    /// A6 of the trace: its file has more than 268,435,456 bytes.
    LongTrace,
    /// A6 of the log: its file has more than 268,435,456 bytes.
    LongLog,
    /// A1 to A4, numbered as `AuditRefusal` lists them and tried as it says: the log is refused for this. Want of
    /// memory is no denial.
    Log(AuditRefusal),
    /// A5: the trace differs from the ideal one in this line first.
    Trace {
        /// Which line it is, from 1.
        line: u64,
    },
}
