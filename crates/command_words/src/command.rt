use crate::audit_words::AuditWords;
use crate::record_words::RecordWords;
use crate::replay_names::ReplayNames;

/// What the words of a command line ask for.
#[derive(Clone, Copy)]
pub enum Command<'a> {
    Check(&'a str),
    Replay(ReplayNames<'a>),
    Record(RecordWords<'a>),
    Audit(AuditWords<'a>),
    /// No command has these words.
    Usage,
}
