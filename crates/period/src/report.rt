//! What a server reports of a period: how many operations each request issued, a log of each
//! object, and which requests took the same path.

ghost use Rattle.std.specs.Prelude.{◌≡◌};

use crate::group::Groups;
use basis::Items;
use script_tree::operation::{Act, Choice, Object};

/// How many operations a request issued.
#[derive(Clone, Copy, PartialEq, Eq)]
pub struct Count {
    pub rid: u32,
    pub operations: u32,
}

pub type Counts = Items<Count>;

/// An operation of an object's log. Its request numbers its operations from 1.
#[derive(Drop)]
pub struct LogEntry {
    pub rid: u32,
    pub number: u32,
    pub act: Act,
    pub choice: Choice,
}

pub type LogEntries = Items<LogEntry>;

/// The operations on an object, in their order.
#[derive(Drop)]
pub struct Log {
    pub object: Object,
    pub entries: LogEntries,
}

pub type Logs = Items<Log>;

/// A report. Ids, objects and entries may stand in it twice, or name what isn't there.
#[derive(Drop)]
pub struct Report {
    pub counts: Counts,
    pub logs: Logs,
    pub groups: Groups,
}
