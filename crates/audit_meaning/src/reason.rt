use crate::node::Nodes;
use script_tree::operation::Object;

/// Why a report is rejected, with the place that is at fault. An entry is told by its place in its
/// object's log, a mark by its place in its member's run, a group by its place among the groups, all
/// from 0; an operation by its number in its request, from 1.
#[derive(Drop)]
pub enum Reason {
    /// It isn't in its grammar; the offset of its first bad record.
    Unreadable { at: u64 },
    /// The object has an earlier log.
    SecondLog { object: Object },
    /// The request has an earlier count.
    SecondCount { rid: u32 },
    /// A count is of a request that isn't in the trace.
    CountOfNoRequest { rid: u32 },
    /// A request of the trace has no count.
    RequestWithoutCount { rid: u32 },
    /// The program doesn't issue such operations, or the choice isn't of the kind that they take.
    ForeignEntry { object: Object, position: u32 },
    /// The entry's request isn't in the trace.
    EntryOfNoRequest { object: Object, position: u32 },
    /// The entry's number is 0, or above what its request counts.
    UncountedEntry { object: Object, position: u32 },
    /// The same operation has an entry earlier in the report.
    SecondEntry { object: Object, position: u32 },
    /// An operation that is counted has no entry.
    OperationWithoutEntry { rid: u32, operation: u32 },
    /// The entry just before it is of the same request, and its number isn't below.
    EntryOutOfOrder { object: Object, position: u32 },
    /// The object doesn't take the choice, as the entries before it leave it.
    ImplausibleEntry { object: Object, position: u32 },
    /// Each of these events is to come before the next one, and the last before the first.
    Cycle(Nodes),
    /// A member of a group isn't in the trace.
    MemberOfNoRequest { rid: u32 },
    /// The request is a member for the second time, of one group or of two.
    SecondMember { rid: u32 },
    /// A request of the trace is in no group.
    RequestWithoutGroup { rid: u32 },
    /// The marks of the group's members differ.
    MarksDiffer { group: u32, mark: u32 },
    /// The request wants another operation than the entry's, or one more than it has entries.
    OtherOperation { rid: u32, operation: u32 },
    /// The request issues fewer operations than it counts; the first that is left.
    FewerOperations { rid: u32, operation: u32 },
    /// The request's response isn't the trace's.
    OtherResponse { rid: u32 },
}
