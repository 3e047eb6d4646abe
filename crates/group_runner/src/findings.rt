ghost use Rattle.std.specs.Prelude.{◌≡◌, option_map, IfOk};
ghost use Rattle.basis.specs.Lists.{or_else};
ghost use Rattle.group_runner.specs.Findings.{lesser, both, reason_at, reason_of, reason_in};

use audit_meaning::reason::Reason;
use std::alloc::AllocError;
use trace_index::narrow;

/// What is wrong with a mark.
#[derive(Clone, Copy)]
pub(crate) enum MarkFault {
    /// It is that of a bad operation, which has this number.
    OtherOperation { rid: u32, operation: u32 },
    /// It isn't the same in all members of the group.
    Differs,
}

/// A mark that is at fault, by its place in its member's run.
#[derive(Clone, Copy)]
pub(crate) struct FaultyMark {
    pub place: usize,
    pub fault: MarkFault,
}

/// What is wrong with the end of a member's run.
#[derive(Clone, Copy)]
pub(crate) enum EndFault {
    FewerOperations { rid: u32, operation: u32 },
    OtherResponse { rid: u32 },
}

/// What is wrong with some members of a group: the least bad mark, the least that differs from the
/// first member's, the first member with too few operations, and the first with another response.
#[derive(Clone, Copy)]
pub(crate) struct Findings {
    pub bad: Option<FaultyMark>,
    pub differing: Option<FaultyMark>,
    pub fewer: Option<EndFault>,
    pub unlike: Option<EndFault>,
}

/// The one at the lesser place; of two at one place the first.
fn lesser(left: Option<FaultyMark>, right: Option<FaultyMark>) -> Option<FaultyMark>
    ensures { result ≡ lesser left right }
{
    match (left, right) {
        (Some(first), Some(second)) => {
            if first.place <= second.place {
                left
            } else {
                right
            }
        }
        (Some(_), None) => left,
        (None, _) => right,
    }
}

impl FaultyMark {
    fn reason(self, group: u32) -> Result<Reason, AllocError>
        ensures { IfOk result (λ reason. reason ≡ reason_at group self) }
    {
        match self.fault {
            MarkFault::OtherOperation { rid, operation } => {
                Ok(Reason::OtherOperation { rid, operation })
            }
            MarkFault::Differs => Ok(Reason::MarksDiffer {
                group,
                mark: narrow(self.place)?,
            }),
        }
    }
}

impl EndFault {
    fn reason(self) -> Reason
        ensures { result ≡ reason_of self }
    {
        match self {
            EndFault::FewerOperations { rid, operation } => {
                Reason::FewerOperations { rid, operation }
            }
            EndFault::OtherResponse { rid } => Reason::OtherResponse { rid },
        }
    }
}

impl Findings {
    /// These, and those of later members.
    pub(crate) fn and(self, later: Findings) -> Findings
        ensures { result ≡ both self later }
    {
        Findings {
            bad: lesser(self.bad, later.bad),
            differing: lesser(self.differing, later.differing),
            fewer: self.fewer.or(later.fewer),
            unlike: self.unlike.or(later.unlike),
        }
    }

    /// The first that is wrong with a group, by these findings of all its members.
    pub(crate) fn reason(self, group: u32) -> Result<Option<Reason>, AllocError>
        ensures { IfOk result (λ reason. reason ≡ reason_in group self) }
    {
        if let Some(mark) = lesser(self.bad, self.differing) {
            return Ok(Some(mark.reason(group)?));
        }
        match self.fewer.or(self.unlike) {
            Some(end) => Ok(Some(end.reason())),
            None => Ok(None),
        }
    }
}
