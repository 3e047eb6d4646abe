ghost use Rattle.std.specs.Prelude.{◌≡◌, IfOk};
ghost use Rattle.period.specs.declared.report.Report.{Report as AnyReport};
ghost use Rattle.audit_meaning.specs.GroupFaults.{members, member_of_no_request, second_member, request_without_group, grouping_fault};
ghost use Rattle.log_checker.specs.Faults.{IsFaultOr, IsFaultIfAny};
ghost use Rattle.log_checker.specs.Grouping.{AreMembers};

use audit_meaning::reason::Reason;
use basis::OrMemory;
use period::report::Report;
use std::alloc::{AllocError, Global};
use std::collections::BTreeSet;
use trace_format::trace_file::EventHead;
use trace_index::IndexedTrace;

/// The members of all groups, in their order.
fn members_of(alloc: Global, report: &Report) -> Result<Vec<u32>, AllocError>
    ensures { IfOk result (λ rids. rids.items ≡ members report.now) }
{
    let mut rids = Vec::new(alloc);
    for group in report.groups.as_slice() {
        rids.extend_from_slice(group.rids())?;
    }
    Ok(rids)
}

/// Each member is a request.
fn check_members(trace: &IndexedTrace<'_>, rids: &[u32]) -> Result<(), OrMemory<Reason>>
    ensures { (report : AnyReport) → rids.now ≡ members report
        → IsFaultIfAny (member_of_no_request trace.now report) result }
{
    for member in rids {
        let rid = *member;
        if trace.place(rid).is_none() {
            return Err(OrMemory::Other(Reason::MemberOfNoRequest { rid }));
        }
    }
    Ok(())
}

/// The members as a set; none of them stands twice.
fn members_once(alloc: Global, rids: &[u32]) -> Result<BTreeSet<u32>, OrMemory<Reason>>
    ensures { (report : AnyReport) → rids.now ≡ members report
        → IsFaultOr (second_member report) (AreMembers (members report)) result }
{
    let mut seen = BTreeSet::new(alloc);
    for member in rids {
        let rid = *member;
        if !seen.insert(rid)? {
            return Err(OrMemory::Other(Reason::SecondMember { rid }));
        }
    }
    Ok(seen)
}

/// Each request is a member.
fn check_grouped(trace: &IndexedTrace<'_>, grouped: &BTreeSet<u32>) -> Result<(), OrMemory<Reason>>
    ensures { (report : AnyReport) → AreMembers (members report) grouped.now
        → IsFaultIfAny (request_without_group trace.now report) result }
{
    for place in 0..trace.len() {
        if let EventHead::Asks(rid) = trace.head(place) {
            if !grouped.contains(&rid) {
                return Err(OrMemory::Other(Reason::RequestWithoutGroup { rid }));
            }
        }
    }
    Ok(())
}

/// The first that is wrong with the grouping of a report.
pub fn check_groups(
    alloc: Global,
    trace: &IndexedTrace<'_>,
    report: &Report,
) -> Result<(), OrMemory<Reason>>
    ensures { IsFaultIfAny (grouping_fault trace.now report.now) result }
{
    let rids = members_of(alloc, report)?;
    check_members(trace, &rids)?;
    let grouped = members_once(alloc, &rids)?;
    check_grouped(trace, &grouped)
}
