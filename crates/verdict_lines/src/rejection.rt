ghost use Rattle.std.specs.Prelude.{◌≡◌, IfOk};
ghost use Rattle.verdict_lines.specs.Rejections.{reason_number, reason_text, rejection_line};

use crate::fields::{cycle_text, entry_text, object_text};
use audit_meaning::reason::Reason;
use std::alloc::{AllocError, Global};

/// The line that tells why a report is rejected.
pub fn rejection_line(alloc: Global, reason: &Reason) -> Result<Vec<u8>, AllocError>
    ensures { IfOk result (λ line. line.items ≡ rejection_line reason.now) }
{
    let number = reason_number(reason);
    let mut line = format!(in alloc; "rejected {number}: ")?.into_bytes();
    line.extend_from_slice(reason_text(alloc, reason)?.as_slice())?;
    line.push(b'\n')?;
    Ok(line)
}

/// The number by which a reason is told.
fn reason_number(reason: &Reason) -> u8
    ensures { result ≡ reason_number reason.now }
{
    match reason {
        Reason::Unreadable { .. } => 1,
        Reason::SecondLog { .. } => 2,
        Reason::SecondCount { .. } => 3,
        Reason::CountOfNoRequest { .. } => 4,
        Reason::RequestWithoutCount { .. } => 5,
        Reason::ForeignEntry { .. } => 6,
        Reason::EntryOfNoRequest { .. } => 7,
        Reason::UncountedEntry { .. } => 8,
        Reason::SecondEntry { .. } => 9,
        Reason::OperationWithoutEntry { .. } => 10,
        Reason::EntryOutOfOrder { .. } => 11,
        Reason::ImplausibleEntry { .. } => 12,
        Reason::Cycle(_) => 13,
        Reason::MemberOfNoRequest { .. } => 14,
        Reason::SecondMember { .. } => 15,
        Reason::RequestWithoutGroup { .. } => 16,
        Reason::MarksDiffer { .. } => 17,
        Reason::OtherOperation { .. } => 18,
        Reason::FewerOperations { .. } => 19,
        Reason::OtherResponse { .. } => 20,
    }
}

/// The place that is at fault.
fn reason_text(alloc: Global, reason: &Reason) -> Result<Vec<u8>, AllocError>
    ensures { IfOk result (λ text. text.items ≡ reason_text reason.now) }
{
    match reason {
        Reason::Unreadable { at } => Ok(format!(in alloc; "unreadable at {at}")?.into_bytes()),
        Reason::SecondLog { object } => object_text(alloc, object),
        Reason::SecondCount { rid }
        | Reason::CountOfNoRequest { rid }
        | Reason::RequestWithoutCount { rid }
        | Reason::MemberOfNoRequest { rid }
        | Reason::SecondMember { rid }
        | Reason::RequestWithoutGroup { rid }
        | Reason::OtherResponse { rid } => Ok(format!(in alloc; "request {rid}")?.into_bytes()),
        Reason::ForeignEntry { object, position }
        | Reason::EntryOfNoRequest { object, position }
        | Reason::UncountedEntry { object, position }
        | Reason::SecondEntry { object, position }
        | Reason::EntryOutOfOrder { object, position }
        | Reason::ImplausibleEntry { object, position } => entry_text(alloc, object, *position),
        Reason::OperationWithoutEntry { rid, operation }
        | Reason::OtherOperation { rid, operation }
        | Reason::FewerOperations { rid, operation } => {
            Ok(format!(in alloc; "request {rid} operation {operation}")?.into_bytes())
        }
        Reason::Cycle(nodes) => cycle_text(alloc, nodes.as_slice()),
        Reason::MarksDiffer { group, mark } => {
            Ok(format!(in alloc; "group {group} mark {mark}")?.into_bytes())
        }
    }
}
