ghost use Rattle.std.specs.Prelude.{◌≡◌, ◌+◌, IfOk};
ghost use Rattle.script_tree.specs.Programs.{Program as AnyProgram};
ghost use Rattle.script_code.specs.Translated.{IsCodeOf};
ghost use Rattle.log_checker.specs.Faults.{IsFaultOr};
ghost use Rattle.period.specs.Groups.{IsSome};
ghost use Rattle.group_runner.specs.MembersTold.{IsGroupRunOf, IsMemberOf};
ghost use Rattle.group_runner.specs.Told.{fault_of, steps_of};

use crate::evidence::Evidence;
use crate::findings::Findings;
use crate::member::Member;
use crate::runner::Runner;
use audit_meaning::reason::Reason;
use basis::OrMemory;
use multi_nodes::Evaluations;
use script_code::translate::Code;
use std::alloc::{AllocError, Global};
use std::sync::ledger::Ledger;

/// The steps of several members. More than 64 bits hold are answered as want of memory.
pub fn together(steps: u64, more: u64) -> Result<u64, AllocError>
    ensures { IfOk result (λ sum. sum ≡ steps + more) }
{
    steps.checked_add(more).ok_or(AllocError)
}

/// What the members of a group leave together.
#[derive(Clone, Copy)]
pub(crate) struct GroupRun {
    pub findings: Findings,
    pub steps: u64,
}

/// Runs the first member of a group and the others, one after the other.
fn run_members(runner: Runner<'_>, first_rid: u32, others: &[u32]) -> Result<GroupRun, AllocError>
    ensures { (program : AnyProgram) → IsCodeOf program runner.entry.code.now
        → IfOk result (IsGroupRunOf program runner.entry.evidence.now first_rid others.now) }
{
    let first = runner.member(first_rid)?;
    let run = run_beside(runner, &first, first_rid, others);
    drop(first);
    run
}

/// The same, where this is what the first member leaves.
fn run_beside(
    runner: Runner<'_>,
    first: &Member,
    first_rid: u32,
    others: &[u32],
) -> Result<GroupRun, AllocError>
    ensures { (program : AnyProgram) → IsCodeOf program runner.entry.code.now
        → IsMemberOf program runner.entry.evidence.now first_rid first.now
        → IfOk result (IsGroupRunOf program runner.entry.evidence.now first_rid others.now) }
{
    let evidence = runner.evidence;
    let mut findings = first.findings(first_rid, evidence.count(first_rid))?;
    let mut steps = u64::from(first.steps);
    for rid in others {
        let member = runner.member(*rid)?;
        let more = u64::from(member.steps);
        let beside = member.findings_beside(first, *rid, evidence.count(*rid));
        drop(member);
        findings = findings.and(beside?);
        steps = together(steps, more)?;
    }
    Ok(GroupRun { findings, steps })
}

/// Runs the members of a group of this number, one after the other: the first that is wrong with the
/// group, else the steps that its members spend. At each step a node is evaluated.
pub fn run_one_by_one<L: Ledger>(
    alloc: Global,
    code: &Code,
    evidence: &Evidence<'_>,
    number: u32,
    rids: &[u32],
    evaluations: &mut Evaluations<L>,
) -> Result<u64, OrMemory<Reason>>
    requires { IsSome rids.now }
    ensures told { (program : AnyProgram) → IsCodeOf program code.now
        → IsFaultOr (fault_of program evidence.now number rids.now)
        (λ steps. steps ≡ steps_of program evidence.now rids.now) result }
    ensures counts { IfOk result (λ steps. evaluations.new ≡ evaluations.old + steps) }
{
    let Some((first_rid, others)) = rids.split_first() else {
        unreachable!()
    };
    let runner = Runner {
        alloc,
        code,
        evidence,
    };
    let run = run_members(runner, *first_rid, others)?;
    match run.findings.reason(number)? {
        Some(reason) => Err(OrMemory::Other(reason)),
        None => {
            evaluations.add(run.steps)?;
            Ok(run.steps)
        }
    }
}
