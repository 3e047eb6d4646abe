ghost use Rattle.std.specs.Prelude.{◌≡◌, IfOk, Ok as Read};
ghost use Rattle.period.specs.Traces.{IsBalanced};
ghost use Rattle.report_format.specs.Limits.{HasValuesWithinLimits};
ghost use Rattle.object_set.specs.ObjectSets.{IsSetOf, objects_of};
ghost use Rattle.audit_meaning.specs.Verdicts.{verdict as verdict_on};
ghost use Rattle.auditor.specs.Audited.{audited, Accepts, IsCounted, IsSound};

use crate::judging::judge;
use audit_completeness::law::recorded_is_accepted;
use audit_meaning::law::accepted_explains;
use audit_meaning::reason::Reason;
use audit_meaning::verdict::Verdict;
use basis::OrMemory;
use multi_nodes::Evaluations;
use object_set::ObjectSet;
use outside::gate::Gate;
use period::report::Report;
use script_check::program::Program;
use std::alloc::{AllocError, Global};
use std::sync::ledger::Ledger;
use trace_format::trace_file::TraceFile;
use trace_index::IndexedTrace;

/// The verdict on the report of a trace, from the objects that the program started on. A gate is
/// passed at the start of each group. The members of a group are run at once, each node evaluated
/// once where they agree on it, and each evaluation is counted; one worker runs all groups today. The
/// values of the report are within the limits, as are those of each report that a file spells.
pub fn audit<L: Ledger, G: Gate + Sync>(
    alloc: Global,
    program: &Program,
    start: &ObjectSet,
    trace: &TraceFile,
    report: &Report,
    _workers: u32,
    gate: &G,
    evaluations: &mut Evaluations<L>,
) -> Result<Verdict, AllocError>
    requires balanced { IsBalanced trace.now }
    requires set { IsSetOf program.now start.now }
    requires limits { HasValuesWithinLimits report.now }
    ensures verdict { let objects = objects_of start.now in
        IfOk result (λ verdict. verdict
        ≡ audited program.now objects trace.now (Read report.now)) }
    ensures sound { IfOk result (IsSound program.now (objects_of start.now) trace.now) }
    ensures complete { let objects = objects_of start.now in
        IfOk result (Accepts program.now objects trace.now (Read report.now)) }
    ensures counted { IfOk result (IsCounted evaluations.old evaluations.new) }
{
    accepted_explains();
    recorded_is_accepted();
    let _valid = program.declarations();
    audit_report(alloc, program, start, trace, report, gate, evaluations)
}

/// The same, of which the laws tell what it means.
fn audit_report<L: Ledger, G: Gate + Sync>(
    alloc: Global,
    program: &Program,
    start: &ObjectSet,
    trace: &TraceFile,
    report: &Report,
    gate: &G,
    evaluations: &mut Evaluations<L>,
) -> Result<Verdict, AllocError>
    requires balanced { IsBalanced trace.now }
    requires set { IsSetOf program.now start.now }
    requires limits { HasValuesWithinLimits report.now }
    ensures verdict { let here = verdict_on program.now (objects_of start.now) trace.now report.now
        in IfOk result (λ verdict. verdict ≡ here) }
    ensures counted { IfOk result (IsCounted evaluations.old evaluations.new) }
{
    let trace = IndexedTrace::new(alloc, trace)?;
    match judge(alloc, program, start, &trace, report, gate, evaluations) {
        Ok(verdict) => Ok(verdict),
        Err(OrMemory::Memory) => Err(AllocError),
        Err(OrMemory::Other(reason)) => Ok(Verdict::Rejected(reason)),
    }
}
