ghost use Rattle.std.specs.Prelude.{◌≡◌, IfOk};
ghost use Rattle.basis.specs.UnlessMemory.{UnlessMemory};
ghost use Rattle.period.specs.Traces.{IsBalanced};
ghost use Rattle.report_format.specs.Limits.{HasValuesWithinLimits};
ghost use Rattle.object_set.specs.ObjectSets.{IsSetOf, objects_of};
ghost use Rattle.versioned_store.specs.Logged.{FitLogs};
ghost use Rattle.audit_meaning.specs.Groups.{unsound_group};
ghost use Rattle.audit_meaning.specs.Verdicts.{verdict as verdict_on};
ghost use Rattle.log_checker.specs.Faults.{IsFaultOr};
ghost use Rattle.log_checker.specs.OpMaps.{IsMapOf};
ghost use Rattle.auditor.specs.Audited.{IsCounted, IsSpent};

use audit_meaning::reason::Reason;
use audit_meaning::verdict::Verdict;
use audit_order::{Ordered, order_events, schedule_of};
use basis::OrMemory;
use group_lockstep::run_groups;
use group_runner::Evidence;
use log_checker::{OpMap, check_groups, check_logs};
use multi_nodes::Evaluations;
use object_set::ObjectSet;
use outside::gate::Gate;
use period::report::Report;
use script_check::program::Program;
use script_code::translate::translate;
use script_fit::law::fitting_is_tested;
use std::alloc::Global;
use std::sync::ledger::Ledger;
use trace_index::IndexedTrace;

/// The verdict where nothing is wrong, else the first reason.
pub(crate) fn judge<L: Ledger, G: Gate + Sync>(
    alloc: Global,
    program: &Program,
    start: &ObjectSet,
    trace: &IndexedTrace<'_>,
    report: &Report,
    gate: &G,
    evaluations: &mut Evaluations<L>,
) -> Result<Verdict, OrMemory<Reason>>
    requires balanced { IsBalanced trace.now }
    requires set { IsSetOf program.now start.now }
    requires limits { HasValuesWithinLimits report.now }
    ensures verdict { let here = verdict_on program.now (objects_of start.now) trace.now report.now
        in UnlessMemory (λ verdict. verdict ≡ here)
        (λ reason. here ≡ Verdict.Rejected reason) result }
    ensures counted { IfOk result (IsCounted evaluations.old evaluations.new) }
{
    let begun = evaluations.count();
    fitting_is_tested();
    let map = check_logs(alloc, start, trace, report)?;
    let nodes = match order_events(alloc, trace, report, &map)? {
        Ordered::Order(nodes) => nodes,
        Ordered::Cycle(nodes) => return Err(OrMemory::Other(Reason::Cycle(nodes))),
    };
    check_groups(alloc, trace, report)?;
    let plain = run_members(
        alloc,
        program,
        start,
        trace,
        report,
        &map,
        gate,
        evaluations,
    )?;
    let evaluated = evaluations.count() - begun;
    let schedule = schedule_of(alloc, report, &map, nodes.as_slice())?;
    Ok(Verdict::Accepted {
        schedule,
        evaluated,
        plain,
    })
}

/// What is wrong with the first group that isn't sound, else the steps that all members spend.
fn run_members<L: Ledger, G: Gate + Sync>(
    alloc: Global,
    program: &Program,
    start: &ObjectSet,
    trace: &IndexedTrace<'_>,
    report: &Report,
    map: &OpMap,
    gate: &G,
    evaluations: &mut Evaluations<L>,
) -> Result<u64, OrMemory<Reason>>
    requires mapped { IsMapOf report.now map.now }
    requires fit { FitLogs start.now report.now.logs }
    ensures { let objects = objects_of start.now in
        IsFaultOr (unsound_group program.now objects trace.now report.now)
        (IsSpent program.now objects trace.now report.now evaluations.old evaluations.new)
        result }
{
    let code = translate(alloc, program)?;
    let evidence = Evidence::gather(alloc, trace, start, report, map)?;
    run_groups(alloc, &code, &evidence, gate, evaluations)
}
