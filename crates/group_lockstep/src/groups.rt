ghost use Rattle.std.specs.Prelude.{◌≡◌, length};
ghost use Rattle.script_tree.specs.Programs.{Program as AnyProgram};
ghost use Rattle.script_code.specs.Translated.{IsCodeOf};
ghost use Rattle.log_checker.specs.Faults.{IsFaultOr};
ghost use Rattle.period.specs.Groups.{IsSome};
ghost use Rattle.group_runner.specs.Told.{fault_of, unsound_in};
ghost use Rattle.group_lockstep.specs.Costs.{IsSpentBy, IsSpentInAll};

use crate::lockstep::Lockstep;
use audit_meaning::reason::Reason;
use basis::OrMemory;
use group_laws::law::one_member_costs_its_steps;
use group_runner::{Evidence, run_one_by_one, together};
use multi_nodes::Evaluations;
use outside::gate::Gate;
use script_code::translate::Code;
use std::alloc::Global;
use std::sync::ledger::Ledger;
use trace_index::narrow;

/// Runs a group of this number: the first that is wrong with it, else the steps that its members
/// spend.
fn run_group<L: Ledger>(
    alloc: Global,
    code: &Code,
    evidence: &Evidence<'_>,
    number: u32,
    rids: &[u32],
    evaluations: &mut Evaluations<L>,
) -> Result<u64, OrMemory<Reason>>
    requires { IsSome rids.now }
    ensures { (program : AnyProgram) → IsCodeOf program code.now
        → IsFaultOr (fault_of program evidence.now number rids.now)
        (IsSpentBy program evidence.now rids.now evaluations.old evaluations.new) result }
{
    if rids.len() == 1 {
        return run_alone(alloc, code, evidence, number, rids, evaluations);
    }
    let lockstep = Lockstep {
        alloc,
        code,
        evidence,
        rids,
    };
    match lockstep.spent(evaluations)? {
        Some(steps) => Ok(steps),
        // Something is wrong with the group: the plain form tells what.
        None => run_one_by_one(alloc, code, evidence, number, rids, evaluations),
    }
}

/// The same of a group of one member, of which nothing can be shared: as many nodes are evaluated as
/// steps are spent.
fn run_alone<L: Ledger>(
    alloc: Global,
    code: &Code,
    evidence: &Evidence<'_>,
    number: u32,
    rids: &[u32],
    evaluations: &mut Evaluations<L>,
) -> Result<u64, OrMemory<Reason>>
    requires { length rids.now ≡ 1 }
    ensures { (program : AnyProgram) → IsCodeOf program code.now
        → IsFaultOr (fault_of program evidence.now number rids.now)
        (IsSpentBy program evidence.now rids.now evaluations.old evaluations.new) result }
{
    one_member_costs_its_steps();
    run_one_by_one(alloc, code, evidence, number, rids, evaluations)
}

/// Runs each group, in their order: the first that is wrong with the first group that isn't sound,
/// else the steps that all members spend. A gate is passed at the start of each group.
pub fn run_groups<L: Ledger, G: Gate + Sync>(
    alloc: Global,
    code: &Code,
    evidence: &Evidence<'_>,
    gate: &G,
    evaluations: &mut Evaluations<L>,
) -> Result<u64, OrMemory<Reason>>
    ensures { (program : AnyProgram) → IsCodeOf program code.now
        → IsFaultOr (unsound_in program evidence.now)
        (IsSpentInAll program evidence.now evaluations.old evaluations.new) result }
{
    let mut steps = 0u64;
    for (number, group) in evidence.groups().iter().enumerate() {
        gate.pass(number as u64, 1);
        let rids = group.rids();
        let more = run_group(alloc, code, evidence, narrow(number)?, rids, evaluations)?;
        steps = together(steps, more)?;
    }
    Ok(steps)
}
