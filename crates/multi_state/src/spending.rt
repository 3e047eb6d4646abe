ghost use Rattle.std.specs.Prelude.{◌≡◌, ◌+◌, true, IfOk, OnOk};
ghost use Rattle.basis.specs.UnlessMemory.{Answers};
ghost use Rattle.script_meaning.specs.Kinds.{bool_in};
ghost use Rattle.multivalue.specs.Many.{member_value};
ghost use Rattle.multi_state.specs.AllDo.{AllDecide, NodesDo, ValuesDo};
ghost use Rattle.multi_state.specs.Spending.{AllPrint, AllSet, HaveStatuses, IsStart, NotesAll, NotesIssued, Spends};

use crate::account::{Account, BareMark};
use crate::given::Given;
use basis::OrMemory;
use multi_bodies::Bodies;
use multi_nodes::{Evaluations, Group, Together, evaluate_members, is_shared};
use multivalue::{Apart, Multi};
use script_meaning::status::USUAL_STATUS;
use script_nodes::primitive::Primitive;
use script_tree::fault::ScriptFault;
use script_tree::limits::{MOST_OPERATIONS, MOST_STEPS};
use script_tree::value::Value;
use script_values::{Faulted, bool_in, status_in};
use std::alloc::{AllocError, Global};
use std::sync::ledger::Ledger;

impl Account {
    /// Of so many members, who did nothing so far.
    pub fn new(alloc: Global, members: usize) -> Result<Account, AllocError>
        ensures { IfOk result IsStart }
    {
        Ok(Account {
            steps: 0,
            operations: 0,
            trail: Vec::new(alloc),
            status: Multi::all(Value::number(USUAL_STATUS as i64)),
            bodies: Bodies::new(alloc, members)?,
        })
    }

    /// Spends a step of each member, where any is left.
    fn charge(&mut self) -> bool
        ensures { Spends self.old self.new result }
    {
        if self.steps == MOST_STEPS {
            return false;
        }
        self.steps += 1;
        true
    }

    /// A node of each member: its step is spent, and then it has its value, or its operation is
    /// wanted, or it fails.
    pub fn node<L: Ledger>(
        &mut self,
        alloc: Global,
        primitive: Primitive,
        operands: &[Multi],
        group: &Group,
        evaluations: &mut Evaluations<L>,
    ) -> Result<Given, Apart>
        ensures does { NodesDo evaluations.old evaluations.new group.now primitive.entry
            operands.now self.old result self.new }
        ensures charges { OnOk result (self.new.steps ≡ self.old.steps + 1) }
    {
        if !self.charge() {
            return Err(Apart::Fault(ScriptFault::OutOfSteps));
        }
        let may_issue = self.operations < MOST_OPERATIONS;
        match evaluate_members(alloc, primitive, operands, group, may_issue, evaluations) {
            Ok(Together::Values(values)) => Ok(Given::Values(values)),
            Ok(Together::Operations(ops)) => {
                self.operations += 1;
                Ok(Given::Wants(ops))
            }
            Ok(Together::TooMany) => Err(Apart::Fault(ScriptFault::TooManyOperations)),
            Err(apart) => Err(apart),
        }
    }

    /// A node of each member that is no operation.
    pub fn value<L: Ledger>(
        &mut self,
        alloc: Global,
        primitive: Primitive,
        operands: &[Multi],
        group: &Group,
        evaluations: &mut Evaluations<L>,
    ) -> Result<Multi, Apart>
        ensures does { ValuesDo evaluations.old evaluations.new group.now primitive.entry
            operands.now self.old result self.new }
        ensures charges { OnOk result (self.new.steps ≡ self.old.steps + 1) }
    {
        match self.node(alloc, primitive, operands, group, evaluations) {
            Ok(Given::Values(values)) => Ok(values),
            // No caller comes here.
            Ok(Given::Wants(_ops)) => Err(Apart::Memory),
            Err(apart) => Err(apart),
        }
    }

    /// Decides by the value of a node of each member.
    pub fn decide<L: Ledger>(
        &mut self,
        alloc: Global,
        primitive: Primitive,
        operands: &[Multi],
        group: &Group,
        evaluations: &mut Evaluations<L>,
    ) -> Result<bool, Apart>
        ensures decides { AllDecide evaluations.old evaluations.new group.now primitive.entry
            operands.now self.old result self.new }
        ensures charges { OnOk result (self.new.steps ≡ self.old.steps + 1) }
    {
        match self.value(alloc, primitive, operands, group, evaluations) {
            Ok(decided) => self.note(&decided, group.requests().len()),
            Err(apart) => Err(apart),
        }
    }

    /// Leaves the mark of a decision, where all of so many members decided so.
    fn note(&mut self, decided: &Multi, members: usize) -> Result<bool, Apart>
        ensures notes { NotesAll members decided.now self.old result self.new }
        ensures steps { self.new.steps ≡ self.old.steps }
    {
        if !is_shared(decided, members) {
            return Err(Apart::Differ);
        }
        match first_truth(decided) {
            Err(OrMemory::Memory) => Err(Apart::Memory),
            Err(OrMemory::Other(fault)) => Err(Apart::Fault(fault)),
            Ok(holds) => {
                self.trail.push(BareMark::Decided(holds))?;
                Ok(holds)
            }
        }
    }

    /// Leaves the mark of an operation that was answered.
    pub fn note_operation(&mut self) -> Result<(), AllocError>
        ensures notes { OnOk result (NotesIssued self.old self.new) }
        ensures steps { self.new.steps ≡ self.old.steps }
    {
        self.trail.push(BareMark::Issued)?;
        Ok(())
    }

    /// Each of so many members prints a text.
    pub fn print(&mut self, alloc: Global, texts: Multi, members: usize) -> Result<(), Apart>
        ensures prints { AllPrint members texts self.old result self.new }
        ensures steps { self.new.steps ≡ self.old.steps }
    {
        self.bodies.print(alloc, texts, members)
    }

    /// Sets the status of each of so many members.
    pub fn set_status(&mut self, statuses: Multi, members: usize) -> Result<(), Apart>
        ensures sets { AllSet members statuses self.old result self.new }
        ensures steps { self.new.steps ≡ self.old.steps }
    {
        if !are_statuses(&statuses, members) {
            // No caller comes here.
            return Err(Apart::Memory);
        }
        self.status = statuses;
        Ok(())
    }
}

/// The truth that the first member has here.
fn first_truth(values: &Multi) -> Result<bool, Faulted>
    ensures { Answers (λ b. b) (bool_in (member_value values.now 0)) result }
{
    match values.get(0) {
        Some(value) => bool_in(value),
        None => bool_in(&Value::null()),
    }
}

/// Whether so many members have a status here.
fn are_statuses(statuses: &Multi, members: usize) -> bool
    ensures { result ≡ true → HaveStatuses members statuses.now }
{
    for member in 0..members {
        match statuses.get(member) {
            None => return false,
            Some(value) => {
                if status_in(value).is_err() {
                    return false;
                }
            }
        }
    }
    true
}
