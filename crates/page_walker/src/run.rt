ghost use Rattle.std.specs.Prelude.{◌≡◌, IfOk, List};
ghost use Rattle.basis.specs.UnlessMemory.{Answers};
ghost use Rattle.script_tree.specs.Datum.{Datum, bool};
ghost use Rattle.script_tree.specs.Requests.{Request};
ghost use Rattle.script_meaning.specs.BuiltinCalls.{Call};
ghost use Rattle.script_meaning.specs.Conduct.{decisions, path_of, response_of, start};
ghost use Rattle.script_meaning.specs.Evaluate.{print_value, seen, node, call_node};
ghost use Rattle.script_meaning.specs.Evaluate.{issue_unless_fault};
ghost use Rattle.script_meaning.specs.Operands.{OpAnswer};
ghost use Rattle.script_meaning.specs.Operators.{Answer};
ghost use Rattle.script_meaning.specs.Run.{Cost, charge, count_operation, issue, take_answer};
ghost use Rattle.script_meaning.specs.Run.{Progress, decide, decide_by, note};
ghost use Rattle.page_walker.specs.Gives.{Gives, GivesValue, admitted, stopped_by};
ghost use Rattle.script_values.specs.CallsMade.{made};
ghost use Rattle.script_values.specs.Outputs.{set_status_in};

use basis::OrMemory;
use script_meaning::run::{Mark, Stop};
use script_tree::fault::ScriptFault;
use script_tree::limits::{MOST_OPERATIONS, MOST_STEPS};
use script_tree::operation::Op;
use script_tree::path::{Decisions, End, Path};
use script_tree::request::Response;
use script_tree::value::Value;
use script_values::{Called, Faulted, Output, bool_in};
use std::alloc::{AllocError, AllocFailed, Global};
use std::marker::Model;

/// Why a part of a run gave no value.
#[derive(Drop)]
pub enum Stopped {
    Memory,
    Stop(Stop),
}

impl Stopped {
    pub fn fault(fault: ScriptFault) -> Stopped
        ensures { result ≡ Stopped.Stop (Stop.Fault fault) }
    {
        Stopped::Stop(Stop::Fault(fault))
    }
}

impl From<AllocError> for Stopped {
    ghost use Rattle.page_walker.specs.declared.run.Stopped.TheVariants.{Memory};

    ghost from_gives = { λ _ e. e ≡ Memory };

    fn from(_error: AllocError) -> Stopped {
        Stopped::Memory
    }
}

impl<T: Drop> From<AllocFailed<T>> for Stopped {
    ghost use Rattle.page_walker.specs.declared.run.Stopped.TheVariants.{Memory};

    ghost from_gives = { λ _ e. e ≡ Memory };

    fn from(_error: AllocFailed<T>) -> Stopped {
        Stopped::Memory
    }
}

impl From<OrMemory<ScriptFault>> for Stopped {
    ghost from_gives = { λ error e. e ≡ stopped_by error };

    fn from(error: OrMemory<ScriptFault>) -> Stopped {
        match error {
            OrMemory::Memory => Stopped::Memory,
            OrMemory::Other(fault) => Stopped::Stop(Stop::Fault(fault)),
        }
    }
}

/// What a run spent and did so far.
#[derive(Drop)]
pub struct Run<'a> {
    steps: u32,
    operations: u32,
    trail: Vec<Mark>,
    /// Those that are left.
    answers: &'a [Value],
    output: Output,
}

impl<'a> Model for Run<'a> {
    ghost use Rattle.script_meaning.specs.Run.{Progress};
    ghost use Rattle.script_meaning.specs.RunCodes.{coded_progress};

    ghost Value = { Progress };

    ghost coded = { coded_progress };

    ghost use Rattle.page_walker.specs.RunView.{progress_of, IsWithinBounds};

    ghost view = { progress_of };

    ghost invariant = { IsWithinBounds };
}

impl<'a> Run<'a> {
    pub fn new(alloc: Global, answers: &'a [Value]) -> Run<'a>
        ensures { result ≡ start answers.now }
    {
        Run {
            steps: 0,
            operations: 0,
            trail: Vec::new(alloc),
            answers,
            output: Output::new(alloc),
        }
    }

    /// Spends a step, where any is left.
    pub fn charge(&mut self) -> Result<(), Stopped>
        ensures { (cost : Cost) → Gives (λ _. tt) result self.new (charge cost self.old) }
    {
        if self.steps == MOST_STEPS {
            return Err(Stopped::fault(ScriptFault::OutOfSteps));
        }
        self.steps += 1;
        Ok(())
    }

    /// Spends a step on a value.
    pub fn seen(&mut self, value: Value) -> Result<Value, Stopped>
        ensures { (ds : List Datum) → GivesValue result self.new (node ds (Ok value) self.old) }
    {
        self.charge()?;
        Ok(value)
    }

    /// Spends a step, and then has the value that was computed.
    pub fn node(&mut self, computed: Result<Value, Faulted>) -> Result<Value, Stopped>
        ensures { (ds : List Datum) (a : Answer) → Answers (λ v. v) a computed
            → GivesValue result self.new (node ds a self.old) }
    {
        self.charge()?;
        Ok(computed?)
    }

    /// Spends a step, and then has the value of a call, or issues its operation.
    pub fn called(&mut self, called: Result<Called, Faulted>) -> Result<Value, Stopped>
        ensures { (q : Request) (ds : List Datum) (c : Call) → Answers (λ x. x) (made c) called
            → GivesValue result self.new (call_node q ds c self.old) }
    {
        self.charge()?;
        match called? {
            Called::Value(value) => Ok(value),
            Called::Operation(op) => self.issue(op),
        }
    }

    /// Issues an operation, unless its values are at fault.
    pub fn issue_unless_fault(&mut self, op: Result<Op, Faulted>) -> Result<Value, Stopped>
        ensures { (a : OpAnswer) → Answers (λ op. op) a op
            → GivesValue result self.new (issue_unless_fault a self.old) }
    {
        self.issue(op?)
    }

    /// Issues an operation, and takes its answer.
    pub fn issue(&mut self, op: Op) -> Result<Value, Stopped>
        ensures { GivesValue result self.new (issue op self.old) }
    {
        self.count_operation()?;
        self.take_answer(op)
    }

    fn count_operation(&mut self) -> Result<(), Stopped>
        ensures { Gives (λ _. tt) result self.new (count_operation self.old) }
    {
        if self.operations == MOST_OPERATIONS {
            return Err(Stopped::fault(ScriptFault::TooManyOperations));
        }
        self.operations += 1;
        Ok(())
    }

    fn take_answer(&mut self, op: Op) -> Result<Value, Stopped>
        ensures { GivesValue result self.new (take_answer op self.old) }
    {
        match self.answers.split_first() {
            None => Err(Stopped::Stop(Stop::Wants(op))),
            Some((answer, rest)) => {
                self.trail.push(Mark::Issued(op))?;
                self.answers = rest;
                admitted(answer)
            }
        }
    }

    /// Decides by a value.
    pub fn decide(&mut self, value: &Value) -> Result<bool, Stopped>
        ensures { Gives (λ b. b) result self.new (decide value.now self.old) }
    {
        self.charge()?;
        let holds = bool_in(value)?;
        self.note(holds)?;
        Ok(holds)
    }

    /// Decides so, by any operand.
    pub fn decide_so(&mut self, holds: bool) -> Result<(), Stopped>
        ensures { (operand : Datum)
            → Gives (λ _. holds) result self.new (decide_by operand (bool holds) self.old) }
    {
        self.charge()?;
        self.note(holds)
    }

    fn note(&mut self, holds: bool) -> Result<(), Stopped>
        ensures { Gives (λ _. tt) result self.new (note (Mark.Decided holds) self.old) }
    {
        self.trail.push(Mark::Decided(holds))?;
        Ok(())
    }

    /// Adds the text of a value to the body.
    pub fn print_value(&mut self, alloc: Global, value: &Value) -> Result<(), Stopped>
        ensures { Gives (λ _. tt) result self.new (print_value value.now self.old) }
    {
        self.output.print_value(alloc, value)?;
        Ok(())
    }

    /// Sets the status that a value is.
    pub fn set_status(&mut self, value: &Value) -> Result<(), Stopped>
        ensures { Gives (λ _. tt) result self.new (set_status_in value.now self.old) }
    {
        self.output.set_status(value)?;
        Ok(())
    }

    /// The path of the run, which ended so on this page.
    pub fn path(&self, alloc: Global, page: u32, end: End) -> Result<Path, AllocError>
        ensures { IfOk result (λ path. path ≡ path_of page self.now end) }
    {
        Ok(Path {
            page: Some(page),
            decisions: decisions_of(alloc, self.trail.as_slice())?,
            steps: self.steps,
            end,
        })
    }

    /// The response of a run that met no fault.
    pub fn into_response(self) -> Response
        ensures { result ≡ response_of self.entry }
    {
        let Run { output, .. } = self;
        output.into_response()
    }
}

/// An answer, if it is within the limits of a value.
fn admitted(answer: &Value) -> Result<Value, Stopped>
    ensures { (p : Progress) → GivesValue result p (admitted answer.now p) }
{
    if answer.is_within_limits() {
        Ok(answer.clone()?)
    } else {
        Err(Stopped::Stop(Stop::AnswerFault))
    }
}

/// The decisions among the marks of a trail.
fn decisions_of(alloc: Global, trail: &[Mark]) -> Result<Decisions, AllocError>
    ensures { IfOk result (λ made. made ≡ decisions trail.now) }
{
    let mut made = Decisions::new(alloc);
    for mark in trail {
        if let Mark::Decided(holds) = mark {
            made.push(*holds)?;
        }
    }
    Ok(made)
}
