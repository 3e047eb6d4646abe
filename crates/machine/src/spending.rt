ghost use Rattle.std.specs.Prelude.{◌≡◌, ◌+◌, List, [], IfOk, OnOk};
ghost use Rattle.script_tree.specs.Datum.{Datum};
ghost use Rattle.script_meaning.specs.Conduct.{path_of, response_of, start};
ghost use Rattle.script_meaning.specs.Evaluate.{print_value};
ghost use Rattle.script_meaning.specs.Operations.{Op as Operation};
ghost use Rattle.script_meaning.specs.Run.{count_operation, decide, note, goes};
ghost use Rattle.script_meaning.specs.declared.run.Mark.TheVariants.{Decided as decided};
ghost use Rattle.script_values.specs.Outputs.{set_status_in};
ghost use Rattle.machine.specs.Gives.{Gives, IsNoted, progress_of, spend, decide_so};
ghost use Rattle.machine.specs.Decided.{decided_in};

use crate::account::{Account, BareMark};
use crate::stopped::Stopped;
use script_tree::fault::ScriptFault;
use script_tree::limits::{MOST_OPERATIONS, MOST_STEPS};
use script_tree::path::{Decisions, End, Path};
use script_tree::request::Response;
use script_tree::value::Value;
use script_values::{Output, bool_in};
use std::alloc::{AllocError, Global};
use std::mem;

impl Account {
    pub(crate) fn new(alloc: Global) -> Account
        ensures { (answers : List Datum) → progress_of result [] answers ≡ start answers }
    {
        Account {
            steps: 0,
            operations: 0,
            trail: Vec::new(alloc),
            output: Output::new(alloc),
        }
    }

    /// Spends a step, where any is left.
    pub(crate) fn charge(&mut self) -> Result<(), Stopped>
        ensures gives { (ops : List Operation) (more : List Datum) → Gives (λ _. tt) result
            (progress_of self.new ops more) (spend (progress_of self.old ops more)) }
        ensures steps { OnOk result (self.new.steps ≡ self.old.steps + 1) }
    {
        if self.steps == MOST_STEPS {
            return Err(Stopped::Fault(ScriptFault::OutOfSteps));
        }
        self.steps += 1;
        Ok(())
    }

    /// Counts an operation, where any may still be issued.
    pub(crate) fn count_operation(&mut self) -> Result<(), Stopped>
        ensures gives { (ops : List Operation) (more : List Datum) → Gives (λ _. tt) result
            (progress_of self.new ops more) (count_operation (progress_of self.old ops more)) }
    {
        if self.operations == MOST_OPERATIONS {
            return Err(Stopped::Fault(ScriptFault::TooManyOperations));
        }
        self.operations += 1;
        Ok(())
    }

    /// Decides by a value.
    pub(crate) fn decide(&mut self, value: &Value) -> Result<bool, Stopped>
        ensures gives { (ops : List Operation) (more : List Datum) → Gives (λ b. b) result
            (progress_of self.new ops more) (decide value.now (progress_of self.old ops more)) }
        ensures steps { OnOk result (self.new.steps ≡ self.old.steps + 1) }
    {
        self.charge()?;
        let holds = bool_in(value)?;
        self.note(holds)?;
        Ok(holds)
    }

    /// Decides so, by any operand.
    pub(crate) fn decide_so(&mut self, holds: bool) -> Result<(), Stopped>
        ensures gives { (ops : List Operation) (more : List Datum) → Gives (λ _. holds) result
            (progress_of self.new ops more) (decide_so holds (progress_of self.old ops more)) }
        ensures steps { OnOk result (self.new.steps ≡ self.old.steps + 1) }
    {
        self.charge()?;
        self.note(holds)?;
        Ok(())
    }

    fn note(&mut self, holds: bool) -> Result<(), AllocError>
        ensures gives { OnOk result ((ops : List Operation) (more : List Datum)
            → note (decided holds) (progress_of self.old ops more)
            ≡ goes tt (progress_of self.new ops more)) }
        ensures steps { self.new.steps ≡ self.old.steps }
    {
        self.trail.push(BareMark::Decided(holds))?;
        Ok(())
    }

    /// Leaves a mark of an operation that was answered.
    pub(crate) fn note_operation(&mut self) -> Result<(), AllocError>
        ensures { OnOk result (IsNoted self.old self.new) }
    {
        self.trail.push(BareMark::Issued)?;
        Ok(())
    }

    /// Adds the text of a value to the body.
    pub(crate) fn print_value(&mut self, alloc: Global, value: &Value) -> Result<(), Stopped>
        ensures gives { (ops : List Operation) (more : List Datum) → Gives (λ _. tt) result
            (progress_of self.new ops more)
            (print_value value.now (progress_of self.old ops more)) }
        ensures steps { self.new.steps ≡ self.old.steps }
    {
        self.output.print_value(alloc, value)?;
        Ok(())
    }

    /// Sets the status that a value is.
    pub(crate) fn set_status(&mut self, value: &Value) -> Result<(), Stopped>
        ensures gives { (ops : List Operation) (more : List Datum) → Gives (λ _. tt) result
            (progress_of self.new ops more)
            (set_status_in value.now (progress_of self.old ops more)) }
        ensures steps { self.new.steps ≡ self.old.steps }
    {
        self.output.set_status(value)?;
        Ok(())
    }

    /// The path of the run, which ended so on this page.
    pub(crate) fn path(&self, alloc: Global, page: u32, end: End) -> Result<Path, AllocError>
        ensures { (ops : List Operation) (more : List Datum) → IfOk result
            (λ path. path ≡ path_of page (progress_of self.now ops more) end) }
    {
        Ok(Path {
            page: Some(page),
            decisions: decisions_of(alloc, self.trail.as_slice())?,
            steps: self.steps,
            end,
        })
    }

    /// Takes the response of a run that met no fault.
    pub(crate) fn take_response(&mut self, alloc: Global) -> Response
        ensures response { (ops : List Operation) (more : List Datum)
            → result ≡ response_of (progress_of self.old ops more) }
        ensures rest { self.new ≡ record self.old { output = self.new.output } }
    {
        mem::replace(&mut self.output, Output::new(alloc)).into_response()
    }
}

/// The decisions of a trail.
fn decisions_of(alloc: Global, trail: &[BareMark]) -> Result<Decisions, AllocError>
    ensures { IfOk result (λ made. made ≡ decided_in trail.now) }
{
    let mut made = Decisions::new(alloc);
    for mark in trail {
        match mark {
            BareMark::Decided(holds) => made.push(*holds)?,
            BareMark::Issued => {}
        }
    }
    Ok(made)
}
