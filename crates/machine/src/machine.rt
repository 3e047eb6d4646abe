ghost use Rattle.std.specs.Prelude.{◌≡◌, ◌++◌, ◌∷◌, [], List, IfOk, IsErr, OnOk, OnErr};
ghost use Rattle.script_tree.specs.Datum.{Datum};
ghost use Rattle.script_tree.specs.Programs.{Program as Meant};
ghost use Rattle.script_tree.specs.Requests.{Request as Asked};
ghost use Rattle.script_meaning.specs.Conduct.{conduct};
ghost use Rattle.script_code.specs.Translated.{IsCodeOf};
ghost use Rattle.machine.specs.Follows.{Follows, WaitsAfter};
ghost use Rattle.machine.specs.Follows.{IsExhausted, IsFresh, IsReady, IsStopped, IsWaiting};
ghost use Rattle.machine.specs.Told.{ending_of};
ghost use Rattle.machine.specs.Trail.{bare_trail};
ghost use Rattle.machine.specs.declared.machine.Phase.TheVariants.{Running};

use crate::account::{Account, BareMark};
use crate::ending::{MachineStep, ended, faulted, no_page};
use crate::frames::Frames;
use crate::run::Run;
use crate::stack::Stack;
use crate::state::State;
use crate::stopped::Stopped;
use script_code::translate::Code;
use script_tree::fault::ScriptFault;
use script_tree::path::End;
use script_tree::request::Request;
use script_tree::value::Value;
use script_values::Operand;
use std::alloc::{AllocError, Global};

/// What is next of a run.
#[derive(Clone, Copy)]
pub(crate) enum Phase {
    /// Its code is run.
    Running,
    /// It waits for the answer to the operation that it wanted.
    Waiting,
    /// An answer was beyond the limits of a value, and it ends so.
    Refused,
    /// No page has its path, and it ends so.
    NoPage,
    Over,
    /// It ran out of memory.
    Exhausted,
}

/// The run of a request's page, which stops at each operation and goes on with its answer. A machine
/// that ran out of memory may be run again, and says so from then on.
#[derive(Drop)]
pub struct Machine<'c> {
    code: &'c Code,
    request: Request,
    page: u32,
    phase: Phase,
    run: Run<'c>,
}

impl<'c> Machine<'c> {
    /// At the start of the request's page. Where no page has its path, the run only ends.
    pub fn start(alloc: Global, code: &'c Code, request: Request) -> Machine<'c>
        ensures ready { IsReady result }
        ensures follows { (program : Meant) → IsCodeOf program code.now
            → Follows program request [] result }
    {
        match code.page(request.path()) {
            None => at(alloc, code, request, 0, 0, Phase::NoPage),
            Some(page) => at(
                alloc,
                code,
                request,
                page.number,
                page.place,
                Phase::Running,
            ),
        }
    }

    /// Runs up to the next operation that is wanted, or to the end.
    pub fn run(&mut self) -> Result<MachineStep, AllocError>
        requires { IsReady self.old }
        ensures tells { (program : Meant) (q : Asked) (answers : List Datum)
            → Follows program q answers self.old
            → IfOk result (λ step. ending_of step ≡ (conduct program q answers).ending) }
        ensures follows { (program : Meant) (q : Asked) (answers : List Datum)
            → Follows program q answers self.old
            → OnOk result (Follows program q answers self.new) }
        ensures waits { IfOk result (λ step. WaitsAfter step self.new) }
        ensures stopped { OnOk result (IsStopped self.new) }
        ensures err { OnErr result (IsExhausted self.new) }
        ensures again { IsExhausted self.old → IsErr result }
    {
        match self.next_step() {
            Ok(step) => Ok(step),
            Err(error) => {
                self.phase = Phase::Exhausted;
                Err(error)
            }
        }
    }

    fn next_step(&mut self) -> Result<MachineStep, AllocError>
        requires { IsReady self.old }
        ensures tells { (program : Meant) (q : Asked) (answers : List Datum)
            → Follows program q answers self.old
            → IfOk result (λ step. ending_of step ≡ (conduct program q answers).ending) }
        ensures follows { (program : Meant) (q : Asked) (answers : List Datum)
            → Follows program q answers self.old
            → OnOk result (Follows program q answers self.new) }
        ensures waits { IfOk result (λ step. WaitsAfter step self.new) }
        ensures again { IsExhausted self.old → IsErr result }
    {
        let alloc = self.run.state.alloc;
        match self.phase {
            Phase::NoPage => {
                self.phase = Phase::Over;
                no_page(alloc)
            }
            Phase::Refused => {
                self.phase = Phase::Over;
                let account = &self.run.state.account;
                faulted(
                    alloc,
                    self.page,
                    account,
                    ScriptFault::TooLarge,
                    End::AnswerFault,
                )
            }
            Phase::Running => self.go_on(),
            // No caller comes here but with one that is exhausted.
            Phase::Waiting | Phase::Over | Phase::Exhausted => Err(AllocError),
        }
    }

    /// Runs the code.
    fn go_on(&mut self) -> Result<MachineStep, AllocError>
        requires { self.old.phase ≡ Running }
        ensures tells { (program : Meant) (q : Asked) (answers : List Datum)
            → Follows program q answers self.old
            → IfOk result (λ step. ending_of step ≡ (conduct program q answers).ending) }
        ensures follows { (program : Meant) (q : Asked) (answers : List Datum)
            → Follows program q answers self.old
            → OnOk result (Follows program q answers self.new) }
        ensures waits { IfOk result (λ step. WaitsAfter step self.new) }
    {
        let alloc = self.run.state.alloc;
        match self.run.run(self.code, &self.request) {
            Ok(()) => {
                self.phase = Phase::Over;
                ended(alloc, self.page, &mut self.run.state.account)
            }
            Err(Stopped::Memory) => Err(AllocError),
            Err(Stopped::Wants(wanted)) => {
                self.phase = Phase::Waiting;
                Ok(MachineStep::Wants(wanted.into_op()))
            }
            Err(Stopped::Fault(fault)) => {
                self.phase = Phase::Over;
                let account = &self.run.state.account;
                faulted(alloc, self.page, account, fault, End::Fault(fault))
            }
        }
    }

    /// The marks that the run left so far: its decisions, and the operations that were answered, in
    /// their order.
    pub fn trail(&self) -> &[BareMark]
        requires { IsStopped self.now }
        ensures { (program : Meant) (q : Asked) (answers : List Datum)
            → Follows program q answers self.now
            → result.now ≡ bare_trail (conduct program q answers).trail }
    {
        self.run.state.account.trail.as_slice()
    }

    /// Takes the answer to the operation that was wanted. One that is beyond the limits of a value
    /// ends the run.
    pub fn answer(&mut self, value: Value) -> Result<(), AllocError>
        requires { IsWaiting self.old }
        ensures follows { (program : Meant) (q : Asked) (answers : List Datum)
            → Follows program q answers self.old
            → OnOk result (Follows program q (answers ++ value ∷ []) self.new) }
        ensures ready { OnOk result (IsReady self.new) }
        ensures err { OnErr result (IsExhausted self.new) }
    {
        self.phase = Phase::Exhausted;
        self.run.state.account.note_operation()?;
        if value.is_within_limits() {
            self.run.state.stack.push(Operand::own(value))?;
            self.phase = Phase::Running;
        } else {
            self.phase = Phase::Refused;
        }
        Ok(())
    }
}

/// At this place of the code.
fn at(
    alloc: Global,
    code: &Code,
    request: Request,
    page: u32,
    place: usize,
    phase: Phase,
) -> Machine
    ensures code { result.code.now ≡ code.now }
    ensures request { result.request ≡ request }
    ensures page { result.page ≡ page }
    ensures phase { result.phase ≡ phase }
    ensures run { IsFresh place result.run }
{
    Machine {
        code,
        request,
        page,
        phase,
        run: Run {
            frames: Frames::new(alloc),
            place,
            state: State {
                alloc,
                stack: Stack::new(alloc),
                slots: Vec::new(alloc),
                account: Account::new(alloc),
                room: Vec::new(alloc),
            },
        },
    }
}
