ghost use Rattle.std.specs.Prelude.{◌≡◌, ℕ, List, [], Some, None, is_some, IfOk, IsTrue};
ghost use Rattle.script_tree.specs.Datum.{Datum};
ghost use Rattle.script_tree.specs.Programs.{Program as AnyProgram};
ghost use Rattle.script_tree.specs.Requests.{Request as AnyRequest};
ghost use Rattle.period.specs.Traces.{request_of, response_of};
ghost use Rattle.script_code.specs.Translated.{IsCodeOf};
ghost use Rattle.audit_meaning.specs.Groups.{gives, steps_to};
ghost use Rattle.audit_meaning.specs.Members.{fault_in, last_sign, page_number};
ghost use Rattle.machine.specs.Follows.{Follows, IsReady, IsStopped};
ghost use Rattle.machine.specs.Told.{ending_of};
ghost use Rattle.trace_index.specs.Places.{request_place, IsRequestPlace};
ghost use Rattle.group_runner.specs.Marks.{sign_in};
ghost use Rattle.group_runner.specs.MembersTold.{GoesOn, IsRunOf, IsMemberOf};
ghost use Rattle.group_runner.specs.Told.{answer_to, gives_response};

use crate::evidence::Evidence;
use crate::mark::{Sign, marks_of};
use crate::member::Member;
use crate::run::Run;
use machine::{Machine, MachineStep};
use script_code::translate::Code;
use script_tree::fault::ScriptFault;
use script_tree::path::End;
use script_tree::request::{Request, Response};
use script_tree::text::Text;
use script_tree::value::Value;
use std::alloc::{AllocError, Global};

/// The number of a fault at the end of a run; 0 where there is none.
fn fault_in(end: End) -> u8
    ensures { result ≡ fault_in end }
{
    match end {
        End::Normal => 0,
        End::Fault(fault) => fault.number(),
        End::AnswerFault => ScriptFault::TooLarge.number(),
    }
}

/// What a run leaves where it stops.
fn last_sign(step: &MachineStep) -> Sign
    ensures { sign_in result ≡ last_sign (ending_of step.now) }
{
    match step {
        MachineStep::Wants(_) => Sign::Bad,
        MachineStep::Ends(_, path) => Sign::Ended {
            steps: path.steps,
            fault: fault_in(path.end),
        },
    }
}

/// The steps that a run spent that is over.
fn steps_to(step: &MachineStep) -> u32
    ensures { result ≡ steps_to (ending_of step.now) }
{
    match step {
        MachineStep::Wants(_) => 0,
        MachineStep::Ends(_, path) => path.steps,
    }
}

fn page_number(code: &Code, path: &Text) -> Option<u32>
    ensures { (program : AnyProgram) (request : AnyRequest) → IsCodeOf program code.now
        → request.path ≡ path.now → result ≡ page_number program request }
{
    match code.page(path) {
        Some(page) => Some(page.number),
        None => None,
    }
}

/// Runs requests against a report.
#[derive(Clone, Copy)]
pub(crate) struct Runner<'a> {
    pub alloc: Global,
    pub code: &'a Code,
    pub evidence: &'a Evidence<'a>,
}

impl<'a> Runner<'a> {
    /// Runs a request as far as its operations are those that the report has.
    fn run(&self, rid: u32, request: Request) -> Result<Run<'a>, AllocError>
        ensures run { (program : AnyProgram) → IsCodeOf program self.now.code.now
            → IfOk result (IsRunOf program self.now.evidence.now rid request) }
        ensures stopped { IfOk result (λ run. IsStopped run.machine) }
    {
        let mut machine = Machine::start(self.alloc, self.code, request);
        match self.run_on(&mut machine, rid) {
            Ok((done, step)) => Ok(Run {
                machine,
                done,
                step,
            }),
            Err(error) => {
                drop(machine);
                Err(error)
            }
        }
    }

    /// Runs a machine from its start in the same way. How many operations were answered is told, and
    /// what the machine wants then, or how its run ended.
    fn run_on(&self, machine: &mut Machine<'a>, rid: u32) -> Result<(u32, MachineStep), AllocError>
        requires { IsReady machine.old }
        ensures run { (program : AnyProgram) (q : AnyRequest) → Follows program q [] machine.old
            → IfOk result (λ ran. IsRunOf program self.now.evidence.now rid q
            (record { machine = machine.new; done = ran.0; step = ran.1 })) }
        ensures stopped { IfOk result (λ ran. IsStopped machine.new) }
    {
        let count = self.evidence.count(rid);
        for done in 0..count {
            if let Some(step) = self.go_on(machine, rid, done + 1)? {
                return Ok((done, step));
            }
        }
        let step = machine.run()?;
        Ok((count, step))
    }

    /// Runs a machine up to its next operation, and answers that where it is the one of this number
    /// that the report has. Else it is told what the machine wants, or how its run ended.
    fn go_on(
        &self,
        machine: &mut Machine<'a>,
        rid: u32,
        number: u32,
    ) -> Result<Option<MachineStep>, AllocError>
        requires { IsReady machine.old }
        ensures ready { IfOk result (λ step. step ≡ None → IsReady machine.new) }
        ensures stopped { IfOk result (λ step. IsTrue (is_some step) → IsStopped machine.new) }
        ensures goes { (program : AnyProgram) (q : AnyRequest) (answers : List Datum)
            → Follows program q answers machine.old
            → IfOk result (GoesOn program q answers self.now.evidence.now rid number machine.new) }
    {
        let step = machine.run()?;
        match self.answer(rid, number, &step) {
            Ok(Some(answer)) => {
                drop(step);
                machine.answer(answer)?;
                Ok(None)
            }
            Ok(None) => Ok(Some(step)),
            Err(error) => {
                drop(step);
                Err(error)
            }
        }
    }

    /// The answer to what a run wants, where it is the operation of this number that the report has.
    fn answer(&self, rid: u32, number: u32, step: &MachineStep) -> Result<Option<Value>, AllocError>
        ensures { IfOk result (λ answer. answer
            ≡ answer_to self.now.evidence.now rid number (ending_of step.now)) }
    {
        match step {
            MachineStep::Wants(op) => self.evidence.answer(rid, number, op),
            MachineStep::Ends(..) => Ok(None),
        }
    }

    /// Whether a run ends with the response of the request that stands here.
    fn gives(&self, place: usize, step: &MachineStep) -> Result<bool, AllocError>
        requires { IsRequestPlace self.now.evidence.now.trace place }
        ensures { IfOk result (λ same. (r : ℕ)
            → request_place self.now.evidence.now.trace r ≡ Some place
            → same ≡ gives (ending_of step.now) (response_of self.now.evidence.now.trace r)) }
    {
        match step {
            MachineStep::Wants(_) => Ok(false),
            MachineStep::Ends(response, _) => {
                let traced = self.evidence.trace().response(self.alloc, place)?;
                Ok(is_same_response(response, &traced))
            }
        }
    }

    /// What the member of a group with this id leaves.
    pub(crate) fn member(&self, rid: u32) -> Result<Member, AllocError>
        ensures { (program : AnyProgram) → IsCodeOf program self.now.code.now
            → IfOk result (IsMemberOf program self.now.evidence.now rid) }
    {
        match self.evidence.trace().place(rid) {
            Some(place) => self.member_at(rid, place),
            None => Ok(Member::absent(self.alloc)),
        }
    }

    /// The same, where its request stands here.
    fn member_at(&self, rid: u32, place: usize) -> Result<Member, AllocError>
        requires { request_place self.now.evidence.now.trace rid ≡ Some place }
        ensures { (program : AnyProgram) → IsCodeOf program self.now.code.now
            → IfOk result (IsMemberOf program self.now.evidence.now rid) }
    {
        let request = self.evidence.trace().request(self.alloc, place)?;
        let page = page_number(self.code, request.path());
        let run = self.run(rid, request)?;
        let member = self.left_by(place, page, &run);
        drop(run);
        member
    }

    /// What a run leaves of the request that stands here, on the page of this number.
    fn left_by(&self, place: usize, page: Option<u32>, run: &Run<'a>) -> Result<Member, AllocError>
        requires place { IsRequestPlace self.now.evidence.now.trace place }
        requires stopped { IsStopped run.now.machine }
        ensures { (program : AnyProgram) (r : ℕ) (request : AnyRequest)
            → request_place self.now.evidence.now.trace r ≡ Some place
            → request_of self.now.evidence.now.trace r ≡ Some request
            → page ≡ page_number program request
            → IsRunOf program self.now.evidence.now r request run.now
            → IfOk result (IsMemberOf program self.now.evidence.now r) }
    {
        let gives = self.gives(place, &run.step)?;
        let last = last_sign(&run.step);
        Ok(Member {
            marks: marks_of(self.alloc, page, run.machine.trail(), last)?,
            done: run.done,
            steps: steps_to(&run.step),
            gives,
        })
    }
}

/// Whether this response is the one of the trace, where it has one.
pub fn is_same_response(response: &Response, traced: &Option<Response>) -> bool
    ensures { result ≡ gives_response response.now traced.now }
{
    match traced {
        Some(traced) => {
            response.status == traced.status && response.body.as_bytes() == traced.body.as_bytes()
        }
        None => false,
    }
}
