ghost use Rattle.std.specs.Prelude.{◌≡◌, IfOk};
ghost use Rattle.multivalue.specs.Many.{member_value};
ghost use Rattle.multi_state.specs.Progress.{status_number};
ghost use Rattle.multi_machine.specs.Responses.{fault_end, normal_end, response_at};

use multi_bodies::Bodies;
use multi_run::Run;
use multi_state::{Account, State};
use multivalue::Multi;
use script_meaning::responses::{fault_response, no_page_response};
use script_tree::fault::ScriptFault;
use script_tree::path::End;
use script_tree::request::Response;
use script_values::status_in;
use std::alloc::{AllocError, Global};

/// Of what the members' responses are made.
#[derive(Drop)]
pub(crate) enum Responses {
    /// No page has their paths.
    NoPage,
    /// Each met this fault.
    Fault(ScriptFault),
    /// Each left a status, as a number, and a body.
    Left(Multi, Bodies),
}

/// The end of all members' runs, which are alike but for their responses.
#[derive(Drop)]
pub struct Ended {
    pub(crate) steps: u32,
    pub(crate) end: End,
    pub(crate) responses: Responses,
}

impl Ended {
    /// Of members that met no fault, by what each left.
    pub(crate) fn normal(run: Run) -> Ended
        ensures { result ≡ normal_end run }
    {
        let Run { state, .. } = run;
        let State { account, .. } = state;
        let Account {
            steps,
            status,
            bodies,
            ..
        } = account;
        Ended {
            steps,
            end: End::Normal,
            responses: Responses::Left(status, bodies),
        }
    }

    /// Of members that stopped so, where each is told this fault.
    pub(crate) fn at_fault(run: &Run, end: End, fault: ScriptFault) -> Ended
        ensures { result ≡ fault_end run.now end fault }
    {
        Ended {
            steps: run.state.account.steps,
            end,
            responses: Responses::Fault(fault),
        }
    }

    /// How many steps each member spent.
    pub fn steps(&self) -> u32
        ensures { result ≡ self.now.steps }
    {
        self.steps
    }

    /// How the run of each member ended.
    pub fn end(&self) -> End
        ensures { result ≡ self.now.end }
    {
        self.end
    }

    /// A member's response, which is made anew. No caller asks for another member.
    pub fn response(&self, alloc: Global, member: usize) -> Result<Response, AllocError>
        ensures { IfOk result (λ response. response ≡ response_at member self.now) }
    {
        match &self.responses {
            Responses::NoPage => no_page_response(alloc),
            Responses::Fault(fault) => fault_response(alloc, *fault),
            Responses::Left(statuses, bodies) => Ok(Response {
                status: status_of(statuses, member)?,
                body: bodies.body_at(alloc, member)?,
            }),
        }
    }
}

/// A member's status. No caller has another value than a status.
fn status_of(statuses: &Multi, member: usize) -> Result<u16, AllocError>
    ensures { IfOk result (λ status.
        status ≡ status_number (member_value statuses.now member)) }
{
    let Some(value) = statuses.get(member) else {
        return Err(AllocError);
    };
    match status_in(value) {
        Ok(status) => Ok(status),
        Err(_fault) => Err(AllocError),
    }
}
