ghost use Rattle.std.specs.Prelude.{◌≡◌, [], IfOk};
ghost use Rattle.script_meaning.specs.Conduct.{no_page, ended};
ghost use Rattle.script_meaning.specs.Run.{stops};
ghost use Rattle.page_walker.specs.WalkerSteps.{Tells};

use crate::run::Run;
use script_meaning::responses::{fault_response, no_page_path, no_page_response};
use script_meaning::run::Stop;
use script_tree::fault::ScriptFault;
use script_tree::operation::Op;
use script_tree::path::{End, Path};
use script_tree::request::Response;
use std::alloc::{AllocError, Global};

/// What a run wants next, or how it is over.
#[derive(Drop)]
pub enum WalkerStep {
    Wants(Op),
    Ends(Response, Path),
}

/// The end of a run on this page that stopped.
pub fn stopped(alloc: Global, page: u32, run: &Run, stop: Stop) -> Result<WalkerStep, AllocError>
    ensures { IfOk result (Tells (ended page (stops stop run.now)).ending) }
{
    let (fault, end) = match stop {
        Stop::Wants(op) => return Ok(WalkerStep::Wants(op)),
        Stop::Fault(fault) => (fault, End::Fault(fault)),
        Stop::AnswerFault => (ScriptFault::TooLarge, End::AnswerFault),
    };
    let response = fault_response(alloc, fault)?;
    Ok(WalkerStep::Ends(response, run.path(alloc, page, end)?))
}

/// The response to a path that no page has.
pub fn no_page(alloc: Global) -> Result<WalkerStep, AllocError>
    ensures { IfOk result (Tells (no_page []).ending) }
{
    let response = no_page_response(alloc)?;
    Ok(WalkerStep::Ends(response, no_page_path(alloc)))
}
