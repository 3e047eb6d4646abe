ghost use Rattle.std.specs.Prelude.{◌≡◌, [], List, IfOk};
ghost use Rattle.script_tree.specs.Datum.{Datum};
ghost use Rattle.script_meaning.specs.Conduct.{no_page, fault_response, path_of, response_of};
ghost use Rattle.script_meaning.specs.Conduct.{Ends};
ghost use Rattle.script_meaning.specs.Operations.{Op as Operation};
ghost use Rattle.machine.specs.Gives.{progress_of};
ghost use Rattle.machine.specs.Told.{ending_of};

use crate::account::Account;
use script_meaning::responses::{fault_response, no_page_path, no_page_response};
use script_tree::fault::ScriptFault;
use script_tree::operation::Op;
use script_tree::path::{End, Path};
use script_tree::request::Response;
use std::alloc::{AllocError, Global};

/// What a run wants next, or how it is over.
#[derive(Drop)]
pub enum MachineStep {
    Wants(Op),
    Ends(Response, Path),
}

/// The end of a run on this page that met no fault.
pub(crate) fn ended(
    alloc: Global,
    page: u32,
    account: &mut Account,
) -> Result<MachineStep, AllocError>
    ensures ends { (ops : List Operation) (more : List Datum) → IfOk result (λ step. ending_of step
        ≡ Ends (response_of (progress_of account.old ops more))
        (path_of page (progress_of account.old ops more) End.Normal)) }
    ensures rest { account.new ≡ record account.old { output = account.new.output } }
{
    let path = account.path(alloc, page, End::Normal)?;
    Ok(MachineStep::Ends(account.take_response(alloc), path))
}

/// The end of a run on this page at a fault, which is told so.
pub(crate) fn faulted(
    alloc: Global,
    page: u32,
    account: &Account,
    fault: ScriptFault,
    end: End,
) -> Result<MachineStep, AllocError>
    ensures { (ops : List Operation) (more : List Datum) → IfOk result (λ step. ending_of step
        ≡ Ends (fault_response fault) (path_of page (progress_of account.now ops more) end)) }
{
    let response = fault_response(alloc, fault)?;
    Ok(MachineStep::Ends(response, account.path(alloc, page, end)?))
}

/// The response to a path that no page has.
pub(crate) fn no_page(alloc: Global) -> Result<MachineStep, AllocError>
    ensures { IfOk result (λ step. ending_of step ≡ (no_page []).ending) }
{
    let response = no_page_response(alloc)?;
    Ok(MachineStep::Ends(response, no_page_path(alloc)))
}
