//! The responses that no page gives: where none has the path, and at a fault.

ghost use Rattle.std.specs.Prelude.{◌≡◌, IfOk};
ghost use Rattle.script_meaning.specs.Conduct.{fault_response, no_page_path, no_page_response};

use crate::status::{FAULT_STATUS, NO_PAGE_STATUS};
use script_tree::fault::ScriptFault;
use script_tree::path::{Decisions, End, Path};
use script_tree::request::Response;
use script_tree::text::Text;
use std::alloc::{AllocError, Global};

/// The response to a path that no page has.
pub fn no_page_response(alloc: Global) -> Result<Response, AllocError>
    ensures { IfOk result (λ response. response ≡ no_page_response) }
{
    Ok(Response {
        status: NO_PAGE_STATUS,
        body: Text::from_vec(b"no page\n".to_vec(alloc)?),
    })
}

/// The path of a request that no page takes.
pub fn no_page_path(alloc: Global) -> Path
    ensures { result ≡ no_page_path }
{
    Path {
        page: None,
        decisions: Decisions::new(alloc),
        steps: 0,
        end: End::Normal,
    }
}

/// The response of a run that stops at this fault.
pub fn fault_response(alloc: Global, fault: ScriptFault) -> Result<Response, AllocError>
    ensures { IfOk result (λ response. response ≡ fault_response fault) }
{
    let line = format!(in alloc; "{fault}\n")?;
    Ok(Response {
        status: FAULT_STATUS,
        body: Text::from_vec(line.into_bytes()),
    })
}
