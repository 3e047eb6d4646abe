ghost use Rattle.std.specs.Prelude.{◌≢◌, IfOk};
ghost use Rattle.script_meaning.specs.Conduct.{Undefined};
ghost use Rattle.script_meaning.specs.Replay.{ending_of};
ghost use Rattle.replayer.specs.Runners.{IsGivenAs};

use script_check::lookup::Index;
use script_tree::operation::Op;
use script_tree::request::{Request, Response};
use script_tree::value::Value;
use std::alloc::{AllocError, Global};

/// What a request does next.
#[derive(Drop)]
pub enum Next {
    /// It wants this operation.
    Wants(Op),
    /// Its run is over, with this response.
    Ends(Response),
}

/// What runs requests.
pub trait Runner {
    /// What the request does next, after these answers to its operations.
    fn next(
        &self,
        alloc: Global,
        index: &Index,
        request: &Request,
        answers: &[Value],
    ) -> Result<Next, AllocError>
        requires { ending_of index.now request.now answers.now ≢ Undefined }
        ensures { IfOk result (IsGivenAs (ending_of index.now request.now answers.now)) };
}
