use crate::runner::{Next, Runner};
use page_walker::{Walker, WalkerStep};
use script_check::lookup::Index;
use script_tree::request::Request;
use script_tree::value::Value;
use std::alloc::{AllocError, Global};

/// Runs requests by the plain walker.
pub struct PlainRunner;

impl Runner for PlainRunner {
    fn next(
        &self,
        alloc: Global,
        index: &Index,
        request: &Request,
        answers: &[Value],
    ) -> Result<Next, AllocError> {
        let walker = Walker::new(index, request);
        match walker.next(alloc, answers)? {
            WalkerStep::Wants(op) => Ok(Next::Wants(op)),
            WalkerStep::Ends(response, _) => Ok(Next::Ends(response)),
        }
    }
}
