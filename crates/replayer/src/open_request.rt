ghost use Rattle.std.specs.Prelude.{◌≡◌, [], IfOk, OnOk, OnErr};
ghost use Rattle.replayer.specs.Opened.{opened_with, with_answer};

use script_tree::request::Request;
use script_tree::value::Value;
use std::alloc::{AllocError, Global};
use std::marker::Model;

/// A request that has arrived and not departed, with the answers to its operations, in order. It is
/// one word, since a trace has many requests and few of them are open.
#[derive(Drop)]
pub struct OpenRequest {
    parts: Box<Parts>,
}

#[derive(Drop)]
struct Parts {
    request: Request,
    answers: Vec<Value>,
}

impl Model for OpenRequest {
    ghost use Rattle.replayer.specs.Opened.{Opened, coded_opened};

    ghost Value = { Opened };

    ghost coded = { coded_opened };

    ghost use Rattle.replayer.specs.OpenedView.{opened_of};

    ghost view = { opened_of };
}

impl OpenRequest {
    /// A request that has just arrived: without answers.
    pub fn new(alloc: Global, request: Request) -> Result<OpenRequest, AllocError>
        ensures { IfOk result (λ open_request. open_request ≡ opened_with request []) }
    {
        let answers = Vec::new(alloc);
        let parts = Box::new(alloc, Parts { request, answers })?;
        Ok(OpenRequest { parts })
    }

    pub fn request(&self) -> &Request
        ensures { result.now ≡ self.now.request }
    {
        &self.parts.request
    }

    pub fn answers(&self) -> &[Value]
        ensures { result.now ≡ self.now.answers }
    {
        self.parts.answers.as_slice()
    }

    /// Adds an answer behind the others.
    pub fn push(&mut self, answer: Value) -> Result<(), AllocError>
        ensures ok { OnOk result (self.new ≡ with_answer self.old answer) }
        ensures err { OnErr result (self.new ≡ self.old) }
    {
        self.parts.answers.push(answer)?;
        Ok(())
    }
}
