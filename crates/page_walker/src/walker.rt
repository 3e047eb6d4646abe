ghost use Rattle.std.specs.Prelude.{◌≡◌, IfOk, [], true};
ghost use Rattle.page_walker.specs.WalkerSteps.{Tells, ending_after, page_ending};

use crate::ending::{WalkerStep, no_page, stopped};
use crate::frame::Frame;
use crate::run::{Run, Stopped};
use crate::variables::Variables;
use script_check::lookup::Index;
use script_tree::limits::MOST_STEPS;
use script_tree::path::End;
use script_tree::request::Request;
use script_tree::syntax::statement::Block;
use script_tree::value::Value;
use std::alloc::{AllocError, Global};
use std::marker::Model;

/// The plain walker of a request's page. It keeps nothing of its run: each call walks the page from
/// its start, with the answers that it is given.
#[derive(Drop)]
pub struct Walker<'a, 'p> {
    index: &'a Index<'p>,
    request: &'a Request,
}

impl<'a, 'p> Model for Walker<'a, 'p> {
    ghost use Rattle.script_meaning.specs.Evaluate.{Setting};
    ghost use Rattle.script_meaning.specs.RunCodes.{coded_setting};

    ghost Value = { Setting };

    ghost coded = { coded_setting };

    ghost use Rattle.page_walker.specs.WalkerView.{setting_of};

    ghost view = { setting_of };
}

impl<'a, 'p> Walker<'a, 'p> {
    pub fn new(index: &'a Index<'p>, request: &'a Request) -> Walker<'a, 'p>
        ensures { result ≡ record { program = index.now; request = request.now } }
    {
        Walker { index, request }
    }

    pub(crate) fn index(&self) -> &Index<'p>
        ensures { result.now ≡ self.now.program }
    {
        self.index
    }

    pub(crate) fn request(&self) -> &Request
        ensures { result.now ≡ self.now.request }
    {
        self.request
    }

    /// What the run does after these answers. Of more answers than it asks for nothing is said.
    pub fn next(&self, alloc: Global, answers: &[Value]) -> Result<WalkerStep, AllocError>
        ensures { IfOk result (Tells (ending_after self.now answers.now)) }
    {
        match self.index().page(self.request().path().as_bytes()) {
            None => no_page(alloc),
            Some(page) => self.walk(alloc, answers, page.number, page.body),
        }
    }

    /// The run of this page.
    fn walk(
        &self,
        alloc: Global,
        answers: &[Value],
        page: u32,
        body: &Block,
    ) -> Result<WalkerStep, AllocError>
        ensures { IfOk result (Tells (page_ending self.now answers.now page body.now)) }
    {
        let frame = Frame {
            walker: self,
            alloc,
            fuel: MOST_STEPS,
            depth: 0,
        };
        let mut variables = Variables::new(alloc);
        let mut run = Run::new(alloc, answers);
        let outcome = frame.block(&mut variables, &mut run, body);
        drop(variables);
        match outcome {
            Ok(_flow) => match run.path(alloc, page, End::Normal) {
                Ok(path) => Ok(WalkerStep::Ends(run.into_response(), path)),
                Err(error) => {
                    drop(run);
                    Err(error)
                }
            },
            Err(Stopped::Memory) => {
                drop(run);
                Err(AllocError)
            }
            Err(Stopped::Stop(stop)) => {
                let step = stopped(alloc, page, &run, stop);
                drop(run);
                step
            }
        }
    }
}
