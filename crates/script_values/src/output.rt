ghost use Rattle.std.specs.Prelude.{◌≡◌};
ghost use Rattle.script_meaning.specs.Evaluate.{print, print_value};
ghost use Rattle.script_values.specs.Outputs.{Outputs, no_output, set_status_in};

use crate::faults::Faulted;
use crate::operations::status_in;
use crate::texts::printed;
use basis::OrMemory;
use script_meaning::status::USUAL_STATUS;
use script_tree::fault::ScriptFault;
use script_tree::limits::MOST_BODY_BYTES;
use script_tree::request::Response;
use script_tree::text::Text;
use script_tree::value::Value;
use std::alloc::Global;
use std::marker::Model;

/// What a run has printed so far, and the status that it set. Contracts see the response that it
/// would be.
#[derive(Drop)]
pub struct Output {
    status: u16,
    body: Vec<u8>,
}

impl Model for Output {
    ghost use Rattle.script_tree.specs.contracts.request.Response as row;
    ghost use Rattle.script_tree.specs.declared.request.Response.{Response};

    ghost Value = { Response };

    ghost coded = { row.the_row.coded };

    ghost use Rattle.script_values.specs.OutputView.{response_in};

    ghost view = { response_in };
}

impl Output {
    /// Of a run that printed nothing, and set no status.
    pub fn new(alloc: Global) -> Output
        ensures { result ≡ no_output }
    {
        Output {
            status: USUAL_STATUS,
            body: Vec::new(alloc),
        }
    }

    /// Adds bytes to the body.
    fn print(&mut self, bytes: &[u8]) -> Result<(), Faulted>
        ensures { Outputs (print bytes.now) self.old result self.new }
    {
        if bytes.len() > MOST_BODY_BYTES || self.body.len() > MOST_BODY_BYTES - bytes.len() {
            return Err(OrMemory::Other(ScriptFault::TooLarge));
        }
        self.body.extend_from_slice(bytes)?;
        Ok(())
    }

    /// Adds the text of a value to the body.
    pub fn print_value(&mut self, alloc: Global, value: &Value) -> Result<(), Faulted>
        ensures { Outputs (print_value value.now) self.old result self.new }
    {
        let text = printed(alloc, value)?;
        self.print(text.as_bytes())
    }

    /// Sets the status that a value is.
    pub fn set_status(&mut self, value: &Value) -> Result<(), Faulted>
        ensures { Outputs (set_status_in value.now) self.old result self.new }
    {
        self.status = status_in(value)?;
        Ok(())
    }

    /// The response of a run that met no fault.
    pub fn into_response(self) -> Response
        ensures { result ≡ self }
    {
        let Output { status, body } = self;
        Response {
            status,
            body: Text::from_vec(body),
        }
    }
}
