ghost use Rattle.std.specs.Prelude.{◌≡◌};
ghost use Rattle.std.specs.List.{list_all};
ghost use Rattle.script_tree.specs.Requests.{request_with, IsRequestOf, IsRequestWithinLimits};
ghost use Rattle.script_tree.specs.Requests.{text_fits, parameter_fits, parameters_fit};

use crate::limits::{MOST_PARAMETERS, MOST_REQUEST_TEXT_BYTES};
use crate::text::Text;
use basis::Items;
use std::marker::Model;

/// A parameter of a request.
#[derive(Drop)]
pub struct Parameter {
    pub name: Text,
    pub value: Text,
}

/// The parameters of a request, in order. A name may stand twice.
pub type Parameters = Items<Parameter>;

/// A request that a client sends. Each request is within the limits of a request.
#[derive(Drop)]
pub struct Request {
    method: Text,
    path: Text,
    parameters: Parameters,
    body: Text,
}

impl Model for Request {
    ghost use Rattle.script_tree.specs.Requests.{Request};

    ghost Value = { Request };

    ghost use Rattle.script_tree.specs.RequestView.{request_of, IsWithinLimits};

    ghost view = { request_of };

    ghost invariant = { IsWithinLimits };
}

/// What a page answers.
#[derive(Drop)]
pub struct Response {
    pub status: u16,
    pub body: Text,
}

/// Whether a request may have these parameters.
pub fn parameters_fit(parameters: &Parameters) -> bool
    ensures { result ≡ parameters_fit parameters.now }
{
    parameters.len() <= MOST_PARAMETERS && all_fit(parameters.as_slice())
}

impl Parameter {
    /// Whether a request may have it.
    pub fn fits(&self) -> bool
        ensures { result ≡ parameter_fits self.now }
    {
        text_fits(&self.name) && text_fits(&self.value)
    }
}

fn all_fit(parameters: &[Parameter]) -> bool
    ensures { result ≡ list_all parameter_fits parameters.now }
{
    parameters.iter().all(|parameter| parameter.fits())
}

/// Whether a request may have this text.
pub fn text_fits(text: &Text) -> bool
    ensures { result ≡ text_fits text.now }
{
    text.len() <= MOST_REQUEST_TEXT_BYTES
}

impl Request {
    /// The request of these parts, or `None` where a part is beyond its limit.
    pub fn new(method: Text, path: Text, parameters: Parameters, body: Text) -> Option<Request>
        ensures { IsRequestOf (request_with method path parameters body) result }
    {
        if text_fits(&method)
            && text_fits(&path)
            && text_fits(&body)
            && parameters_fit(&parameters)
        {
            Some(Request {
                method,
                path,
                parameters,
                body,
            })
        } else {
            None
        }
    }

    /// Its texts and its parameters are within the limits of a request.
    pub fn keeps_limits(&self)
        ensures { IsRequestWithinLimits self.now }
    {
        let _ = &self.body;
    }

    pub fn method(&self) -> &Text
        ensures { result.now ≡ self.now.method }
    {
        &self.method
    }

    pub fn path(&self) -> &Text
        ensures { result.now ≡ self.now.path }
    {
        &self.path
    }

    pub fn parameters(&self) -> &Parameters
        ensures { result.now ≡ self.now.parameters }
    {
        &self.parameters
    }

    pub fn body(&self) -> &Text
        ensures { result.now ≡ self.now.body }
    {
        &self.body
    }
}
