ghost use Rattle.std.specs.Prelude.{◌≡◌, true, IfOk, option_and_then, option_map};
ghost use Rattle.serde_json.specs.View.{view, members_view};
ghost use Rattle.json_texts.specs.Shapes.{have_names, read_or};
ghost use Rattle.json_texts.specs.Texts.{text_of};
ghost use Rattle.script_tree.specs.Requests.{IsRequestOf};
ghost use Rattle.workload.specs.Jobs.{job_in, job_with, member_names};

use json_texts::shape::{Shape, array_or_empty, have_names, pair_of};
use json_texts::text::text_of;
use script_tree::request::{Parameter, Parameters, Request};
use script_tree::text::Text;
use serde_json::{Map, Value as Json};
use std::alloc::{AllocError, Global};
use std::marker::Model;

/// A request as a file gives it, maybe beyond the limits.
#[derive(Drop)]
pub(crate) struct Job {
    method: Text,
    path: Text,
    parameters: Parameters,
    body: Text,
}

impl Model for Job {
    ghost use Rattle.script_tree.specs.Requests.{Request, request_with};

    ghost Value = { Request };

    ghost view = { λ job. request_with job.method job.path job.parameters job.body };
}

impl Job {
    /// The request, or `None` where it passes a limit.
    pub(crate) fn into_request(self) -> Option<Request>
        ensures { IsRequestOf self result }
    {
        let Job {
            method,
            path,
            parameters,
            body,
        } = self;
        Request::new(method, path, parameters, body)
    }
}

/// The shape of a job.
pub(crate) struct JobShape;

impl Shape for JobShape {
    ghost use Rattle.workload.specs.Jobs.{job_of};

    type Given = Job;

    ghost given = { job_of };

    fn read(alloc: Global, json: Json) -> Result<Option<Job>, AllocError> {
        match json {
            Json::Object(members) => job_in(alloc, members),
            Json::Null | Json::Bool(_) | Json::Number(_) | Json::String(_) | Json::Array(_) => Ok(
                None,
            ),
        }
    }
}

fn job_in(alloc: Global, mut members: Map<String, Json>) -> Result<Option<Job>, AllocError>
    ensures { IfOk result (λ o. o ≡ job_in (members_view members.entries)) }
{
    if !have_names(&members, &["path", "method", "params", "body"]) {
        drop(members);
        return Ok(None);
    }
    let job = parts_in(alloc, &mut members);
    drop(members);
    job
}

/// The same where no member has another name; the members that are read are taken out.
fn parts_in(alloc: Global, members: &mut Map<String, Json>) -> Result<Option<Job>, AllocError>
    requires { have_names member_names (members_view members.old.entries) ≡ true }
    ensures { IfOk result (λ o. o ≡ job_in (members_view members.old.entries)) }
{
    let method = members.remove("method");
    let method = text_or(alloc, method, "GET")?;
    let path = members.remove("path");
    let path = text_there(alloc, path)?;
    let parameters = members.remove("params");
    let parameters = array_or_empty::<ParameterShape>(alloc, parameters)?;
    let body = members.remove("body");
    let body = text_or(alloc, body, "")?;
    Ok(job_with(method, path, parameters, body))
}

/// All parts together, where each is there.
fn job_with(
    method: Option<Text>,
    path: Option<Text>,
    parameters: Option<Parameters>,
    body: Option<Text>,
) -> Option<Job>
    ensures { result ≡ job_with method path parameters body }
{
    let Some(method) = method else {
        drop(path);
        drop(parameters);
        drop(body);
        return None;
    };
    let Some(path) = path else {
        drop(method);
        drop(parameters);
        drop(body);
        return None;
    };
    let Some(parameters) = parameters else {
        drop(method);
        drop(path);
        drop(body);
        return None;
    };
    let Some(body) = body else {
        drop(method);
        drop(path);
        drop(parameters);
        return None;
    };
    Some(Job {
        method,
        path,
        parameters,
        body,
    })
}

/// The text of a member that must be there.
fn text_there(alloc: Global, json: Option<Json>) -> Result<Option<Text>, AllocError>
    ensures { IfOk result (λ o. o ≡ option_and_then text_of (option_map view json)) }
{
    match json {
        Some(json) => text_of(alloc, json),
        None => Ok(None),
    }
}

/// The text of a member, or this one where there is no such member.
fn text_or(alloc: Global, json: Option<Json>, otherwise: &str) -> Result<Option<Text>, AllocError>
    ensures { IfOk result (λ o. o ≡ read_or otherwise.now text_of (option_map view json)) }
{
    match json {
        Some(json) => text_of(alloc, json),
        None => Ok(Some(Text::from_vec(Vec::from_slice(alloc, otherwise.as_bytes())?))),
    }
}

/// The shape of a parameter: its name and its value.
struct ParameterShape;

impl Shape for ParameterShape {
    ghost use Rattle.workload.specs.Jobs.{parameter_of};

    type Given = Parameter;

    ghost given = { parameter_of };

    fn read(alloc: Global, json: Json) -> Result<Option<Parameter>, AllocError> {
        let Some((name, value)) = pair_of(json) else {
            return Ok(None);
        };
        let Some(name) = text_of(alloc, name)? else {
            return Ok(None);
        };
        let value = text_of(alloc, value)?;
        Ok(value.map(|value| Parameter { name, value }))
    }
}
