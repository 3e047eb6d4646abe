ghost use Rattle.wire.specs.Spellings.{TakesPart, bytes_field};
ghost use Rattle.trace_format.specs.Events.{parameter_field, parameters_field};
ghost use Rattle.trace_format.specs.Events.{request_field, response_field};

use basis::OrMemory;
use script_tree::limits::MOST_PARAMETERS;
use script_tree::request::{Parameter, Parameters, Request, Response};
use script_tree::text::Text;
use std::alloc::Global;
use wire::fault::Unreadable;
use wire::field::{read_bytes, read_u16, read_u32};

fn read_text(alloc: Global, bytes: &[u8], at: usize) -> Result<(Text, usize), OrMemory<Unreadable>>
    ensures { TakesPart (λ x. x) bytes_field bytes.now at result }
{
    let (text, next) = read_bytes(bytes, at)?;
    Ok((Text::from_vec(Vec::from_slice(alloc, text)?), next))
}

fn read_parameter(
    alloc: Global,
    bytes: &[u8],
    at: usize,
) -> Result<(Parameter, usize), OrMemory<Unreadable>>
    ensures { TakesPart (λ x. x) parameter_field bytes.now at result }
{
    let (name, next) = read_text(alloc, bytes, at)?;
    let (value, next) = read_text(alloc, bytes, next)?;
    Ok((Parameter { name, value }, next))
}

fn read_parameters(
    alloc: Global,
    bytes: &[u8],
    at: usize,
    count: u32,
) -> Result<(Parameters, usize), OrMemory<Unreadable>>
    ensures { TakesPart (λ x. x) (parameters_field count) bytes.now at result }
{
    let mut parameters = Vec::new(alloc);
    let mut place = at;
    for _ in 0..count {
        let (parameter, next) = read_parameter(alloc, bytes, place)?;
        parameters.push(parameter)?;
        place = next;
    }
    Ok((Parameters::from_vec(parameters), place))
}

/// The request that is spelled at a place, and the place behind it.
pub(crate) fn read_request(
    alloc: Global,
    bytes: &[u8],
    at: usize,
) -> Result<(Request, usize), OrMemory<Unreadable>>
    ensures { TakesPart (λ x. x) request_field bytes.now at result }
{
    let (method, next) = read_text(alloc, bytes, at)?;
    let (path, next) = read_text(alloc, bytes, next)?;
    let (count, next) = read_u32(bytes, next)?;
    if count as usize > MOST_PARAMETERS {
        return Err(OrMemory::Other(Unreadable { at }));
    }
    let (parameters, next) = read_parameters(alloc, bytes, next, count)?;
    let (body, next) = read_text(alloc, bytes, next)?;
    match Request::new(method, path, parameters, body) {
        Some(request) => Ok((request, next)),
        None => Err(OrMemory::Other(Unreadable { at })),
    }
}

/// The response that is spelled at a place, and the place behind it.
pub(crate) fn read_response(
    alloc: Global,
    bytes: &[u8],
    at: usize,
) -> Result<(Response, usize), OrMemory<Unreadable>>
    ensures { TakesPart (λ x. x) response_field bytes.now at result }
{
    let (status, next) = read_u16(bytes, at)?;
    let (body, next) = read_text(alloc, bytes, next)?;
    Ok((Response { status, body }, next))
}
