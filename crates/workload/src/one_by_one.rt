//! A file's jobs one by one, so that only one job's tree is in memory at a time.

ghost use Rattle.std.specs.Prelude.{◌≡◌, ◌<◌, true, length, IfOk, IfSome};
ghost use Rattle.script_tree.specs.Requests.{IsRequestWithinLimits};
ghost use Rattle.workload.specs.Jobs.{are_within_limits};
ghost use Rattle.workload.specs.Files.{AreRequests};
ghost use Rattle.workload.specs.OneByOne.{BeginWithJob, BeginWithJobs};

use crate::job::JobShape;
use crate::requests::{Requests, packed};
use crate::tree::tree_of;
use basis::Items;
use json::{Error, Reader, Scratch, Token, Value as Borrowed};
use json_texts::shape::Shape;
use script_tree::limits::MOST_REQUESTS;
use script_tree::request::Request;
use std::alloc::{AllocError, Global};
use std::str::from_utf8;

/// How deep a job may nest: `serde_json` takes 127 levels, of which the array of jobs is one.
const JOB_DEPTH: usize = 126;

/// The requests from the bytes of a file, or `None` where the file may have a fault: which one, if
/// any, is for its whole tree to tell.
pub(crate) fn read_one_by_one(alloc: Global, bytes: &[u8]) -> Result<Option<Requests>, AllocError>
    ensures { IfOk result (λ o. IfSome o (AreRequests bytes.now)) }
{
    let Ok(text) = from_utf8(bytes) else {
        return Ok(None);
    };
    let mut scratch = Scratch::new(alloc);
    let mut reader = Reader::new(text, &mut scratch)?;
    let Some(Token::BeginArray) = reader.next() else {
        return Ok(None);
    };
    let Some(requests) = jobs_left(alloc, &mut reader)? else {
        return Ok(None);
    };
    if reader.next().is_some() {
        return Ok(None);
    }
    Ok(Some(requests))
}

/// The requests of the jobs up to the bracket that closes their array.
fn jobs_left(alloc: Global, reader: &mut Reader<'_>) -> Result<Option<Requests>, AllocError>
    ensures read { IfOk result
        (λ o. IfSome o (λ requests. BeginWithJobs reader.old requests reader.new)) }
    ensures within { IfOk result
        (λ o. IfSome o (λ requests. are_within_limits requests ≡ true)) }
{
    let mut requests = Vec::new(alloc);
    'jobs: while !reader.take_end_array() {
        if requests.len() == MOST_REQUESTS {
            return Ok(None);
        }
        match next_job(alloc, reader)? {
            Some(request) => requests.push(packed(alloc, request)?)?,
            None => return Ok(None),
        }
    }
    Ok(Some(Items::from_vec(requests)))
}

/// The request of the job that comes next.
fn next_job(alloc: Global, reader: &mut Reader<'_>) -> Result<Option<Request>, AllocError>
    ensures read { IfOk result
        (λ o. IfSome o (λ request. BeginWithJob reader.old request reader.new)) }
    ensures within { IfOk result (λ o. IfSome o IsRequestWithinLimits) }
    ensures shorter { IfOk result (λ o. IfSome o (λ _. length reader.new < length reader.old)) }
{
    let value = match Borrowed::read(alloc, reader, JOB_DEPTH) {
        Ok(value) => value,
        Err(Error::OutOfMemory) => return Err(AllocError),
        Err(Error::Invalid | Error::TooLong | Error::DuplicateKey) => return Ok(None),
    };
    let tree = tree_of(alloc, &value);
    drop(value);
    let Some(tree) = tree? else {
        return Ok(None);
    };
    match JobShape::read(alloc, tree)? {
        Some(job) => Ok(job.into_request()),
        None => Ok(None),
    }
}
