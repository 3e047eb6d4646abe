ghost use Rattle.std.specs.Prelude.{◌≡◌, true, IfOk};
ghost use Rattle.std.specs.Option.{SomeIff};
ghost use Rattle.basis.specs.UnlessMemory.{UnlessMemory};
ghost use Rattle.std.specs.List.{list_all};
ghost use Rattle.script_tree.specs.Requests.{is_request_within_limits};
ghost use Rattle.workload.specs.Jobs.{are_within_limits};
ghost use Rattle.workload.specs.Files.{AreRequests, HasRequestsFault};

use crate::fault::WorkFault;
use crate::job::{Job, JobShape};
use crate::one_by_one::read_one_by_one;
use basis::{Items, OrMemory};
use json_texts::shape::array_of;
use json_texts::{NotJson, read_json};
use script_tree::limits::MOST_REQUESTS;
use script_tree::request::Request;
use std::alloc::{AllocError, Global};
use trace_format::packed::PackedRequest;

/// The requests of the jobs of a server, in order.
pub type Requests = Items<PackedRequest>;

/// The requests from the bytes of a file.
pub fn read_requests(alloc: Global, bytes: &[u8]) -> Result<Requests, OrMemory<WorkFault>>
    ensures { UnlessMemory (AreRequests bytes.now) (HasRequestsFault bytes.now) result }
{
    match read_one_by_one(alloc, bytes)? {
        Some(requests) => Ok(requests),
        None => read_whole(alloc, bytes),
    }
}

/// The same from the tree of the whole file, which takes much memory where there are many jobs.
fn read_whole(alloc: Global, bytes: &[u8]) -> Result<Requests, OrMemory<WorkFault>>
    ensures { UnlessMemory (AreRequests bytes.now) (HasRequestsFault bytes.now) result }
{
    let json = match read_json(alloc, bytes) {
        Ok(json) => json,
        Err(OrMemory::Memory) => return Err(OrMemory::Memory),
        Err(OrMemory::Other(NotJson)) => return Err(OrMemory::Other(WorkFault::NotJson)),
    };
    let Some(jobs) = array_of::<JobShape>(alloc, json)? else {
        return Err(OrMemory::Other(WorkFault::OtherShape));
    };
    match requests_of(alloc, jobs)? {
        Some(requests) => Ok(requests),
        None => Err(OrMemory::Other(WorkFault::BeyondLimit)),
    }
}

/// The requests of jobs, or `None` where something passes a limit.
fn requests_of(alloc: Global, jobs: Items<Job>) -> Result<Option<Requests>, AllocError>
    ensures { IfOk result (λ o. SomeIff o (are_within_limits jobs ≡ true) jobs) }
{
    if jobs.len() > MOST_REQUESTS {
        return Ok(None);
    }
    all_requests(alloc, jobs.into_vec())
}

fn all_requests(alloc: Global, jobs: Vec<Job>) -> Result<Option<Requests>, AllocError>
    ensures { IfOk result
        (λ o. SomeIff o (list_all is_request_within_limits jobs.items ≡ true) jobs.items) }
{
    let mut requests = Vec::with_capacity(alloc, jobs.len())?;
    for job in jobs {
        match job.into_request() {
            Some(request) => requests.push(packed(alloc, request)?)?,
            None => return Ok(None),
        }
    }
    Ok(Some(Items::from_vec(requests)))
}

/// The request in one piece of memory; the one with many is let go.
pub(crate) fn packed(alloc: Global, request: Request) -> Result<PackedRequest, AllocError>
    ensures { IfOk result (λ packed. packed ≡ request) }
{
    let packed = PackedRequest::pack(alloc, &request);
    drop(request);
    packed
}
