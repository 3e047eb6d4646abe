//! The files of requests and of turns that docs/formats.md shows, and its first job of a self test.

use script_tree::request::{Parameter, Request};
use self_test_jobs::generate;
use std::alloc::{AllocError, Global};
use workload::{Requests, read_requests, read_turns};

/// What a request is to be, with its parameters.
#[derive(Clone, Copy)]
struct Wanted<'a> {
    method: &'a [u8],
    path: &'a [u8],
    parameters: &'a [(&'a [u8], &'a [u8])],
    body: &'a [u8],
}

fn are_parameters(parameters: &[Parameter], wanted: &[(&[u8], &[u8])]) -> bool {
    parameters.len() == wanted.len()
        && parameters.iter().zip(wanted).all(|(parameter, (name, value))| {
            parameter.name.as_bytes() == *name && parameter.value.as_bytes() == *value
        })
}

fn is_wanted(request: &Request, wanted: &Wanted<'_>) -> bool {
    request.method().as_bytes() == wanted.method
        && request.path().as_bytes() == wanted.path
        && are_parameters(request.parameters().as_slice(), wanted.parameters)
        && request.body().as_bytes() == wanted.body
}

/// Whether these are the requests of all jobs.
fn are_wanted(
    alloc: Global,
    requests: &Requests,
    wanted: &[Wanted<'_>],
) -> Result<bool, AllocError> {
    for (request, wanted) in requests.as_slice().iter().zip(wanted) {
        let request = request.unpack(alloc)?;
        if !is_wanted(&request, wanted) {
            return Ok(false);
        }
    }
    Ok(requests.len() == wanted.len())
}

/// Whether the file has these requests.
fn gives(alloc: Global, file: &[u8], wanted: &[Wanted<'_>]) -> Result<bool, AllocError> {
    match read_requests(alloc, file) {
        Ok(requests) => are_wanted(alloc, &requests, wanted),
        Err(_) => Err(AllocError),
    }
}

/// The request of a job that says no more than its path.
fn plain(path: &[u8]) -> Wanted<'_> {
    Wanted {
        method: b"GET",
        path,
        parameters: &[],
        body: b"",
    }
}

#[test]
fn all_members_of_a_job(rt: HostRuntime) {
    let file = b"[{\"body\":\"b\",\"params\":[[\"k\",{\"hex\":\"00ff\"}]],\"method\":\"PUT\",\
        \"path\":\"/a\"},{\"path\":\"/\\u0062\"}]";
    let first = Wanted {
        method: b"PUT",
        path: b"/a",
        parameters: &[(b"k", b"\x00\xff")],
        body: b"b",
    };
    assert!(rt; gives(rt.alloc(), file, &[first, plain(b"/b")]).unwrap_or(false));
}

/// The seats of a file of turns.
fn are_seats(alloc: Global, file: &[u8], seats: &[u8]) -> bool {
    let Ok(turns) = read_turns(alloc, file) else {
        return false;
    };
    let turns = turns.as_slice();
    turns.len() == seats.len()
        && turns
            .iter()
            .zip(seats)
            .all(|(turn, seat)| turn.seat() == *seat)
}

#[test]
fn first_and_last_seat(rt: HostRuntime) {
    assert!(rt; are_seats(rt.alloc(), b"[0,15]", &[0, 15]));
}

fn first_draw_is_wanted(alloc: Global) -> Result<bool, AllocError> {
    are_wanted(alloc, &generate(alloc, 1)?, &[plain(b"/hit")])
}

#[test]
fn first_draw(rt: HostRuntime) {
    assert!(rt; first_draw_is_wanted(rt.alloc()).unwrap_or(false));
}
