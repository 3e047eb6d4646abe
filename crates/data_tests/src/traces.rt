//! `trace_format`: the examples of docs/formats.md.

use period::trace::TraceEvent;
use script_tree::request::Request;
use std::alloc::{AllocError, Global};
use trace_format::appending::{add_request, add_response, begin};
use trace_format::decoding::decode;
use trace_format::encoding::encode;
use trace_format::packed::PackedRequest;
use trace_format::trace_file::TraceFile;

/// A request GET `/e`, answered with status 200 and body `3`.
const FILE: &[u8; 54] = b"SSCOTRC1\x00\x00\x00\x1a\x01\x00\x00\x00\x00\
    \x00\x00\x00\x03GET\x00\x00\x00\x02/e\x00\x00\x00\x00\x00\x00\x00\x00\
    \x00\x00\x00\x0c\x02\x00\x00\x00\x00\x00\xc8\x00\x00\x00\x013";

/// A request 1 with the method `P`, the path `/`, the parameter k=`v` and the body `b`.
const PARAMETER: &[u8; 46] = b"SSCOTRC1\x00\x00\x00\x22\x01\x00\x00\x00\x01\
    \x00\x00\x00\x01P\x00\x00\x00\x01/\x00\x00\x00\x01\
    \x00\x00\x00\x01k\x00\x00\x00\x01v\x00\x00\x00\x01b";

/// Whether what the file spells is encoded as the file.
fn is_encoded_again(alloc: Global, file: &[u8]) -> bool {
    match decode(alloc, file) {
        Ok(trace) => match encode(alloc, &trace) {
            Ok(bytes) => bytes.as_slice() == file,
            Err(_) => false,
        },
        Err(_) => false,
    }
}

fn is_the_request(event: &TraceEvent) -> bool {
    match event {
        TraceEvent::Asked(0, request) => {
            request.method().as_bytes() == b"GET".as_slice()
                && request.path().as_bytes() == b"/e".as_slice()
                && request.parameters().is_empty()
                && request.body().is_empty()
        }
        _ => false,
    }
}

fn is_the_response(event: &TraceEvent) -> bool {
    match event {
        TraceEvent::Answered(0, response) => {
            response.status == 200 && response.body.as_bytes() == b"3".as_slice()
        }
        _ => false,
    }
}

/// Whether this event alone has a parameter k=`v`.
fn has_the_parameter(event: &TraceEvent) -> bool {
    match event {
        TraceEvent::Asked(1, request) => match request.parameters().as_slice() {
            [parameter] => {
                parameter.name.as_bytes() == b"k".as_slice()
                    && parameter.value.as_bytes() == b"v".as_slice()
                    && request.body().as_bytes() == b"b".as_slice()
            }
            _ => false,
        },
        _ => false,
    }
}

fn is_the_example(events: &[TraceEvent]) -> bool {
    match events {
        [asked, answered] => is_the_request(asked) && is_the_response(answered),
        [only] => has_the_parameter(only),
        _ => false,
    }
}

fn has_the_example(alloc: Global, file: &[u8]) -> bool {
    match decode(alloc, file) {
        Ok(trace) => is_the_example(trace.as_slice()),
        Err(_) => false,
    }
}

#[test]
fn files_of_the_examples(rt: HostRuntime) {
    assert!(rt; has_the_example(rt.alloc(), FILE) && is_encoded_again(rt.alloc(), FILE));
    assert!(rt; has_the_example(rt.alloc(), PARAMETER) && is_encoded_again(rt.alloc(), PARAMETER));
}

/// Adds an event at the end of a file; a request by its packed form.
fn add(alloc: Global, file: &mut Vec<u8>, event: &TraceEvent) -> Result<(), AllocError> {
    match event {
        TraceEvent::Asked(rid, request) => {
            let packed = PackedRequest::pack(alloc, request)?;
            add_request(file, *rid, &packed)
        }
        TraceEvent::Answered(rid, response) => add_response(file, *rid, response),
    }
}

/// A file of the same events, added one after another.
fn grown(alloc: Global, events: &[TraceEvent]) -> Result<Vec<u8>, AllocError> {
    let mut file = begin(alloc)?;
    for event in events {
        add(alloc, &mut file, event)?;
    }
    Ok(file)
}

fn grows_again(alloc: Global, file: &[u8]) -> bool {
    match decode(alloc, file) {
        Ok(trace) => is_file(grown(alloc, trace.as_slice()), file),
        Err(_) => false,
    }
}

fn is_file(found: Result<Vec<u8>, AllocError>, file: &[u8]) -> bool {
    match found {
        Ok(bytes) => bytes.as_slice() == file,
        Err(_) => false,
    }
}

#[test]
fn a_file_that_grows(rt: HostRuntime) {
    assert!(rt; grows_again(rt.alloc(), FILE));
}

fn unpacked(alloc: Global, request: &Request) -> Result<Request, AllocError> {
    let packed = PackedRequest::pack(alloc, request)?;
    packed.unpack(alloc)
}

/// Whether an event is the example's request, which is packed and unpacked.
fn is_kept(alloc: Global, event: &TraceEvent) -> bool {
    match event {
        TraceEvent::Asked(rid, request) => match unpacked(alloc, request) {
            Ok(request) => is_the_request(&TraceEvent::Asked(*rid, request)),
            Err(_) => false,
        },
        TraceEvent::Answered(..) => false,
    }
}

fn first_is_kept(alloc: Global, file: &TraceFile) -> bool {
    if file.len() == 0 {
        return false;
    }
    match file.event(alloc, 0) {
        Ok(event) => is_kept(alloc, &event),
        Err(_) => false,
    }
}

fn reads_one(alloc: Global, file: Vec<u8>) -> bool {
    match TraceFile::read(alloc, file) {
        Ok(file) => first_is_kept(alloc, &file),
        Err(_) => false,
    }
}

#[test]
fn an_event_of_a_file(rt: HostRuntime) {
    match FILE.to_vec(rt.alloc()) {
        Ok(file) => assert!(rt; reads_one(rt.alloc(), file)),
        Err(_) => assert!(rt; false, "memory"),
    }
}
