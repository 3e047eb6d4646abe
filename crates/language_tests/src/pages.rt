//! `page_walker`: pages with a loop, a call and operations.

use crate::programs::program;
use page_walker::{Walker, WalkerStep};
use script_check::lookup::Index;
use script_check::program::Program;
use script_tree::operation::{Act, Object, Op};
use script_tree::path::{End, Path};
use script_tree::request::{Parameters, Request};
use script_tree::text::Text;
use script_tree::value::Value;
use std::alloc::{AllocError, Global};

const TEXT: &[u8; 121] = b"function more(x) { return x + 40; } \
    page \"/p\" { let i = 0; while i < 3 { set i = i + 1; } echo more(i); echo read(\"r\"); }";

/// The example page of docs/language.md.
const HIT: &[u8; 107] = b"page \"/p\" { let n = read(\"hits\"); if n == null { set n = 0; } \
    set n = n + 1; do write(\"hits\", n); echo n; }";

/// What the page of a program does next after these answers.
fn step(alloc: Global, text: &[u8], answers: &[Value]) -> Result<WalkerStep, AllocError> {
    let Ok(program) = program(alloc, text) else {
        return Err(AllocError);
    };
    let next = next(alloc, &program, answers);
    drop(program);
    next
}

fn next(alloc: Global, program: &Program, answers: &[Value]) -> Result<WalkerStep, AllocError> {
    let Some(request) = request(alloc) else {
        return Err(AllocError);
    };
    let next = match Index::new(alloc, program) {
        Ok(index) => {
            let next = Walker::new(&index, &request).next(alloc, answers);
            drop(index);
            next
        }
        Err(AllocError) => Err(AllocError),
    };
    drop(request);
    next
}

fn empty(alloc: Global) -> Text {
    Text::from_vec(Vec::new(alloc))
}

fn request(alloc: Global) -> Option<Request> {
    let path = Text::from_vec(b"/p".to_vec(alloc).ok()?);
    Request::new(empty(alloc), path, Parameters::new(alloc), empty(alloc))
}

fn is_read(op: &Op) -> bool {
    match (&op.object, &op.act) {
        (Object::Register(name), Act::Read) => name.as_bytes() == b"r".as_slice(),
        _ => false,
    }
}

fn wants_a_read(step: Result<WalkerStep, AllocError>) -> bool {
    match step {
        Ok(WalkerStep::Wants(op)) => is_read(&op),
        Ok(WalkerStep::Ends(..)) | Err(_) => false,
    }
}

#[test]
fn an_operation_is_wanted(rt: HostRuntime) {
    assert!(rt; wants_a_read(step(rt.alloc(), TEXT, &[])));
}

/// Whether a request that is answered so ends well by a path of these decisions and steps.
fn ends(step: Result<WalkerStep, AllocError>, body: &[u8], decisions: &[bool], steps: u32) -> bool {
    match step {
        Ok(WalkerStep::Ends(response, path)) => {
            response.body.as_bytes() == body && is_path(&path, decisions, steps)
        }
        Ok(WalkerStep::Wants(_)) | Err(_) => false,
    }
}

fn is_path(path: &Path, decisions: &[bool], steps: u32) -> bool {
    path.decisions.as_slice() == decisions && path.steps == steps && path.end == End::Normal
}

#[test]
fn a_loop_a_call_and_a_read(rt: HostRuntime) {
    let step = step(rt.alloc(), TEXT, &[Value::number(7)]);
    assert!(rt; ends(step, b"437", &[true, true, true, false], 40));
}

#[test]
fn the_first_hit(rt: HostRuntime) {
    let step = step(rt.alloc(), HIT, &[Value::null(), Value::null()]);
    assert!(rt; ends(step, b"1", &[true], 19));
}
