//! `script_check`: what the index of a small program finds.

use basis::OrMemory;
use script_check::fault::CheckFault;
use script_check::lookup::Index;
use script_check::program::{Program, check};
use script_syntax::parse::parse;
use std::alloc::Global;

/// The program of a text without faults of syntax.
pub(crate) fn program(alloc: Global, text: &[u8]) -> Result<Program, OrMemory<CheckFault>> {
    match parse(alloc, text) {
        Ok(tree) => check(alloc, tree),
        Err(_) => Err(OrMemory::Memory),
    }
}

/// Whether the index finds a page, a function and a table.
fn finds_each(alloc: Global, program: &Program) -> bool {
    match Index::new(alloc, program) {
        Ok(index) => {
            index.page(b"/a").is_some()
                && index.function(b"f").is_some()
                && index.table(b"t").is_some()
                && index.page(b"/").is_none()
        }
        Err(_) => false,
    }
}

/// Whether the index of the program of this text finds each of these.
fn is_indexed(alloc: Global, text: &[u8]) -> bool {
    match program(alloc, text) {
        Ok(program) => finds_each(alloc, &program),
        Err(_) => false,
    }
}

#[test]
fn an_index(rt: HostRuntime) {
    let text = b"table t (k, v); function f(x) { return x; } page \"/a\" { echo f(1); }";
    assert!(rt; is_indexed(rt.alloc(), text));
}
