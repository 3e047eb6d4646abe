//! What the parts are run on.
ghost use Rattle.std.specs.Prelude.{IfSome};
ghost use Rattle.object_set.specs.ObjectSets.{IsSetOf};

use object_set::ObjectSet;
use period::report::Report;
use report_format::decoding::decode;
use script_check::program::{Program, check};
use script_syntax::parse::parse;
use state_file::read_state;
use std::alloc::Global;
use trace_format::trace_file::TraceFile;

/// The program that this text spells.
pub fn program_of(alloc: Global, text: &[u8]) -> Option<Program> {
    let tree = parse(alloc, text).ok()?;
    check(alloc, tree).ok()
}

/// The objects that the program starts with, as a state spells them.
pub fn start_of(alloc: Global, program: &Program, state: &[u8]) -> Option<ObjectSet>
    ensures { IfSome result (IsSetOf program.now) }
{
    read_state(alloc, program, state).ok()
}

/// The trace of these bytes.
pub fn trace_of(alloc: Global, bytes: Vec<u8>) -> Option<TraceFile> {
    TraceFile::read(alloc, bytes).ok()
}

/// The report of these bytes.
pub fn report_of(alloc: Global, bytes: &[u8]) -> Option<Report> {
    decode(alloc, bytes).ok()
}
