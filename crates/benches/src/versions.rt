//! Makes a large log, builds the versions of its objects and answers its entries, for
//! `bench/versions`. The words are a shape, how many entries and how many times, as
//! `versions registers 64 1`. It tells on standard error how long versions and answers took.
mod answering;
mod shape;

use crate::inputs::{program_of, report_of, start_of};
use crate::versions::answering::answer_times;
use crate::versions::shape::Shape;
use crate::words::{number, wrong_words};
use object_set::ObjectSet;
use std::io::{self, ErrorKind};

/// The program: a table with a key and one more column.
const PROGRAM: &[u8] = b"table t (k, n);";

/// Does what the words say.
pub fn run(rt: &HostRuntime, words: &[String]) -> io::Result<()> {
    let [shape, entries, times] = words else {
        return wrong_words(rt, "versions SHAPE ENTRIES TIMES");
    };
    let shape = Shape::from_word(shape.as_str()).ok_or(ErrorKind::InvalidInput)?;
    run_shape(
        rt,
        shape,
        number(entries.as_str())?,
        number(times.as_str())?,
    )
}

/// Makes the objects that the logs of this shape start with, and answers them.
fn run_shape(rt: &HostRuntime, shape: Shape, entries: u32, times: u32) -> io::Result<()> {
    let start = start(rt, shape)?;
    let done = run_start(rt, shape, &start, entries, times);
    drop(start);
    done
}

fn start(rt: &HostRuntime, shape: Shape) -> io::Result<ObjectSet> {
    let state = shape.state(rt.alloc())?;
    let program = program_of(rt.alloc(), PROGRAM).ok_or(ErrorKind::InvalidData)?;
    let start = start_of(rt.alloc(), &program, state.as_bytes());
    drop(program);
    start.ok_or(ErrorKind::InvalidData.into())
}

/// Makes the logs, and answers them so many times. The bytes of the report stay, so that what the
/// versions take isn't taken from their place.
fn run_start(
    rt: &HostRuntime,
    shape: Shape,
    start: &ObjectSet,
    entries: u32,
    times: u32,
) -> io::Result<()> {
    let bytes = shape.report(rt.alloc(), entries)?;
    let report = report_of(rt.alloc(), &bytes).ok_or(ErrorKind::InvalidData)?;
    let done = answer_times(rt, start, report.logs.as_slice(), times);
    drop(report);
    done?;
    println!(rt; "entries {entries}, times {times}")
}
