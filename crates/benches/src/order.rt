//! Makes a large report, checks it and orders its events, for `bench/order`. The words are its
//! shape, a number of requests and how many times, as `order rounds_of_16 64 1`. It prints what came
//! of it, and tells on standard error how long that took.
ghost use Rattle.period.specs.Traces.{IsBalanced};

mod answer;
mod shape;

use crate::inputs::{report_of, trace_of};
use crate::order::answer::{answer_length, indexed};
use crate::order::shape::Shape;
use crate::words::{number, wrong_words};
use period::report::Report;
use std::io::{self, ErrorKind};
use std::time::{Duration, Instant};
use trace_format::trace_file::TraceFile;
use trace_index::IndexedTrace;

/// Does what the words say.
pub fn run(rt: &HostRuntime, words: &[String]) -> io::Result<()> {
    let [shape, requests, times] = words else {
        return wrong_words(rt, "order SHAPE REQUESTS TIMES");
    };
    let shape = Shape::from_word(shape.as_str()).ok_or(ErrorKind::InvalidInput)?;
    run_shape(
        rt,
        shape,
        number(requests.as_str())?,
        number(times.as_str())?,
    )
}

/// Makes a report and its trace, and orders its events so many times. The bytes of the report stay,
/// so that what ordering takes isn't taken from their place.
fn run_shape(rt: &HostRuntime, shape: Shape, requests: u32, times: u32) -> io::Result<()> {
    let bytes = shape.report(rt.alloc(), requests)?;
    let report = report_of(rt.alloc(), &bytes).ok_or(ErrorKind::InvalidData)?;
    let done = run_report(rt, shape, requests, &report, times);
    drop(report);
    done
}

fn run_report(
    rt: &HostRuntime,
    shape: Shape,
    requests: u32,
    report: &Report,
    times: u32,
) -> io::Result<()> {
    let bytes = shape.trace(rt.alloc(), requests)?;
    let trace = trace_of(rt.alloc(), bytes).ok_or(ErrorKind::InvalidData)?;
    let done = run_trace(rt, &trace, report, times);
    drop(trace);
    done
}

fn run_trace(rt: &HostRuntime, trace: &TraceFile, report: &Report, times: u32) -> io::Result<()> {
    let trace = indexed(rt.alloc(), trace).ok_or(ErrorKind::InvalidData)?;
    let done = order_times(rt, &trace, report, times);
    drop(trace);
    done
}

/// Checks a report and orders its events so many times, and tells what it came to and how long that
/// took.
fn order_times(
    rt: &HostRuntime,
    trace: &IndexedTrace<'_>,
    report: &Report,
    times: u32,
) -> io::Result<()>
    requires { IsBalanced trace.now }
{
    let (mut took, mut length) = (Duration::ZERO, 0);
    for _ in 0..times {
        let start = Instant::now(rt)?;
        length = answer_length(rt.alloc(), trace, report)?;
        took = took.saturating_add(start.elapsed(rt)?);
    }
    println!(rt;
        "events {}, times {times}, answer of {length} nodes",
        trace.len()
    )?;
    eprintln!(rt; "nanoseconds {}", took.as_nanos())
}
