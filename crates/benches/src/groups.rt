//! Runs the groups of a report in two forms, the members of each at once, as an audit does, and one
//! after the other, and compares what comes of the two, for `bench/plain`. The words are the files of
//! an audit, program, state, trace and report, and how many times. It prints what came of it, and
//! tells on standard error how long each form took.
ghost use Rattle.object_set.specs.ObjectSets.{IsSetOf};

mod comparison;

use crate::groups::comparison::Comparison;
use crate::inputs::{program_of, report_of, start_of, trace_of};
use crate::words::{number, wrong_words};
use group_runner::Evidence;
use log_checker::check_logs;
use object_set::ObjectSet;
use period::report::Report;
use script_check::program::Program;
use script_code::translate::{Code, translate};
use std::fs;
use std::io::{self, ErrorKind};
use trace_format::trace_file::TraceFile;
use trace_index::IndexedTrace;
use versioned_store::fitting::fit_logs;

/// The files of an audit but its program, and how many times groups are run.
#[derive(Clone, Copy)]
struct Job<'w> {
    state: &'w str,
    trace: &'w str,
    report: &'w str,
    times: u32,
}

/// Does what the words say.
pub fn run(rt: &HostRuntime, words: &[String]) -> io::Result<()> {
    let [program, state, trace, report, times] = words else {
        return wrong_words(rt, "groups PROGRAM STATE TRACE REPORT TIMES");
    };
    let job = Job {
        state: state.as_str(),
        trace: trace.as_str(),
        report: report.as_str(),
        times: number(times.as_str())?,
    };
    let text = fs::read(rt, program.as_str())?;
    let program = program_of(rt.alloc(), &text).ok_or(ErrorKind::InvalidData)?;
    let done = run_program(rt, job, &program);
    drop(program);
    done
}

/// Runs the groups of these files where the program is this.
fn run_program(rt: &HostRuntime, job: Job<'_>, program: &Program) -> io::Result<()> {
    let state = fs::read(rt, job.state)?;
    let start = start_of(rt.alloc(), program, &state).ok_or(ErrorKind::InvalidData)?;
    let done = run_start(rt, job, program, &start);
    drop(start);
    done
}

/// The same where the state is this, too.
fn run_start(rt: &HostRuntime, job: Job<'_>, program: &Program, start: &ObjectSet) -> io::Result<()>
    requires { IsSetOf program.now start.now }
{
    let bytes = fs::read(rt, job.trace)?;
    let trace = trace_of(rt.alloc(), bytes).ok_or(ErrorKind::InvalidData)?;
    let done = run_trace(rt, job, program, start, &trace);
    drop(trace);
    done
}

/// The same where the trace is this, too.
fn run_trace(
    rt: &HostRuntime,
    job: Job<'_>,
    program: &Program,
    start: &ObjectSet,
    trace: &TraceFile,
) -> io::Result<()>
    requires { IsSetOf program.now start.now }
{
    let bytes = fs::read(rt, job.report)?;
    let report = report_of(rt.alloc(), &bytes).ok_or(ErrorKind::InvalidData)?;
    let trace = IndexedTrace::new(rt.alloc(), trace)?;
    let done = run_report(rt, job, program, start, &trace, &report);
    drop(trace);
    drop(report);
    done
}

/// Runs the groups of a report whose counts and logs have no fault.
fn run_report(
    rt: &HostRuntime,
    job: Job<'_>,
    program: &Program,
    start: &ObjectSet,
    trace: &IndexedTrace<'_>,
    report: &Report,
) -> io::Result<()>
    requires { IsSetOf program.now start.now }
{
    if !fit_logs(start, report.logs.as_slice()) {
        return Err(ErrorKind::InvalidData.into());
    }
    let map = check_logs(rt.alloc(), start, trace, report).ok();
    let map = map.ok_or(ErrorKind::InvalidData)?;
    let evidence = Evidence::gather(rt.alloc(), trace, start, report, &map)?;
    let done = run_evidence(rt, program, &evidence, job.times);
    drop(evidence);
    drop(map);
    done
}

/// Runs the groups of the evidence.
fn run_evidence(
    rt: &HostRuntime,
    program: &Program,
    evidence: &Evidence<'_>,
    times: u32,
) -> io::Result<()> {
    let code = translate(rt.alloc(), program)?;
    let done = compare(rt, &code, evidence, times);
    drop(code);
    done
}

/// Runs the groups so many times, and tells what came of it.
fn compare(rt: &HostRuntime, code: &Code, evidence: &Evidence<'_>, times: u32) -> io::Result<()> {
    let mut comparison = Comparison::new(rt.alloc());
    for _ in 0..times {
        comparison.run_both(rt, code, evidence)?;
    }
    comparison.tell(rt, evidence.groups().len())
}
