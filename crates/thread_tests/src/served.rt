//! The jobs of a page that counts, served by some workers.

use crate::programs::{hit, jobs};
use claims::Workers;
use history::History;
use object_set::ObjectSet;
use outside::{FixedClock, Gate, OpenGate};
use script_check::program::Program;
use server_workers::serve_jobs;
use std::alloc::{AllocError, Global};
use std::sync::Wait;
use std::thread::Threads;

const SIX: &[u8] = b"[{\"path\":\"/hit\"},{\"path\":\"/hit\"},{\"path\":\"/hit\"},\
    {\"path\":\"/hit\"},{\"path\":\"/hit\"},{\"path\":\"/hit\"}]";

/// What happens to the jobs of a file.
pub(crate) fn history<R: Threads + Wait + Sync, G: Gate + Sync>(
    rt: &R,
    alloc: Global,
    file: &[u8],
    workers: u32,
    gate: &G,
) -> Result<History, AllocError> {
    let workers = Workers::new(workers).ok_or(AllocError)?;
    let program = hit(alloc)?;
    let history = history_of(rt, alloc, &program, file, workers, gate);
    drop(program);
    history
}

/// The same of this program.
fn history_of<R: Threads + Wait + Sync, G: Gate + Sync>(
    rt: &R,
    alloc: Global,
    program: &Program,
    file: &[u8],
    workers: Workers,
    gate: &G,
) -> Result<History, AllocError> {
    let jobs = jobs(alloc, file)?;
    let clock = FixedClock(5);
    let history = History::new(alloc);
    match ObjectSet::new(alloc, program.declarations()) {
        Ok(start) => serve_jobs(
            rt, alloc, program, start, jobs, workers, 7, &clock, gate, history,
        ),
        Err(AllocError) => {
            drop(jobs);
            drop(history);
            Err(AllocError)
        }
    }
}

/// Whether so many workers serve six jobs, each with four happenings.
fn serves_six<R: Threads + Wait + Sync>(
    rt: &R,
    alloc: Global,
    workers: u32,
) -> Result<bool, AllocError> {
    let history = history(rt, alloc, SIX, workers, &OpenGate)?;
    Ok(history.len() == 24)
}

#[test]
fn one_worker_serves_all(rt: HostRuntime) {
    assert!(rt; serves_six(&rt, rt.alloc(), 1).unwrap_or(false));
}

#[test]
fn four_workers_serve_all(rt: HostRuntime) {
    assert!(rt; serves_six(&rt, rt.alloc(), 4).unwrap_or(false));
}

#[test]
fn sixteen_workers_serve_all(rt: HostRuntime) {
    assert!(rt; serves_six(&rt, rt.alloc(), 16).unwrap_or(false));
}
