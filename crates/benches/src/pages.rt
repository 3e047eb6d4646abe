//! Runs a page so many times and tells the steps of all runs, for `bench/machine`. The words are the
//! engine, the program's file, the page's path and how many times, as `machine hit /hit 3`. Each
//! operation is answered with null.
mod engine;
mod request;

use crate::inputs::program_of;
use crate::pages::engine::{steps_by_machine, steps_by_walker};
use crate::words::{number, wrong_words};
use script_check::program::Program;
use std::alloc::Global;
use std::fs;
use std::io::{self, ErrorKind};

/// Does what the words say.
pub fn run(rt: &HostRuntime, words: &[String]) -> io::Result<()> {
    let [engine, file, path, times] = words else {
        return wrong_words(rt, "pages machine|walker FILE PATH TIMES");
    };
    let times = number(times.as_str())?;
    let text = fs::read(rt, file.as_str())?;
    let steps = steps(rt.alloc(), engine.as_str(), &text, path.as_str(), times)?;
    println!(rt; "steps {steps}")
}

/// The steps of so many runs of the page of this path of the program that this text spells.
fn steps(alloc: Global, engine: &str, text: &[u8], path: &str, times: u32) -> io::Result<u64> {
    let program = program_of(alloc, text).ok_or(ErrorKind::InvalidData)?;
    let steps = steps_by(alloc, engine, &program, path, times);
    drop(program);
    steps
}

/// The same by the engine of this name, where there is one.
fn steps_by(
    alloc: Global,
    engine: &str,
    program: &Program,
    path: &str,
    times: u32,
) -> io::Result<u64> {
    match engine {
        "machine" => Ok(steps_by_machine(alloc, program, path, times)?),
        "walker" => Ok(steps_by_walker(alloc, program, path, times)?),
        _ => Err(ErrorKind::InvalidInput.into()),
    }
}
