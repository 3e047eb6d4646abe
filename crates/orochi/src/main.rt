//! The program: does what its words ask, and ends with the status.
#![tactic(auto)]

ghost use Rattle.std.specs.Prelude.{◌≡◌, IfOk, OnErr};
ghost use Rattle.orochi.specs.declared.TheConstants.{NOT_BEGUN};

use command_words::Words;
use commands::run::run;
use outside::{MemHouse, OpenGate};
use outside_os::{FileShelf, StdSink, SystemClock};
use std::io::ErrorKind;
use std::process::ExitCode;
use std::sync::Wait;
use std::thread::{Builder, Threads};
use std::{env, io};

/// The status where the program had no memory or no thread to begin with.
const NOT_BEGUN: u8 = 5;

/// How many bytes of stack the program has, enough for the deepest run: docs/speed.md. Only those
/// that are touched take memory.
const STACK_BYTES: usize = 268_435_456;

fn main(rt: HostRuntime) -> ExitCode {
    let on_large_stack = || -> io::Result<u8> {
        let (threads, inner) = two_of(&rt)?;
        let work = Builder::new()
            .stack_size(STACK_BYTES)
            .spawn(&rt, move || exit_status(status_of(&threads, inner)))?;
        Ok(work.join(&rt))
    };
    ExitCode::from(exit_status(on_large_stack()))
}

/// The runtime, once for threads and once for all else.
fn two_of(rt: &HostRuntime) -> io::Result<(HostRuntime, HostRuntime)> {
    Ok((rt.clone()?, rt.clone()?))
}

/// The status of the program, where what was asked ended so, or did not begin.
fn exit_status(outcome: io::Result<u8>) -> u8
    ensures asked { IfOk outcome (λ status. result ≡ status) }
    ensures not_begun { OnErr outcome (result ≡ NOT_BEGUN) }
{
    outcome.unwrap_or(NOT_BEGUN)
}

/// The words after the program's name. There are none where one isn't UTF-8, which asks for the usage.
fn words_of(rt: &HostRuntime) -> io::Result<Words> {
    match env::args(rt) {
        Ok(args) => Ok(Words::behind_name(rt.alloc(), args)?),
        Err(error) if error.kind() == ErrorKind::InvalidData => Ok(Words::new(rt.alloc())),
        Err(error) => Err(error),
    }
}

/// The status of what the words ask, with the system's files, standard output and clock.
fn status_of<R: Threads + Wait + Sync>(threads: &R, rt: HostRuntime) -> io::Result<u8> {
    let alloc = rt.alloc();
    let words = words_of(&rt)?;
    let mut out = StdSink::new(rt.stdout());
    let clock = SystemClock::new(rt.clone()?);
    let mut shelf = FileShelf::new(rt);
    let mut house = MemHouse::new(alloc, Vec::new(alloc), Vec::new(alloc));
    Ok(run(
        threads, alloc, &words, &mut shelf, &mut out, &mut house, &clock, &OpenGate,
    ))
}
