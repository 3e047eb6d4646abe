//! Runs the rows of the files that lie beside it, lines of words, programs that are checked, replays,
//! recordings and audits, each over memory, and tells those that end in another way than the row says.
#![tactic(auto)]

mod clock;
mod failing;
mod row;
mod runs;
mod spelled;
mod tally;

use crate::failing::wrong_call;
use crate::row::Row;
use crate::runs::{Kind, checked, ended};
use crate::tally::{Tally, told};
use std::fs;
use std::io::{self, ErrorKind};
use std::sync::Wait;
use std::thread::Threads;

/// The files of rows.
const WORDS: &str = "words.txt";

const CHECKS: &str = "checks.txt";

const REPLAYS: &str = "replays.txt";

const RECORDS: &str = "records.txt";

const AUDITS: &str = "audits.txt";

fn main(rt: HostRuntime) -> io::Result<()> {
    run_rows(&rt, &rt, WORDS, Kind::Words)?;
    run_checks(&rt, &rt, &fs::read_to_string(&rt, CHECKS)?)?;
    run_rows(&rt, &rt, REPLAYS, Kind::Replay)?;
    run_rows(&rt, &rt, RECORDS, Kind::Record)?;
    run_rows(&rt, &rt, AUDITS, Kind::Audit)
}

/// Runs the programs that are checked: a line each, with its end before the program.
fn run_checks<R: Threads + Wait + Sync>(
    threads: &R,
    rt: &HostRuntime,
    text: &str,
) -> io::Result<()> {
    let mut tally = Tally::new();
    for line in text.lines() {
        if let Some((ends, program)) = line.split_once(" |")
            && !line.starts_with('#')
        {
            let program = program.strip_prefix(' ').unwrap_or(program);
            let ended = told(rt.alloc(), checked(threads, rt.alloc(), program))?;
            tally.count(rt, program, ends, ended.as_str())?;
        }
    }
    tally.tell(rt, CHECKS)
}

/// Runs the rows of a file: a paragraph each.
fn run_rows<R: Threads + Wait + Sync>(
    threads: &R,
    rt: &HostRuntime,
    file: &str,
    kind: Kind,
) -> io::Result<()> {
    let text = fs::read_to_string(rt, file)?;
    let mut tally = Tally::new();
    for paragraph in text.as_str().split("\n\n") {
        let row = read_row(rt, paragraph)?;
        if let Some(name) = row.field("row") {
            let ended = row_told(threads, rt, kind, row)?;
            tally.count(rt, name, row.said("ends"), ended.as_str())?;
        }
    }
    tally.tell(rt, file)
}

fn read_row<'a>(rt: &HostRuntime, paragraph: &'a str) -> io::Result<Row<'a>> {
    match Row::new(paragraph) {
        Ok(row) => Ok(row),
        Err(line) => {
            eprintln!(rt; "no row has this line: {line}")?;
            Err(ErrorKind::InvalidData.into())
        }
    }
}

/// What a row comes to.
fn row_told<R: Threads + Wait + Sync>(
    threads: &R,
    rt: &HostRuntime,
    kind: Kind,
    row: Row<'_>,
) -> io::Result<String> {
    Ok(told(rt.alloc(), row_ended(threads, rt, kind, row))?)
}

/// How it ends, and which call, where it fails, doesn't end it as it should.
fn row_ended<R: Threads + Wait + Sync>(
    threads: &R,
    rt: &HostRuntime,
    kind: Kind,
    row: Row<'_>,
) -> io::Result<String> {
    let ended = ended(threads, rt, kind, row)?;
    match wrong_call(threads, rt, kind, row)? {
        Some(call) => Ok(format!(in rt.alloc(); "{ended}, and another end at {call}")?),
        None => Ok(ended),
    }
}
