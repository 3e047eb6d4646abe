//! The run of a row.
use crate::clock::SteppingClock;
use crate::row::{Row, number_of, parted, text_of};
use crate::spelled::{bytes_of, schedule_of, trace_of};
use command_words::Words;
use commands::run::run;
use outside::{MemHouse, MemShelf, MemSink, OpenGate};
use std::alloc::{AllocError, Global};
use std::fs;
use std::io::{self, ErrorKind};
use std::sync::Wait;
use std::thread::Threads;

/// The names of the files of a run.
const PROGRAM: &str = "program";

const STATE: &str = "state";

const TRACE: &str = "trace";

const SCHEDULE: &str = "schedule";

const REQUESTS: &str = "requests";

const TURNS: &str = "turns";

const REPORT: &str = "report";

/// The folder of a row's inputs.
const FILES: &str = "files";

/// How many workers a row's recording has.
const WORKERS: &str = "workers";

/// How often a row is run.
const TIMES: &str = "times";

/// The inputs of a recording, with the names of their files in a folder.
const INPUTS: [(&str, &str); 4] = [
    (PROGRAM, "program.txt"),
    (STATE, "state.json"),
    (REQUESTS, "requests.json"),
    (TURNS, "turns.json"),
];

/// The words of each command over these files.
const CHECKING: &str = "check program";

const REPLAYING: &str = "replay program state trace schedule";

const RECORDING: &str = "record program state requests trace report";

const AUDITING: &str = "audit program state trace report schedule";

/// The words of a row's run, where it says them.
const WORDS: &str = "words";

/// The state where a row says none.
const NOTHING_STORED: &str = "{}";

/// What the rows of a file tell.
#[derive(Clone, Copy)]
pub enum Kind {
    Words,
    Replay,
    Record,
    Audit,
}

/// The files that a run writes, in their order.
pub fn outputs_of(kind: Kind) -> &'static [&'static str] {
    match kind {
        Kind::Words | Kind::Replay => &[],
        Kind::Record => &[TRACE, REPORT],
        Kind::Audit => &[SCHEDULE],
    }
}

/// A run of the program: its words, what its clock shows at first, and how much more each time.
#[derive(Drop)]
pub struct Run {
    words: Words,
    clock: u64,
    step: u64,
}

/// The words of a line, parted by one blank each: two blanks stand round an empty word.
fn words_of(alloc: Global, line: &str) -> Result<Words, AllocError> {
    let mut words = Words::new(alloc);
    if !line.is_empty() {
        for word in line.split(' ') {
            words.push(word)?;
        }
    }
    Ok(words)
}

/// The line of a recording.
fn recording_line(alloc: Global, row: Row<'_>) -> Result<String, AllocError> {
    let seed = row.field("seed").unwrap_or("0");
    if let Some(workers) = row.field(WORKERS) {
        return format!(in alloc; "{RECORDING} --seed {seed} --workers {workers}");
    }
    if row.field(TURNS).is_some() || row.field(FILES).is_some() {
        return format!(in alloc; "{RECORDING} --seed {seed} --turns {TURNS}");
    }
    format!(in alloc; "{RECORDING} --seed {seed}")
}

/// What a line of a row's clock says, or 0.
fn reading_of(row: Row<'_>, key: &str) -> io::Result<u64> {
    let said = row.field(key).unwrap_or("0");
    said.parse().ok().ok_or(ErrorKind::InvalidData.into())
}

impl Run {
    /// The run of these words, on a clock that shows 0.
    fn new(alloc: Global, line: &str) -> Result<Run, AllocError> {
        Ok(Run {
            words: words_of(alloc, line)?,
            clock: 0,
            step: 0,
        })
    }

    /// The run of a row.
    pub fn of_row(alloc: Global, kind: Kind, row: Row<'_>) -> io::Result<Run> {
        match kind {
            Kind::Words => Ok(Run::new(alloc, row.said(WORDS))?),
            Kind::Replay => Ok(Run::new(alloc, REPLAYING)?),
            Kind::Audit => Ok(Run::new(alloc, AUDITING)?),
            Kind::Record => Run::recording(alloc, row),
        }
    }

    fn recording(alloc: Global, row: Row<'_>) -> io::Result<Run> {
        let clock = reading_of(row, "clock")?;
        let step = reading_of(row, "step")?;
        let line = recording_line(alloc, row)?;
        let words = words_of(alloc, line.as_str())?;
        Ok(Run { words, clock, step })
    }

    /// The status with which it ends over these files.
    pub fn status<R: Threads + Wait + Sync>(
        &self,
        threads: &R,
        alloc: Global,
        shelf: &mut MemShelf,
        out: &mut MemSink,
    ) -> u8 {
        let mut house = MemHouse::new(alloc, Vec::new(alloc), Vec::new(alloc));
        let clock = SteppingClock::new(self.clock, self.step);
        run(
            threads,
            alloc,
            &self.words,
            shelf,
            out,
            &mut house,
            &clock,
            &OpenGate,
        )
    }

    /// The status and the line with which it ends over these files.
    fn ended<R: Threads + Wait + Sync>(
        &self,
        threads: &R,
        alloc: Global,
        shelf: &mut MemShelf,
    ) -> Result<String, AllocError> {
        let mut out = MemSink::new(alloc, Vec::new(alloc), None);
        let status = self.status(threads, alloc, shelf, &mut out);
        line_of(alloc, status, out.written())
    }
}

/// A status, and behind it what is printed, which is to be one line.
fn line_of(alloc: Global, status: u8, written: &[u8]) -> Result<String, AllocError> {
    let printed = String::from_utf8_lossy(alloc, written)?;
    match printed.as_str().strip_suffix('\n') {
        Some(line) => format!(in alloc; "{status} {line}"),
        None => format!(in alloc; "{status} {}, with no end of its line", printed.as_str()),
    }
}

/// Puts the text that is spelled so under the name.
fn put(alloc: Global, shelf: &mut MemShelf, name: &str, spelled: &str) -> io::Result<()> {
    let text = text_of(alloc, spelled)?;
    Ok(shelf.put(name, text.as_bytes())?)
}

/// Puts the file of a folder under the name.
fn put_file(
    rt: &HostRuntime,
    shelf: &mut MemShelf,
    name: &str,
    folder: &str,
    file: &str,
) -> io::Result<()> {
    let path = format!(in rt.alloc(); "{folder}/{file}")?;
    Ok(shelf.put(name, &fs::read(rt, path.as_str())?)?)
}

/// Puts the files of a row, which tells a text as it is spelled, and bytes in hexadecimal digits.
fn put_files(alloc: Global, shelf: &mut MemShelf, row: Row<'_>) -> io::Result<()> {
    for line in row.text().lines() {
        match parted(line) {
            ("file", said) => put_text(alloc, shelf, said)?,
            ("bytes", said) => put_bytes(alloc, shelf, said)?,
            _ => (),
        }
    }
    Ok(())
}

/// Puts the text that a line tells behind the name.
fn put_text(alloc: Global, shelf: &mut MemShelf, said: &str) -> io::Result<()> {
    let (name, spelled) = parted(said);
    put(alloc, shelf, name, spelled)
}

/// Puts the bytes that a line tells behind the name.
fn put_bytes(alloc: Global, shelf: &mut MemShelf, said: &str) -> io::Result<()> {
    let (name, spelled) = parted(said);
    let digits = text_of(alloc, spelled)?;
    Ok(shelf.put(name, &bytes_of(alloc, digits.as_str())?)?)
}

/// Puts the program and the state of a row.
fn put_start(alloc: Global, shelf: &mut MemShelf, row: Row<'_>) -> io::Result<()> {
    put(alloc, shelf, PROGRAM, row.said(PROGRAM))?;
    put(
        alloc,
        shelf,
        STATE,
        row.field(STATE).unwrap_or(NOTHING_STORED),
    )
}

/// Puts the inputs of a recording.
fn put_inputs(rt: &HostRuntime, shelf: &mut MemShelf, row: Row<'_>) -> io::Result<()> {
    if let Some(folder) = row.field(FILES) {
        for (name, file) in INPUTS {
            put_file(rt, shelf, name, folder, file)?;
        }
        return Ok(());
    }
    put_start(rt.alloc(), shelf, row)?;
    put(rt.alloc(), shelf, REQUESTS, row.said(REQUESTS))?;
    put(rt.alloc(), shelf, TURNS, row.said(TURNS))
}

/// Puts the inputs of a replay.
fn put_moments(alloc: Global, shelf: &mut MemShelf, row: Row<'_>) -> io::Result<()> {
    put_start(alloc, shelf, row)?;
    shelf.put(TRACE, &trace_of(alloc, row)?)?;
    shelf.put(SCHEDULE, &schedule_of(alloc, row.said(SCHEDULE))?)?;
    Ok(())
}

/// Puts the inputs of an audit.
fn put_evidence(alloc: Global, shelf: &mut MemShelf, row: Row<'_>) -> io::Result<()> {
    put_start(alloc, shelf, row)?;
    shelf.put(TRACE, &trace_of(alloc, row)?)?;
    shelf.put(REPORT, &bytes_of(alloc, row.said(REPORT))?)?;
    Ok(())
}

/// A shelf with the inputs of a row. The calls of these numbers fail.
pub fn shelf_of(
    rt: &HostRuntime,
    kind: Kind,
    row: Row<'_>,
    failing: Vec<u64>,
) -> io::Result<MemShelf> {
    let mut shelf = MemShelf::new(rt.alloc(), failing);
    match kind {
        Kind::Words => put_files(rt.alloc(), &mut shelf, row)?,
        Kind::Replay => put_moments(rt.alloc(), &mut shelf, row)?,
        Kind::Record => put_inputs(rt, &mut shelf, row)?,
        Kind::Audit => put_evidence(rt.alloc(), &mut shelf, row)?,
    }
    Ok(shelf)
}

/// How the check of a program ends.
pub fn checked<R: Threads + Wait + Sync>(
    threads: &R,
    alloc: Global,
    program: &str,
) -> io::Result<String> {
    let mut shelf = MemShelf::new(alloc, Vec::new(alloc));
    let ended = match put(alloc, &mut shelf, PROGRAM, program) {
        Ok(()) => ended_by(threads, alloc, CHECKING, &mut shelf),
        Err(error) => Err(error),
    };
    drop(shelf);
    ended
}

/// How the run of these words ends over these files.
fn ended_by<R: Threads + Wait + Sync>(
    threads: &R,
    alloc: Global,
    line: &str,
    shelf: &mut MemShelf,
) -> io::Result<String> {
    let run = Run::new(alloc, line)?;
    let ended = run.ended(threads, alloc, shelf);
    drop(run);
    Ok(ended?)
}

/// How a row ends, and whether it writes other files than it should.
pub fn ended<R: Threads + Wait + Sync>(
    threads: &R,
    rt: &HostRuntime,
    kind: Kind,
    row: Row<'_>,
) -> io::Result<String> {
    let mut shelf = shelf_of(rt, kind, row, Vec::new(rt.alloc()))?;
    let ended = ended_over(threads, rt.alloc(), kind, row, &mut shelf);
    drop(shelf);
    ended
}

fn ended_over<R: Threads + Wait + Sync>(
    threads: &R,
    alloc: Global,
    kind: Kind,
    row: Row<'_>,
    shelf: &mut MemShelf,
) -> io::Result<String> {
    match kind {
        Kind::Words => lines_ended(threads, alloc, shelf, row),
        Kind::Replay => ended_by(threads, alloc, REPLAYING, shelf),
        Kind::Record => match row.field(TIMES) {
            Some(times) => recorded_often(threads, alloc, shelf, row, number_of(times)?),
            None => recorded(threads, alloc, shelf, row),
        },
        Kind::Audit => audited(threads, alloc, shelf, row),
    }
}

/// What the row says, where each of its lines of words ends so; else the first that ends otherwise.
fn lines_ended<R: Threads + Wait + Sync>(
    threads: &R,
    alloc: Global,
    shelf: &mut MemShelf,
    row: Row<'_>,
) -> io::Result<String> {
    let wanted = row.said("ends");
    for line in row.text().lines() {
        if let (WORDS, words) = parted(line) {
            let ended = ended_by(threads, alloc, words, shelf)?;
            if ended.as_str() != wanted {
                return Ok(format!(in alloc; "{ended} by {words}")?);
            }
        }
    }
    Ok(format!(in alloc; "{wanted}")?)
}

/// How a recording over a row's inputs ends. The files of one that ends well are audited.
fn recorded<R: Threads + Wait + Sync>(
    threads: &R,
    alloc: Global,
    shelf: &mut MemShelf,
    row: Row<'_>,
) -> io::Result<String> {
    let recording = Run::recording(alloc, row)?;
    let ended = recording.ended(threads, alloc, shelf);
    drop(recording);
    let ended = with_others(alloc, shelf, row, ended?)?;
    if !ended.as_str().starts_with("0 ") {
        return Ok(ended);
    }
    let audit = audited(threads, alloc, shelf, row)?;
    followed(alloc, ended, "0 accepted", audit.as_str())
}

/// What the row says, where a recording over its inputs ends so each time, but for a number behind it;
/// else the first other end.
fn recorded_often<R: Threads + Wait + Sync>(
    threads: &R,
    alloc: Global,
    shelf: &mut MemShelf,
    row: Row<'_>,
    times: u32,
) -> io::Result<String> {
    let wanted = row.said("ends");
    for _ in 0..times {
        let ended = recorded(threads, alloc, shelf, row)?;
        let behind = ended.as_str().strip_prefix(wanted);
        if !behind.is_some_and(|groups| groups.trim_start().parse::<u32>().is_ok()) {
            return Ok(ended);
        }
    }
    Ok(format!(in alloc; "{wanted}")?)
}

/// How an audit over these files ends. The schedule of an accepted report is replayed.
fn audited<R: Threads + Wait + Sync>(
    threads: &R,
    alloc: Global,
    shelf: &mut MemShelf,
    row: Row<'_>,
) -> io::Result<String> {
    let audit = ended_by(threads, alloc, AUDITING, shelf)?;
    if has_other_schedule(alloc, shelf, row, audit.as_str())? {
        return Ok(format!(in alloc; "{audit}, with another schedule")?);
    }
    if !audit.as_str().starts_with("0 ") {
        return Ok(audit);
    }
    let replay = ended_by(threads, alloc, REPLAYING, shelf)?;
    followed(alloc, audit, "0 agrees", replay.as_str())
}

/// How a run ends that is followed by another one, which is to end so.
fn followed(alloc: Global, ended: String, wanted: &str, later: &str) -> io::Result<String> {
    if later.starts_with(wanted) {
        Ok(ended)
    } else {
        Ok(format!(in alloc; "{ended}, then {later}")?)
    }
}

/// Whether the schedule is another one than the row tells; where it tells none, whether one is there
/// though the audit rejects, or isn't though it accepts.
fn has_other_schedule(
    alloc: Global,
    shelf: &MemShelf,
    row: Row<'_>,
    audit: &str,
) -> io::Result<bool> {
    let accepts = audit.starts_with("0 ");
    let Some(written) = shelf.get(SCHEDULE) else {
        return Ok(accepts);
    };
    let Some(moments) = row.field(SCHEDULE) else {
        return Ok(!accepts);
    };
    Ok(written != schedule_of(alloc, moments)?.as_slice())
}

/// How it ends, with what is written otherwise than it should.
fn with_others(alloc: Global, shelf: &MemShelf, row: Row<'_>, ended: String) -> io::Result<String> {
    if has_other_trace(alloc, shelf, row)? {
        return Ok(format!(in alloc; "{ended}, with another trace")?);
    }
    if has_other_report(alloc, shelf, row)? {
        return Ok(format!(in alloc; "{ended}, with another report")?);
    }
    Ok(ended)
}

/// Whether the trace is another one than the row tells; where it tells none, whether one is there
/// though the recording is to fail, or isn't though it is to end well.
fn has_other_trace(alloc: Global, shelf: &MemShelf, row: Row<'_>) -> io::Result<bool> {
    let ends_well = row.said("ends").starts_with("0 ");
    if row.field("request").is_none() {
        return Ok(shelf.get(TRACE).is_some() != ends_well);
    }
    let told = trace_of(alloc, row)?;
    match shelf.get(TRACE) {
        Some(written) => Ok(written != told.as_slice()),
        None => Ok(true),
    }
}

/// The same of the report, which a row tells in hexadecimal digits.
fn has_other_report(alloc: Global, shelf: &MemShelf, row: Row<'_>) -> Result<bool, AllocError> {
    let ends_well = row.said("ends").starts_with("0 ");
    let Some(report) = shelf.get(REPORT) else {
        return Ok(ends_well);
    };
    let Some(told) = row.field(REPORT) else {
        return Ok(!ends_well);
    };
    Ok(hex::encode(alloc, report)?.as_str() != told)
}
