//! Decodes traces and reports, or encodes what they hold, many times, for `bench/files`. The words
//! are what to do, how many times, and the files, as `encode 3 trace report`. Before that, each file
//! is decoded and encoded once and has to come out the same. It prints a line of each file, and
//! tells on standard error how long the work took, without letting go of what was made.
mod contents;
mod job;

use crate::files::contents::Contents;
use crate::files::job::Job;
use crate::words::wrong_words;
use std::fs;
use std::io::{self, ErrorKind};

/// Does with each file what the words say.
pub fn run(rt: &HostRuntime, words: &[String]) -> io::Result<()> {
    let [work, times, files @ ..] = words else {
        return wrong_words(rt, "files decode|encode TIMES FILE ..");
    };
    let job = Job::from_words(work.as_str(), times.as_str()).ok_or(ErrorKind::InvalidInput)?;
    for file in files {
        run_file(rt, job, &fs::read(rt, file.as_str())?)?;
    }
    Ok(())
}

/// Does the job with the file of these bytes.
fn run_file(rt: &HostRuntime, job: Job, bytes: &[u8]) -> io::Result<()> {
    let contents = Contents::decode(rt.alloc(), bytes).ok_or(ErrorKind::InvalidData)?;
    job.run(rt, bytes, &contents)
}
