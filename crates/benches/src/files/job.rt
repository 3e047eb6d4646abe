//! What is asked of the program.
ghost use Rattle.benches.specs.Spelled.{MayBeEncoded};

use crate::files::contents::Contents;
use std::io::{self, ErrorKind};
use std::time::{Duration, Instant};

/// A work, and how many times it is done.
#[derive(Clone, Copy)]
pub struct Job {
    pub is_decoding: bool,
    pub times: u32,
}

impl Job {
    /// The job of these words: what to do, and how many times.
    pub fn from_words(work: &str, times: &str) -> Option<Job> {
        let is_decoding = match work {
            "decode" => true,
            "encode" => false,
            _ => return None,
        };
        let times = times.parse().ok()?;
        Some(Job { is_decoding, times })
    }

    /// Does the work with a file of these bytes, which holds this, and tells of it.
    pub fn run(self, rt: &HostRuntime, bytes: &[u8], contents: &Contents) -> io::Result<()>
        requires { MayBeEncoded contents.now }
    {
        if !contents.is_spelled(rt.alloc(), bytes) {
            return Err(ErrorKind::InvalidData.into());
        }
        let mut took = Duration::ZERO;
        for _ in 0..self.times {
            let once = if self.is_decoding {
                decoding_time(rt, bytes)?
            } else {
                encoding_time(rt, contents)?
            };
            took = took.saturating_add(once);
        }
        self.tell(rt, bytes.len(), contents, took)
    }

    /// Tells what was done with a file of so many bytes, and how long it took.
    fn tell(
        self,
        rt: &HostRuntime,
        bytes: usize,
        contents: &Contents,
        took: Duration,
    ) -> io::Result<()> {
        let (kind, records) = (contents.kind(), contents.record_count());
        println!(rt;
            "{kind}: records {records}, bytes {bytes}, times {}, same",
            self.times
        )?;
        eprintln!(rt; "{kind}: nanoseconds {}", took.as_nanos())
    }
}

/// How long decoding takes, without letting go of what is made.
fn decoding_time(rt: &HostRuntime, bytes: &[u8]) -> io::Result<Duration> {
    let start = Instant::now(rt)?;
    let made = Contents::decode(rt.alloc(), bytes);
    let took = start.elapsed(rt);
    if made.is_none() {
        return Err(ErrorKind::InvalidData.into());
    }
    took
}

/// How long encoding takes, without letting go of what is made.
fn encoding_time(rt: &HostRuntime, contents: &Contents) -> io::Result<Duration>
    requires { MayBeEncoded contents.now }
{
    let start = Instant::now(rt)?;
    let made = contents.encode(rt.alloc());
    let took = start.elapsed(rt);
    if made.is_none() {
        return Err(ErrorKind::InvalidData.into());
    }
    took
}
