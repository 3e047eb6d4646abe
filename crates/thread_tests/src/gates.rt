//! Two workers record at once: one job is held back until the other has departed.

use crate::programs::HIT;
use command_words::Words;
use commands::run::run;
use outside::{FixedClock, Gate, MemHouse, MemShelf, MemSink, OpenGate};
use std::alloc::{AllocError, Global};
use std::hint;
use std::sync::Wait;
use std::sync::atomic::{AtomicU64, Ordering};
use std::thread::Threads;

/// The requests of the two jobs.
const TWO: &[u8] = b"[{\"path\":\"/hit\"},{\"path\":\"/hit\"}]";

/// The words of the recording.
const RECORDING: &str = "record program state requests trace report --workers 2";

/// The words of the audit of what it leaves.
const AUDITING: &str = "audit program state trace report schedule";

/// How often the gate looks before it gives up.
const LOOKS: u64 = 100_000_000;

/// A gate that holds job 0 at its arrival until job 1 has departed.
#[derive(Drop)]
struct HoldsFirst {
    second_departed: AtomicU64,
    gave_up: AtomicU64,
}

impl Gate for HoldsFirst {
    fn pass(&self, job: u64, place: u8) {
        if job == 1 && place == 2 {
            self.second_departed.store(1, Ordering::SeqCst);
        }
        if job == 0 && place == 0 {
            for _ in 0..LOOKS {
                if self.second_departed.load(Ordering::SeqCst) == 1 {
                    return;
                }
                hint::spin_loop();
            }
            self.gave_up.store(1, Ordering::SeqCst);
        }
    }
}

/// The words of a line.
fn words_of(alloc: Global, line: &str) -> Result<Words, AllocError> {
    let mut words = Words::new(alloc);
    for word in line.split(' ') {
        words.push(word)?;
    }
    Ok(words)
}

/// The status with which a run of these words ends over the files.
fn status<R: Threads + Wait + Sync, G: Gate + Sync>(
    rt: &R,
    alloc: Global,
    line: &str,
    shelf: &mut MemShelf,
    gate: &G,
) -> Result<u8, AllocError> {
    let words = words_of(alloc, line)?;
    let mut out = MemSink::new(alloc, Vec::new(alloc), None);
    let mut house = MemHouse::new(alloc, Vec::new(alloc), Vec::new(alloc));
    let clock = FixedClock(5);
    Ok(run(rt, alloc, &words, shelf, &mut out, &mut house, &clock, gate))
}

/// A shelf with the inputs of the recording.
fn inputs(alloc: Global) -> Result<MemShelf, AllocError> {
    let mut shelf = MemShelf::new(alloc, Vec::new(alloc));
    shelf.put("program", HIT)?;
    shelf.put("state", b"{}")?;
    shelf.put("requests", TWO)?;
    Ok(shelf)
}

/// Whether two workers record two jobs, the gate doesn't give up, and an audit accepts the files.
fn is_recorded_at_once<R: Threads + Wait + Sync>(
    rt: &R,
    alloc: Global,
) -> Result<bool, AllocError> {
    let gate = HoldsFirst {
        second_departed: AtomicU64::new(0),
        gave_up: AtomicU64::new(0),
    };
    let mut shelf = inputs(alloc)?;
    let recorded = status(rt, alloc, RECORDING, &mut shelf, &gate)?;
    let audited = status(rt, alloc, AUDITING, &mut shelf, &OpenGate)?;
    let gave_up = gate.gave_up.load(Ordering::SeqCst) == 1;
    Ok(recorded == 0 && audited == 0 && !gave_up)
}

#[test]
fn one_job_waits_for_the_other(rt: HostRuntime) {
    assert!(rt; is_recorded_at_once(&rt, rt.alloc()).unwrap_or(false));
}
