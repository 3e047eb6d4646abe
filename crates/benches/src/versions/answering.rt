//! Logs, answered from the versions of their objects.
use object_set::ObjectSet;
use period::report::Log;
use std::alloc::AllocError;
use std::io::{self, ErrorKind};
use std::time::Instant;
use versioned_store::VersionedStore;
use versioned_store::fitting::fit_logs;

/// Answers all entries so many times.
pub fn answer_times(
    rt: &HostRuntime,
    start: &ObjectSet,
    logs: &[Log],
    times: u32,
) -> io::Result<()> {
    for _ in 0..times {
        answer_once(rt, start, logs)?;
    }
    Ok(())
}

/// Builds the versions of some logs and answers all entries, and tells how long that took.
fn answer_once(rt: &HostRuntime, start: &ObjectSet, logs: &[Log]) -> io::Result<()> {
    if !fit_logs(start, logs) {
        return Err(ErrorKind::InvalidData.into());
    }
    let began = Instant::now(rt)?;
    let store = VersionedStore::build(rt.alloc(), start, logs)?;
    let built = began.elapsed(rt);
    let answered = answer_all(&store);
    let all = began.elapsed(rt);
    drop(store);
    answered?;
    let (built, all) = (built?.as_nanos(), all?.as_nanos());
    eprintln!(rt; "nanoseconds {built} built, {all} in all")
}

/// Answers each entry of all logs, none of which is empty.
fn answer_all(store: &VersionedStore<'_>) -> Result<(), AllocError> {
    for log in 0..u32::MAX {
        if !store.has_entry(log, 0) {
            break;
        }
        answer_log(store, log)?;
    }
    Ok(())
}

fn answer_log(store: &VersionedStore<'_>, log: u32) -> Result<(), AllocError> {
    for position in 0..u32::MAX {
        if !store.has_entry(log, position) {
            break;
        }
        let _ = store.answer_at(log, position)?;
    }
    Ok(())
}
