//! Large traces and reports for the bench. Each request issues two operations, but in a walk.
use crate::records::{
    put_count, put_group, put_read, put_register, put_request, put_response, report, trace,
};
use std::alloc::{AllocError, Global};
use std::ops::Range;

/// What a made report is like.
#[derive(Clone, Copy)]
pub enum Shape {
    /// Rounds of so many requests at once, a log of all first and one of all second operations.
    Rounds { width: u32 },
    /// One request after the other, all operations in one log.
    OneLog,
    /// A cycle through two thirds of the requests, each arrival in it behind many departures.
    ///
    /// The early requests are 0 to n - 1, the late ones n to 2n - 1, and those between 2n to 3n - 1.
    /// The request between number i arrives when early request i has departed, and departs when late
    /// request i has arrived, so that late request i has the departures from early request i on
    /// before it. In a log of its own, the operation of late request i + 1 stands before that of
    /// early request i, which makes a cycle of all.
    Walk,
}

impl Shape {
    /// The shape of this word.
    pub fn from_word(word: &str) -> Option<Shape> {
        if let Some(width) = word.strip_prefix("rounds_of_") {
            let width = width.parse().ok()?;
            return Some(Shape::Rounds { width });
        }
        match word {
            "one_log" => Some(Shape::OneLog),
            "walk" => Some(Shape::Walk),
            _ => None,
        }
    }

    /// The trace of so many requests.
    pub fn trace(self, alloc: Global, requests: u32) -> Result<Vec<u8>, AllocError> {
        let mut events = trace(alloc)?;
        match self {
            Shape::Rounds { width } => put_rounds(&mut events, width, requests)?,
            Shape::OneLog => put_rounds(&mut events, 1, requests)?,
            Shape::Walk => put_walk(&mut events, requests / 3)?,
        }
        Ok(events)
    }

    /// The report of so many requests.
    pub fn report(self, alloc: Global, requests: u32) -> Result<Vec<u8>, AllocError> {
        let mut records = report(alloc)?;
        match self {
            Shape::Rounds { .. } => put_rounds_report(alloc, &mut records, requests)?,
            Shape::OneLog => put_one_log_report(alloc, &mut records, requests)?,
            Shape::Walk => put_walk_report(alloc, &mut records, requests / 3)?,
        }
        Ok(records)
    }
}

/// Rounds, in each of which so many arrive, and then depart.
fn put_rounds(events: &mut Vec<u8>, width: u32, requests: u32) -> Result<(), AllocError> {
    for first in (0..requests).step_by(width.max(1) as usize) {
        let end = first.saturating_add(width.max(1)).min(requests);
        for rid in first..end {
            put_request(events, rid)?;
        }
        for rid in first..end {
            put_response(events, rid)?;
        }
    }
    Ok(())
}

fn put_walk(events: &mut Vec<u8>, third: u32) -> Result<(), AllocError> {
    let twice = third.saturating_mul(2);
    for early in 0..third {
        put_request(events, early)?;
    }
    for early in 0..third {
        put_response(events, early)?;
        put_request(events, twice.saturating_add(early))?;
    }
    for late in 0..third {
        put_request(events, third.saturating_add(late))?;
        put_response(events, twice.saturating_add(late))?;
    }
    for late in 0..third {
        put_response(events, third.saturating_add(late))?;
    }
    Ok(())
}

/// A count of each request.
fn put_counts(records: &mut Vec<u8>, requests: u32, operations: u32) -> Result<(), AllocError> {
    for rid in 0..requests {
        put_count(records, rid, operations)?;
    }
    Ok(())
}

/// A group of each request.
fn put_groups(records: &mut Vec<u8>, requests: u32) -> Result<(), AllocError> {
    for rid in 0..requests {
        put_group(records, rid)?;
    }
    Ok(())
}

/// A log of reads, one of each request.
fn put_reads(
    alloc: Global,
    records: &mut Vec<u8>,
    name: &str,
    rids: Range<u32>,
    number: u32,
) -> Result<(), AllocError> {
    let mut entries = Vec::new(alloc);
    let mut count = 0usize;
    for rid in rids {
        put_read(&mut entries, rid, number)?;
        count = count.saturating_add(1);
    }
    put_register(records, name, count, &entries)
}

fn put_rounds_report(
    alloc: Global,
    records: &mut Vec<u8>,
    requests: u32,
) -> Result<(), AllocError> {
    put_counts(records, requests, 2)?;
    put_reads(alloc, records, "a", 0..requests, 1)?;
    put_reads(alloc, records, "b", 0..requests, 2)?;
    put_groups(records, requests)
}

fn put_one_log_report(
    alloc: Global,
    records: &mut Vec<u8>,
    requests: u32,
) -> Result<(), AllocError> {
    put_counts(records, requests, 2)?;
    put_one_log(alloc, records, requests)?;
    put_groups(records, requests)
}

fn put_one_log(alloc: Global, records: &mut Vec<u8>, requests: u32) -> Result<(), AllocError> {
    let mut entries = Vec::new(alloc);
    for rid in 0..requests {
        put_read(&mut entries, rid, 1)?;
        put_read(&mut entries, rid, 2)?;
    }
    let count = (requests as usize).saturating_mul(2);
    put_register(records, "a", count, &entries)
}

/// The logs of a walk are one for each early request, and one of the requests between.
fn put_walk_report(alloc: Global, records: &mut Vec<u8>, third: u32) -> Result<(), AllocError> {
    let requests = third.saturating_mul(3);
    put_counts(records, requests, 1)?;
    for early in 0..third {
        put_crossing(alloc, records, early, third)?;
    }
    let between = third.saturating_mul(2)..requests;
    put_reads(alloc, records, "between", between, 1)?;
    put_groups(records, requests)
}

/// The log in which the next late request stands before this early one.
fn put_crossing(
    alloc: Global,
    records: &mut Vec<u8>,
    early: u32,
    third: u32,
) -> Result<(), AllocError> {
    let next = early.saturating_add(1);
    let late = if next == third { 0 } else { next };
    let mut entries = Vec::new(alloc);
    put_read(&mut entries, third.saturating_add(late), 1)?;
    put_read(&mut entries, early, 1)?;
    let name = format!(in alloc; "{early}")?;
    put_register(records, name.as_str(), 2, &entries)
}
