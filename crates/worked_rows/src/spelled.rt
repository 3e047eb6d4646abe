//! The bytes of a row's trace and schedule, as docs/formats.md says.
use crate::row::{Row, number_of, parted, text_of};
use std::alloc::Global;
use std::io::{self, ErrorKind};

/// The bytes that hexadecimal digits tell.
pub fn bytes_of(alloc: Global, digits: &str) -> io::Result<Vec<u8>> {
    hex::decode(alloc, digits)
        .ok()
        .ok_or(ErrorKind::InvalidData.into())
}

/// The bytes of a row's trace, which it tells in hexadecimal digits or by its events.
pub fn trace_of(alloc: Global, row: Row<'_>) -> io::Result<Vec<u8>> {
    match row.field("trace") {
        Some(digits) => bytes_of(alloc, digits),
        None => events_of(alloc, row),
    }
}

fn events_of(alloc: Global, row: Row<'_>) -> io::Result<Vec<u8>> {
    let mut trace = b"SSCOTRC1".to_vec(alloc)?;
    for line in row.text().lines() {
        match parted(line) {
            ("request", said) => put_bytes(&mut trace, &request_of(alloc, said)?)?,
            ("response", said) => put_bytes(&mut trace, &response_of(alloc, said)?)?,
            _ => (),
        }
    }
    Ok(trace)
}

/// The bytes of a schedule of these moments, parted by blanks; `X0*9` stands for nine of one.
pub fn schedule_of(alloc: Global, moments: &str) -> io::Result<Vec<u8>> {
    let mut schedule = b"SSCOSCH1".to_vec(alloc)?;
    for word in moments.split_whitespace() {
        put_moments(alloc, &mut schedule, word)?;
    }
    Ok(schedule)
}

fn put_moments(alloc: Global, schedule: &mut Vec<u8>, word: &str) -> io::Result<()> {
    let (word, times) = word.split_once('*').unwrap_or((word, "1"));
    let times = number_of(times)?;
    let moment = moment_of(alloc, word)?;
    for _ in 0..times {
        put_bytes(schedule, &moment)?;
    }
    Ok(())
}

/// The payload of a request: its id, its method, its path, its parameters, and after a bar its body.
fn request_of(alloc: Global, said: &str) -> io::Result<Vec<u8>> {
    let (head, body) = said.split_once(" | ").unwrap_or((said, ""));
    let (id, head) = parted(head);
    let (method, head) = parted(head);
    let (path, parameters) = parted(head);
    let mut payload = payload_of(alloc, 1, id)?;
    put_text(alloc, &mut payload, method)?;
    put_text(alloc, &mut payload, path)?;
    put_parameters(alloc, &mut payload, parameters)?;
    put_text(alloc, &mut payload, body)?;
    Ok(payload)
}

/// Each word is a name, `=` and a value.
fn put_parameters(alloc: Global, payload: &mut Vec<u8>, words: &str) -> io::Result<()> {
    let count = words.split_whitespace().count();
    put_count(payload, count)?;
    for word in words.split_whitespace() {
        let (name, value) = word.split_once('=').ok_or(ErrorKind::InvalidData)?;
        put_text(alloc, payload, name)?;
        put_text(alloc, payload, value)?;
    }
    Ok(())
}

/// The payload of a response: its id, its status, its body.
fn response_of(alloc: Global, said: &str) -> io::Result<Vec<u8>> {
    let (id, rest) = parted(said);
    let (status, body) = parted(rest);
    let mut payload = payload_of(alloc, 2, id)?;
    payload.extend_from_slice(&status_of(status)?.to_be_bytes())?;
    put_text(alloc, &mut payload, body)?;
    Ok(payload)
}

fn status_of(word: &str) -> io::Result<u16> {
    word.parse().ok().ok_or(ErrorKind::InvalidData.into())
}

/// The payload of a moment: `A0`, `X0`, `X0=5` or `D0`.
fn moment_of(alloc: Global, word: &str) -> io::Result<Vec<u8>> {
    if let Some(id) = word.strip_prefix('A') {
        return payload_of(alloc, 1, id);
    }
    if let Some(id) = word.strip_prefix('D') {
        return payload_of(alloc, 3, id);
    }
    let act = word.strip_prefix('X').ok_or(ErrorKind::InvalidData)?;
    let (id, number) = act.split_once('=').unwrap_or((act, ""));
    let mut payload = payload_of(alloc, 2, id)?;
    put_choice(&mut payload, number)?;
    Ok(payload)
}

fn put_choice(payload: &mut Vec<u8>, number: &str) -> io::Result<()> {
    if number.is_empty() {
        return Ok(payload.push(0)?);
    }
    let number: i64 = number.parse().ok().ok_or(ErrorKind::InvalidData)?;
    payload.push(1)?;
    Ok(payload.extend_from_slice(&number.to_be_bytes())?)
}

/// A payload that begins with its kind and an id.
fn payload_of(alloc: Global, kind: u8, id: &str) -> io::Result<Vec<u8>> {
    let [a, b, c, d] = number_of(id)?.to_be_bytes();
    Ok(Vec::from_slice(alloc, &[kind, a, b, c, d])?)
}

fn put_text(alloc: Global, payload: &mut Vec<u8>, spelled: &str) -> io::Result<()> {
    let text = text_of(alloc, spelled)?;
    put_bytes(payload, text.as_bytes())
}

/// Puts the bytes behind their length.
fn put_bytes(file: &mut Vec<u8>, bytes: &[u8]) -> io::Result<()> {
    put_count(file, bytes.len())?;
    Ok(file.extend_from_slice(bytes)?)
}

fn put_count(file: &mut Vec<u8>, count: usize) -> io::Result<()> {
    let count = u32::try_from(count).ok().ok_or(ErrorKind::InvalidData)?;
    Ok(file.extend_from_slice(&count.to_be_bytes())?)
}
