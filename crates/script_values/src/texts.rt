ghost use Rattle.std.specs.Prelude.{◌≡◌, ◌++◌, ◌∷◌, [], IfOk, OnOk, IsTrue, IsFalse};
ghost use Rattle.basis.specs.UnlessMemory.{Answers};
ghost use Rattle.script_tree.specs.Datum.{text as texted};
ghost use Rattle.script_meaning.specs.Operators.{plus, if_within_limits, printed, as_text, part_of};
ghost use Rattle.script_meaning.specs.Operators.{escaped, escaped_byte, escaped_bytes, kind_of};
ghost use Rattle.script_values.specs.Plain.{is_plain, are_plain};

use crate::faults::{Faulted, if_within_limits};
use crate::kinds::{text_in, wrong_kind};
use crate::lists::part;
use crate::operand::Operand;
use basis::OrMemory;
use itoa::Buffer;
use script_tree::text::Text;
use script_tree::value::{Node, Value};
use std::alloc::{AllocError, Global};
use std::mem;
use std::sync::Arc;

/// The bytes that a text which is put together has room for at least: the least piece of memory has
/// as many.
const LEAST_ROOM: usize = 24;

/// The value of these bytes.
fn text_of(alloc: Global, bytes: Vec<u8>) -> Result<Value, Faulted>
    ensures { Answers (λ v. v) (if_within_limits (texted bytes.items)) result }
{
    if_within_limits(Value::text(alloc, Text::from_vec(bytes))?)
}

/// A text, and behind it a value that is to be a text. A text that nobody else has grows where it
/// lies.
pub fn grown_text(alloc: Global, mut text: Arc<Text>, more: Operand) -> Result<Value, Faulted>
    ensures { Answers (λ v. v) (plus (texted text.value) more.entry) result }
{
    let grown = match text_in(more.value()) {
        Ok(behind) => grows(alloc, &mut text, behind),
        Err(fault) => {
            drop(more);
            return Err(fault);
        }
    };
    match grown {
        Ok(true) => {
            drop(more);
            if_within_limits(Value::shared_text(text))
        }
        Ok(false) => joined_texts(alloc, &text, more),
        Err(AllocError) => {
            drop(more);
            Err(OrMemory::Memory)
        }
    }
}

/// Puts bytes behind a text, where nobody else has it.
fn grows(alloc: Global, text: &mut Arc<Text>, more: &Text) -> Result<bool, AllocError>
    ensures grown { IfOk result (λ grown. IsTrue grown
        → text.new.value ≡ text.old.value ++ more.now) }
    ensures shared { IfOk result (λ grown. IsFalse grown → text.new.value ≡ text.old.value) }
{
    match Arc::get_mut(text) {
        None => Ok(false),
        Some(own) => {
            let mut bytes = mem::replace(own, Text::from_vec(Vec::new(alloc))).into_vec();
            bytes.extend_from_slice(more.as_bytes())?;
            *own = Text::from_vec(bytes);
            Ok(true)
        }
    }
}

/// The same, as a new text.
pub fn joined_texts(alloc: Global, text: &Text, more: Operand) -> Result<Value, Faulted>
    ensures { Answers (λ v. v) (plus (texted text.now) more.entry) result }
{
    let joined = match text_in(more.value()) {
        Ok(behind) => joined_bytes(alloc, text.as_bytes(), behind.as_bytes()),
        Err(fault) => {
            drop(more);
            return Err(fault);
        }
    };
    match joined {
        Ok(bytes) => if_within_limits(more.replaced(alloc, Text::from_vec(bytes))?),
        Err(AllocError) => {
            drop(more);
            Err(OrMemory::Memory)
        }
    }
}

/// Bytes, and others behind them.
fn joined_bytes(alloc: Global, bytes: &[u8], behind: &[u8]) -> Result<Vec<u8>, AllocError>
    ensures { IfOk result (λ joined. joined.items ≡ bytes.now ++ behind.now) }
{
    let room = bytes.len().saturating_add(behind.len());
    let mut joined = Vec::with_capacity(alloc, room.max(LEAST_ROOM))?;
    joined.extend_from_slice(bytes)?;
    joined.extend_from_slice(behind)?;
    Ok(joined)
}

/// The part of a text between two places.
pub fn text_part(alloc: Global, text: &Text, from: i64, to: i64) -> Result<Value, Faulted>
    ensures { Answers (λ v. v) (part_of (texted text.now) from to) result }
{
    text_of(alloc, part(text.as_bytes(), from, to)?.to_vec(alloc)?)
}

/// The text that a value prints as.
pub fn printed(alloc: Global, value: &Value) -> Result<Arc<Text>, Faulted>
    ensures { Answers (λ text. text.value) (printed value.now) result }
{
    let bytes = match &value.node {
        Node::Null => Vec::new(alloc),
        Node::Bool(true) => b"true".to_vec(alloc)?,
        Node::Bool(false) => b"false".to_vec(alloc)?,
        Node::Number(n) => Buffer::new().format(*n).as_bytes().to_vec(alloc)?,
        Node::Text(text) => return Ok(text.clone()?),
        Node::List(_) => return wrong_kind(),
    };
    Ok(Arc::new(alloc, Text::from_vec(bytes))?)
}

/// The text that a value prints as, as a value.
pub fn as_text(alloc: Global, value: &Value) -> Result<Value, Faulted>
    ensures { Answers (λ v. v) (as_text value.now) result }
{
    if_within_limits(Value::shared_text(printed(alloc, value)?))
}

/// The text with what HTML reads as its own spelled out. One in which there is nothing of it is the
/// same text still, not a copy.
#[tactic(auto, using(crate::proofs::PlainTexts::plain_text_stays))]
pub fn escaped(alloc: Global, value: &Value) -> Result<Value, Faulted>
    ensures { Answers (λ v. v) (escaped value.now) result }
{
    let text = text_in(value)?;
    if are_plain(text.as_bytes()) {
        if_within_limits(Value::shared_text(text.clone()?))
    } else {
        text_of(alloc, escaped_bytes(alloc, text.as_bytes())?)
    }
}

fn are_plain(bytes: &[u8]) -> bool
    ensures { result ≡ are_plain bytes.now }
{
    bytes.iter().all(|byte| is_plain(*byte))
}

/// Whether HTML reads this byte as itself.
fn is_plain(byte: u8) -> bool
    ensures { result ≡ is_plain byte }
{
    match byte {
        b'&' | b'<' | b'>' | b'"' | b'\'' => false,
        _ => true,
    }
}

fn escaped_bytes(alloc: Global, bytes: &[u8]) -> Result<Vec<u8>, AllocError>
    ensures { IfOk result (λ made. made.items ≡ escaped_bytes bytes.now) }
{
    let mut made = Vec::with_capacity(alloc, bytes.len())?;
    for byte in bytes {
        escape_byte(&mut made, *byte)?;
    }
    Ok(made)
}

fn escape_byte(made: &mut Vec<u8>, byte: u8) -> Result<(), AllocError>
    ensures { OnOk result (made.new.items ≡ made.old.items ++ escaped_byte byte) }
{
    match byte {
        b'&' => made.extend_from_slice(b"&amp;"),
        b'<' => made.extend_from_slice(b"&lt;"),
        b'>' => made.extend_from_slice(b"&gt;"),
        b'"' => made.extend_from_slice(b"&quot;"),
        b'\'' => made.extend_from_slice(b"&#39;"),
        _ => {
            made.push(byte)?;
            Ok(())
        }
    }
}

/// The name of a value's kind.
pub fn kind_of(alloc: Global, value: &Value) -> Result<Value, AllocError>
    ensures { IfOk result (λ kind. kind ≡ texted (kind_of value.now)) }
{
    let name = match &value.node {
        Node::Null => b"null".to_vec(alloc)?,
        Node::Bool(_) => b"bool".to_vec(alloc)?,
        Node::Number(_) => b"number".to_vec(alloc)?,
        Node::Text(_) => b"text".to_vec(alloc)?,
        Node::List(_) => b"list".to_vec(alloc)?,
    };
    Value::text(alloc, Text::from_vec(name))
}
