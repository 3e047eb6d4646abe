ghost use Rattle.std.specs.Prelude.{◌≡◌, ◌<◌, ◌≤◌, length, IfOk, IfSome, ◌^◌};
ghost use Rattle.script_tokens.specs.Texts.{hex_value, text_step, text_from};
ghost use Rattle.script_tokens.specs.Shapes.{sizes_of, content_of};
ghost use Rattle.script_tokens.specs.declared.text.Mode.TheVariants.{Plain, Escaped, Low};

use crate::lexeme::is_digit;
use script_tree::text::Text;
use std::alloc::{AllocError, Global};

/// Where in a text's content a byte stands.
#[derive(Clone, Copy)]
pub enum Mode {
    Plain,
    /// Behind a backslash.
    Escaped,
    /// Behind `\x`.
    High,
    /// Behind `\x` and a digit of this value.
    Low(u8),
}

/// What a byte of a text does.
#[derive(Clone, Copy)]
pub enum Step {
    Ends,
    Fails,
    Goes(Mode),
    /// Adds a byte to the content.
    Puts(Mode, u8),
}

fn hex_value(byte: u8) -> Option<u8>
    ensures is { result ≡ hex_value byte }
    ensures small { IfSome result (λ n. n < 16) }
{
    match byte {
        b'0'..=b'9' => Some(byte - b'0'),
        b'a'..=b'f' => Some(byte - b'a' + 10),
        b'A'..=b'F' => Some(byte - b'A' + 10),
        _ => None,
    }
}

fn step_of(mode: Mode, byte: u8) -> Step
    ensures { result ≡ text_step mode byte }
{
    match mode {
        Mode::Plain => plain_step(byte),
        Mode::Escaped => escaped_step(byte),
        Mode::High => match hex_value(byte) {
            None => Step::Fails,
            Some(high) => Step::Goes(Mode::Low(high)),
        },
        Mode::Low(high) => low_step(high, byte),
    }
}

fn plain_step(byte: u8) -> Step
    ensures { result ≡ text_step Plain byte }
{
    match byte {
        b'"' => Step::Ends,
        b'\n' => Step::Fails,
        b'\\' => Step::Goes(Mode::Escaped),
        _ => Step::Puts(Mode::Plain, byte),
    }
}

fn escaped_step(byte: u8) -> Step
    ensures { result ≡ text_step Escaped byte }
{
    match byte {
        b'"' | b'\\' => Step::Puts(Mode::Plain, byte),
        b'n' => Step::Puts(Mode::Plain, b'\n'),
        b't' => Step::Puts(Mode::Plain, b'\t'),
        b'x' => Step::Goes(Mode::High),
        _ => Step::Fails,
    }
}

fn low_step(high: u8, byte: u8) -> Step
    ensures { result ≡ text_step (Low high) byte }
{
    match hex_value(byte) {
        None => Step::Fails,
        Some(low) => Step::Puts(Mode::Plain, high % 16 * 16 + low),
    }
}

/// How many bytes the content of a text has, and how many it takes behind its first quote; none
/// where it doesn't end.
pub fn measure(bytes: &[u8]) -> Option<(usize, usize)>
    ensures is { result ≡ sizes_of (text_from Plain bytes.now) }
    ensures within { IfSome result (λ t. (0 < t.1) × (t.1 ≤ length bytes.now)) }
{
    let mut mode = Mode::Plain;
    let mut content = 0usize;
    for (i, byte) in bytes.iter().enumerate() {
        match step_of(mode, *byte) {
            Step::Ends => return Some((content, i + 1)),
            Step::Fails => return None,
            Step::Goes(next) => mode = next,
            Step::Puts(next, _) => {
                content += 1;
                mode = next;
            }
        }
    }
    None
}

/// The content of a text behind its first quote; none where it doesn't end.
pub fn content(alloc: Global, bytes: &[u8]) -> Result<Option<Text>, AllocError>
    ensures { IfOk result (λ o. o ≡ content_of (text_from Plain bytes.now)) }
{
    let mut content = Vec::new(alloc);
    let mut mode = Mode::Plain;
    for byte in bytes {
        match step_of(mode, *byte) {
            Step::Ends => return Ok(Some(Text::from_vec(content))),
            Step::Fails => return Ok(None),
            Step::Goes(next) => mode = next,
            Step::Puts(next, byte) => {
                content.push(byte)?;
                mode = next;
            }
        }
    }
    Ok(None)
}
