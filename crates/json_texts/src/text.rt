ghost use Rattle.std.specs.Prelude.{◌≡◌, ◌<◌, IfOk, IfSome, option_map};
ghost use Rattle.serde_json.specs.View.{view, members_view};
ghost use Rattle.json_texts.specs.Texts.{hex_digit, hex_byte, hex_bytes};
ghost use Rattle.json_texts.specs.Texts.{only_member, hex_text, text_of};

use script_tree::text::Text;
use serde_json::{Map, Value as Json};
use std::alloc::{AllocError, Global};

/// The text that a JSON tree stands for: a string, or hexadecimal digits.
pub fn text_of(alloc: Global, json: Json) -> Result<Option<Text>, AllocError>
    ensures { IfOk result (λ o. o ≡ text_of (view json)) }
{
    match json {
        Json::String(text) => Ok(Some(Text::from_vec(text.into_bytes()))),
        Json::Object(members) => hex_text(alloc, &members),
        Json::Null | Json::Bool(_) | Json::Number(_) | Json::Array(_) => Ok(None),
    }
}

/// The bytes of the one member `hex`.
pub fn hex_text(alloc: Global, members: &Map<String, Json>) -> Result<Option<Text>, AllocError>
    ensures { IfOk result (λ o. o ≡ hex_text (members_view members.now.entries)) }
{
    match only_member(members, "hex").and_then(Json::as_str) {
        Some(digits) => hex_bytes(alloc, digits.as_bytes()),
        None => Ok(None),
    }
}

/// What stands under this name, where there is no other member.
fn only_member<'a>(members: &'a Map<String, Json>, name: &str) -> Option<&'a Json>
    ensures { let ms = members_view members.now.entries in
        option_map (λ member. view member.now) result ≡ only_member name.now ms }
{
    if members.len() == 1 {
        members.get(name)
    } else {
        None
    }
}

fn hex_bytes(alloc: Global, digits: &[u8]) -> Result<Option<Text>, AllocError>
    ensures { IfOk result (λ o. o ≡ hex_bytes digits.now) }
{
    let mut bytes = Vec::new(alloc);
    let mut rest = digits;
    while let [high, low, after @ ..] = rest {
        match hex_byte(*high, *low) {
            Some(byte) => bytes.push(byte)?,
            None => return Ok(None),
        }
        rest = after;
    }
    if rest.is_empty() {
        Ok(Some(Text::from_vec(bytes)))
    } else {
        Ok(None)
    }
}

fn hex_byte(high: u8, low: u8) -> Option<u8>
    ensures { result ≡ hex_byte high low }
{
    Some(16 * hex_digit(high)? + hex_digit(low)?)
}

/// What a digit stands for. Upper-case letters aren't taken.
fn hex_digit(digit: u8) -> Option<u8>
    ensures value { result ≡ hex_digit digit }
    ensures small { IfSome result (λ n. n < 16) }
{
    match digit {
        b'0'..=b'9' => Some(digit - b'0'),
        b'a'..=b'f' => Some(digit - b'a' + 10),
        _ => None,
    }
}
