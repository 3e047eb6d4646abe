//! `json_texts`: a text in its hexadecimal form.

use json_texts::read_json;
use json_texts::text::text_of;
use script_tree::text::Text;
use std::alloc::Global;

/// The text that a JSON text stands for.
fn text(alloc: Global, bytes: &[u8]) -> Option<Text> {
    let json = read_json(alloc, bytes).ok()?;
    text_of(alloc, json).ok()?
}

#[test]
fn two_bytes(rt: HostRuntime) {
    match text(rt.alloc(), b"{\"hex\":\"0aff\"}") {
        Some(text) => assert!(rt; text.as_bytes() == [10, 255].as_slice()),
        None => assert!(rt; false, "a text"),
    }
}
