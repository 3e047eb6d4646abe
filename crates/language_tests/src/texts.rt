//! `script_tokens`, `script_syntax` and `script_print`: what is read of a text, by what it prints as.

use script_print::declaration::print;
use script_syntax::parse::parse;
use script_tokens::print::print_text;
use std::alloc::{AllocError, Global};

/// Whether the text is a program that prints so.
fn prints(alloc: Global, text: &[u8], printed: &[u8]) -> bool {
    match parse(alloc, text) {
        Ok(tree) => is_printed(print(alloc, &tree), printed),
        Err(_) => false,
    }
}

fn is_printed(found: Result<Vec<u8>, AllocError>, printed: &[u8]) -> bool {
    match found {
        Ok(bytes) => bytes.as_slice() == printed,
        Err(_) => false,
    }
}

#[test]
fn programs_print(rt: HostRuntime) {
    let rows: [(&[u8], &[u8]); 6] = [
        (b"", b""),
        (b"store hits;", b"store hits ;\n"),
        (b"page \"/e\"{echo 1+2;}", b"page \"/e\" { echo 1 + 2 ; }\n"),
        (b"page \"/e\"{echo 007;}", b"page \"/e\" { echo 7 ; }\n"),
        (
            b"page\"\\x2fe\"{let whilex=1#\r2\n\t<=3;}",
            b"page \"/e\" { let whilex = 1 <= 3 ; }\n",
        ),
        (
            b"page \"J\\x4a\\n\\t\\\"\\\\\" { while _9 != -5 { } }",
            b"page \"JJ\\n\\t\\\"\\\\\" { while _9 != - 5 { } }\n",
        ),
    ];
    for (text, printed) in rows {
        assert!(rt; prints(rt.alloc(), text, printed), "{} bytes", text.len());
    }
}

#[test]
fn a_text_prints(rt: HostRuntime) {
    let found = print_text(rt.alloc(), b"\"\\\n\t\x00\x7f\xffa");
    assert!(rt; is_printed(found, b"\"\\\"\\\\\\n\\t\\x00\\x7f\\xffa\""));
}
