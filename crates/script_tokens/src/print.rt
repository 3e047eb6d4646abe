ghost use Rattle.std.specs.Prelude.{◌≡◌, ◌<◌, ◌++◌, IfOk, false};
ghost use Rattle.std.specs.Fmt.{digit_glyph};
ghost use Rattle.script_tokens.specs.PrintedTexts.{printed_byte, printed_content, printed_text};

use std::alloc::{AllocError, Global};

fn hex_digit(value: u8) -> u8
    requires { value < 16 }
    ensures { result ≡ digit_glyph false value }
{
    if value < 10 {
        b'0' + value
    } else {
        b'a' + (value - 10)
    }
}

fn push_byte(out: &mut Vec<u8>, byte: u8) -> Result<(), AllocError>
    ensures { IfOk result (λ _. out.new.items ≡ out.old.items ++ printed_byte byte) }
{
    match byte {
        b'"' => out.extend_from_slice(b"\\\"".as_slice())?,
        b'\\' => out.extend_from_slice(b"\\\\".as_slice())?,
        b'\n' => out.extend_from_slice(b"\\n".as_slice())?,
        b'\t' => out.extend_from_slice(b"\\t".as_slice())?,
        b' '..=b'~' => out.push(byte)?,
        _ => {
            let escape = [b'\\', b'x', hex_digit(byte / 16), hex_digit(byte % 16)];
            out.extend_from_slice(escape.as_slice())?;
        }
    }
    Ok(())
}

fn push_content(out: &mut Vec<u8>, content: &[u8]) -> Result<(), AllocError>
    ensures { IfOk result (λ _. out.new.items ≡ out.old.items ++ printed_content content.now) }
{
    for byte in content {
        push_byte(out, *byte)?;
    }
    Ok(())
}

/// Adds a text as it stands in a program.
pub fn push_text(out: &mut Vec<u8>, content: &[u8]) -> Result<(), AllocError>
    ensures { IfOk result (λ _. out.new.items ≡ out.old.items ++ printed_text content.now) }
{
    out.push(b'"')?;
    push_content(out, content)?;
    out.push(b'"')?;
    Ok(())
}

/// A text as it stands in a program: its content between quotes, with escapes, by docs/language.md, "How
/// a program text prints".
pub fn print_text(alloc: Global, content: &[u8]) -> Result<Vec<u8>, AllocError>
    ensures { IfOk result (λ out. out.items ≡ printed_text content.now) }
{
    let mut out = Vec::new(alloc);
    push_text(&mut out, content)?;
    Ok(out)
}
