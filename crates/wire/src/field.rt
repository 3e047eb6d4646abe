ghost use Rattle.std.specs.Prelude.{◌≡◌, ◌<◌, ◌≤◌, IfOk, length};
ghost use Rattle.std.specs.Int.{w16, w32, w64};
ghost use Rattle.wire.specs.Spellings.{ReadsField, IsWithin, byte_field, number_field, integer_field, bytes_field, choice_field};

use crate::fault::Unreadable;
use script_tree::operation::Choice;

pub fn read_u8(bytes: &[u8], at: usize) -> Result<(u8, usize), Unreadable>
    ensures field { ReadsField (λ x. x) byte_field bytes.now at result }
    ensures within { IfOk result (λ x. IsWithin bytes.now at x.1) }
{
    match bytes.get(at) {
        None => Err(Unreadable { at }),
        Some(byte) => Ok((*byte, at + 1)),
    }
}

pub fn read_u16(bytes: &[u8], at: usize) -> Result<(u16, usize), Unreadable>
    ensures field { ReadsField (λ x. x) (number_field w16) bytes.now at result }
    ensures within { IfOk result (λ x. IsWithin bytes.now at x.1) }
{
    match bytes.get(at..) {
        Some([a, b, ..]) => Ok((u16::from_be_bytes([*a, *b]), at + 2)),
        _ => Err(Unreadable { at }),
    }
}

pub fn read_u32(bytes: &[u8], at: usize) -> Result<(u32, usize), Unreadable>
    ensures field { ReadsField (λ x. x) (number_field w32) bytes.now at result }
    ensures within { IfOk result (λ x. IsWithin bytes.now at x.1) }
{
    match bytes.get(at..) {
        Some([a, b, c, d, ..]) => Ok((u32::from_be_bytes([*a, *b, *c, *d]), at + 4)),
        _ => Err(Unreadable { at }),
    }
}

pub fn read_u64(bytes: &[u8], at: usize) -> Result<(u64, usize), Unreadable>
    ensures field { ReadsField (λ x. x) (number_field w64) bytes.now at result }
    ensures within { IfOk result (λ x. IsWithin bytes.now at x.1) }
{
    match bytes.get(at..) {
        Some([a, b, c, d, e, f, g, h, ..]) => Ok((
            u64::from_be_bytes([*a, *b, *c, *d, *e, *f, *g, *h]),
            at + 8,
        )),
        _ => Err(Unreadable { at }),
    }
}

pub fn read_i64(bytes: &[u8], at: usize) -> Result<(i64, usize), Unreadable>
    ensures field { ReadsField (λ x. x) integer_field bytes.now at result }
    ensures within { IfOk result (λ x. IsWithin bytes.now at x.1) }
{
    let (number, next) = read_u64(bytes, at)?;
    Ok((number.cast_signed(), next))
}

/// The bytes are a part of the slice.
pub fn read_bytes(bytes: &[u8], at: usize) -> Result<(&[u8], usize), Unreadable>
    ensures field { ReadsField (λ x. x.now) bytes_field bytes.now at result }
    ensures within { IfOk result (λ x. IsWithin bytes.now at x.1) }
{
    let (len, start) = read_u32(bytes, at)?;
    let len = len as usize;
    if bytes.len() - start < len {
        return Err(Unreadable { at });
    }
    Ok((&bytes[start..start + len], start + len))
}

/// The payload of the record at a place, a part of the slice, and the place of the next record.
pub fn frame(bytes: &[u8], at: usize) -> Result<(&[u8], usize), Unreadable>
    ensures field { ReadsField (λ x. x.now) bytes_field bytes.now at result }
    ensures within { IfOk result (λ x. IsWithin bytes.now at x.1) }
{
    read_bytes(bytes, at)
}

pub fn read_choice(bytes: &[u8], at: usize) -> Result<(Choice, usize), Unreadable>
    ensures field { ReadsField (λ x. x) choice_field bytes.now at result }
    ensures within { IfOk result (λ x. IsWithin bytes.now at x.1) }
{
    match read_u8(bytes, at)? {
        (0, next) => Ok((Choice::Nothing, next)),
        (1, next) => match read_i64(bytes, next) {
            Ok((number, next)) => Ok((Choice::Number(number), next)),
            Err(_) => Err(Unreadable { at }),
        },
        _ => Err(Unreadable { at }),
    }
}
