ghost use Rattle.std.specs.Prelude.{◌≡◌, ◌∷◌, ◌++◌, [], ◌<◌, ◌^◌, length, OnOk, OnErr};
ghost use Rattle.std.specs.Int.{w16, w32, w64, to_be_bytes};
ghost use Rattle.wire.specs.Spellings.{IsFront, integer_spelling, bytes_spelling, choice_spelling};

use script_tree::operation::Choice;
use std::alloc::AllocError;

pub fn write_u8(out: &mut Vec<u8>, x: u8) -> Result<(), AllocError>
    ensures ok { OnOk result (out.new.items ≡ out.old.items ++ x ∷ []) }
    ensures err { OnErr result (IsFront out.old.items out.new.items) }
{
    out.push(x)?;
    Ok(())
}

pub fn write_u16(out: &mut Vec<u8>, x: u16) -> Result<(), AllocError>
    ensures ok { OnOk result (out.new.items ≡ out.old.items ++ to_be_bytes w16 x) }
    ensures err { OnErr result (IsFront out.old.items out.new.items) }
{
    out.extend_from_slice(&x.to_be_bytes())
}

pub fn write_u32(out: &mut Vec<u8>, x: u32) -> Result<(), AllocError>
    ensures ok { OnOk result (out.new.items ≡ out.old.items ++ to_be_bytes w32 x) }
    ensures err { OnErr result (IsFront out.old.items out.new.items) }
{
    out.extend_from_slice(&x.to_be_bytes())
}

pub fn write_u64(out: &mut Vec<u8>, x: u64) -> Result<(), AllocError>
    ensures ok { OnOk result (out.new.items ≡ out.old.items ++ to_be_bytes w64 x) }
    ensures err { OnErr result (IsFront out.old.items out.new.items) }
{
    out.extend_from_slice(&x.to_be_bytes())
}

pub fn write_i64(out: &mut Vec<u8>, x: i64) -> Result<(), AllocError>
    ensures ok { OnOk result (out.new.items ≡ out.old.items ++ integer_spelling x) }
    ensures err { OnErr result (IsFront out.old.items out.new.items) }
{
    write_u64(out, x.cast_unsigned())
}

/// Writes the length, then the bytes.
pub fn write_bytes(out: &mut Vec<u8>, x: &[u8]) -> Result<(), AllocError>
    requires short { length x.now < 2 ^ 32 }
    ensures ok { OnOk result (out.new.items ≡ out.old.items ++ bytes_spelling x.now) }
    ensures err { OnErr result (IsFront out.old.items out.new.items) }
{
    write_u32(out, x.len() as u32)?;
    out.extend_from_slice(x)
}

pub fn write_choice(out: &mut Vec<u8>, x: Choice) -> Result<(), AllocError>
    ensures ok { OnOk result (out.new.items ≡ out.old.items ++ choice_spelling x) }
    ensures err { OnErr result (IsFront out.old.items out.new.items) }
{
    match x {
        Choice::Nothing => write_u8(out, 0),
        Choice::Number(number) => {
            write_u8(out, 1)?;
            write_i64(out, number)
        }
    }
}
