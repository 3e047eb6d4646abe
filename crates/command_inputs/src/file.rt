ghost use Rattle.std.specs.Prelude.{◌<◌, ◌^◌, IfOk, length, vec_len};
ghost use Rattle.outside.specs.Shelves.{IsReadOnce};
ghost use Rattle.command_inputs.specs.Faults.{IsFaultOf, UsesToRead};
ghost use Rattle.command_inputs.specs.Inputs.{bytes_input, IsReadUnder};

use crate::fault::{InputError, InputFault};
use crate::role::Role;
use outside::Shelf;
use std::alloc::{AllocError, Global};

/// How many bytes are read at a time.
const PIECE: usize = 65_536;

fn empty_piece(alloc: Global) -> Result<Vec<u8>, AllocError>
    ensures { IfOk result (λ piece. 0 < vec_len piece) }
{
    vec![in alloc; 0u8; PIECE]
}

/// Reads the file of a name, if it has at most so many bytes.
pub fn read_whole<F: Shelf>(
    alloc: Global,
    shelf: &mut F,
    role: Role,
    name: &str,
    most: usize,
) -> Result<Vec<u8>, InputError>
    requires { most < 2 ^ 63 }
    ensures read { let input = bytes_input role most in
        IsReadUnder (λ bytes. bytes.items) input (F.told shelf.old) name.now result }
    ensures used { UsesToRead (F.told shelf.old) (F.told shelf.new) result }
    ensures of_input { IsFaultOf role result }
    ensures once { IsReadOnce (F.calls shelf.old) (F.calls shelf.new) name.now }
{
    let mut piece = empty_piece(alloc)?;
    read_by(alloc, shelf, role, name, most, &mut piece)
}

/// Reads it piece by piece.
fn read_by<F: Shelf>(
    alloc: Global,
    shelf: &mut F,
    role: Role,
    name: &str,
    most: usize,
    piece: &mut [u8],
) -> Result<Vec<u8>, InputError>
    requires most { most < 2 ^ 63 }
    requires some { 0 < length piece.old }
    ensures read { let input = bytes_input role most in
        IsReadUnder (λ bytes. bytes.items) input (F.told shelf.old) name.now result }
    ensures used { UsesToRead (F.told shelf.old) (F.told shelf.new) result }
    ensures of_input { IsFaultOf role result }
    ensures once { IsReadOnce (F.calls shelf.old) (F.calls shelf.new) name.now }
{
    let mut bytes = Vec::new(alloc);
    'pieces: loop {
        let count = match shelf.read_at(name, bytes.len() as u64, piece) {
            Ok(0) => return Ok(bytes),
            Ok(count) => count,
            Err(fault) => return Err(InputError::refused(role, fault)),
        };
        if count > most - bytes.len() {
            return Err(InputError::Fault(InputFault::TooLong(role)));
        }
        bytes.extend_from_slice(&piece[..count])?;
    }
}
