//! Programs and texts, for the tests.
ghost use Rattle.std.specs.Prelude.{◌≡◌, IfOk};

use script_check::program::{Program, check};
use script_syntax::parse::parse;
use script_tree::text::Text;
use std::alloc::{AllocError, Global};

pub fn text(alloc: Global, bytes: &[u8]) -> Result<Text, AllocError>
    ensures { IfOk result (λ text. text ≡ bytes.now) }
{
    Ok(Text::from_vec(Vec::from_slice(alloc, bytes)?))
}

/// The program of these bytes, which spell one.
pub fn program(alloc: Global, bytes: &[u8]) -> Result<Program, AllocError> {
    let Ok(tree) = parse(alloc, bytes) else {
        return Err(AllocError);
    };
    match check(alloc, tree) {
        Ok(program) => Ok(program),
        Err(_) => Err(AllocError),
    }
}
