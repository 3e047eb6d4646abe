ghost use Rattle.std.specs.Prelude.{◌≡◌, ◌++◌, ◌≤◌, ◌<◌, min, length, take, drop};
ghost use Rattle.outside.specs.Pieces.{piece_len};

use std::num::NonZeroUsize;

/// How many of so many bytes go into one piece.
pub(crate) fn piece_len(len: usize, at_most: Option<NonZeroUsize>) -> usize
    ensures value { result ≡ piece_len at_most len }
    ensures within { result ≤ len }
    ensures some { 0 < len → 0 < result }
{
    match at_most {
        Some(most) => len.min(most.get()),
        None => len,
    }
}

/// The bytes from the offset on.
pub(crate) fn rest_from(bytes: &[u8], offset: u64) -> &[u8]
    ensures { result.now ≡ drop offset bytes.now }
{
    if offset < bytes.len() as u64 {
        &bytes[offset as usize..]
    } else {
        &[]
    }
}

/// Copies as many bytes as there are and as fit, and answers how many.
pub(crate) fn copy_front(bytes: &[u8], into: &mut [u8]) -> usize
    ensures count { result ≡ min (length bytes.now) (length into.old) }
    ensures piece { into.new ≡ take result bytes.now ++ drop result into.old }
{
    let count = bytes.len().min(into.len());
    into[..count].copy_from_slice(&bytes[..count]);
    count
}
