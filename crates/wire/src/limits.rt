//! The limits of files: docs/formats.md. Code, contracts and definitions cite them by name.

ghost use Rattle.std.specs.Prelude.{◌≡◌};

/// How many bytes a file that is read may have, and one that is written, if it is no schedule.
pub const MOST_FILE_BYTES: usize = 1_073_741_824;

/// How many bytes the file of a schedule may have.
pub const MOST_SCHEDULE_BYTES: usize = 1_073_807_360;

/// How many bytes a record may have: its length, of four bytes, and what that length counts.
pub const MOST_RECORD_BYTES: usize = 4_294_967_299;

/// The limits in digits, as docs/formats.md has them.
pub fn limits_in_digits()
    ensures file { MOST_FILE_BYTES ≡ 1073741824 }
    ensures schedule { MOST_SCHEDULE_BYTES ≡ 1073807360 }
    ensures record_bytes { MOST_RECORD_BYTES ≡ 4294967299 }
{}
