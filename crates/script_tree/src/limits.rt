//! The limits of the language: docs/language.md. Code, contracts and definitions cite them by name.

ghost use Rattle.std.specs.Prelude.{◌≡◌};

/// How large a value may be.
pub const MOST_VALUE_SIZE: u64 = 65_536;

/// How deep the lists of a value may nest.
pub const MOST_VALUE_NESTING: u64 = 16;

/// How many bytes a text of a request may have.
pub const MOST_REQUEST_TEXT_BYTES: usize = 65_535;

/// How many parameters a request may have.
pub const MOST_PARAMETERS: usize = 1_024;

/// How many requests a trace may have.
pub const MOST_REQUESTS: usize = 65_536;

/// How many bytes the name of a register, the key of a store and the key of a row may have.
pub const MOST_KEY_BYTES: usize = 1_024;

/// How many steps a run may spend.
pub const MOST_STEPS: u32 = 100_000;

/// How many operations a run may issue.
pub const MOST_OPERATIONS: u32 = 1_000;

/// How deep calls of a program's functions may nest.
pub const MOST_CALL_DEPTH: u32 = 64;

/// How many bytes the body of a response may have.
pub const MOST_BODY_BYTES: usize = 262_144;

/// The least status that a page may give.
pub const LEAST_STATUS: u16 = 200;

/// The greatest status that a page may give.
pub const MOST_STATUS: u16 = 599;

/// How many bytes a name in a program may have.
pub const MOST_IDENTIFIER_BYTES: usize = 64;

/// The greatest number in a program's text.
pub const MOST_NUMBER: u64 = 9_223_372_036_854_775_807;

/// How many bytes the content of a text in a program may have.
pub const MOST_LITERAL_BYTES: usize = 65_535;

/// How many brackets may be open at a place of a program.
pub const MOST_OPEN_BRACKETS: usize = 64;

/// How many operators, prefixes or indexings may stand in one row of a program.
pub const MOST_REPEATS: usize = 64;

/// How many declarations a program has fewer than, so that 32 bits number them.
pub const TOO_MANY_DECLARATIONS: usize = 4_294_967_296;

/// The limits in digits, as docs/language.md has them.
pub fn limits_in_digits()
    ensures value_size { MOST_VALUE_SIZE ≡ 65536 }
    ensures value_nesting { MOST_VALUE_NESTING ≡ 16 }
    ensures request_text { MOST_REQUEST_TEXT_BYTES ≡ 65535 }
    ensures parameters { MOST_PARAMETERS ≡ 1024 }
    ensures requests { MOST_REQUESTS ≡ 65536 }
    ensures key { MOST_KEY_BYTES ≡ 1024 }
    ensures steps { MOST_STEPS ≡ 100000 }
    ensures operations { MOST_OPERATIONS ≡ 1000 }
    ensures call_depth { MOST_CALL_DEPTH ≡ 64 }
    ensures body { MOST_BODY_BYTES ≡ 262144 }
    ensures least_status { LEAST_STATUS ≡ 200 }
    ensures most_status { MOST_STATUS ≡ 599 }
    ensures identifier { MOST_IDENTIFIER_BYTES ≡ 64 }
    ensures number { MOST_NUMBER ≡ 9223372036854775807 }
    ensures literal { MOST_LITERAL_BYTES ≡ 65535 }
    ensures open_brackets { MOST_OPEN_BRACKETS ≡ 64 }
    ensures repeats { MOST_REPEATS ≡ 64 }
    ensures declarations { TOO_MANY_DECLARATIONS ≡ 4294967296 }
{}
