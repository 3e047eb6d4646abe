//! The statuses of responses that no page sets.

ghost use Rattle.std.specs.Prelude.{◌≡◌};

/// Of a page that sets none.
pub const USUAL_STATUS: u16 = 200;

/// Where no page has the request's path.
pub const NO_PAGE_STATUS: u16 = 404;

/// Of a run that stops at a fault.
pub const FAULT_STATUS: u16 = 500;

/// The statuses in digits, as docs/language.md has them.
pub fn statuses_in_digits()
    ensures usual { USUAL_STATUS ≡ 200 }
    ensures no_page { NO_PAGE_STATUS ≡ 404 }
    ensures fault { FAULT_STATUS ≡ 500 }
{}
