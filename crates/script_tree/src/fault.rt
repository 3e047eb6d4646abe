ghost use Rattle.std.specs.Prelude.{◌≡◌};
ghost use Rattle.script_tree.specs.Faults.{fault_number};

use std::fmt;

/// Why a script stops before its end. Its response has the number: docs/language.md.
#[derive(Clone, Copy, PartialEq, Eq, Hash)]
pub enum ScriptFault {
    /// A value of the wrong kind.
    WrongKind = 1,
    /// A number beyond 64 bits.
    Overflow = 2,
    ZeroDivisor = 3,
    /// An index, a range or a status that isn't allowed.
    OutOfRange = 4,
    /// A value, a name, a key or a body beyond its limit.
    TooLarge = 5,
    /// A step after the last.
    OutOfSteps = 6,
    /// An operation after the last.
    TooManyOperations = 7,
    /// A call too deep.
    TooDeep = 8,
    /// A bound below 1 for a random number.
    BadBound = 9,
}

impl ScriptFault {
    pub fn number(self) -> u8
        ensures { result ≡ fault_number self }
    {
        self as u8
    }
}

impl fmt::Display for ScriptFault {
    ghost use Rattle.std.specs.Prelude.{Some};
    ghost use Rattle.script_tree.specs.Faults.{fault_text};

    ghost output = { λ fault. Some (fault_text fault) };

    fn fmt<W: fmt::Write>(&self, f: &mut fmt::Formatter<W>) -> fmt::Result {
        write!(f, "fault {}", self.number())
    }
}
