ghost use Rattle.std.specs.Prelude.{◌≡◌};

/// What is wrong with a tree: docs/language.md, "Check".
#[derive(Clone, Copy, PartialEq, Eq)]
pub enum CheckFaultKind {
    /// A variable or function that isn't declared.
    Undeclared,
    /// A name that is declared twice.
    DeclaredTwice,
    /// A wrong number of arguments, or of values of a row.
    WrongCount,
    /// An unknown table, column or store.
    Unknown,
    /// An `update` that sets the key column.
    KeyWritten,
    /// A second page of the same text.
    PageTwice,
}

impl CheckFaultKind {
    ghost use Rattle.script_check.specs.Least.{number_of};

    /// The number of the kind in docs/language.md.
    pub fn number(self) -> u8
        ensures { result ≡ number_of self }
    {
        match self {
            CheckFaultKind::Undeclared => 1,
            CheckFaultKind::DeclaredTwice => 2,
            CheckFaultKind::WrongCount => 3,
            CheckFaultKind::Unknown => 4,
            CheckFaultKind::KeyWritten => 5,
            CheckFaultKind::PageTwice => 6,
        }
    }
}

/// A fault of a tree.
#[derive(Clone, Copy, PartialEq, Eq)]
pub struct CheckFault {
    /// How many bytes stand before it.
    pub at: usize,
    pub kind: CheckFaultKind,
}

impl CheckFault {
    ghost use Rattle.script_check.specs.Least.{is_below};

    /// Whether it is reported where both are there.
    pub(crate) fn is_below(&self, other: &CheckFault) -> bool
        ensures { result ≡ is_below self.now other.now }
    {
        self.at < other.at || self.at == other.at && self.kind.number() < other.kind.number()
    }
}
