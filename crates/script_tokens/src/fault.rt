/// What is wrong with a program's text: docs/language.md, "Syntax".
#[derive(Clone, Copy, PartialEq, Eq)]
pub enum SyntaxFaultKind {
    NoToken,
    Grammar,
    Limit,
}

/// A fault of a program's text.
#[derive(Clone, Copy, PartialEq, Eq)]
pub struct SyntaxFault {
    /// How many bytes stand before it.
    pub at: usize,
    pub kind: SyntaxFaultKind,
}

/// What stands behind the last token.
#[derive(Clone, Copy, PartialEq, Eq)]
pub enum End {
    /// The end of the file, which has so many bytes.
    File(usize),
    Fault(SyntaxFault),
}
