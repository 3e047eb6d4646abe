use crate::word::Word;

/// What a token is, without the bytes of a name and the content of a text.
#[derive(Clone, Copy, PartialEq, Eq)]
pub enum Shape {
    /// A keyword or a sign.
    Word(Word),
    Name,
    Number(i64),
    Text,
}
