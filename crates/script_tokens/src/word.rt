ghost use Rattle.std.specs.Prelude.{◌≡◌, find};
ghost use Rattle.std.specs.Str.{bytes_eq};
ghost use Rattle.script_tokens.specs.Words.{spelling_of, word_of};
ghost use Rattle.script_tokens.specs.Beginnings.{beginning_with};

/// A token that is always written the same: a keyword or a sign.
#[derive(Clone, Copy, PartialEq, Eq)]
pub enum Word {
    Store,
    Table,
    Function,
    Page,
    Let,
    Set,
    If,
    Else,
    While,
    For,
    In,
    Echo,
    Status,
    Return,
    Do,
    Or,
    And,
    Not,
    True,
    False,
    Null,
    Transact,
    Insert,
    Select,
    From,
    Update,
    Delete,
    Expect,
    Where,
    Semicolon,
    Comma,
    Open,
    Close,
    BraceOpen,
    BraceClose,
    SquareOpen,
    SquareClose,
    Becomes,
    Equal,
    Unequal,
    Less,
    AtMost,
    Greater,
    AtLeast,
    Plus,
    Minus,
    Times,
    Over,
    Percent,
}

impl Word {
    /// How it is written.
    pub fn spelling(self) -> &'static [u8]
        ensures { result.now ≡ spelling_of self }
    {
        match self {
            Word::Store => b"store".as_slice(),
            Word::Table => b"table".as_slice(),
            Word::Function => b"function".as_slice(),
            Word::Page => b"page".as_slice(),
            Word::Let => b"let".as_slice(),
            Word::Set => b"set".as_slice(),
            Word::If => b"if".as_slice(),
            Word::Else => b"else".as_slice(),
            Word::While => b"while".as_slice(),
            Word::For => b"for".as_slice(),
            Word::In => b"in".as_slice(),
            Word::Echo => b"echo".as_slice(),
            Word::Status => b"status".as_slice(),
            Word::Return => b"return".as_slice(),
            Word::Do => b"do".as_slice(),
            Word::Or => b"or".as_slice(),
            Word::And => b"and".as_slice(),
            Word::Not => b"not".as_slice(),
            Word::True => b"true".as_slice(),
            Word::False => b"false".as_slice(),
            Word::Null => b"null".as_slice(),
            Word::Transact => b"transact".as_slice(),
            Word::Insert => b"insert".as_slice(),
            Word::Select => b"select".as_slice(),
            Word::From => b"from".as_slice(),
            Word::Update => b"update".as_slice(),
            Word::Delete => b"delete".as_slice(),
            Word::Expect => b"expect".as_slice(),
            Word::Where => b"where".as_slice(),
            Word::Semicolon => b";".as_slice(),
            Word::Comma => b",".as_slice(),
            Word::Open => b"(".as_slice(),
            Word::Close => b")".as_slice(),
            Word::BraceOpen => b"{".as_slice(),
            Word::BraceClose => b"}".as_slice(),
            Word::SquareOpen => b"[".as_slice(),
            Word::SquareClose => b"]".as_slice(),
            Word::Becomes => b"=".as_slice(),
            Word::Equal => b"==".as_slice(),
            Word::Unequal => b"!=".as_slice(),
            Word::Less => b"<".as_slice(),
            Word::AtMost => b"<=".as_slice(),
            Word::Greater => b">".as_slice(),
            Word::AtLeast => b">=".as_slice(),
            Word::Plus => b"+".as_slice(),
            Word::Minus => b"-".as_slice(),
            Word::Times => b"*".as_slice(),
            Word::Over => b"/".as_slice(),
            Word::Percent => b"%".as_slice(),
        }
    }

    /// The word that is written so.
    pub fn spelled(bytes: &[u8]) -> Option<Word>
        ensures { result ≡ word_of bytes.now }
    {
        match bytes {
            [] => None,
            [first, ..] => first_spelled(Word::beginning_with(*first), bytes),
        }
    }

    /// The words that begin with this byte.
    fn beginning_with(byte: u8) -> &'static [Word]
        ensures { result.now ≡ beginning_with byte }
    {
        match byte {
            b'a' => &[Word::And],
            b'd' => &[Word::Do, Word::Delete],
            b'e' => &[Word::Else, Word::Echo, Word::Expect],
            b'f' => &[Word::Function, Word::For, Word::False, Word::From],
            b'i' => &[Word::If, Word::In, Word::Insert],
            b'l' => &[Word::Let],
            b'n' => &[Word::Not, Word::Null],
            b'o' => &[Word::Or],
            b'p' => &[Word::Page],
            b'r' => &[Word::Return],
            b's' => &[Word::Store, Word::Set, Word::Status, Word::Select],
            b't' => &[Word::Table, Word::True, Word::Transact],
            b'u' => &[Word::Update],
            b'w' => &[Word::While, Word::Where],
            b';' => &[Word::Semicolon],
            b',' => &[Word::Comma],
            b'(' => &[Word::Open],
            b')' => &[Word::Close],
            b'{' => &[Word::BraceOpen],
            b'}' => &[Word::BraceClose],
            b'[' => &[Word::SquareOpen],
            b']' => &[Word::SquareClose],
            b'=' => &[Word::Becomes, Word::Equal],
            b'!' => &[Word::Unequal],
            b'<' => &[Word::Less, Word::AtMost],
            b'>' => &[Word::Greater, Word::AtLeast],
            b'+' => &[Word::Plus],
            b'-' => &[Word::Minus],
            b'*' => &[Word::Times],
            b'/' => &[Word::Over],
            b'%' => &[Word::Percent],
            _ => &[],
        }
    }
}

fn first_spelled(words: &[Word], bytes: &[u8]) -> Option<Word>
    ensures { result ≡ find (λ w. bytes_eq (spelling_of w) bytes.now) words.now }
{
    words.iter().copied().find(|word| word.spelling() == bytes)
}
