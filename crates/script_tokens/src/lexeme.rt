ghost use Rattle.std.specs.Prelude.{◌≡◌, ◌≤◌, ◌<◌, ◌∷◌, length, take, ◌*◌, ◌^◌, All, IsTrue, suc};
ghost use Rattle.script_tokens.specs.Texts.{text_from};
ghost use Rattle.script_tokens.specs.Tokens.{in_class, span, lexeme, value_from, is_letter, is_digit, is_blank, sign, name_or_keyword, within_limit, number_of, text, Within};
ghost use Rattle.script_tokens.specs.Shapes.{lexeme_at};
ghost use Rattle.script_tokens.specs.declared.text.Mode.TheVariants.{Plain};

use crate::fault::SyntaxFaultKind;
use crate::shape::Shape;
use crate::text::measure;
use crate::word::Word;
use script_tree::limits::{MOST_IDENTIFIER_BYTES, MOST_LITERAL_BYTES, MOST_NUMBER};

/// What stands at the front of some bytes, with its length.
#[derive(Clone, Copy)]
pub enum Lexeme {
    /// Blanks or a comment.
    Blank(usize),
    Token(Shape, usize),
    Wrong(SyntaxFaultKind),
}

/// What bytes are gathered by.
#[derive(Clone, Copy, PartialEq, Eq)]
pub enum Class {
    Name,
    Digit,
    Comment,
}

pub fn is_digit(byte: u8) -> bool
    ensures { result ≡ is_digit byte }
{
    b'0' <= byte && byte <= b'9'
}

fn is_letter(byte: u8) -> bool
    ensures { result ≡ is_letter byte }
{
    b'a' <= byte && byte <= b'z' || b'A' <= byte && byte <= b'Z' || byte == b'_'
}

fn is_blank(byte: u8) -> bool
    ensures { result ≡ is_blank byte }
{
    byte == b' ' || byte == b'\t' || byte == b'\r' || byte == b'\n'
}

impl Class {
    fn has(self, byte: u8) -> bool
        ensures { result ≡ in_class self byte }
    {
        match self {
            Class::Name => is_letter(byte) || is_digit(byte),
            Class::Digit => is_digit(byte),
            Class::Comment => byte != b'\n',
        }
    }
}

/// How many bytes from the front on are of the class.
fn span(class: Class, bytes: &[u8]) -> usize
    ensures is { result ≡ span class bytes.now }
    ensures within { result ≤ length bytes.now }
{
    let mut n = 0usize;
    while n < bytes.len() && class.has(bytes[n]) {
        n += 1;
    }
    n
}

/// The keyword or the name of this length at the front.
fn named(bytes: &[u8], len: usize) -> Lexeme
    requires some { 0 < len }
    requires within { len ≤ length bytes.now }
    ensures is { lexeme_at result bytes.now ≡ name_or_keyword (take len bytes.now) }
    ensures within { Within (lexeme_at result bytes.now) (length bytes.now) }
{
    match Word::spelled(&bytes[..len]) {
        Some(word) => Lexeme::Token(Shape::Word(word), len),
        None if len <= MOST_IDENTIFIER_BYTES => Lexeme::Token(Shape::Name, len),
        None => Lexeme::Wrong(SyntaxFaultKind::Limit),
    }
}

/// The value of some digits, if it is within the limit.
fn value_of(digits: &[u8]) -> Option<u64>
    requires { All (λ b. IsTrue (is_digit b)) digits.now }
    ensures { result ≡ within_limit (value_from 0 digits.now) }
{
    let mut value = 0u64;
    for digit in digits {
        let digit = (*digit - b'0') as u64;
        if value > (MOST_NUMBER - digit) / 10 {
            return None;
        }
        value = value * 10 + digit;
    }
    Some(value)
}

/// The number of this length at the front.
fn number(bytes: &[u8], len: usize) -> Lexeme
    requires some { 0 < len }
    requires within { len ≤ length bytes.now }
    requires digits { All (λ b. IsTrue (is_digit b)) (take len bytes.now) }
    ensures is { lexeme_at result bytes.now ≡ number_of (take len bytes.now) }
    ensures within { Within (lexeme_at result bytes.now) (length bytes.now) }
{
    match value_of(&bytes[..len]) {
        None => Lexeme::Wrong(SyntaxFaultKind::Limit),
        Some(value) => Lexeme::Token(Shape::Number(value as i64), len),
    }
}

/// The text whose first quote stands before the rest.
fn text(rest: &[u8]) -> Lexeme
    requires { length rest.now < 2 ^ 63 }
    ensures is { lexeme_at result (34 ∷ rest.now) ≡ text (text_from Plain rest.now) }
    ensures within { Within (lexeme_at result (34 ∷ rest.now)) (suc (length rest.now)) }
{
    match measure(rest) {
        None => Lexeme::Wrong(SyntaxFaultKind::NoToken),
        Some((content, len)) => {
            if content <= MOST_LITERAL_BYTES {
                Lexeme::Token(Shape::Text, 1 + len)
            } else {
                Lexeme::Wrong(SyntaxFaultKind::Limit)
            }
        }
    }
}

/// The longest sign at the front: one of two bytes, or of one.
fn sign(bytes: &[u8]) -> Lexeme
    requires { 0 < length bytes.now }
    ensures is { lexeme_at result bytes.now ≡ sign bytes.now }
    ensures within { Within (lexeme_at result bytes.now) (length bytes.now) }
{
    if bytes.len() >= 2
        && let Some(word) = Word::spelled(&bytes[..2])
    {
        return Lexeme::Token(Shape::Word(word), 2);
    }
    match Word::spelled(&bytes[..1]) {
        None => Lexeme::Wrong(SyntaxFaultKind::NoToken),
        Some(word) => Lexeme::Token(Shape::Word(word), 1),
    }
}

/// What stands at the front.
pub fn front(bytes: &[u8]) -> Lexeme
    requires { 0 < length bytes.now }
    ensures is { lexeme_at result bytes.now ≡ lexeme bytes.now }
    ensures within { Within (lexeme_at result bytes.now) (length bytes.now) }
{
    let byte = bytes[0];
    if is_blank(byte) {
        return Lexeme::Blank(1);
    }
    if byte == b'#' {
        return Lexeme::Blank(span(Class::Comment, bytes));
    }
    if is_letter(byte) {
        return named(bytes, span(Class::Name, bytes));
    }
    if is_digit(byte) {
        return number(bytes, span(Class::Digit, bytes));
    }
    if byte == b'"' {
        return text(&bytes[1..]);
    }
    sign(bytes)
}
