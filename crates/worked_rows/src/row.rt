//! The form of the rows.
use std::alloc::{AllocError, Global};
use std::io::{self, ErrorKind};

/// A row: lines, each a key, a blank and what it says.
#[derive(Clone, Copy)]
pub struct Row<'a> {
    text: &'a str,
}

/// What a line may begin with. After `#` it says nothing.
const KEYS: [&str; 24] = [
    "#", "", "row", "words", "file", "bytes", "program", "state", "schedule", "requests", "turns",
    "files", "workers", "times", "seed", "clock", "step", "ends", "request", "response", "trace",
    "report", "shelf", "out",
];

/// The first word of a line, and the rest of it.
pub fn parted(line: &str) -> (&str, &str) {
    line.split_once(' ').unwrap_or((line, ""))
}

/// The number that a word is.
pub fn number_of(word: &str) -> io::Result<u32> {
    word.parse().ok().ok_or(ErrorKind::InvalidData.into())
}

fn is_key(word: &str) -> bool {
    for key in KEYS {
        if key == word {
            return true;
        }
    }
    false
}

impl<'a> Row<'a> {
    /// The row of this text, or its first line with another key.
    pub fn new(text: &'a str) -> Result<Row<'a>, &'a str> {
        for line in text.lines() {
            let (key, _) = parted(line);
            if !is_key(key) {
                return Err(line);
            }
        }
        Ok(Row { text })
    }

    /// What its line of this key says, where it has one.
    pub fn field(self, wanted: &str) -> Option<&'a str> {
        for line in self.text.lines() {
            let (key, said) = parted(line);
            if key == wanted {
                return Some(said);
            }
        }
        None
    }

    /// The same, or nothing.
    pub fn said(self, wanted: &str) -> &'a str {
        self.field(wanted).unwrap_or("")
    }

    /// Its text, line by line.
    pub fn text(self) -> &'a str {
        self.text
    }
}

/// The text that a row spells: the picture of a control character or of a blank stands for it, and
/// `⟨9×ab⟩` for nine times `ab`.
pub fn text_of(alloc: Global, spelled: &str) -> io::Result<String> {
    let mut text = String::new(alloc);
    for piece in spelled.split('⟨') {
        push_piece(&mut text, piece)?;
    }
    Ok(text)
}

/// Pushes what a piece spells, which begins with what is repeated, where a `⟩` ends that.
fn push_piece(text: &mut String, piece: &str) -> io::Result<()> {
    let (repeated, plain) = piece.split_once('⟩').unwrap_or(("0×", piece));
    push_repeated(text, repeated)?;
    Ok(push_plain(text, plain)?)
}

fn push_repeated(text: &mut String, repeated: &str) -> io::Result<()> {
    let (times, part) = repeated.split_once('×').unwrap_or(("", ""));
    for _ in 0..number_of(times)? {
        text.push_str(part)?;
    }
    Ok(())
}

fn push_plain(text: &mut String, spelled: &str) -> Result<(), AllocError> {
    for letter in spelled.chars() {
        text.push(meant(letter))?;
    }
    Ok(())
}

/// The character that a picture stands for.
fn meant(letter: char) -> char {
    match letter {
        '\u{2400}'..='\u{2420}' => (letter as u32 - 0x2400) as u8 as char,
        '\u{2421}' => '\u{7f}',
        _ => letter,
    }
}
