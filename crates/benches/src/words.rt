//! Words, and what they stand for.
use std::alloc::{AllocError, Global};
use std::io::{self, ErrorKind};

/// The words of a line.
pub fn split(alloc: Global, line: &str) -> Result<Vec<String>, AllocError> {
    let mut words = Vec::new(alloc);
    for word in line.split_whitespace() {
        words.push(String::from_str(alloc, word)?)?;
    }
    Ok(words)
}

/// The number that a word spells.
pub fn number(word: &str) -> io::Result<u32> {
    word.parse().ok().ok_or(ErrorKind::InvalidInput.into())
}

/// The end of a run that was given other words than these.
pub fn wrong_words(rt: &HostRuntime, wanted: &str) -> io::Result<()> {
    eprintln!(rt; "the words are: {wanted}")?;
    Err(ErrorKind::InvalidInput.into())
}
