ghost use Rattle.std.specs.Prelude.{◌≡◌, List, [], ◌∷◌, ◌++◌, IfOk};
ghost use Rattle.script_tokens.specs.Kinds.{Kind, fixed, name, number, text};
ghost use Rattle.script_print.specs.Prints.{spaced, joined, Adds};

use itoa::Buffer;
use script_tokens::print::push_text;
use script_tokens::word::Word;
use std::alloc::{AllocError, Global};
use std::marker::Model;

/// Prints tokens one after another. Contracts see the bytes so far, where a space stands behind each
/// token. After an error it has bytes of part of a token.
#[derive(Drop)]
pub struct Printer {
    bytes: Vec<u8>,
}

impl Model for Printer {
    ghost use Rattle.std.specs.Prelude.{List, ℕ};

    ghost Value = { List ℕ };

    ghost view = { λ printer. printer.bytes.items };
}

impl Printer {
    pub fn new(alloc: Global) -> Printer
        ensures { result ≡ spaced [] }
    {
        Printer {
            bytes: Vec::new(alloc),
        }
    }

    fn end_token(&mut self) -> Result<(), AllocError>
        ensures { IfOk result (λ _. self.new ≡ self.old ++ 32 ∷ []) }
    {
        self.bytes.push(b' ')?;
        Ok(())
    }

    pub fn word(&mut self, word: Word) -> Result<(), AllocError>
        ensures { IfOk result (λ _. Adds (fixed word) self.old self.new) }
    {
        self.bytes.extend_from_slice(word.spelling())?;
        self.end_token()
    }

    pub fn name(&mut self, bytes: &[u8]) -> Result<(), AllocError>
        ensures { IfOk result (λ _. Adds (name bytes.now) self.old self.new) }
    {
        self.bytes.extend_from_slice(bytes)?;
        self.end_token()
    }

    pub fn number(&mut self, value: i64) -> Result<(), AllocError>
        ensures { IfOk result (λ _. Adds (number value) self.old self.new) }
    {
        let mut buffer = Buffer::new();
        let digits = buffer.format(value).as_bytes();
        self.bytes.extend_from_slice(digits)?;
        self.end_token()
    }

    pub fn text(&mut self, content: &[u8]) -> Result<(), AllocError>
        ensures { IfOk result (λ _. Adds (text content.now) self.old self.new) }
    {
        push_text(&mut self.bytes, content)?;
        self.end_token()
    }

    /// The tokens that were printed, with an LF behind the last one in place of its space.
    pub fn finish(self) -> Vec<u8>
        ensures { (kinds : List Kind) → self ≡ spaced kinds → result.items ≡ joined kinds }
    {
        let Printer { mut bytes } = self;
        if let Some(last) = bytes.last_mut() {
            *last = b'\n';
        }
        bytes
    }
}
