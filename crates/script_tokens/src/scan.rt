ghost use Rattle.std.specs.Prelude.{◌≡◌, ◌+◌, ◌<◌, ◌≤◌, ◌^◌, length, drop, IfOk, IfErr, IfSome};
ghost use Rattle.script_tokens.specs.Tokens.{lexeme, whole};
ghost use Rattle.script_tokens.specs.Shapes.{kind_at};
ghost use Rattle.script_tokens.specs.Scans.{scan, scan_of, open_behind, nothing_more};
ghost use Rattle.script_tokens.specs.Fronts.{shape_bracket};
ghost use Rattle.script_tokens.specs.Feed.{shape_at, stands, place_at, name_at, text_at, number_at, end_at, fault_at, rest_of, left_by};

use crate::fault::{End, SyntaxFault, SyntaxFaultKind};
use crate::lexeme::{Lexeme, front};
use crate::shape::Shape;
use crate::text::content;
use crate::word::Word;
use script_tree::limits::MOST_OPEN_BRACKETS;
use script_tree::syntax::name::Name;
use script_tree::text::Text;
use std::alloc::{AllocError, Global};
use std::marker::Model;

/// The first token, with its length, or what ends the tokens.
#[derive(Clone, Copy)]
enum Front {
    Token(Shape, usize),
    Nothing(End),
}

/// The tokens that are left to read. Contracts see the list of them, and what ends them.
#[derive(Drop)]
pub struct Tokens<'a> {
    /// The bytes from the first token on.
    rest: &'a [u8],
    /// How many bytes stand before it.
    at: usize,
    /// How many brackets are open behind it.
    depth: usize,
    front: Front,
}

impl<'a> Model for Tokens<'a> {
    ghost use Rattle.script_tokens.specs.Scans.{Scan};

    ghost Value = { Scan };

    ghost use Rattle.script_tokens.specs.Fronts.{seen, Fits};

    ghost view = { λ t. seen t.front t.at t.depth t.rest.now };

    ghost invariant = { λ t. Fits t.front t.at t.depth t.rest.now };
}

impl Shape {
    /// How many brackets are open behind it; none where it would open one too many.
    fn open_behind(self, depth: usize) -> Option<usize>
        requires { depth ≤ MOST_OPEN_BRACKETS }
        ensures is { result ≡ open_behind (shape_bracket self) depth }
        ensures within { IfSome result (λ n. n ≤ MOST_OPEN_BRACKETS) }
    {
        match self {
            Shape::Word(Word::Open | Word::BraceOpen | Word::SquareOpen) => {
                if depth < MOST_OPEN_BRACKETS {
                    Some(depth + 1)
                } else {
                    None
                }
            }
            Shape::Word(Word::Close | Word::BraceClose | Word::SquareClose) => {
                Some(depth.saturating_sub(1))
            }
            _ => Some(depth),
        }
    }
}

impl<'a> Tokens<'a> {
    /// The tokens of a file.
    pub fn new(bytes: &'a [u8]) -> Tokens<'a>
        ensures { result ≡ scan_of bytes.now }
    {
        Tokens::from_place(bytes, 0, 0)
    }

    /// The tokens from a place on, where so many brackets are open.
    fn from_place(bytes: &'a [u8], at: usize, depth: usize) -> Tokens<'a>
        requires depth_fits { depth ≤ MOST_OPEN_BRACKETS }
        requires place_fits { at + length bytes.now < 2 ^ 63 }
        ensures { result ≡ scan bytes.now at depth 0 }
    {
        let mut rest = bytes;
        let mut at = at;
        while !rest.is_empty() {
            match front(rest) {
                Lexeme::Blank(len) => {
                    rest = &rest[len..];
                    at += len;
                }
                Lexeme::Token(shape, len) => return Tokens::from_token(rest, at, depth, shape, len),
                Lexeme::Wrong(kind) => {
                    return Tokens::ended(End::Fault(SyntaxFault { at, kind }));
                }
            }
        }
        Tokens::ended(End::File(at))
    }

    /// The tokens from this one on.
    fn from_token(rest: &'a [u8], at: usize, depth: usize, shape: Shape, len: usize) -> Tokens<'a>
        requires depth_fits { depth ≤ MOST_OPEN_BRACKETS }
        requires place_fits { at + length rest.now < 2 ^ 63 }
        requires in_front { whole (kind_at shape len rest.now) len ≡ lexeme rest.now }
        requires some { 0 < len }
        requires within { len ≤ length rest.now }
        ensures { result ≡ scan rest.now at depth 0 }
    {
        match shape.open_behind(depth) {
            Some(depth) => Tokens {
                rest,
                at,
                depth,
                front: Front::Token(shape, len),
            },
            None => {
                let kind = SyntaxFaultKind::Grammar;
                Tokens::ended(End::Fault(SyntaxFault { at, kind }))
            }
        }
    }

    fn ended(end: End) -> Tokens<'a>
        ensures { result ≡ nothing_more end }
    {
        Tokens {
            rest: &[],
            at: 0,
            depth: 0,
            front: Front::Nothing(end),
        }
    }

    /// The shape of the first token; none at the end.
    pub fn peek(&self) -> Option<Shape>
        ensures { result ≡ shape_at self.now.tokens }
    {
        match self.front {
            Front::Token(shape, _) => Some(shape),
            Front::Nothing(_) => None,
        }
    }

    /// Whether this word stands in front.
    pub fn stands(&self, word: Word) -> bool
        ensures { result ≡ stands word self.now.tokens }
    {
        match self.front {
            Front::Token(Shape::Word(here), _) => here == word,
            _ => false,
        }
    }

    /// The place of the first token; none at the end.
    pub fn place(&self) -> Option<usize>
        ensures { result ≡ place_at self.now.tokens }
    {
        match self.front {
            Front::Token(..) => Some(self.at),
            Front::Nothing(_) => None,
        }
    }

    /// What ends the tokens, where none is left.
    pub fn end(&self) -> Option<End>
        ensures { result ≡ end_at self.now }
    {
        match self.front {
            Front::Token(..) => None,
            Front::Nothing(end) => Some(end),
        }
    }

    /// What is wrong with the text where no program goes on as these tokens do.
    pub fn fault(&self) -> SyntaxFault
        ensures { result ≡ fault_at self.now }
    {
        let kind = SyntaxFaultKind::Grammar;
        match self.front {
            Front::Token(..) => SyntaxFault { at: self.at, kind },
            Front::Nothing(End::File(at)) => SyntaxFault { at, kind },
            Front::Nothing(End::Fault(fault)) => fault,
        }
    }

    /// Leaves the first token behind; nothing at the end.
    pub fn skip(&mut self)
        ensures { self.new ≡ rest_of self.old }
    {
        if let Front::Token(_, len) = self.front {
            *self = Tokens::from_place(&self.rest[len..], self.at + len, self.depth);
        }
    }

    /// Takes a name.
    pub fn name(&mut self, alloc: Global) -> Result<Option<Name>, AllocError>
        ensures taken { IfOk result (λ o. o ≡ name_at self.old.tokens) }
        ensures left { IfOk result (λ o. self.new ≡ left_by o self.old) }
        ensures kept { IfErr result (λ _. self.new ≡ self.old) }
    {
        match self.front {
            Front::Token(Shape::Name, len) => {
                let at = self.at;
                let text = Text::from_vec(self.rest[..len].to_vec(alloc)?);
                self.skip();
                Ok(Some(Name { at, text }))
            }
            _ => Ok(None),
        }
    }

    /// Takes a text.
    pub fn text(&mut self, alloc: Global) -> Result<Option<Name>, AllocError>
        ensures taken { IfOk result (λ o. o ≡ text_at self.old.tokens) }
        ensures left { IfOk result (λ o. self.new ≡ left_by o self.old) }
        ensures kept { IfErr result (λ _. self.new ≡ self.old) }
    {
        match self.front {
            Front::Token(Shape::Text, _) => {
                let at = self.at;
                match content(alloc, &self.rest[1..])? {
                    Some(text) => {
                        self.skip();
                        Ok(Some(Name { at, text }))
                    }
                    None => unreachable!(),
                }
            }
            _ => Ok(None),
        }
    }

    /// Takes a number.
    pub fn number(&mut self) -> Option<(usize, i64)>
        ensures taken { result ≡ number_at self.old.tokens }
        ensures left { self.new ≡ left_by result self.old }
    {
        match self.front {
            Front::Token(Shape::Number(number), _) => {
                let at = self.at;
                self.skip();
                Some((at, number))
            }
            _ => None,
        }
    }
}
