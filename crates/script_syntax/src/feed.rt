ghost use Rattle.std.specs.Prelude.{◌≡◌, ◌<◌, ◌≤◌, ◌∷◌, [], length, IfOk, OnOk, IfNone, IfSome};
ghost use Rattle.script_tokens.specs.Feed.{fault_at};
ghost use Rattle.script_tokens.specs.Scans.{before};
ghost use Rattle.script_grammar.specs.Files.{ungrammatical};
ghost use Rattle.script_grammar.specs.Machine.{word, a_name, a_path, more_names};
ghost use Rattle.script_syntax.specs.Parses.{Parses, no_value, a_name_value, names_value, word_token, BeginsNoWord};
ghost use Rattle.script_syntax.specs.Behind.{some_names};
ghost use Rattle.basis.specs.declared.or_memory.OrMemory.TheVariants.{Other};

use basis::{Items, OrMemory};
use script_tokens::fault::{SyntaxFault, SyntaxFaultKind};
use script_tokens::scan::Tokens;
use script_tokens::shape::Shape;
use script_tokens::word::Word;
use script_tree::syntax::name::{Name, Names};
use std::alloc::{AllocError, Global};

/// Why a part of a program isn't read.
pub type Stop = OrMemory<SyntaxFault>;

/// No program goes on as the tokens do.
pub fn unexpected(tokens: &Tokens<'_>) -> Stop
    ensures { result ≡ Other (fault_at tokens.now) }
{
    OrMemory::Other(tokens.fault())
}

/// No program goes on with the token at this place.
pub fn ungrammatical(at: usize) -> Stop
    ensures { result ≡ Other (ungrammatical at) }
{
    let kind = SyntaxFaultKind::Grammar;
    OrMemory::Other(SyntaxFault { at, kind })
}

/// An empty list with room for one item: most lists of a program have one, and a list that grows
/// takes room for four.
pub fn short_list<T: Drop>(alloc: Global) -> Result<Items<T>, AllocError>
    ensures { IfOk result (λ items. items ≡ []) }
{
    Ok(Items::from_vec(Vec::with_capacity(alloc, 1)?))
}

/// Takes this word.
pub fn take(tokens: &mut Tokens<'_>, wanted: Word) -> Result<(), Stop>
    ensures gives { Parses no_value (word wanted ∷ []) [] result tokens.old tokens.new }
    ensures shorter { OnOk result (length tokens.new.tokens < length tokens.old.tokens) }
{
    if tokens.stands(wanted) {
        tokens.skip();
        Ok(())
    } else {
        Err(unexpected(tokens))
    }
}

/// Takes a name.
pub fn name(alloc: Global, tokens: &mut Tokens<'_>) -> Result<Name, Stop>
    ensures gives { Parses a_name_value (a_name ∷ []) [] result tokens.old tokens.new }
    ensures shorter { OnOk result (length tokens.new.tokens < length tokens.old.tokens) }
{
    match tokens.name(alloc)? {
        Some(name) => Ok(name),
        None => Err(unexpected(tokens)),
    }
}

/// Takes the text by which a page is asked for.
pub fn path(alloc: Global, tokens: &mut Tokens<'_>) -> Result<Name, Stop>
    ensures gives { Parses a_name_value (a_path ∷ []) [] result tokens.old tokens.new }
    ensures shorter { OnOk result (length tokens.new.tokens < length tokens.old.tokens) }
{
    match tokens.text(alloc)? {
        Some(path) => Ok(path),
        None => Err(unexpected(tokens)),
    }
}

/// Takes the first token where it is a word, with its place.
pub fn any_word(tokens: &mut Tokens<'_>) -> Option<(usize, Word)>
    ensures none { IfNone result (BeginsNoWord tokens.old.tokens) }
    ensures kept { IfNone result (tokens.new ≡ tokens.old) }
    ensures taken { IfSome result (λ x. tokens.old ≡ before (word_token x.0 x.1) tokens.new) }
{
    let at = tokens.place()?;
    let Some(Shape::Word(word)) = tokens.peek() else {
        return None;
    };
    tokens.skip();
    Some((at, word))
}

/// One name or more, up to the closing word, added to the names.
pub fn some_names(
    alloc: Global,
    tokens: &mut Tokens<'_>,
    names: Names,
    close: Word,
) -> Result<Names, Stop>
    ensures gives { let symbols = some_names close in
        Parses names_value symbols (names_value names) result tokens.old tokens.new }
    ensures shorter { OnOk result (length tokens.new.tokens < length tokens.old.tokens) }
{
    let mut names = names;
    names.push(name(alloc, tokens)?)?;
    more_names(alloc, tokens, names, close)
}

/// The further names up to the closing word.
fn more_names(
    alloc: Global,
    tokens: &mut Tokens<'_>,
    names: Names,
    close: Word,
) -> Result<Names, Stop>
    ensures gives { let symbols = more_names close ∷ [] in
        Parses names_value symbols (names_value names) result tokens.old tokens.new }
    ensures shorter { OnOk result (length tokens.new.tokens ≤ length tokens.old.tokens) }
{
    let mut names = names;
    while !tokens.stands(close) {
        take(tokens, Word::Comma)?;
        names.push(name(alloc, tokens)?)?;
    }
    tokens.skip();
    Ok(names)
}
