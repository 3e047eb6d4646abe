ghost use Rattle.std.specs.Prelude.{◌≡◌, ◌<◌, ◌≤◌, ◌∷◌, [], length, OnOk};
ghost use Rattle.script_grammar.specs.Machine.{parameters, begin_declaration};
ghost use Rattle.script_syntax.specs.Parses.{Parses, Begins, word_token, names_value, declaration_value, IsFileRead};
ghost use Rattle.script_syntax.specs.Behind.{behind_function, behind_page, behind_store, behind_table};

use crate::feed::{
    Stop, any_word, name, path, short_list, some_names, take, unexpected, ungrammatical,
};
use crate::statement::block;
use basis::Items;
use script_tokens::scan::Tokens;
use script_tokens::word::Word;
use script_tree::syntax::declaration::Declaration;
use script_tree::syntax::name::Names;
use std::alloc::Global;

/// A declaration that begins with this word.
fn declaration(
    alloc: Global,
    tokens: &mut Tokens<'_>,
    at: usize,
    word: Word,
) -> Result<Declaration, Stop>
    ensures gives { let token = word_token at word in
        Begins declaration_value token (begin_declaration at word) result tokens.old tokens.new }
    ensures shorter { OnOk result (length tokens.new.tokens ≤ length tokens.old.tokens) }
{
    match word {
        Word::Store => store(alloc, tokens, at),
        Word::Table => table(alloc, tokens, at),
        Word::Function => function(alloc, tokens, at),
        Word::Page => page(alloc, tokens, at),
        _ => Err(ungrammatical(at)),
    }
}

fn store(alloc: Global, tokens: &mut Tokens<'_>, at: usize) -> Result<Declaration, Stop>
    ensures gives { Parses declaration_value (behind_store at) [] result tokens.old tokens.new }
    ensures shorter { OnOk result (length tokens.new.tokens < length tokens.old.tokens) }
{
    let name = name(alloc, tokens)?;
    take(tokens, Word::Semicolon)?;
    Ok(Declaration::Store { at, name })
}

fn table(alloc: Global, tokens: &mut Tokens<'_>, at: usize) -> Result<Declaration, Stop>
    ensures gives { Parses declaration_value (behind_table at) [] result tokens.old tokens.new }
    ensures shorter { OnOk result (length tokens.new.tokens < length tokens.old.tokens) }
{
    let table = name(alloc, tokens)?;
    take(tokens, Word::Open)?;
    let columns = some_names(alloc, tokens, Names::new(alloc), Word::Close)?;
    take(tokens, Word::Semicolon)?;
    Ok(Declaration::Table {
        at,
        name: table,
        columns,
    })
}

/// Names up to the closing bracket, or none.
fn parameters(alloc: Global, tokens: &mut Tokens<'_>) -> Result<Names, Stop>
    ensures gives { let symbols = parameters ∷ [] in
        Parses names_value symbols (names_value []) result tokens.old tokens.new }
    ensures shorter { OnOk result (length tokens.new.tokens < length tokens.old.tokens) }
{
    if tokens.stands(Word::Close) {
        tokens.skip();
        return Ok(Names::new(alloc));
    }
    let names: Names = short_list(alloc)?;
    some_names(alloc, tokens, names, Word::Close)
}

fn function(alloc: Global, tokens: &mut Tokens<'_>, at: usize) -> Result<Declaration, Stop>
    ensures gives { Parses declaration_value (behind_function at) [] result tokens.old tokens.new }
    ensures shorter { OnOk result (length tokens.new.tokens < length tokens.old.tokens) }
{
    let name = name(alloc, tokens)?;
    take(tokens, Word::Open)?;
    let parameters = parameters(alloc, tokens)?;
    let body = block(alloc, tokens)?;
    Ok(Declaration::Function {
        at,
        name,
        parameters,
        body,
    })
}

fn page(alloc: Global, tokens: &mut Tokens<'_>, at: usize) -> Result<Declaration, Stop>
    ensures gives { Parses declaration_value (behind_page at) [] result tokens.old tokens.new }
    ensures shorter { OnOk result (length tokens.new.tokens < length tokens.old.tokens) }
{
    let path = path(alloc, tokens)?;
    let body = block(alloc, tokens)?;
    Ok(Declaration::Page { at, path, body })
}

/// All declarations, up to the end of the tokens.
pub fn declarations(alloc: Global, tokens: &mut Tokens<'_>) -> Result<Items<Declaration>, Stop>
    ensures { IsFileRead result tokens.old tokens.new }
{
    let mut declarations = Items::new(alloc);
    while let Some((at, word)) = any_word(tokens) {
        declarations.push(declaration(alloc, tokens, at, word)?)?;
    }
    match tokens.peek() {
        None => Ok(declarations),
        Some(_) => Err(unexpected(tokens)),
    }
}
