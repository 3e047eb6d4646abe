ghost use Rattle.std.specs.Prelude.{◌≡◌, IfOk};
ghost use Rattle.script_grammar.specs.Spelling.{declaration_spelling};
ghost use Rattle.script_print.specs.Pieces.{body};
ghost use Rattle.script_print.specs.TreePrints.{Prints, printed_declarations, printed_tree};

use crate::name::{print_bracketed, print_name};
use crate::printer::Printer;
use crate::statement::print_block;
use script_tokens::word::Word;
use script_tree::syntax::declaration::Declaration;
use script_tree::syntax::statement::Statement;
use script_tree::syntax::tree::{Tree, Version};
use std::alloc::{AllocError, Global};

/// The body of a function or a page.
#[tactic(auto, using(crate::proofs::Blocks::same_block))]
fn print_body(printer: &mut Printer, list: &[Statement]) -> Result<(), AllocError>
    ensures { IfOk result (λ _. Prints (body list.now) printer.old printer.new) }
{
    print_block(printer, list)
}

fn print_declaration(printer: &mut Printer, declaration: &Declaration) -> Result<(), AllocError>
    ensures { IfOk result
        (λ _. Prints (declaration_spelling declaration.now) printer.old printer.new) }
{
    match declaration {
        Declaration::Store { name, .. } => {
            printer.word(Word::Store)?;
            print_name(printer, name)?;
            printer.word(Word::Semicolon)
        }
        Declaration::Table { name, columns, .. } => {
            printer.word(Word::Table)?;
            print_name(printer, name)?;
            print_bracketed(printer, columns.as_slice())?;
            printer.word(Word::Semicolon)
        }
        Declaration::Function {
            name,
            parameters,
            body,
            ..
        } => {
            printer.word(Word::Function)?;
            print_name(printer, name)?;
            print_bracketed(printer, parameters.as_slice())?;
            print_body(printer, body.as_slice())
        }
        Declaration::Page { path, body, .. } => {
            printer.word(Word::Page)?;
            printer.text(path.text.as_bytes())?;
            print_body(printer, body.as_slice())
        }
    }
}

fn print_declarations(alloc: Global, list: &[Declaration]) -> Result<Vec<u8>, AllocError>
    ensures { IfOk result (λ out. out.items ≡ printed_declarations list.now) }
{
    let mut printer = Printer::new(alloc);
    for declaration in list {
        print_declaration(&mut printer, declaration)?;
    }
    Ok(printer.finish())
}

/// The normal spelling of a program: docs/language.md, "How a program text prints".
pub fn print(alloc: Global, tree: &Tree) -> Result<Vec<u8>, AllocError>
    ensures { IfOk result (λ out. out.items ≡ printed_tree tree.now) }
{
    match tree.version {
        Version::First => print_declarations(alloc, tree.declarations.as_slice()),
    }
}
