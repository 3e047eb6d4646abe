ghost use Rattle.std.specs.Prelude.{◌≡◌, IfOk};
ghost use Rattle.script_tokens.specs.Kinds as kind;
ghost use Rattle.script_grammar.specs.Spelling.{names, names_before};
ghost use Rattle.script_print.specs.Prints.{Adds};
ghost use Rattle.script_print.specs.Pieces.{bracketed};
ghost use Rattle.script_print.specs.TreePrints.{Prints};

use crate::printer::Printer;
use script_tokens::word::Word;
use script_tree::syntax::name::Name;
use std::alloc::AllocError;

pub(crate) fn print_name(printer: &mut Printer, name: &Name) -> Result<(), AllocError>
    ensures { IfOk result (λ _. Adds (kind.name name.now.text) printer.old printer.new) }
{
    printer.name(name.text.as_bytes())
}

/// Columns or parameters.
pub(crate) fn print_bracketed(printer: &mut Printer, list: &[Name]) -> Result<(), AllocError>
    ensures { IfOk result (λ _. Prints (bracketed list.now) printer.old printer.new) }
{
    printer.word(Word::Open)?;
    print_names(printer, list)?;
    printer.word(Word::Close)
}

/// Names with commas between them.
pub(crate) fn print_names(printer: &mut Printer, list: &[Name]) -> Result<(), AllocError>
    ensures { IfOk result (λ _. Prints (names list.now) printer.old printer.new) }
{
    match list {
        [] => Ok(()),
        [first, others @ ..] => {
            print_name(printer, first)?;
            print_more_names(printer, others)
        }
    }
}

fn print_more_names(printer: &mut Printer, others: &[Name]) -> Result<(), AllocError>
    ensures { IfOk result (λ _. Prints (names_before others.now) printer.old printer.new) }
{
    for name in others {
        printer.word(Word::Comma)?;
        print_name(printer, name)?;
    }
    Ok(())
}
