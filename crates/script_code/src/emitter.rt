ghost use Rattle.std.specs.Prelude.{◌≡◌, ◌<◌, ◌++◌, ◌∷◌, [], length, slice_set, IfOk, OnOk};
ghost use Rattle.script_check.specs.Indexes.{Puts};
ghost use Rattle.script_check.specs.FoundByName.{table_of};
ghost use Rattle.script_tree.specs.Declarations.{table_in};
ghost use Rattle.script_code.specs.Callees.{callee_named, TellsNumbers};

use crate::callee::Callee;
use crate::instruction::Instruction;
use script_check::lookup::{FoundTable, Index};
use script_check::program::Program;
use script_tree::syntax::builtin::Builtin;
use script_tree::syntax::declaration::Declaration;
use script_tree::syntax::name::Name;
use script_tree::text::Text;
use std::alloc::{AllocError, Global};
use std::collections::BTreeMap;
use std::marker::Model;

/// Writes the code of a program. Contracts see the program.
#[derive(Drop)]
pub(crate) struct Emitter<'a> {
    pub(crate) alloc: Global,
    index: Index<'a>,
    /// The number of each function.
    functions: BTreeMap<&'a [u8], usize>,
}

impl<'a> Model for Emitter<'a> {
    ghost use Rattle.script_tree.specs.Programs.{Program as Meant};
    ghost use Rattle.script_tree.specs.ProgramCode.{coded_program};

    ghost Value = { Meant };

    ghost coded = { coded_program };

    ghost use Rattle.script_code.specs.EmitterView.{program_in, IsEmitter};

    ghost view = { program_in };

    ghost invariant = { IsEmitter };
}

impl<'a> Emitter<'a> {
    pub(crate) fn new(alloc: Global, program: &'a Program) -> Result<Emitter<'a>, AllocError>
        ensures { IfOk result (λ emitter. emitter ≡ program.now) }
    {
        Ok(Emitter {
            alloc,
            index: Index::new(alloc, program)?,
            functions: numbers_of(alloc, program)?,
        })
    }

    /// What a name calls: a function of the program first.
    pub(crate) fn callee(&self, name: &Text) -> Callee
        ensures { result ≡ callee_named self.now name.now }
    {
        match self.functions.get(name.as_bytes()) {
            Some(number) => Callee::Own(*number),
            None => match Builtin::named(self.index.program().version(), name.as_bytes()) {
                Some(builtin) => Callee::Builtin(builtin),
                None => Callee::Unknown,
            },
        }
    }

    /// The table of a name; where it isn't declared, one without columns.
    pub(crate) fn table(&self, name: &Name) -> FoundTable<'a>
        ensures { table_of result ≡ table_in self.now name.now }
    {
        match self.index.table(name.text.as_bytes()) {
            Some(table) => table,
            None => FoundTable {
                number: 0,
                columns: &[],
            },
        }
    }
}

/// The number of each function that the program declares.
fn numbers_of<'a>(
    alloc: Global,
    program: &'a Program,
) -> Result<BTreeMap<&'a [u8], usize>, AllocError>
    ensures { IfOk result (TellsNumbers program.now.declarations) }
{
    let mut numbers = BTreeMap::new(alloc);
    let mut count = 0usize;
    for declaration in program.declarations() {
        match declaration {
            Declaration::Store { .. } => {}
            Declaration::Table { .. } => {}
            Declaration::Function { name, .. } => {
                add(&mut numbers, name.text.as_bytes(), count)?;
                count += 1;
            }
            Declaration::Page { .. } => {}
        }
    }
    Ok(numbers)
}

/// Adds the number of a name, unless it has one.
fn add<'a>(
    numbers: &mut BTreeMap<&'a [u8], usize>,
    name: &'a [u8],
    number: usize,
) -> Result<(), AllocError>
    ensures { OnOk result (Puts name.now number numbers.old numbers.new) }
{
    if !numbers.contains_key(name) {
        numbers.insert(name, number)?;
    }
    Ok(())
}

/// One more instruction.
pub(crate) fn put(code: &mut Vec<Instruction>, instruction: Instruction) -> Result<(), AllocError>
    ensures { OnOk result (code.new.items ≡ code.old.items ++ instruction ∷ []) }
{
    code.push(instruction)?;
    Ok(())
}

/// This instruction instead of the one at a place.
pub(crate) fn replace(code: &mut Vec<Instruction>, place: usize, instruction: Instruction)
    requires { place < length code.now.items }
    ensures { code.new.items ≡ slice_set code.old.items place instruction }
{
    code[place] = instruction;
}
