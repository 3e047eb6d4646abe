ghost use Rattle.std.specs.Prelude.{◌≡◌, IfOk, OnOk};
ghost use Rattle.script_code.specs.Translated.{at_path, IsEmpty, IsTranslated};
ghost use Rattle.script_code.specs.Translated.{IsCodeOf, PutsPage};

use crate::emitter::Emitter;
use crate::instruction::Instruction;
use script_check::program::Program;
use script_tree::syntax::declaration::Declaration;
use script_tree::text::Text;
use std::alloc::{AllocError, Global};
use std::collections::BTreeMap;

/// A page's number among the pages, and where its code begins.
#[derive(Clone, Copy)]
pub struct PageEntry {
    pub number: u32,
    pub place: usize,
}

/// The code of a program.
#[derive(Drop)]
pub struct Code {
    pub instructions: Vec<Instruction>,
    /// Where the code of each function begins, in order.
    pub functions: Vec<usize>,
    /// The entry of each page by its path.
    pub pages: BTreeMap<Text, PageEntry>,
}

impl Code {
    /// The entry of a path's page.
    pub fn page(&self, path: &Text) -> Option<PageEntry>
        ensures { result ≡ at_path self.now.pages path.now }
    {
        self.pages.get(path).copied()
    }
}

/// The code of a program. It does with each request what the program does, node by node and step by
/// step. Of two pages of one path the first counts.
pub fn translate(alloc: Global, program: &Program) -> Result<Code, AllocError>
    ensures { IfOk result (IsCodeOf program.now) }
{
    let _declarations = program.declarations();
    let code = translated(alloc, program)?;
    Ok(code)
}

/// The instructions of each declaration, one after the other.
fn translated(alloc: Global, program: &Program) -> Result<Code, AllocError>
    ensures { IfOk result (IsTranslated program.now) }
{
    let mut code = Code {
        instructions: Vec::new(alloc),
        functions: Vec::new(alloc),
        pages: BTreeMap::new(alloc),
    };
    write(alloc, &mut code, program)?;
    Ok(code)
}

/// Writes the instructions of each declaration to code that is empty.
fn write(alloc: Global, code: &mut Code, program: &Program) -> Result<(), AllocError>
    ensures { IsEmpty code.old → OnOk result (IsTranslated program.now code.new) }
{
    let emitter = Emitter::new(alloc, program)?;
    write_declarations(&emitter, code, program)
}

/// The same by an emitter of the program.
fn write_declarations<'a>(
    emitter: &Emitter<'a>,
    code: &mut Code,
    program: &'a Program,
) -> Result<(), AllocError>
    ensures { emitter.now ≡ program.now → IsEmpty code.old
        → OnOk result (IsTranslated program.now code.new) }
{
    let mut page_count = 0u32;
    for declaration in program.declarations() {
        let place = code.instructions.len();
        match declaration {
            Declaration::Store { .. } => {}
            Declaration::Table { .. } => {}
            Declaration::Function {
                parameters,
                body,
                ..
            } => {
                code.functions.push(place)?;
                emitter.function(&mut code.instructions, parameters.as_slice(), body)?;
            }
            Declaration::Page { path, body, .. } => {
                let number = page_count;
                add(&mut code.pages, &path.text, PageEntry { number, place })?;
                emitter.page(&mut code.instructions, body)?;
                page_count += 1;
            }
        }
    }
    Ok(())
}

/// Adds the entry of a path, unless it has one.
fn add(
    pages: &mut BTreeMap<Text, PageEntry>,
    path: &Text,
    entry: PageEntry,
) -> Result<(), AllocError>
    ensures { OnOk result (PutsPage path.now entry pages.old pages.new) }
{
    if !pages.contains_key(path) {
        pages.insert(path.clone()?, entry)?;
    }
    Ok(())
}
