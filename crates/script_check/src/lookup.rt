ghost use Rattle.std.specs.Prelude.{◌≡◌, IfOk, OnOk};
ghost use Rattle.std.specs.Option.{option_map};
ghost use Rattle.script_check.specs.Indexes.{Puts};
ghost use Rattle.script_tree.specs.Declarations.{page_in, function_in, table_from, column_in};
ghost use Rattle.script_check.specs.FoundByName.{page_of, function_of, table_of};
ghost use Rattle.script_check.specs.LookupView.{TellsAll};

use crate::program::Program;
use script_tree::syntax::declaration::Declaration;
use script_tree::syntax::name::Name;
use script_tree::syntax::statement::Block;
use std::alloc::{AllocError, Global};
use std::collections::BTreeMap;
use std::marker::Model;

/// A page, with its number among the pages.
#[derive(Clone, Copy)]
pub struct FoundPage<'a> {
    pub number: u32,
    pub body: &'a Block,
}

/// A function of the program.
#[derive(Clone, Copy)]
pub struct FoundFunction<'a> {
    pub parameters: &'a [Name],
    pub body: &'a Block,
}

/// A table, with its number among the tables.
#[derive(Clone, Copy)]
pub struct FoundTable<'a> {
    pub number: u32,
    pub columns: &'a [Name],
}

impl FoundTable<'_> {
    /// The number of a column. A number that 32 bits don't hold is answered as want of memory.
    pub fn column(&self, name: &Name) -> Result<u32, AllocError>
        ensures { IfOk result (λ number. number ≡ column_in (table_of self.now) name.now) }
    {
        let mut number = 0usize;
        for column in self.columns {
            if name.text.as_bytes() == column.text.as_bytes() {
                break;
            }
            number += 1;
        }
        u32::try_from(number).map_err(|_| AllocError)
    }
}

/// The declarations of a program, found by name. Contracts see the program.
#[derive(Drop)]
pub struct Index<'a> {
    program: &'a Program,
    found: ByName<'a>,
}

/// What is found under each name.
#[derive(Drop)]
pub(crate) struct ByName<'a> {
    pages: BTreeMap<&'a [u8], FoundPage<'a>>,
    functions: BTreeMap<&'a [u8], FoundFunction<'a>>,
    tables: BTreeMap<&'a [u8], FoundTable<'a>>,
}

impl<'a> Model for Index<'a> {
    ghost use Rattle.script_tree.specs.Programs.{Program as Meant};
    ghost use Rattle.script_tree.specs.ProgramCode.{coded_program};

    ghost Value = { Meant };

    ghost coded = { coded_program };

    ghost use Rattle.script_check.specs.LookupView.{indexed, IsIndex};

    ghost view = { indexed };

    ghost invariant = { IsIndex };
}

impl<'a> Index<'a> {
    pub fn new(alloc: Global, program: &'a Program) -> Result<Index<'a>, AllocError>
        ensures { IfOk result (λ index. index ≡ program.now) }
    {
        Ok(Index {
            program,
            found: found_in(alloc, program)?,
        })
    }

    pub fn program(&self) -> &'a Program
        ensures { result.now ≡ self.now }
    {
        self.program
    }

    /// The page of this path. Of two the first counts, and so it is of functions and tables.
    pub fn page(&self, path: &[u8]) -> Option<FoundPage<'a>>
        ensures { option_map page_of result ≡ page_in self.now path.now }
    {
        self.found.pages.get(path).copied()
    }

    /// The function of this name.
    pub fn function(&self, name: &[u8]) -> Option<FoundFunction<'a>>
        ensures { option_map function_of result ≡ function_in self.now name.now }
    {
        self.found.functions.get(name).copied()
    }

    /// The table of this name.
    pub fn table(&self, name: &[u8]) -> Option<FoundTable<'a>>
        ensures { option_map table_of result ≡ table_from 0 name.now self.now.declarations }
    {
        self.found.tables.get(name).copied()
    }
}

/// What the program declares.
fn found_in<'a>(alloc: Global, program: &'a Program) -> Result<ByName<'a>, AllocError>
    ensures { IfOk result (TellsAll program.now.declarations) }
{
    let mut found = ByName {
        pages: BTreeMap::new(alloc),
        functions: BTreeMap::new(alloc),
        tables: BTreeMap::new(alloc),
    };
    let mut page_count = 0u32;
    let mut table_count = 0u32;
    for declaration in program.declarations() {
        match declaration {
            Declaration::Store { .. } => {}
            Declaration::Table { name, columns, .. } => {
                let table = FoundTable {
                    number: table_count,
                    columns: columns.as_slice(),
                };
                add(&mut found.tables, name.text.as_bytes(), table)?;
                table_count += 1;
            }
            Declaration::Function {
                name,
                parameters,
                body,
                ..
            } => {
                let function = FoundFunction {
                    parameters: parameters.as_slice(),
                    body,
                };
                add(&mut found.functions, name.text.as_bytes(), function)?;
            }
            Declaration::Page { path, body, .. } => {
                let page = FoundPage {
                    number: page_count,
                    body,
                };
                add(&mut found.pages, path.text.as_bytes(), page)?;
                page_count += 1;
            }
        }
    }
    Ok(found)
}

/// Adds what is found under a name, unless something is.
fn add<'a, T: Drop>(
    map: &mut BTreeMap<&'a [u8], T>,
    name: &'a [u8],
    found: T,
) -> Result<(), AllocError>
    ensures { OnOk result (Puts name.now found map.old map.new) }
{
    if !map.contains_key(name) {
        map.insert(name, found)?;
    }
    Ok(())
}
