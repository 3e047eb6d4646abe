ghost use Rattle.std.specs.Prelude.{◌≡◌, [], IfOk, OnOk};
ghost use Rattle.std.specs.Option.{option_copied};
ghost use Rattle.script_tree.specs.Fit.{declares_store};
ghost use Rattle.script_check.specs.Validity.{columns_in};
ghost use Rattle.script_check.specs.Finds.{Notes, FindsTable, FindsFunction};
ghost use Rattle.script_check.specs.Indexes.{parameters_in, TellsStores, TellsTables};
ghost use Rattle.script_check.specs.Indexes.{TellsFunctions, Puts};
ghost use Rattle.script_check.specs.Passes.{declared_faults, store_pass};
ghost use Rattle.script_check.specs.Passes.{table_pass, function_pass};

use crate::columns::Columns;
use crate::fault::CheckFaultKind;
use crate::found::Found;
use script_tree::syntax::builtin::Builtin;
use script_tree::syntax::declaration::Declaration;
use script_tree::syntax::name::{Name, Names};
use script_tree::syntax::tree::{Tree, Version};
use std::alloc::{AllocError, Global};
use std::collections::{BTreeMap, BTreeSet};
use std::marker::Model;

/// What a program declares, found by name. Contracts see the program.
#[derive(Drop)]
pub(crate) struct Declared<'a> {
    tree: &'a Tree,
    stores: BTreeSet<&'a [u8]>,
    tables: BTreeMap<&'a [u8], Columns<'a>>,
    /// How many parameters each function has.
    functions: BTreeMap<&'a [u8], usize>,
}

impl<'a> Model for Declared<'a> {
    ghost use Rattle.script_tree.specs.Programs.{Program};
    ghost use Rattle.script_tree.specs.ProgramCode.{coded_program};

    ghost Value = { Program };

    ghost coded = { coded_program };

    ghost use Rattle.script_check.specs.DeclaredView.{tree_in, IsDeclared};

    ghost view = { tree_in };

    ghost invariant = { IsDeclared };
}

impl<'a> Declared<'a> {
    /// What a tree declares. Of two of one name the first counts, and the second is noted. So is a
    /// function with the name of a built-in one.
    pub(crate) fn new(
        alloc: Global,
        tree: &'a Tree,
        found: &mut Found,
    ) -> Result<Declared<'a>, AllocError>
        ensures tree { IfOk result (λ declared. declared ≡ tree.now) }
        ensures faults { Notes result (declared_faults tree.now) found.old found.new }
    {
        let declarations = tree.declarations.as_slice();
        Ok(Declared {
            tree,
            stores: stores(alloc, declarations, found)?,
            tables: tables(alloc, declarations, found)?,
            functions: functions(alloc, tree.version, declarations, found)?,
        })
    }

    /// The version of the language.
    pub(crate) fn version(&self) -> Version
        ensures { result ≡ self.now.version }
    {
        let tree = self.tree;
        tree.version
    }

    /// Whether a store of this name is declared.
    pub(crate) fn has_store(&self, name: &[u8]) -> bool
        ensures { result ≡ declares_store self.now.declarations name.now }
    {
        self.stores.contains(name)
    }

    /// The columns of the table of this name.
    pub(crate) fn table(&self, name: &[u8]) -> Option<&Columns<'a>>
        ensures { option_copied result ≡ columns_in self.now.declarations name.now }
    {
        self.tables.get(name)
    }

    /// How many parameters the function of this name has.
    pub(crate) fn parameters(&self, name: &[u8]) -> Option<usize>
        ensures { result ≡ parameters_in self.now.declarations name.now }
    {
        self.functions.get(name).copied()
    }
}

/// The names of the stores. One that is declared twice is noted.
fn stores<'a>(
    alloc: Global,
    declarations: &'a [Declaration],
    found: &mut Found,
) -> Result<BTreeSet<&'a [u8]>, AllocError>
    ensures stores { IfOk result (TellsStores declarations.now) }
    ensures faults { Notes result (store_pass declarations.now) found.old found.new }
{
    let mut stores = BTreeSet::new(alloc);
    for declaration in declarations {
        if let Declaration::Store { name, .. } = declaration {
            let is_new = stores.insert(name.text.as_bytes())?;
            found.unless(is_new, name.at, CheckFaultKind::DeclaredTwice);
        }
    }
    Ok(stores)
}

/// The tables, by name. One that is declared twice is noted, and so is a column.
fn tables<'a>(
    alloc: Global,
    declarations: &'a [Declaration],
    found: &mut Found,
) -> Result<BTreeMap<&'a [u8], Columns<'a>>, AllocError>
    ensures tables { IfOk result (TellsTables declarations.now) }
    ensures faults { Notes result (table_pass declarations.now) found.old found.new }
{
    let mut tables = BTreeMap::new(alloc);
    for declaration in declarations {
        if let Declaration::Table { name, columns, .. } = declaration {
            declare_table(alloc, &mut tables, name, columns, found)?;
        }
    }
    Ok(tables)
}

fn declare_table<'a>(
    alloc: Global,
    tables: &mut BTreeMap<&'a [u8], Columns<'a>>,
    name: &'a Name,
    columns: &'a Names,
    found: &mut Found,
) -> Result<(), AllocError>
    ensures puts { OnOk result (Puts name.now.text columns.now tables.old tables.new) }
    ensures faults { OnOk result (FindsTable name.now columns.now tables.old found.old found.new) }
{
    let text = name.text.as_bytes();
    let is_new = !tables.contains_key(text);
    found.unless(is_new, name.at, CheckFaultKind::DeclaredTwice);
    let columns = Columns::new(alloc, columns.as_slice(), found)?;
    if is_new {
        tables.insert(text, columns)?;
    }
    Ok(())
}

/// How many parameters each function has. One that is declared twice is noted.
fn functions<'a>(
    alloc: Global,
    version: Version,
    declarations: &'a [Declaration],
    found: &mut Found,
) -> Result<BTreeMap<&'a [u8], usize>, AllocError>
    ensures functions { IfOk result (TellsFunctions declarations.now) }
    ensures faults { Notes result (function_pass version declarations.now) found.old found.new }
{
    let mut functions = BTreeMap::new(alloc);
    for declaration in declarations {
        if let Declaration::Function {
            name,
            parameters,
            ..
        } = declaration
        {
            declare_function(version, &mut functions, name, parameters.len(), found)?;
        }
    }
    Ok(functions)
}

fn declare_function<'a>(
    version: Version,
    arities: &mut BTreeMap<&'a [u8], usize>,
    name: &'a Name,
    parameters: usize,
    found: &mut Found,
) -> Result<(), AllocError>
    ensures puts { OnOk result (Puts name.now.text parameters arities.old arities.new) }
    ensures faults { OnOk result (FindsFunction version name.now arities.old found.old found.new) }
{
    let text = name.text.as_bytes();
    let is_new = !arities.contains_key(text);
    let is_free = is_new && Builtin::named(version, text).is_none();
    found.unless(is_free, name.at, CheckFaultKind::DeclaredTwice);
    if is_new {
        arities.insert(text, parameters)?;
    }
    Ok(())
}
