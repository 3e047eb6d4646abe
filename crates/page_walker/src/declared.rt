ghost use Rattle.std.specs.Prelude.{◌≡◌};
ghost use Rattle.script_tree.specs.Declarations.{callee_in, table_in};
ghost use Rattle.script_check.specs.FoundByName.{table_of};
ghost use Rattle.page_walker.specs.Found.{callee_of, CalleeIsInProgram};

use script_check::lookup::{FoundFunction, FoundTable, Index};
use script_tree::syntax::builtin::Builtin;
use script_tree::syntax::name::Name;
use script_tree::text::Text;

/// What a name calls.
#[derive(Clone, Copy)]
pub enum Callee<'a> {
    /// A function of the program.
    Own(FoundFunction<'a>),
    Builtin(Builtin),
    Unknown,
}

/// What a name calls: a function of the program first.
pub fn callee_named<'a>(index: &Index<'a>, name: &Text) -> Callee<'a>
    ensures callee { callee_of result ≡ callee_in index.now name.now }
    ensures within { CalleeIsInProgram index.now result }
{
    match index.function(name.as_bytes()) {
        Some(function) => Callee::Own(function),
        None => match Builtin::named(index.program().version(), name.as_bytes()) {
            Some(builtin) => Callee::Builtin(builtin),
            None => Callee::Unknown,
        },
    }
}

/// The table of a name; where it isn't declared, one without columns.
pub fn table<'a>(index: &Index<'a>, name: &Name) -> FoundTable<'a>
    ensures { table_of result ≡ table_in index.now name.now }
{
    match index.table(name.text.as_bytes()) {
        Some(table) => table,
        None => FoundTable {
            number: 0,
            columns: &[],
        },
    }
}
