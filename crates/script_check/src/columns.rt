ghost use Rattle.std.specs.Prelude.{◌≡◌, [], length, IfOk};
ghost use Rattle.script_check.specs.Validity.{declared_in_turn, has, is_key, texts};
ghost use Rattle.script_check.specs.Finds.{Notes};

use crate::found::Found;
use crate::scope::Scope;
use script_tree::syntax::name::Name;
use std::alloc::{AllocError, Global};
use std::marker::Model;

/// The columns of a table, which are found by name. Contracts see them, in order.
#[derive(Drop)]
pub(crate) struct Columns<'a> {
    names: &'a [Name],
    known: Scope<'a>,
}

impl<'a> Model for Columns<'a> {
    ghost use Rattle.std.specs.Prelude.{List};
    ghost use Rattle.script_tree.specs.SyntaxCodes.{coded_names};
    ghost use Rattle.script_tree.specs.declared.syntax.name.Name.{Name};

    ghost Value = { List Name };

    ghost coded = { coded_names };

    ghost use Rattle.script_check.specs.ColumnsView.{columns_of, AreColumns};

    ghost view = { columns_of };

    ghost invariant = { AreColumns };
}

impl<'a> Columns<'a> {
    /// The columns of a table. A name that is declared twice is noted.
    pub(crate) fn new(
        alloc: Global,
        names: &'a [Name],
        found: &mut Found,
    ) -> Result<Columns<'a>, AllocError>
        ensures columns { IfOk result (λ columns. columns ≡ names.now) }
        ensures faults { Notes result (declared_in_turn [] names.now) found.old found.new }
    {
        let mut known = Scope::new(alloc);
        known.declare_all(names, found)?;
        Ok(Columns { names, known })
    }

    pub(crate) fn len(&self) -> usize
        ensures { result ≡ length self.now }
    {
        self.names.len()
    }

    pub(crate) fn has(&self, name: &[u8]) -> bool
        ensures { result ≡ has (texts self.now) name.now }
    {
        self.known.knows(name)
    }

    pub(crate) fn is_key(&self, name: &[u8]) -> bool
        ensures { result ≡ is_key self.now name.now }
    {
        match self.names.first() {
            Some(key) => name == key.text.as_bytes(),
            None => false,
        }
    }
}
