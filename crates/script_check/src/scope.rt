ghost use Rattle.std.specs.Prelude.{◌≡◌, ◌-◌, [], length, drop, not, IfOk, OnOk};
ghost use Rattle.script_check.specs.Validity.{has, with_name, with_names};
ghost use Rattle.script_check.specs.Validity.{declared_where, declared_in_turn};
ghost use Rattle.script_check.specs.Finds.{Notes};

use crate::fault::CheckFaultKind;
use crate::found::Found;
use script_tree::syntax::name::Name;
use std::alloc::{AllocError, Global};
use std::collections::BTreeSet;
use std::marker::Model;

/// Names that were declared one after another: the variables that are known at a place, or the
/// columns of a table. Contracts see them, the newest first, none of them twice.
#[derive(Drop)]
pub(crate) struct Scope<'a> {
    known: BTreeSet<&'a [u8]>,
    /// The same names, in the order in which they were declared.
    declared: Vec<&'a [u8]>,
}

impl<'a> Model for Scope<'a> {
    ghost use Rattle.std.specs.Prelude.{List, ℕ};
    ghost use Rattle.std.specs.Coded.{coded_list, coded_ℕ};

    ghost Value = { List (List ℕ) };

    ghost coded = { coded_list (coded_list coded_ℕ) };

    ghost use Rattle.script_check.specs.Scopes.{names_in, IsScope};

    ghost view = { names_in };

    ghost invariant = { IsScope };
}

impl<'a> Scope<'a> {
    pub(crate) fn new(alloc: Global) -> Scope<'a>
        ensures { result ≡ [] }
    {
        Scope {
            known: BTreeSet::new(alloc),
            declared: Vec::new(alloc),
        }
    }

    pub(crate) fn knows(&self, name: &[u8]) -> bool
        ensures { result ≡ has self.now name.now }
    {
        self.known.contains(name)
    }

    /// How many names are known.
    pub(crate) fn len(&self) -> usize
        ensures { result ≡ length self.now }
    {
        self.declared.len()
    }

    /// Makes a name known, and notes a fault where it was known.
    pub(crate) fn declare(&mut self, name: &'a Name, found: &mut Found) -> Result<(), AllocError>
        ensures declared { OnOk result (self.new ≡ with_name self.old name.now.text) }
        ensures faults { Notes result (declared_where self.old name.now) found.old found.new }
    {
        let was_new = self.add(name.text.as_bytes())?;
        found.unless(was_new, name.at, CheckFaultKind::DeclaredTwice);
        Ok(())
    }

    /// Does so with one name after another.
    pub(crate) fn declare_all(
        &mut self,
        names: &'a [Name],
        found: &mut Found,
    ) -> Result<(), AllocError>
        ensures declared { OnOk result (self.new ≡ with_names self.old names.now) }
        ensures faults { Notes result (declared_in_turn self.old names.now) found.old found.new }
    {
        for name in names {
            self.declare(name, found)?;
        }
        Ok(())
    }

    /// Makes a name known, and tells whether it wasn't.
    fn add(&mut self, name: &'a [u8]) -> Result<bool, AllocError>
        ensures declared { OnOk result (self.new ≡ with_name self.old name.now) }
        ensures was_new { IfOk result (λ was_new. was_new ≡ not (has self.old name.now)) }
    {
        if self.known.contains(name) {
            return Ok(false);
        }
        self.declared.push(name)?;
        match self.known.insert(name) {
            Ok(_) => Ok(true),
            Err(_) => {
                self.declared.pop();
                Err(AllocError)
            }
        }
    }

    /// Forgets the newest name, if there is one.
    fn forget(&mut self)
        ensures { self.new ≡ drop 1 self.old }
    {
        if let Some(name) = self.declared.pop() {
            self.known.remove(name);
        }
    }

    /// Forgets the names that were declared since there were so many.
    pub(crate) fn leave(&mut self, len: usize)
        ensures { self.new ≡ drop (length self.old - len) self.old }
    {
        while self.len() > len {
            self.forget();
        }
    }
}
