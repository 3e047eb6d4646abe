ghost use Rattle.std.specs.Prelude.{◌≡◌, ◌++◌, ◌∷◌, [], length, take, IfOk, OnOk};
ghost use Rattle.script_code.specs.Code.{slot_of, texts};

use script_tree::syntax::name::Name;
use script_tree::text::Text;
use std::alloc::{AllocError, Global};
use std::marker::Model;

/// The names in scope, the newest last. Contracts see their texts.
#[derive(Drop)]
pub(crate) struct Scope<'a> {
    names: Vec<&'a Text>,
}

impl<'a> Model for Scope<'a> {
    ghost use Rattle.std.specs.Prelude.{List, ℕ};
    ghost use Rattle.std.specs.Coded.{coded_list, coded_ℕ};

    ghost Value = { List (List ℕ) };

    ghost coded = { coded_list (coded_list coded_ℕ) };

    ghost use Rattle.script_code.specs.ScopeView.{names_in};

    ghost view = { names_in };
}

impl<'a> Scope<'a> {
    pub(crate) fn new(alloc: Global) -> Scope<'a>
        ensures { result ≡ [] }
    {
        Scope {
            names: Vec::new(alloc),
        }
    }

    /// These names are in scope, in order.
    pub(crate) fn of(alloc: Global, names: &'a [Name]) -> Result<Scope<'a>, AllocError>
        ensures { IfOk result (λ scope. scope ≡ texts names.now) }
    {
        let mut scope = Scope::new(alloc);
        for name in names {
            scope.declare(&name.text)?;
        }
        Ok(scope)
    }

    pub(crate) fn len(&self) -> usize
        ensures { result ≡ length self.now }
    {
        self.names.len()
    }

    /// The slot of a name; where it isn't in scope, the next free one.
    pub(crate) fn slot(&self, name: &Text) -> usize
        ensures { result ≡ slot_of self.now name.now }
    {
        let mut slot = 0usize;
        for known in self.names.as_slice() {
            if name.as_bytes() == known.as_bytes() {
                break;
            }
            slot += 1;
        }
        slot
    }

    /// Brings a name into scope.
    pub(crate) fn declare(&mut self, name: &'a Text) -> Result<(), AllocError>
        ensures { OnOk result (self.new ≡ self.old ++ name.now ∷ []) }
    {
        self.names.push(name)?;
        Ok(())
    }

    /// Leaves only so many names in scope, the oldest.
    pub(crate) fn leave(&mut self, kept: usize)
        ensures { self.new ≡ take kept self.old }
    {
        self.names.truncate(kept);
    }
}
