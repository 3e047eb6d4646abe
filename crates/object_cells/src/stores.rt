ghost use Rattle.std.specs.Prelude.{◌≡◌, Some, None, true, is_some, IfOk, OnOk, OnErr};
ghost use Rattle.std.specs.Option.{option_copied};
ghost use Rattle.script_tree.specs.Datum.{IsWithinLimits};
ghost use Rattle.script_tree.specs.Fit.{IsKey};
ghost use Rattle.script_tree.specs.Objects.{or_null};
ghost use Rattle.object_cells.specs.Stores.{store_of, has_store, held_in, AreDeclared, AreEmpty};
ghost use Rattle.object_cells.specs.Stores.{ChangesIn, IsDeclaredToo};

use crate::cells::Store;
use script_tree::syntax::declaration::Declaration;
use script_tree::text::Text;
use script_tree::value::Value;
use std::alloc::{AllocError, Global};
use std::collections::BTreeMap;
use std::marker::Model;

/// The stores of a program. Contracts see each with what it holds, in the order of their names.
#[derive(Drop)]
pub struct Stores {
    by_name: BTreeMap<Text, Store>,
}

impl Model for Stores {
    ghost use Rattle.object_cells.specs.Stores.{HeldByName, coded_by_name};

    ghost Value = { HeldByName };

    ghost coded = { coded_by_name };

    ghost view = { λ stores. stores.by_name.entries };
}

impl Stores {
    /// A store for each declaration of one; none holds anything.
    pub fn new(alloc: Global, declarations: &[Declaration]) -> Result<Stores, AllocError>
        ensures declared { IfOk result (AreDeclared declarations.now) }
        ensures empty { IfOk result AreEmpty }
    {
        let mut by_name = BTreeMap::new(alloc);
        for declaration in declarations {
            add_declared(alloc, &mut by_name, declaration)?;
        }
        Ok(Stores { by_name })
    }

    /// Whether there is a store of this name.
    pub fn has(&self, name: &Text) -> bool
        ensures { result ≡ has_store self.now name.now }
    {
        self.by_name.contains_key(name)
    }

    /// The store of this name.
    pub fn store(&self, name: &Text) -> Option<&Store>
        ensures { option_copied result ≡ store_of self.now name.now }
    {
        self.by_name.get(name)
    }

    /// The value of a key in a store, null where it has none.
    pub fn get(&self, name: &Text, key: &Text) -> Result<Value, AllocError>
        ensures value { IfOk result (λ d. d ≡ or_null (held_in self.now name.now key.now)) }
        ensures within { IfOk result IsWithinLimits }
    {
        match self.by_name.get(name) {
            Some(store) => store.get(key),
            None => Ok(Value::null()),
        }
    }

    /// Gives a key of a store its value, and tells whether it had one.
    pub fn put(&mut self, name: &Text, key: Text, value: Value) -> Result<bool, AllocError>
        requires there { has_store self.old name.now ≡ true }
        requires key_fits { IsKey key }
        requires value_fits { IsWithinLimits value }
        ensures had { IfOk result (λ had. had ≡ is_some (held_in self.old name.now key)) }
        ensures put { OnOk result (ChangesIn name.now key (Some value) self.old self.new) }
        ensures err { OnErr result (self.new ≡ self.old) }
        ensures err_only_at_new_key { OnErr result (held_in self.old name.now key ≡ None) }
    {
        match self.by_name.get_mut(name) {
            Some(store) => store.put(key, value),
            None => unreachable!(),
        }
    }

    /// Takes the value of a key of a store away. It takes no memory.
    pub fn remove(&mut self, name: &Text, key: &Text)
        ensures { ChangesIn name.now key.now None self.old self.new }
    {
        let Some(store) = self.by_name.get_mut(name) else {
            return;
        };
        store.remove(key);
    }
}

impl Clone for Stores {
    ghost is_clone = { λ stores copy. copy ≡ stores };

    fn clone(&self) -> Result<Stores, AllocError> {
        Ok(Stores {
            by_name: self.by_name.clone()?,
        })
    }
}

/// Adds the store that a declaration declares, if it declares one.
fn add_declared(
    alloc: Global,
    by_name: &mut BTreeMap<Text, Store>,
    declaration: &Declaration,
) -> Result<(), AllocError>
    ensures { OnOk result (IsDeclaredToo declaration.now by_name.old.entries by_name.new.entries) }
{
    if let Declaration::Store { name, .. } = declaration {
        by_name.insert(name.text.clone()?, Store::new(alloc))?;
    }
    Ok(())
}
