ghost use Rattle.std.specs.Prelude.{◌≡◌, [], Some, None, is_some, IfOk, OnOk, OnErr};
ghost use Rattle.std.specs.Option.{option_copied};
ghost use Rattle.std.specs.List.Sorted.{IsStrictlySortedBy};
ghost use Rattle.std.specs.Map.{keys_of};
ghost use Rattle.std.specs.Ordering.{nat_cmp};
ghost use Rattle.std.specs.Cmp.Lexicographic.{slice_cmp};
ghost use Rattle.script_tree.specs.Datum.{IsWithinLimits};
ghost use Rattle.script_tree.specs.Fit.{IsKey};
ghost use Rattle.script_tree.specs.Objects.{or_null};
ghost use Rattle.object_cells.specs.Cells.{held, AreEntries, Changes};

use script_tree::text::Text;
use script_tree::value::Value;
use std::alloc::{AllocError, Global};
use std::collections::BTreeMap;
use std::collections::btree_map::Iter;
use std::marker::Model;

/// Values under keys, all within the limits. A copy has keys of its own, and shares the values.
/// Contracts see the keys that have a value, with it, in their order.
#[derive(Drop)]
pub struct Cells {
    values: BTreeMap<Text, Value>,
}

/// The registers of a program: each has its value under its name.
pub type Registers = Cells;

/// A key-value store.
pub type Store = Cells;

impl Model for Cells {
    ghost use Rattle.object_cells.specs.Cells.{Held, coded_held, HoldsEntries};

    ghost Value = { Held };

    ghost coded = { coded_held };

    ghost view = { λ cells. cells.values.entries };

    ghost invariant = { λ cells. HoldsEntries cells.values.entries };
}

impl Cells {
    /// Nothing under any key.
    pub fn new(alloc: Global) -> Cells
        ensures { result ≡ [] }
    {
        Cells {
            values: BTreeMap::new(alloc),
        }
    }

    /// The value of a key, null where it has none.
    pub fn get(&self, key: &Text) -> Result<Value, AllocError>
        ensures value { IfOk result (λ d. d ≡ or_null (held self.now key.now)) }
        ensures within { IfOk result IsWithinLimits }
    {
        match self.values.get(key) {
            Some(value) => value.clone(),
            None => Ok(Value::null()),
        }
    }

    /// The value of a key, where it has one. It takes no memory.
    pub fn find(&self, key: &Text) -> Option<&Value>
        ensures { option_copied result ≡ held self.now key.now }
    {
        self.values.get(key)
    }

    /// Gives a key its value, and tells whether it had one.
    pub fn put(&mut self, key: Text, value: Value) -> Result<bool, AllocError>
        requires key_fits { IsKey key }
        requires value_fits { IsWithinLimits value }
        ensures had { IfOk result (λ had. had ≡ is_some (held self.old key)) }
        ensures put { OnOk result (Changes key (Some value) self.old self.new) }
        ensures err { OnErr result (self.new ≡ self.old) }
        ensures err_only_at_new_key { OnErr result (held self.old key ≡ None) }
    {
        let before = self.values.insert(key, value)?;
        Ok(before.is_some())
    }

    /// Takes the value of a key away. It takes no memory.
    pub fn remove(&mut self, key: &Text)
        ensures { Changes key.now None self.old self.new }
    {
        let _ = self.values.remove(key);
    }

    /// The keys that have a value, with it, in the order of the keys. It takes no memory.
    pub fn iter(&self) -> Iter<'_, Text, Value>
        ensures cells { result ≡ self.now }
        ensures entries { AreEntries result }
        ensures ordered { IsStrictlySortedBy (slice_cmp nat_cmp) (keys_of result) }
    {
        self.values.iter()
    }
}

impl Clone for Cells {
    ghost is_clone = { λ cells copy. copy ≡ cells };

    fn clone(&self) -> Result<Cells, AllocError> {
        Ok(Cells {
            values: self.values.clone()?,
        })
    }
}
