ghost use Rattle.std.specs.Prelude.{◌≡◌, [], None, IfOk, OnOk};
ghost use Rattle.std.specs.Option.{option_copied};
ghost use Rattle.versioned_cells.specs.Versions.{history_at, held_at, AreAllUntil, AreLast, Notes, Changes};

use crate::history::History;
use script_tree::text::Text;
use std::alloc::{AllocError, Global};
use std::collections::BTreeMap;
use std::marker::Model;

/// What stood under keys over time.
#[derive(Drop)]
pub struct Histories<T> {
    by_key: BTreeMap<Text, History<T>>,
}

impl<T> Model for Histories<T> {
    ghost use Rattle.std.specs.Prelude.{ℕ, List, Option};
    ghost use Rattle.std.specs.Coded.{coded_list, coded×, coded_ℕ, coded_option};

    ghost Value = { List (List ℕ × List (ℕ × Option T)) };

    ghost coded = { coded_list (coded× (coded_list coded_ℕ) (coded_list (coded× coded_ℕ (coded_option T.code)))) };

    ghost view = { λ a. a.by_key.entries };
}

impl<T> Histories<T> {
    /// Nothing stood under any key.
    pub fn new(alloc: Global) -> Histories<T>
        ensures { result ≡ [] }
    {
        Histories {
            by_key: BTreeMap::new(alloc),
        }
    }

    /// The histories by key.
    pub fn by_key(&self) -> &BTreeMap<Text, History<T>>
        ensures { result.now.entries ≡ self.now }
    {
        &self.by_key
    }

    /// What stood under a key at a position. It takes no memory.
    pub fn at(&self, position: u32, key: &Text) -> Option<&T>
        ensures { option_copied result ≡ held_at position self.now key.now }
    {
        match self.by_key.get(key) {
            Some(history) => history.at(position),
            None => None,
        }
    }
}

impl<T: Drop> Histories<T> {
    /// The histories of these keys. Of two of one key the later counts.
    pub fn from_vec(
        alloc: Global,
        histories: Vec<(Text, History<T>)>,
    ) -> Result<Histories<T>, AllocError>
        ensures { IfOk result (AreLast histories.items) }
    {
        let by_key = BTreeMap::from_iter(alloc, histories)?;
        Ok(Histories { by_key })
    }

    /// From this position on this stands under a key.
    pub fn note(
        &mut self,
        alloc: Global,
        key: &Text,
        since: u32,
        value: Option<T>,
    ) -> Result<(), AllocError>
        requires { AreAllUntil since self.old }
        ensures { OnOk result (Notes since key.now value self.old self.new) }
    {
        note_in(&mut self.by_key, alloc, key, since, value)
    }
}

impl<T: Drop + PartialEq> Histories<T> {
    /// From this position on this stands under a key. Where it does already, no version is made.
    pub fn change(
        &mut self,
        alloc: Global,
        key: &Text,
        since: u32,
        value: Option<T>,
    ) -> Result<(), AllocError>
        requires { AreAllUntil since self.old }
        ensures { OnOk result (Changes T.eq since key.now value self.old self.new) }
    {
        change_in(&mut self.by_key, alloc, key, since, value)
    }
}

fn change_in<T: Drop + PartialEq>(
    by_key: &mut BTreeMap<Text, History<T>>,
    alloc: Global,
    key: &Text,
    since: u32,
    value: Option<T>,
) -> Result<(), AllocError>
    requires { AreAllUntil since by_key.old.entries }
    ensures { OnOk result (Changes T.eq since key.now value by_key.old.entries by_key.new.entries) }
{
    match by_key.get_mut(key) {
        Some(history) => history.change(since, value),
        None => match value {
            Some(value) => add(by_key, alloc, key.clone()?, since, Some(value)),
            None => Ok(()),
        },
    }
}

fn note_in<T: Drop>(
    by_key: &mut BTreeMap<Text, History<T>>,
    alloc: Global,
    key: &Text,
    since: u32,
    value: Option<T>,
) -> Result<(), AllocError>
    requires { AreAllUntil since by_key.old.entries }
    ensures { OnOk result (Notes since key.now value by_key.old.entries by_key.new.entries) }
{
    match by_key.get_mut(key) {
        Some(history) => history.note(since, value),
        None => add(by_key, alloc, key.clone()?, since, value),
    }
}

/// Begins the history of a key.
fn add<T: Drop>(
    by_key: &mut BTreeMap<Text, History<T>>,
    alloc: Global,
    key: Text,
    since: u32,
    value: Option<T>,
) -> Result<(), AllocError>
    requires { history_at key by_key.old.entries ≡ [] }
    ensures { OnOk result (Notes since key value by_key.old.entries by_key.new.entries) }
{
    let history = History::begun(alloc, since, value);
    by_key.insert(key, history)?;
    Ok(())
}
