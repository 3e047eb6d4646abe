ghost use Rattle.std.specs.Prelude.{◌≡◌, ◌++◌, ◌∷◌, [], nat_le, if◌then◌else◌, None, OnOk, OnErr};
ghost use Rattle.std.specs.Option.{option_copied};
ghost use Rattle.versioned_cells.specs.Versions.{as_of, AreUntil, IsRising, changed};

use std::alloc::{AllocError, Global};
use std::marker::Model;

/// What a cell held over time: its versions, each with the position from which it stands, and
/// nothing where the cell holds nothing from there on. The first takes no memory of its own.
#[derive(Drop)]
pub struct History<T> {
    first: (u32, Option<T>),
    later: Vec<(u32, Option<T>)>,
}

impl<T> Model for History<T> {
    ghost use Rattle.std.specs.Prelude.{ℕ, List, ◌∷◌, Option};
    ghost use Rattle.std.specs.Coded.{coded_list, coded×, coded_ℕ, coded_option};
    ghost use Rattle.versioned_cells.specs.Versions.{IsRising};

    ghost Value = { List (ℕ × Option T) };

    ghost coded = { coded_list (coded× coded_ℕ (coded_option T.code)) };

    ghost view = { λ a. a.first ∷ a.later.items };

    ghost invariant = { λ a. IsRising a.later.items };
}

impl<T> History<T> {
    /// A cell that holds this from a position on.
    pub fn begun(alloc: Global, since: u32, value: Option<T>) -> History<T>
        ensures { result ≡ (since, value) ∷ [] }
    {
        History {
            first: (since, value),
            later: Vec::new(alloc),
        }
    }

    /// What the cell held at a position. It takes no memory.
    pub fn at(&self, position: u32) -> Option<&T>
        ensures { option_copied result ≡ as_of position None self.now }
    {
        version_at(&self.first, self.later.as_slice(), position)
    }
}

impl<T: Drop> History<T> {
    /// From this position on the cell holds this.
    pub fn note(&mut self, since: u32, value: Option<T>) -> Result<(), AllocError>
        requires { AreUntil since self.old }
        ensures ok { OnOk result (self.new ≡ self.old ++ (since, value) ∷ []) }
        ensures err { OnErr result (self.new ≡ self.old) }
    {
        self.later.push((since, value))?;
        Ok(())
    }
}

impl<T: Drop + PartialEq> History<T> {
    /// From this position on the cell holds this. Where it does already, no version is made.
    pub fn change(&mut self, since: u32, value: Option<T>) -> Result<(), AllocError>
        requires { AreUntil since self.old }
        ensures { OnOk result (self.new ≡ changed T.eq since value self.old) }
    {
        if self.at(since) == value.as_ref() {
            return Ok(());
        }
        self.note(since, value)
    }
}

/// What the last version holds that is from the position or before.
fn version_at<'a, T>(
    first: &'a (u32, Option<T>),
    later: &'a [(u32, Option<T>)],
    position: u32,
) -> Option<&'a T>
    requires { IsRising later.now }
    ensures { option_copied result ≡ as_of position None (first.now ∷ later.now) }
{
    let count = later.partition_point(|version| version.0 <= position);
    if count == 0 {
        return from_then(first, position);
    }
    later[count - 1].1.as_ref()
}

/// What a version says at a position: nothing before it stands.
fn from_then<T>(first: &(u32, Option<T>), position: u32) -> Option<&T>
    ensures { option_copied result ≡ (if nat_le first.now.0 position then first.now.1 else None) }
{
    if first.0 <= position {
        first.1.as_ref()
    } else {
        None
    }
}
