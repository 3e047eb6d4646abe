ghost use Rattle.std.specs.Prelude.{◌≡◌};
ghost use Rattle.std.specs.Iterator.{YieldsFirstRef, item_count};
ghost use Rattle.object_tables.specs.Slots.{rows_of};

use crate::table::Slot;
use script_tree::text::Text;
use script_tree::value::Values;
use std::collections::btree_map::Iter;
use std::marker::Model;

/// The rows of a table that are left to read, in the order of their keys.
#[derive(Drop)]
pub struct Rows<'a> {
    slots: Iter<'a, Text, Slot>,
}

impl<'a> Model for Rows<'a> {
    ghost use Rattle.std.specs.Prelude.{List};
    ghost use Rattle.std.specs.Coded.{coded_list};
    ghost use Rattle.script_tree.specs.Datum.{Datum};
    ghost use Rattle.script_tree.specs.DatumCode.{coded_data};
    ghost use Rattle.object_tables.specs.Slots.{rows_of};

    ghost Value = { List (List Datum) };

    ghost coded = { coded_list coded_data };

    ghost view = { λ a. rows_of a.slots };
}

impl<'a> Rows<'a> {
    pub(crate) fn new(slots: Iter<'a, Text, Slot>) -> Rows<'a>
        ensures { result ≡ rows_of slots.entry }
    {
        Rows { slots }
    }
}

impl<'a> Iterator for Rows<'a> {
    type Item = &'a Values;

    ghost next_gives = { YieldsFirstRef (λ rows. rows) };

    ghost remaining = { item_count (λ rows. rows) };

    fn next(&mut self) -> Option<&'a Values> {
        while let Some((_, slot)) = self.slots.next() {
            if let Some(row) = slot {
                return Some(row);
            }
        }
        None
    }
}
