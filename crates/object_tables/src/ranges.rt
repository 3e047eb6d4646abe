ghost use Rattle.std.specs.Prelude.{◌≡◌, IfSome, ◌∷◌, [], length, ◌<◌, ◌^◌};
ghost use Rattle.std.specs.Range.Bound.{bound_map};
ghost use Rattle.std.specs.BTreeMap.Range.{is_from_start, is_past_end, range_contains};
ghost use Rattle.script_tree.specs.Datum.{text};
ghost use Rattle.script_tree.specs.Order.{compares};
ghost use Rattle.script_tree.specs.Transactions.{key, column, meets};
ghost use Rattle.object_tables.specs.Slots.{by_bytes, IsFiled};
ghost use Rattle.object_tables.specs.Ranges.{IsOfKey, spans, IsLower, IsUpper, HasAll, HasRange};

use crate::table::Slot;
use script_tree::comparison::Comparison;
use script_tree::text::Text;
use script_tree::transaction::Test;
use script_tree::value::Node;
use std::cmp::Ordering;
use std::collections::BTreeMap;
use std::collections::btree_map::Range;
use std::ops::Bound;

/// The text that a test of the key compares with, where it is one.
fn key_text(test: &Test) -> Option<&Text>
    ensures { IfSome result (λ bytes. IsOfKey test.now bytes.now) }
{
    if test.column != 0 {
        return None;
    }
    let value = &test.value;
    match &value.node {
        Node::Text(text) => Some(text.as_ref()),
        Node::Null | Node::Bool(_) | Node::Number(_) | Node::List(_) => None,
    }
}

/// Where the keys of rows that pass a test begin.
fn lower_of(test: &Test) -> Bound<&Text>
    ensures { IsLower (test.now ∷ []) (bound_map (λ x. x.now) result) }
{
    match key_text(test) {
        Some(text) => match test.comparison {
            Comparison::Equal => Bound::Included(text),
            Comparison::AtLeast => Bound::Included(text),
            Comparison::Greater => Bound::Excluded(text),
            Comparison::Unequal | Comparison::Less | Comparison::AtMost => Bound::Unbounded,
        },
        None => Bound::Unbounded,
    }
}

/// Where the keys of rows that pass a test end.
fn upper_of(test: &Test) -> Bound<&Text>
    ensures { IsUpper (test.now ∷ []) (bound_map (λ x. x.now) result) }
{
    match key_text(test) {
        Some(text) => match test.comparison {
            Comparison::Equal => Bound::Included(text),
            Comparison::AtMost => Bound::Included(text),
            Comparison::Less => Bound::Excluded(text),
            Comparison::Unequal | Comparison::Greater | Comparison::AtLeast => Bound::Unbounded,
        },
        None => Bound::Unbounded,
    }
}

/// Where the keys of rows that pass all tests begin.
fn lower_bound(tests: &[Test]) -> Bound<&Text>
    ensures { IsLower tests.now (bound_map (λ x. x.now) result) }
{
    for test in tests {
        match lower_of(test) {
            Bound::Unbounded => {}
            bound => return bound,
        }
    }
    Bound::Unbounded
}

/// Where the keys of rows that pass all tests end.
fn upper_bound(tests: &[Test]) -> Bound<&Text>
    ensures { IsUpper tests.now (bound_map (λ x. x.now) result) }
{
    for test in tests {
        match upper_of(test) {
            Bound::Unbounded => {}
            bound => return bound,
        }
    }
    Bound::Unbounded
}

/// Whether there is room for a key.
fn has_room(from: Bound<&Text>, to: Bound<&Text>) -> bool
    ensures { result ≡ spans (bound_map (λ x. x.now) from.entry) (bound_map (λ x. x.now) to.entry) }
{
    match (from, to) {
        (Bound::Included(a), Bound::Included(b)) => a.cmp(b) != Ordering::Greater,
        (Bound::Included(a), Bound::Excluded(b)) => a.cmp(b) == Ordering::Less,
        (Bound::Excluded(a), Bound::Included(b)) => a.cmp(b) == Ordering::Less,
        (Bound::Excluded(a), Bound::Excluded(b)) => a.cmp(b) == Ordering::Less,
        (Bound::Unbounded, _) | (_, Bound::Unbounded) => true,
    }
}

/// The entries of a map by row key among which are all whose rows pass all tests: those of the range
/// that the tests of the key give.
pub fn in_range<'a, V>(map: &'a BTreeMap<Text, V>, tests: &[Test]) -> Range<'a, Text, V>
    ensures all { HasRange tests.now map.now.entries result }
    ensures fits { length result < 2 ^ 63 }
{
    let lower = lower_bound(tests);
    let upper = upper_bound(tests);
    if has_room(lower, upper) {
        return map.range((lower, upper));
    }
    match lower {
        Bound::Included(text) => map.range(text..text),
        Bound::Excluded(text) => map.range(text..text),
        Bound::Unbounded => map.range(..),
    }
}

/// The same of slots.
pub fn candidates<'a>(slots: &'a BTreeMap<Text, Slot>, tests: &[Test]) -> Range<'a, Text, Slot>
    requires { IsFiled slots.now.entries }
    ensures all { HasAll tests.now slots.now.entries result }
    ensures fits { length result < 2 ^ 63 }
{
    in_range(slots, tests)
}
