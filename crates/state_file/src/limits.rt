ghost use Rattle.std.specs.Prelude.{◌≡◌, pos, int_le};
ghost use Rattle.std.specs.List.{list_all};
ghost use Rattle.state_file.specs.Faults.{are_within_limits, are_entries_within_limits};
ghost use Rattle.state_file.specs.Faults.{is_entry_within_limits, are_rows_within_limits};
ghost use Rattle.state_file.specs.Faults.{is_row_within_limits, is_short};
ghost use Rattle.script_tree.specs.Datum.{is_within_limits};
ghost use Rattle.script_tree.specs.Transactions.{key};

use crate::given::Given;
use basis::Items;
use script_tree::limits::MOST_KEY_BYTES;
use script_tree::text::Text;
use script_tree::value::{Node, Value, Values};

/// Whether all that is given is within the limits.
pub fn are_within_limits(given: &Given) -> bool
    ensures { result ≡ are_within_limits given.now }
{
    are_entries_within_limits(given.registers.as_slice())
        && are_stores_within_limits(given.stores.as_slice())
        && are_tables_within_limits(given.tables.as_slice())
        && is_reading(given.clock)
}

fn is_reading(clock: i64) -> bool
    ensures { result ≡ int_le (pos 0) clock }
{
    0 <= clock
}

fn are_stores_within_limits(stores: &[(Text, Items<(Text, Value)>)]) -> bool
    ensures { result ≡ list_all (λ s. are_entries_within_limits s.1) stores.now }
{
    stores.iter().all(is_store_within_limits)
}

fn are_tables_within_limits(tables: &[(Text, Items<Values>)]) -> bool
    ensures { result ≡ list_all (λ t. are_rows_within_limits t.1) tables.now }
{
    tables.iter().all(is_table_within_limits)
}

fn is_store_within_limits(store: &(Text, Items<(Text, Value)>)) -> bool
    ensures { result ≡ are_entries_within_limits store.now.1 }
{
    are_entries_within_limits(store.1.as_slice())
}

fn is_table_within_limits(table: &(Text, Items<Values>)) -> bool
    ensures { result ≡ are_rows_within_limits table.now.1 }
{
    table.1.as_slice().iter().all(is_row_within_limits)
}

fn are_entries_within_limits(entries: &[(Text, Value)]) -> bool
    ensures { result ≡ are_entries_within_limits entries.now }
{
    entries.iter().all(is_entry_within_limits)
}

fn is_entry_within_limits(entry: &(Text, Value)) -> bool
    ensures { result ≡ is_entry_within_limits entry.now }
{
    entry.0.len() <= MOST_KEY_BYTES && entry.1.is_within_limits()
}

fn is_row_within_limits(row: &Values) -> bool
    ensures { result ≡ is_row_within_limits row.now }
{
    let values = row.as_slice();
    are_values_within_limits(values) && has_short_key(values)
}

fn are_values_within_limits(values: &[Value]) -> bool
    ensures { result ≡ list_all is_within_limits values.now }
{
    values.iter().all(Value::is_within_limits)
}

/// Whether the first value isn't too long for a row's key.
fn has_short_key(values: &[Value]) -> bool
    ensures { result ≡ is_short (key values.now) }
{
    match values.first() {
        Some(key) => is_short(key),
        None => true,
    }
}

fn is_short(key: &Value) -> bool
    ensures { result ≡ is_short key.now }
{
    match &key.node {
        Node::Text(text) => text.len() <= MOST_KEY_BYTES,
        Node::Null | Node::Bool(_) | Node::Number(_) | Node::List(_) => true,
    }
}
