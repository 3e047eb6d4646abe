ghost use Rattle.std.specs.Prelude.{◌≡◌, ◌<◌, ◌+◌, length, take, OnOk, IfOk, IfSome, IsTrue, []};
ghost use Rattle.std.specs.Option.{option_map};
ghost use Rattle.script_tree.specs.Datum.{text};
ghost use Rattle.script_tree.specs.Transactions.{key};
ghost use Rattle.script_tree.specs.declared.transaction.Statement.TheVariants.{Insert};
ghost use Rattle.object_tables.specs.Slots.{IsText, IsRunnable, AreRunnable};
ghost use Rattle.versioned_tables.specs.Standing.{Reaches, AllReached, Finds, Grows, IsOnlyKey, IsTestedKey, range_in, LookAlike};

use object_tables::keys::key_of;
use object_tables::ranges::in_range;
use script_tree::comparison::Comparison;
use script_tree::text::Text;
use script_tree::transaction::{Statement, Test};
use script_tree::value::{Node, Value, Values};
use std::alloc::{AllocError, Global};
use versioned_cells::Histories;

/// The key of a row, with the number of its table.
pub type Key = (u32, Text);

/// The keys of the rows that statements may look at.
pub fn keys_of(
    alloc: Global,
    tables: &[Histories<Values>],
    statements: &[Statement],
) -> Result<Vec<Key>, AllocError>
    requires { AreRunnable (length tables.now) statements.now }
    ensures { IfOk result (λ keys. AllReached tables.now keys.items statements.now) }
{
    let mut keys = Vec::new(alloc);
    for i in 0..statements.len() {
        add_keys_at(&mut keys, tables, statements, i)?;
    }
    Ok(keys)
}

/// Adds the keys of a statement. Where the one before looks at the same rows, they are there.
fn add_keys_at(
    keys: &mut Vec<Key>,
    tables: &[Histories<Values>],
    statements: &[Statement],
    i: usize,
) -> Result<(), AllocError>
    requires within { i < length statements.now }
    requires runs { AreRunnable (length tables.now) statements.now }
    requires reached { AllReached tables.now keys.old.items (take i statements.now) }
    ensures { OnOk result
        (AllReached tables.now keys.new.items (take (i + 1) statements.now)) }
{
    if i > 0 && look_alike(&statements[i - 1], &statements[i]) {
        return Ok(());
    }
    add_keys(keys, tables, &statements[i])?;
    Ok(())
}

/// Whether both look at the rows of one table that pass the same tests.
fn look_alike(a: &Statement, b: &Statement) -> bool
    ensures { IsTrue result → LookAlike a.now b.now }
{
    match (range_of(a), range_of(b)) {
        (Some((t, some)), Some((u, others))) => t == u && are_same(some, others),
        (Some(_), None) | (None, Some(_)) | (None, None) => false,
    }
}

/// Whether the tests are the same.
fn are_same(some: &[Test], others: &[Test]) -> bool
    ensures { IsTrue result → some.now ≡ others.now }
{
    some == others
}

/// The table and the tests of the rows that a statement looks at, where it isn't an insert.
fn range_of(statement: &Statement) -> Option<(u32, &[Test])>
    ensures { option_map (λ r. (r.0, r.1.now)) result ≡ range_in statement.now }
{
    match statement {
        Statement::Insert { .. } => None,
        Statement::Select { table, tests, .. }
        | Statement::Update { table, tests, .. }
        | Statement::Delete { table, tests }
        | Statement::Expect { table, tests, .. } => Some((*table, tests.as_slice())),
    }
}

/// Adds the keys of the rows that a statement may look at.
fn add_keys(
    keys: &mut Vec<Key>,
    tables: &[Histories<Values>],
    statement: &Statement,
) -> Result<(), AllocError>
    requires { IsRunnable (length tables.now) statement.now }
    ensures reaches { OnOk result (Reaches tables.now keys.new.items statement.now) }
    ensures grows { OnOk result (Grows keys.old.items keys.new.items) }
{
    match statement {
        Statement::Insert { table, row } => add_key(keys, *table, row),
        Statement::Select { table, tests, .. } => {
            add_tested(keys, *table, &tables[*table as usize], tests.as_slice())
        }
        Statement::Update { table, tests, .. } => {
            add_tested(keys, *table, &tables[*table as usize], tests.as_slice())
        }
        Statement::Delete { table, tests } => {
            add_tested(keys, *table, &tables[*table as usize], tests.as_slice())
        }
        Statement::Expect { table, tests, .. } => {
            add_tested(keys, *table, &tables[*table as usize], tests.as_slice())
        }
    }
}

/// Adds the key of a row.
fn add_key(keys: &mut Vec<Key>, table: u32, row: &Values) -> Result<(), AllocError>
    requires { IsText (key row.now) }
    ensures reaches { OnOk result (Reaches [] keys.new.items (Insert table row.now)) }
    ensures grows { OnOk result (Grows keys.old.items keys.new.items) }
{
    let key = key_of(row)?;
    keys.push((table, key))?;
    Ok(())
}

/// The keys of a table in the range that the tests leave in question.
fn add_range(
    keys: &mut Vec<Key>,
    table: u32,
    histories: &Histories<Values>,
    tests: &[Test],
) -> Result<(), AllocError>
    ensures finds { OnOk result (Finds keys.new.items table tests.now histories.now) }
    ensures grows { OnOk result (Grows keys.old.items keys.new.items) }
{
    for (key, _) in in_range(histories.by_key(), tests) {
        keys.push((table, key.clone()?))?;
    }
    Ok(())
}

/// The keys of a table that the tests leave in question: one, where a test says which.
fn add_tested(
    keys: &mut Vec<Key>,
    table: u32,
    histories: &Histories<Values>,
    tests: &[Test],
) -> Result<(), AllocError>
    ensures finds { OnOk result (Finds keys.new.items table tests.now histories.now) }
    ensures grows { OnOk result (Grows keys.old.items keys.new.items) }
{
    match only_key(tests) {
        Some(key) => {
            keys.push((table, key.clone()?))?;
            Ok(())
        }
        None => add_range(keys, table, histories, tests),
    }
}

/// The key of each row that passes the tests, where one of them says it.
fn only_key(tests: &[Test]) -> Option<&Text>
    ensures { IfSome result (λ only. IsOnlyKey tests.now only.now) }
{
    for test in tests {
        if let Some(key) = tested_key(test) {
            return Some(key);
        }
    }
    None
}

/// The key of each row that passes a test, where it says it.
fn tested_key(test: &Test) -> Option<&Text>
    ensures { IfSome result (λ only. IsTestedKey test.now only.now) }
{
    if test.column != 0 {
        return None;
    }
    match test.comparison {
        Comparison::Equal => text_in(&test.value),
        Comparison::Unequal
        | Comparison::Less
        | Comparison::AtMost
        | Comparison::Greater
        | Comparison::AtLeast => None,
    }
}

/// The text that a value is.
pub fn text_in(value: &Value) -> Option<&Text>
    ensures { IfSome result (λ bytes. value.now ≡ text bytes.now) }
{
    match &value.node {
        Node::Text(text) => Some(text.as_ref()),
        Node::Null | Node::Bool(_) | Node::Number(_) | Node::List(_) => None,
    }
}
