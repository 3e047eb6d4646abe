ghost use Rattle.std.specs.Prelude.{◌≡◌, map, min, take, drop, IfOk};
ghost use Rattle.script_meaning.specs.Operands.{first};
ghost use Rattle.script_code.specs.CodeRun.{values_taken, all_taken, filled, all_filled};
ghost use Rattle.script_code.specs.CodeRun.{tests_with, changes_with};
ghost use Rattle.script_values.specs.Queries.{unchecked_of};

use script_code::instruction::{Shape, TestShape};
use script_tree::transaction::{Change, Changes, Columns, Test, Tests};
use script_tree::value::Value;
use script_values::{Unchecked, copied};
use std::alloc::{AllocError, Global};

/// How many values the statements of these shapes take. A number that doesn't fit its type is given
/// as the type's greatest number. No slice is that long, so a slice has enough values exactly where
/// it has this many.
pub fn all_taken(shapes: &[Shape]) -> usize
    ensures { result ≡ min (all_taken shapes.now) usize.MAX }
{
    let mut taken = 0usize;
    for shape in shapes {
        taken = taken.saturating_add(values_taken(shape));
    }
    taken
}

fn values_taken(shape: &Shape) -> usize
    ensures { result ≡ min (values_taken shape.now) usize.MAX }
{
    match shape {
        Shape::Insert { values, .. } => *values,
        Shape::Select { tests, .. } | Shape::Delete { tests, .. } => tests.len(),
        Shape::Update { columns, tests, .. } => columns.len().saturating_add(tests.len()),
        Shape::Expect { tests, .. } => tests.len().saturating_add(1),
    }
}

/// The statements of these shapes, each with the values that it takes, in order. Where there are too
/// few values, the last statements have fewer than they take.
pub fn all_filled(
    alloc: Global,
    shapes: &[Shape],
    values: &[Value],
) -> Result<Vec<Unchecked>, AllocError>
    ensures { IfOk result (λ v. map unchecked_of v.items ≡ all_filled shapes.now values.now) }
{
    let mut statements = Vec::with_capacity(alloc, shapes.len())?;
    let mut left = values;
    for shape in shapes {
        let (own, others) = split(left, values_taken(shape));
        statements.push(filled(alloc, shape, own)?)?;
        left = others;
    }
    Ok(statements)
}

/// The statement of a shape with these values.
fn filled(alloc: Global, shape: &Shape, values: &[Value]) -> Result<Unchecked, AllocError>
    ensures { IfOk result (λ statement. unchecked_of statement ≡ filled shape.now values.now) }
{
    match shape {
        Shape::Insert { table, .. } => Ok(Unchecked::Insert {
            table: *table,
            row: copied(alloc, values)?,
        }),
        Shape::Select {
            table,
            columns,
            tests,
        } => Ok(Unchecked::Select {
            table: *table,
            columns: Columns::from_vec(columns.as_slice().to_vec(alloc)?),
            tests: tests_with(alloc, tests.as_slice(), values)?,
        }),
        Shape::Update {
            table,
            columns,
            tests,
        } => {
            let (_, others) = split(values, columns.len());
            Ok(Unchecked::Update {
                table: *table,
                changes: changes_with(alloc, columns.as_slice(), values)?,
                tests: tests_with(alloc, tests.as_slice(), others)?,
            })
        }
        Shape::Delete { table, tests } => Ok(Unchecked::Delete {
            table: *table,
            tests: tests_with(alloc, tests.as_slice(), values)?,
        }),
        Shape::Expect { table, tests } => {
            let (_, others) = split(values, 1);
            Ok(Unchecked::Expect {
                count: first_of(values)?,
                table: *table,
                tests: tests_with(alloc, tests.as_slice(), others)?,
            })
        }
    }
}

/// So many values, or all where there are fewer, and the others.
fn split(values: &[Value], count: usize) -> (&[Value], &[Value])
    ensures own { result.0.now ≡ take count values.now }
    ensures others { result.1.now ≡ drop count values.now }
{
    values.split_at(count.min(values.len()))
}

/// The first value, or null.
fn first_of(values: &[Value]) -> Result<Value, AllocError>
    ensures { IfOk result (λ value. value ≡ first values.now) }
{
    match values.first() {
        Some(value) => value.clone(),
        None => Ok(Value::null()),
    }
}

/// The tests of these shapes, as far as there are values.
fn tests_with(alloc: Global, shapes: &[TestShape], values: &[Value]) -> Result<Tests, AllocError>
    ensures { IfOk result (λ tests. tests ≡ tests_with shapes.now values.now) }
{
    let mut tests = Tests::new(alloc);
    for (shape, value) in shapes.iter().zip(values) {
        tests.push(Test {
            column: shape.column,
            comparison: shape.comparison,
            value: value.clone()?,
        })?;
    }
    Ok(tests)
}

/// The changes of these columns, as far as there are values.
fn changes_with(alloc: Global, columns: &[u32], values: &[Value]) -> Result<Changes, AllocError>
    ensures { IfOk result (λ changes. changes ≡ changes_with columns.now values.now) }
{
    let mut changes = Changes::new(alloc);
    for (column, value) in columns.iter().zip(values) {
        changes.push(Change {
            column: *column,
            value: value.clone()?,
        })?;
    }
    Ok(changes)
}
