//! Tables: a transaction that commits, and one that aborts.

use crate::programs::{program, text};
use object_tables::tables::{Tables, TransactionEnd};
use script_tree::transaction::{Statement, Statements, Tests};
use script_tree::value::{Value, Values};
use std::alloc::{AllocError, Global};

/// The row of the key `a`.
fn row(alloc: Global) -> Result<Values, AllocError> {
    let mut values = Vec::new(alloc);
    values.push(Value::text(alloc, text(alloc, b"a")?)?)?;
    Values::from_vec(values)
}

/// A table that has that row.
fn tables(alloc: Global) -> Result<Tables, AllocError> {
    let program = program(alloc, b"table t (k);")?;
    let mut tables = Tables::new(alloc, program.declarations())?;
    let row = row(alloc)?;
    if tables.fits_row(0, row.as_slice()) {
        tables.insert_row(0, row)?;
    }
    Ok(tables)
}

/// Its rows are deleted, and so many are expected then.
fn statements(alloc: Global, count: i64) -> Result<Statements, AllocError> {
    let table = 0;
    let mut statements = Statements::new(alloc);
    statements.push(Statement::Delete {
        table,
        tests: Tests::new(alloc),
    })?;
    statements.push(Statement::Expect {
        count,
        table,
        tests: Tests::new(alloc),
    })?;
    Ok(statements)
}

/// How many rows the first table has.
pub fn row_count(tables: &Tables) -> usize {
    let mut count = 0usize;
    if !tables.widths().is_empty() {
        for _row in tables.rows(0) {
            count = count.saturating_add(1);
        }
    }
    count
}

/// How many answers the transaction has, where it commits.
#[tactic(auto, using(script_fit::proofs::ActOf::transaction_fits))]
fn transacted(alloc: Global, tables: &mut Tables, count: i64) -> Result<Option<usize>, AllocError> {
    let statements = statements(alloc, count)?;
    if !tables.fit(&statements) {
        return Err(AllocError);
    }
    match tables.transact(alloc, &statements)? {
        TransactionEnd::Committed(answers) => Ok(Some(answers.as_slice().len())),
        TransactionEnd::Aborted(_) => Ok(None),
    }
}

fn tables_keep(alloc: Global) -> Result<bool, AllocError> {
    let mut tables = tables(alloc)?;
    let copy = tables.clone()?;
    let aborts = transacted(alloc, &mut tables, 1)?.is_none() && row_count(&tables) == 1;
    let commits = transacted(alloc, &mut tables, 0)? == Some(2) && row_count(&tables) == 0;
    Ok(aborts && commits && row_count(&copy) == 1)
}

#[test]
fn an_abort_leaves_the_tables(rt: HostRuntime) {
    assert!(rt; tables_keep(rt.alloc()).unwrap_or(false));
}

/// How many of three answers are lists: all, where the transaction commits.
#[tactic(auto, using(script_fit::proofs::ActOf::transaction_fits))]
fn list_count(alloc: Global, count: i64) -> Result<usize, AllocError> {
    let mut tables = tables(alloc)?;
    let statements = statements(alloc, count)?;
    if !tables.fit(&statements) {
        return Err(AllocError);
    }
    let answers = tables.transact_copies(alloc, &statements, 3)?;
    Ok(
        answers
            .iter()
            .filter(|answer| **answer != Value::null())
            .count(),
    )
}

#[test]
fn an_answer_comes_as_often_as_it_is_wanted(rt: HostRuntime) {
    assert!(rt; list_count(rt.alloc(), 0) == Ok(3) && list_count(rt.alloc(), 1) == Ok(0));
}
