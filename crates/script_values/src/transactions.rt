ghost use Rattle.std.specs.Prelude.{◌≡◌, map};
ghost use Rattle.basis.specs.UnlessMemory.{Answers};
ghost use Rattle.script_meaning.specs.Operands.{row_of, checked, all_checked, transact_op};
ghost use Rattle.script_values.specs.Queries.{unchecked_of};

use crate::faults::Faulted;
use crate::kinds::{number_in, wrong_kind};
use crate::operations::name_in;
use script_tree::operation::{Act, Object, Op};
use script_tree::transaction::{Changes, Columns, Statement, Statements, Tests};
use script_tree::value::{Value, Values};
use std::alloc::Global;

/// A statement of a transaction with the values that it takes, none of which was looked at.
#[derive(Drop)]
pub enum Unchecked {
    Insert {
        table: u32,
        row: Vec<Value>,
    },
    Select {
        table: u32,
        columns: Columns,
        tests: Tests,
    },
    Update {
        table: u32,
        changes: Changes,
        tests: Tests,
    },
    Delete {
        table: u32,
        tests: Tests,
    },
    Expect {
        count: Value,
        table: u32,
        tests: Tests,
    },
}

/// The operation of a transaction of these statements.
pub fn transact_op(alloc: Global, statements: Vec<Unchecked>) -> Result<Op, Faulted>
    ensures { Answers (λ op. op) (transact_op (map unchecked_of statements.items)) result }
{
    Ok(Op {
        object: Object::Tables,
        act: Act::Transact(Statements::from_vec(all_checked(alloc, statements)?)),
    })
}

fn all_checked(alloc: Global, statements: Vec<Unchecked>) -> Result<Vec<Statement>, Faulted>
    ensures { Answers (λ v. v.items) (all_checked (map unchecked_of statements.items)) result }
{
    let mut all = Vec::with_capacity(alloc, statements.len())?;
    let mut left = statements.into_iter();
    while let Some(statement) = left.next() {
        all.push(checked(statement)?)?;
    }
    Ok(all)
}

fn checked(statement: Unchecked) -> Result<Statement, Faulted>
    ensures { Answers (λ s. s) (checked (unchecked_of statement)) result }
{
    match statement {
        Unchecked::Insert { table, row } => Ok(Statement::Insert {
            table,
            row: row_of(row)?,
        }),
        Unchecked::Select {
            table,
            columns,
            tests,
        } => Ok(Statement::Select {
            table,
            columns,
            tests,
        }),
        Unchecked::Update {
            table,
            changes,
            tests,
        } => Ok(Statement::Update {
            table,
            changes,
            tests,
        }),
        Unchecked::Delete { table, tests } => Ok(Statement::Delete { table, tests }),
        Unchecked::Expect {
            count,
            table,
            tests,
        } => {
            let told = number_in(&count);
            drop(count);
            match told {
                Ok(count) => Ok(Statement::Expect {
                    count,
                    table,
                    tests,
                }),
                Err(fault) => {
                    drop(tests);
                    Err(fault)
                }
            }
        }
    }
}

/// A row, which begins with its key.
fn row_of(values: Vec<Value>) -> Result<Values, Faulted>
    ensures { Answers (λ row. row) (row_of values.items) result }
{
    match values.first() {
        None => wrong_kind(),
        Some(key) => {
            let _name = name_in(key)?;
            Ok(Values::from_vec(values)?)
        }
    }
}
