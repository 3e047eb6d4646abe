ghost use Rattle.std.specs.Prelude.{◌≡◌};

use crate::comparison::Comparison;
use crate::value::{Value, Values};
use basis::Items;

/// A test of a `where`: the row's value in a column, compared with a value.
#[derive(PartialEq, Eq, PartialOrd, Ord, Drop)]
pub struct Test {
    pub column: u32,
    pub comparison: Comparison,
    pub value: Value,
}

/// The tests of a `where`, all of which are to hold.
pub type Tests = Items<Test>;

/// An assignment of an `update`: a column gets a value.
#[derive(PartialEq, Eq, PartialOrd, Ord, Drop)]
pub struct Change {
    pub column: u32,
    pub value: Value,
}

/// The assignments of an `update`, made in order.
pub type Changes = Items<Change>;

/// Columns of a table, by number.
pub type Columns = Items<u32>;

/// A statement of a transaction. Tables and columns are numbered from 0 as the program declares them.
#[derive(PartialEq, Eq, PartialOrd, Ord, Drop)]
pub enum Statement {
    Insert {
        table: u32,
        row: Values,
    },
    Select {
        table: u32,
        columns: Columns,
        tests: Tests,
    },
    Update {
        table: u32,
        changes: Changes,
        tests: Tests,
    },
    Delete {
        table: u32,
        tests: Tests,
    },
    Expect {
        count: i64,
        table: u32,
        tests: Tests,
    },
}

/// The statements of a transaction, in order.
pub type Statements = Items<Statement>;
