ghost use Rattle.std.specs.Prelude.{map, IsTrue, ◌↔◌};
ghost use Rattle.script_tree.specs.ActLimits.{AreWithinLimits};
ghost use Rattle.script_fit.specs.StoredLimits.{stored_by, StoreWithinLimits};

use crate::fitting::are_within_limits;
use script_tree::transaction::{Change, Statement};

/// Whether the values that changes give are values of a script.
fn changes_are_within_limits(changes: &[Change]) -> bool
    ensures { IsTrue result ↔ AreWithinLimits (map (λ c. c.value) changes.now) }
{
    for change in changes {
        if !change.value.is_within_limits() {
            return false;
        }
    }
    true
}

/// Whether the values that a statement stores are values of a script.
fn stores_within_limits(statement: &Statement) -> bool
    ensures { IsTrue result ↔ AreWithinLimits (stored_by statement.now) }
{
    match statement {
        Statement::Insert { table: _, row } => are_within_limits(row.as_slice()),
        Statement::Update {
            table: _,
            changes,
            tests: _,
        } => changes_are_within_limits(changes.as_slice()),
        Statement::Select { .. } | Statement::Delete { .. } | Statement::Expect { .. } => true,
    }
}

/// Whether the values that statements store are values of a script.
pub fn store_within_limits(statements: &[Statement]) -> bool
    ensures { IsTrue result ↔ StoreWithinLimits statements.now }
{
    for statement in statements {
        if !stores_within_limits(statement) {
            return false;
        }
    }
    true
}
