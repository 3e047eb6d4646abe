ghost use Rattle.std.specs.Prelude.{◌≡◌};
ghost use Rattle.versioned_store.specs.Sources.{are_selects, selects_alone};

use script_tree::operation::Act;
use script_tree::transaction::Statement;

/// Whether it is a transaction of selects alone.
pub fn selects_alone(act: &Act) -> bool
    ensures { result ≡ selects_alone act.now }
{
    match act {
        Act::Transact(statements) => are_selects(statements.as_slice()),
        Act::Read
        | Act::Write(_)
        | Act::Get(_)
        | Act::Put(_, _)
        | Act::Remove(_)
        | Act::Now
        | Act::Roll(_) => false,
    }
}

fn are_selects(statements: &[Statement]) -> bool
    ensures { result ≡ are_selects statements.now }
{
    for statement in statements {
        match statement {
            Statement::Select { .. } => {}
            Statement::Insert { .. }
            | Statement::Update { .. }
            | Statement::Delete { .. }
            | Statement::Expect { .. } => return false,
        }
    }
    true
}
