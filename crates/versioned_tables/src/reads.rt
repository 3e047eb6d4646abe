ghost use Rattle.std.specs.Prelude.{◌≡◌};
ghost use Rattle.versioned_tables.specs.Reads.{only_read, keeps_tables};

use script_tree::operation::Act;
use script_tree::transaction::Statement;

/// Whether it changes no tables, whatever they hold.
pub fn keeps_tables(act: &Act) -> bool
    ensures { result ≡ keeps_tables act.now }
{
    match act {
        Act::Transact(statements) => only_read(statements.as_slice()),
        Act::Read
        | Act::Write(_)
        | Act::Get(_)
        | Act::Put(_, _)
        | Act::Remove(_)
        | Act::Now
        | Act::Roll(_) => true,
    }
}

/// Whether none inserts, updates or deletes.
pub fn only_read(statements: &[Statement]) -> bool
    ensures { result ≡ only_read statements.now }
{
    for statement in statements {
        match statement {
            Statement::Select { .. } | Statement::Expect { .. } => {}
            Statement::Insert { .. } | Statement::Update { .. } | Statement::Delete { .. } => {
                return false;
            }
        }
    }
    true
}
