ghost use Rattle.std.specs.Prelude.{◌≡◌, ℕ, Bool, List, IsTrue};
ghost use Rattle.script_tree.specs.Programs.{Program as AnyProgram};
ghost use Rattle.script_tree.specs.Transactions.{key};
ghost use Rattle.script_tree.specs.declared.operation.Object.TheVariants.{Register, Store as AnyStore, Tables, Clock, Dice};
ghost use Rattle.script_fit.specs.FitsTransaction.{table_of};
ghost use Rattle.script_fit.specs.OfProgram.{is_key, is_row_key, row_is_of, tests_are_of, changes_are_of, is_of_width, statement_is_of, is_act_of, is_of_program};
ghost use Rattle.object_cells.specs.Stores.{has_store};
ghost use Rattle.object_set.specs.Applied.{IsOpOf, op_of};
ghost use Rattle.object_set.specs.ObjectSets.{IsSetOf};
ghost use Rattle.object_set.specs.OfProgram.{columns_are_of, statements_are_of};

use crate::set::ObjectSet;
use script_tree::limits::MOST_KEY_BYTES;
use script_tree::operation::{Act, Object};
use script_tree::text::Text;
use script_tree::transaction::{Change, Statement, Test};
use script_tree::value::{Node, Value};

impl ObjectSet {
    /// Whether the act is one of the object's, and names only what the program of these objects
    /// declares. What passes may be applied.
    #[tactic(auto, using(crate::proofs::OfPrograms::of_program, crate::proofs::OfPrograms::is_op))]
    pub fn is_of_program(&self, object: &Object, act: &Act) -> bool
        ensures told { (program : AnyProgram) → IsSetOf program self.now
            → result ≡ is_of_program program object.now act.now }
        ensures applies { IsTrue result → IsOpOf self.now (op_of object.now act.now) }
    {
        self.is_act_of(object, act)
    }

    /// Whether the act is one of the object's, and names only what is there.
    fn is_act_of(&self, object: &Object, act: &Act) -> bool
        ensures { result
            ≡ is_act_of (has_store self.now.stores) self.now.tables.widths object.now act.now }
    {
        match object {
            Object::Register(name) => is_of_register(name, act),
            Object::Store(name) => self.is_of_store(name, act),
            Object::Tables => is_of_tables(self.tables().widths(), act),
            Object::Clock => is_of_clock(act),
            Object::Dice => is_of_dice(act),
        }
    }

    fn is_of_store(&self, name: &Text, act: &Act) -> bool
        ensures { (widths : List ℕ) →
            result ≡ is_act_of (has_store self.now.stores) widths (AnyStore name.now) act.now }
    {
        match act {
            Act::Get(key) | Act::Put(key, _) | Act::Remove(key) => {
                self.store(name).is_some() && is_key(key)
            }
            Act::Read | Act::Write(_) | Act::Transact(_) | Act::Now | Act::Roll(_) => false,
        }
    }
}

fn is_of_register(name: &Text, act: &Act) -> bool
    ensures { (stores : List ℕ → Bool) (widths : List ℕ) →
        result ≡ is_act_of stores widths (Register name.now) act.now }
{
    match act {
        Act::Read | Act::Write(_) => is_key(name),
        Act::Get(_)
        | Act::Put(_, _)
        | Act::Remove(_)
        | Act::Transact(_)
        | Act::Now
        | Act::Roll(_) => false,
    }
}

fn is_of_tables(widths: &[usize], act: &Act) -> bool
    ensures { (stores : List ℕ → Bool) → result ≡ is_act_of stores widths.now Tables act.now }
{
    match act {
        Act::Transact(statements) => {
            !statements.is_empty() && statements_are_of(widths, statements.as_slice())
        }
        Act::Read
        | Act::Write(_)
        | Act::Get(_)
        | Act::Put(_, _)
        | Act::Remove(_)
        | Act::Now
        | Act::Roll(_) => false,
    }
}

fn is_of_clock(act: &Act) -> bool
    ensures { (stores : List ℕ → Bool) (widths : List ℕ) →
        result ≡ is_act_of stores widths Clock act.now }
{
    match act {
        Act::Now => true,
        Act::Read
        | Act::Write(_)
        | Act::Get(_)
        | Act::Put(_, _)
        | Act::Remove(_)
        | Act::Transact(_)
        | Act::Roll(_) => false,
    }
}

fn is_of_dice(act: &Act) -> bool
    ensures { (stores : List ℕ → Bool) (widths : List ℕ) →
        result ≡ is_act_of stores widths Dice act.now }
{
    match act {
        Act::Roll(bound) => *bound > 0,
        Act::Read
        | Act::Write(_)
        | Act::Get(_)
        | Act::Put(_, _)
        | Act::Remove(_)
        | Act::Transact(_)
        | Act::Now => false,
    }
}

fn is_key(text: &Text) -> bool
    ensures { result ≡ is_key text.now }
{
    text.len() <= MOST_KEY_BYTES
}

/// Whether each statement is of a table that is there, and of its columns.
fn statements_are_of(widths: &[usize], statements: &[Statement]) -> bool
    ensures { result ≡ statements_are_of widths.now statements.now }
{
    statements
        .iter()
        .all(|statement| statement_is_of(widths, statement))
}

fn statement_is_of(widths: &[usize], statement: &Statement) -> bool
    ensures { result ≡ statement_is_of widths.now statement.now }
{
    match widths.get(table_of(statement) as usize) {
        Some(width) => is_of_width(statement, *width),
        None => false,
    }
}

fn table_of(statement: &Statement) -> u32
    ensures { result ≡ table_of statement.now }
{
    match statement {
        Statement::Insert { table, .. }
        | Statement::Select { table, .. }
        | Statement::Update { table, .. }
        | Statement::Delete { table, .. }
        | Statement::Expect { table, .. } => *table,
    }
}

/// Whether a statement is of a table of so many columns.
fn is_of_width(statement: &Statement, width: usize) -> bool
    ensures { result ≡ is_of_width statement.now width }
{
    match statement {
        Statement::Insert { table: _, row } => row_is_of(width, row.as_slice()),
        Statement::Select {
            table: _,
            columns,
            tests,
        } => {
            !columns.is_empty()
                && columns_are_of(width, columns.as_slice())
                && tests_are_of(width, tests.as_slice())
        }
        Statement::Update {
            table: _,
            changes,
            tests,
        } => {
            !changes.is_empty()
                && changes_are_of(width, changes.as_slice())
                && tests_are_of(width, tests.as_slice())
        }
        Statement::Delete { table: _, tests }
        | Statement::Expect {
            count: _,
            table: _,
            tests,
        } => tests_are_of(width, tests.as_slice()),
    }
}

fn row_is_of(width: usize, row: &[Value]) -> bool
    ensures { result ≡ row_is_of width row.now }
{
    row.len() == width && has_row_key(row)
}

/// Whether the first value is a text that isn't too long.
fn has_row_key(row: &[Value]) -> bool
    ensures { result ≡ is_row_key (key row.now) }
{
    match row.first() {
        Some(value) => is_row_key(value),
        None => false,
    }
}

fn is_row_key(value: &Value) -> bool
    ensures { result ≡ is_row_key value.now }
{
    match &value.node {
        Node::Text(text) => is_key(text),
        Node::Null | Node::Bool(_) | Node::Number(_) | Node::List(_) => false,
    }
}

fn columns_are_of(width: usize, columns: &[u32]) -> bool
    ensures { result ≡ columns_are_of width columns.now }
{
    columns.iter().all(|column| (*column as usize) < width)
}

fn tests_are_of(width: usize, tests: &[Test]) -> bool
    ensures { result ≡ tests_are_of width tests.now }
{
    tests.iter().all(|test| (test.column as usize) < width)
}

/// Whether each change is to one of the columns, and not to the key.
fn changes_are_of(width: usize, changes: &[Change]) -> bool
    ensures { result ≡ changes_are_of width changes.now }
{
    changes.iter().all(|change| 0 < change.column && (change.column as usize) < width)
}
