ghost use Rattle.std.specs.Prelude.{◌≡◌, ◌<◌, ◌≤◌, [], length, map, take, IfOk, OnOk, OnErr, vec_len, Ok, Some, None, if◌then◌else◌, false, IsTrue, ◌↔◌, replicate};
ghost use Rattle.script_tree.specs.Datum.{null};
ghost use Rattle.script_tree.specs.declared.transaction.Statement.TheVariants.{Insert};
ghost use Rattle.script_tree.specs.Transactions.{table_at, after_statement, after_statements, after_transaction};
ghost use Rattle.object_tables.specs.Slots.{rows_of, AreRunnable};
ghost use Rattle.object_tables.specs.UndoLog.{AllFiled, AreWhole};
ghost use Rattle.object_tables.specs.Storages.{slots_in, rows_in, before};
ghost use Rattle.script_tree.specs.Fit.{AreTables, table_widths};
ghost use Rattle.script_fit.specs.FitsTransaction.{FitsRow, FitsTransaction};
ghost use Rattle.script_fit.specs.TransactionOf.{IsTransactionOf};
ghost use Rattle.object_tables.specs.Answered.{AnswersTimes, RunsTo, ComesTo};
ghost use Rattle.object_tables.specs.Keys.{row_at};
ghost use Rattle.object_tables.specs.TableSets.{no_rows};
ghost use Rattle.std.specs.Option.{option_copied};
ghost use Rattle.object_tables.specs.TransactionEnds.{IsTransactionEnd, IsAnswer, IsInserted, IsRun, answer_of};

use crate::fitting::{fits_row, fits_transaction};
use crate::rows::Rows;
use crate::statements::{self, insert_in};
use crate::stored::store_within_limits;
use crate::table::Slots;
use crate::undo_log::{Storage, settle, take_back};
use script_tree::syntax::declaration::Declaration;
use script_tree::text::Text;
use script_tree::transaction::{Statement, Statements};
use script_tree::value::{Value, Values};
use std::alloc::{AllocError, Global};
use std::marker::Model;

/// What a transaction came to: the answers of its statements, or the place of the first one that
/// aborted.
#[derive(Drop)]
pub enum TransactionEnd {
    Committed(Values),
    Aborted(usize),
}

impl TransactionEnd {
    /// The answer of the transaction: those of its statements, or null where one aborted.
    pub fn into_answer(self) -> Value
        ensures { result ≡ answer_of self }
    {
        match self {
            TransactionEnd::Committed(answers) => Value::list(answers),
            TransactionEnd::Aborted(_) => Value::null(),
        }
    }
}

/// What a transaction came to, and copies of its answer.
#[derive(Drop)]
struct Answered {
    outcome: TransactionEnd,
    answers: Vec<Value>,
}

/// The tables of a program. Contracts see how many columns each has, and its rows in the order of
/// their keys. They fit the widths, and no operation changes those.
#[derive(Drop)]
pub struct Tables {
    widths: Vec<usize>,
    storage: Storage,
}

impl Model for Tables {
    ghost use Rattle.object_tables.specs.TableSets.{TableSet, coded_table_set};

    ghost Value = { TableSet };

    ghost coded = { coded_table_set };

    ghost use Rattle.object_tables.specs.TablesView.{tables_in, AreKept};

    ghost view = { tables_in };

    ghost invariant = { AreKept };
}

/// Runs statements in order, up to one that aborts.
fn run_all(
    alloc: Global,
    storage: &mut Storage,
    statements: &[Statement],
) -> Result<TransactionEnd, AllocError>
    requires fits { AreRunnable (vec_len storage.old.tables) statements.now }
    requires filed { AllFiled (slots_in storage.old) }
    ensures done { IfOk result (IsRun statements.now (rows_in storage.old) (rows_in storage.new)) }
    ensures filed { OnOk result (AllFiled (slots_in storage.new)) }
    ensures before { before storage.new ≡ before storage.old }
{
    let mut answers = Vec::new(alloc);
    for (i, statement) in statements.iter().enumerate() {
        match statements::run(alloc, storage, statement)? {
            Some(answer) => answers.push(answer)?,
            None => return Ok(TransactionEnd::Aborted(i)),
        }
    }
    Ok(TransactionEnd::Committed(Values::from_vec(answers)?))
}

/// The answer of a transaction, so many times.
fn answers_of(
    alloc: Global,
    outcome: &TransactionEnd,
    count: usize,
) -> Result<Vec<Value>, AllocError>
    ensures { IfOk result (λ answers. answers.items ≡ replicate count (answer_of outcome.now)) }
{
    let answer = match outcome {
        TransactionEnd::Committed(answers) => Value::list(answers.clone()?),
        TransactionEnd::Aborted(_) => Value::null(),
    };
    Vec::from_elem(alloc, answer, count)
}

/// Runs statements as `run_all` does, and makes the answer so many times.
fn run_answered(
    alloc: Global,
    storage: &mut Storage,
    statements: &[Statement],
    count: usize,
) -> Result<Answered, AllocError>
    requires fits { AreRunnable (vec_len storage.old.tables) statements.now }
    requires filed { AllFiled (slots_in storage.old) }
    ensures done { IfOk result (RunsTo count statements.now storage.old storage.new) }
    ensures filed { OnOk result (AllFiled (slots_in storage.new)) }
    ensures before { before storage.new ≡ before storage.old }
{
    let outcome = run_all(alloc, storage, statements)?;
    let answers = answers_of(alloc, &outcome, count)?;
    Ok(Answered { outcome, answers })
}

/// Runs a transaction, and makes its answer so many times. Where a statement aborts, or memory is
/// wanted, the tables stay as before.
fn transact_on(
    alloc: Global,
    storage: &mut Storage,
    statements: &[Statement],
    count: usize,
) -> Result<Answered, AllocError>
    requires fits { AreRunnable (vec_len storage.old.tables) statements.now }
    requires filed { AllFiled (slots_in storage.old) }
    requires whole { AreWhole (slots_in storage.old) }
    requires undo_log { storage.old.undo_log.items ≡ [] }
    ensures done { IfOk result
        (ComesTo count statements.now (rows_in storage.old) (rows_in storage.new)) }
    ensures filed { AllFiled (slots_in storage.new) }
    ensures whole { AreWhole (slots_in storage.new) }
    ensures undo_log { storage.new.undo_log.items ≡ [] }
    ensures err { OnErr result (slots_in storage.new ≡ slots_in storage.old) }
{
    let answered = run_answered(alloc, storage, statements, count);
    match &answered {
        Ok(
            Answered {
                outcome: TransactionEnd::Committed(_),
                ..
            },
        ) => settle(storage),
        Ok(
            Answered {
                outcome: TransactionEnd::Aborted(_),
                ..
            },
        )
        | Err(_) => take_back(storage),
    }
    answered
}

impl Tables {
    /// The tables that a program declares, without rows.
    pub fn new(alloc: Global, declarations: &[Declaration]) -> Result<Tables, AllocError>
        ensures widths { IfOk result (λ tables. tables.widths ≡ table_widths declarations.now) }
        ensures rows { IfOk result (λ tables. tables.tables ≡ no_rows tables.widths) }
    {
        Tables::without_rows(alloc, declared_widths(alloc, declarations)?)
    }

    /// Tables of these widths, without rows.
    pub fn without_rows(alloc: Global, widths: Vec<usize>) -> Result<Tables, AllocError>
        ensures widths { IfOk result (λ tables. tables.widths ≡ widths.items) }
        ensures rows { IfOk result (λ tables. tables.tables ≡ no_rows tables.widths) }
    {
        let mut tables = Vec::with_capacity(alloc, widths.len())?;
        for _ in &widths {
            tables.push(Slots::new(alloc))?;
        }
        Ok(Tables {
            widths,
            storage: Storage {
                tables,
                undo_log: Vec::new(alloc),
            },
        })
    }

    /// How many columns each table has.
    pub fn widths(&self) -> &[usize]
        ensures widths { result.now ≡ self.now.widths }
        ensures fit { AreTables self.now.widths self.now.tables }
    {
        self.widths.as_slice()
    }

    /// Whether a transaction fits the tables.
    pub fn fit(&self, statements: &Statements) -> bool
        ensures { IsTrue result ↔ FitsTransaction self.now.widths statements.now }
    {
        fits_transaction(self.widths.as_slice(), statements.as_slice())
    }

    /// Whether it is a row of the table with this number, as `insert_row` wants it.
    pub fn fits_row(&self, table: u32, row: &[Value]) -> bool
        ensures { IsTrue result ↔ FitsRow self.now.widths table row.now }
    {
        fits_row(self.widths.as_slice(), table, row)
    }

    /// The rows of a table, in the order of their keys.
    pub fn rows(&self, table: usize) -> Rows<'_>
        requires { table < length self.now.widths }
        ensures { result ≡ table_at table self.now.tables }
    {
        self.storage.tables[table].rows()
    }

    /// The row of a key of a table, where there is one.
    pub fn row(&self, table: u32, key: &Text) -> Option<&Values>
        requires { table < length self.now.widths }
        ensures { option_copied result ≡ row_at key.now (table_at table self.now.tables) }
    {
        self.storage.tables[table as usize].row(key)
    }

    /// Adds a row to a table, outside any transaction; `false` where its key is there.
    pub fn insert_row(&mut self, table: u32, row: Values) -> Result<bool, AllocError>
        requires { FitsRow self.old.widths table row }
        ensures done { IfOk result (IsInserted table row self.old.tables self.new.tables) }
        ensures widths { self.new.widths ≡ self.old.widths }
        ensures err { OnErr result (self.new ≡ self.old) }
    {
        insert_in(&mut self.storage.tables, table as usize, row)
    }

    /// Runs a transaction. Where a statement aborts, or memory is wanted, the tables stay as before.
    /// A value over the limits of a script isn't stored: that is answered as want of memory.
    #[tactic(auto, using(crate::proofs::Runs::answered))]
    pub fn transact(
        &mut self,
        alloc: Global,
        statements: &Statements,
    ) -> Result<TransactionEnd, AllocError>
        requires { IsTransactionOf self.old.widths statements.now }
        ensures done { IfOk result
            (IsTransactionEnd statements.now self.old.tables self.new.tables) }
        ensures answer { IfOk result (IsAnswer statements.now self.old.tables self.new.tables) }
        ensures widths { self.new.widths ≡ self.old.widths }
        ensures fit { OnOk result (AreTables self.new.widths self.new.tables) }
        ensures err { OnErr result (self.new ≡ self.old) }
    {
        let answered = self.answered(alloc, statements, 0)?;
        Ok(answered.outcome)
    }

    /// Runs a transaction as `transact` does, and gives its answer so many times.
    #[tactic(auto, using(crate::proofs::Answered::gives))]
    pub fn transact_copies(
        &mut self,
        alloc: Global,
        statements: &Statements,
        count: usize,
    ) -> Result<Vec<Value>, AllocError>
        requires { IsTransactionOf self.old.widths statements.now }
        ensures given { IfOk result
            (AnswersTimes count statements.now self.old.tables self.new.tables) }
        ensures widths { self.new.widths ≡ self.old.widths }
        ensures fit { OnOk result (AreTables self.new.widths self.new.tables) }
        ensures err { OnErr result (self.new ≡ self.old) }
    {
        let answered = self.answered(alloc, statements, count)?;
        Ok(answered.answers)
    }

    /// Runs a transaction, and makes its answer so many times. That a value over the limits is to be
    /// stored is answered as want of memory.
    fn answered(
        &mut self,
        alloc: Global,
        statements: &Statements,
        count: usize,
    ) -> Result<Answered, AllocError>
        requires { IsTransactionOf self.old.widths statements.now }
        ensures done { IfOk result (ComesTo count statements.now self.old.tables self.new.tables) }
        ensures widths { self.new.widths ≡ self.old.widths }
        ensures fit { OnOk result (AreTables self.new.widths self.new.tables) }
        ensures err { OnErr result (self.new ≡ self.old) }
    {
        let statements = statements.as_slice();
        if !store_within_limits(statements) {
            return Err(AllocError);
        }
        transact_on(alloc, &mut self.storage, statements, count)
    }
}

impl Clone for Tables {
    ghost is_clone = { λ tables copy. copy ≡ tables };

    fn clone(&self) -> Result<Tables, AllocError> {
        Ok(Tables {
            widths: self.widths.clone()?,
            storage: Storage {
                tables: self.storage.tables.clone()?,
                undo_log: Vec::new(*self.storage.undo_log.allocator()),
            },
        })
    }
}

/// How many columns each table has that is declared.
fn declared_widths(alloc: Global, declarations: &[Declaration]) -> Result<Vec<usize>, AllocError>
    ensures { IfOk result (λ widths. widths.items ≡ table_widths declarations.now) }
{
    let mut widths = Vec::new(alloc);
    for declaration in declarations {
        match declaration {
            Declaration::Table { columns, .. } => widths.push(columns.len())?,
            Declaration::Store { .. } | Declaration::Function { .. } | Declaration::Page { .. } =>
                {}
        }
    }
    Ok(widths)
}
