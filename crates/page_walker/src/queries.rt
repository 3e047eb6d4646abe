ghost use Rattle.std.specs.Prelude.{◌≡◌, map, IfOk};
ghost use Rattle.script_tree.specs.Declarations.{column_in};
ghost use Rattle.script_tree.specs.ExpressionView.{query_of};
ghost use Rattle.script_check.specs.FoundByName.{table_of};
ghost use Rattle.page_walker.specs.Frames.{operands_at, all_operands_at, tests_at, changes_at};
ghost use Rattle.page_walker.specs.Gives.{Gives};
ghost use Rattle.script_values.specs.Queries.{unchecked_of};

use crate::declared::table;
use crate::frame::Frame;
use crate::run::{Run, Stopped};
use crate::variables::Variables;
use script_check::lookup::FoundTable;
use script_tree::syntax::expression::{Assignments, Conditions, Queries, Query, QueryNode};
use script_tree::syntax::name::Names;
use script_tree::transaction::{Change, Changes, Columns, Test, Tests};
use script_values::Unchecked;
use std::alloc::{AllocError, Global};

impl Frame<'_, '_, '_> {
    /// The statements of a transaction with the values of their operands.
    #[cycle(walk)]
    pub fn all_operands(
        &self,
        variables: &Variables,
        run: &mut Run,
        queries: &Queries,
    ) -> Result<Vec<Unchecked>, Stopped>
        ensures { Gives (λ v. map unchecked_of v.items) result run.new
            (all_operands_at self.now variables.now queries.now run.old) }
    {
        let mut all = Vec::new(self.alloc);
        for query in queries.as_slice() {
            all.push(self.operands(variables, run, query)?)?;
        }
        Ok(all)
    }

    #[cycle(walk)]
    fn operands(
        &self,
        variables: &Variables,
        run: &mut Run,
        query: &Query,
    ) -> Result<Unchecked, Stopped>
        ensures { Gives unchecked_of result run.new
            (operands_at self.now variables.now query.now run.old) }
    {
        self.node_operands(variables, run, query.at, &query.node)
    }

    #[cycle(walk)]
    fn node_operands(
        &self,
        variables: &Variables,
        run: &mut Run,
        at: usize,
        node: &QueryNode,
    ) -> Result<Unchecked, Stopped>
        ensures { Gives unchecked_of result run.new
            (operands_at self.now variables.now (query_of at node.now) run.old) }
    {
        let index = self.walker.index();
        match node {
            QueryNode::Insert(name, values) => {
                let row = self.eval_all(variables, run, values.as_slice())?;
                Ok(Unchecked::Insert {
                    table: table(index, name).number,
                    row,
                })
            }
            QueryNode::Select(columns, name, conditions) => {
                let table = table(index, name);
                let columns = columns_of(self.alloc, table, columns)?;
                match self.tests(variables, run, table, conditions) {
                    Ok(tests) => Ok(Unchecked::Select {
                        table: table.number,
                        columns,
                        tests,
                    }),
                    Err(stopped) => {
                        drop(columns);
                        Err(stopped)
                    }
                }
            }
            QueryNode::Update(name, assignments, conditions) => {
                let table = table(index, name);
                let changes = self.changes(variables, run, table, assignments)?;
                match self.tests(variables, run, table, conditions) {
                    Ok(tests) => Ok(Unchecked::Update {
                        table: table.number,
                        changes,
                        tests,
                    }),
                    Err(stopped) => {
                        drop(changes);
                        Err(stopped)
                    }
                }
            }
            QueryNode::Delete(name, conditions) => {
                let table = table(index, name);
                let tests = self.tests(variables, run, table, conditions)?;
                Ok(Unchecked::Delete {
                    table: table.number,
                    tests,
                })
            }
            QueryNode::Expect(count, name, conditions) => {
                let table = table(index, name);
                let count = self.eval(variables, run, count)?;
                match self.tests(variables, run, table, conditions) {
                    Ok(tests) => Ok(Unchecked::Expect {
                        count,
                        table: table.number,
                        tests,
                    }),
                    Err(stopped) => {
                        drop(count);
                        Err(stopped)
                    }
                }
            }
        }
    }

    /// The tests of a `where`.
    #[cycle(walk)]
    fn tests(
        &self,
        variables: &Variables,
        run: &mut Run,
        table: FoundTable,
        conditions: &Conditions,
    ) -> Result<Tests, Stopped>
        ensures { Gives (λ tests. tests) result run.new
            (tests_at self.now variables.now (table_of table.entry) conditions.now run.old) }
    {
        let mut tests = Tests::new(self.alloc);
        for condition in conditions.as_slice() {
            let value = self.eval(variables, run, &condition.value)?;
            tests.push(Test {
                column: table.column(&condition.column)?,
                comparison: condition.comparison,
                value,
            })?;
        }
        Ok(tests)
    }

    /// The assignments of an `update`.
    #[cycle(walk)]
    fn changes(
        &self,
        variables: &Variables,
        run: &mut Run,
        table: FoundTable,
        assignments: &Assignments,
    ) -> Result<Changes, Stopped>
        ensures { Gives (λ changes. changes) result run.new
            (changes_at self.now variables.now (table_of table.entry) assignments.now run.old) }
    {
        let mut changes = Changes::new(self.alloc);
        for assignment in assignments.as_slice() {
            let value = self.eval(variables, run, &assignment.value)?;
            changes.push(Change {
                column: table.column(&assignment.column)?,
                value,
            })?;
        }
        Ok(changes)
    }
}

/// The numbers of these columns of a table.
fn columns_of(alloc: Global, table: FoundTable, names: &Names) -> Result<Columns, AllocError>
    ensures { IfOk result (λ columns. columns ≡ map (column_in (table_of table.entry)) names.now) }
{
    let mut columns = Columns::new(alloc);
    for name in names.as_slice() {
        columns.push(table.column(name)?)?;
    }
    Ok(columns)
}
