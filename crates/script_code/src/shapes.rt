ghost use Rattle.std.specs.Prelude.{◌≡◌, map, IfOk};
ghost use Rattle.script_tree.specs.Declarations.{column_in};
ghost use Rattle.script_tree.specs.ExpressionView.{query_of, condition_of, assignment_of};
ghost use Rattle.script_tree.specs.SyntaxLists.{queries_of, conditions_of, assignments_of};
ghost use Rattle.script_check.specs.FoundByName.{table_of};
ghost use Rattle.script_code.specs.Code.{shape_of, shapes_of, tests_in, changes_in};

use crate::emitter::Emitter;
use crate::instruction::{Shape, TestShape};
use basis::Items;
use script_check::lookup::FoundTable;
use script_tree::syntax::expression::{Assignments, Conditions, Queries, Query, QueryNode};
use script_tree::syntax::name::Names;
use std::alloc::{AllocError, Global};

impl Emitter<'_> {
    /// The statements of a transaction without their values.
    pub(crate) fn shapes(&self, queries: &Queries) -> Result<Items<Shape>, AllocError>
        ensures { IfOk result (λ shapes. shapes ≡ shapes_of self.now (queries_of queries.now)) }
    {
        let mut shapes = Items::new(self.alloc);
        for query in queries.as_slice() {
            shapes.push(self.shape(query)?)?;
        }
        Ok(shapes)
    }

    /// A statement of a transaction without its values.
    fn shape(&self, query: &Query) -> Result<Shape, AllocError>
        ensures { IfOk result (λ shape. shape ≡ shape_of self.now query.now) }
    {
        self.node_shape(query.at, &query.node)
    }

    fn node_shape(&self, at: usize, node: &QueryNode) -> Result<Shape, AllocError>
        ensures { IfOk result (λ shape. shape ≡ shape_of self.now (query_of at node.now)) }
    {
        match node {
            QueryNode::Insert(name, values) => {
                let table = self.table(name);
                Ok(Shape::Insert {
                    table: table.number,
                    values: values.len(),
                })
            }
            QueryNode::Select(columns, name, conditions) => {
                let table = self.table(name);
                let columns = columns_of(self.alloc, table, columns)?;
                let tests = tests_of(self.alloc, table, conditions)?;
                Ok(Shape::Select {
                    table: table.number,
                    columns,
                    tests,
                })
            }
            QueryNode::Update(name, assignments, conditions) => {
                let table = self.table(name);
                let columns = changed_of(self.alloc, table, assignments)?;
                let tests = tests_of(self.alloc, table, conditions)?;
                Ok(Shape::Update {
                    table: table.number,
                    columns,
                    tests,
                })
            }
            QueryNode::Delete(name, conditions) => {
                let table = self.table(name);
                let tests = tests_of(self.alloc, table, conditions)?;
                Ok(Shape::Delete {
                    table: table.number,
                    tests,
                })
            }
            QueryNode::Expect(_, name, conditions) => {
                let table = self.table(name);
                let tests = tests_of(self.alloc, table, conditions)?;
                Ok(Shape::Expect {
                    table: table.number,
                    tests,
                })
            }
        }
    }
}

/// The numbers of these columns of a table.
fn columns_of(alloc: Global, table: FoundTable, names: &Names) -> Result<Items<u32>, AllocError>
    ensures { IfOk result (λ columns. columns ≡ map (column_in (table_of table.entry)) names.now) }
{
    let mut columns = Items::new(alloc);
    for name in names.as_slice() {
        columns.push(table.column(name)?)?;
    }
    Ok(columns)
}

/// The numbers of the columns that an `update` sets.
fn changed_of(
    alloc: Global,
    table: FoundTable,
    assignments: &Assignments,
) -> Result<Items<u32>, AllocError>
    ensures { IfOk result (λ columns. columns
        ≡ changes_in (table_of table.entry) (assignments_of (map assignment_of assignments.now))) }
{
    let mut columns = Items::new(alloc);
    for assignment in assignments.as_slice() {
        columns.push(table.column(&assignment.column)?)?;
    }
    Ok(columns)
}

/// The tests of a `where` without their values.
fn tests_of(
    alloc: Global,
    table: FoundTable,
    conditions: &Conditions,
) -> Result<Items<TestShape>, AllocError>
    ensures { IfOk result (λ tests. tests
        ≡ tests_in (table_of table.entry) (conditions_of (map condition_of conditions.now))) }
{
    let mut tests = Items::new(alloc);
    for condition in conditions.as_slice() {
        tests.push(TestShape {
            column: table.column(&condition.column)?,
            comparison: condition.comparison,
        })?;
    }
    Ok(tests)
}
