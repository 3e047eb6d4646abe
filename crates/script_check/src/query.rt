#![tactic(auto, using(crate::proofs::Least::lower_append, crate::proofs::Least::lower_none))]

ghost use Rattle.std.specs.Prelude.{◌≡◌, map};
ghost use Rattle.std.specs.Option.{option_copied};
ghost use Rattle.script_tree.specs.ExpressionView.{assignment_of};
ghost use Rattle.script_tree.specs.SyntaxLists.{queries_of, assignments_of};
ghost use Rattle.script_check.specs.Finds.{Finds};
ghost use Rattle.script_check.specs.Members.{in_query_node, in_queries, in_tests, in_sets};
ghost use Rattle.script_check.specs.Validity.{table_faults, row_faults, column_faults};
ghost use Rattle.script_check.specs.Validity.{columns_faults, set_faults};
ghost use Rattle.script_check.specs.Validity.{query_faults, are_some, is_some_name, is_some_set};

use crate::columns::Columns;
use crate::declared::Declared;
use crate::expression::{check_expression, check_expressions};
use crate::fault::CheckFaultKind;
use crate::found::Found;
use crate::scope::Scope;
use script_tree::syntax::expression::{Assignment, Condition, Query, QueryNode};
use script_tree::syntax::name::Name;

fn check_table(table: Option<&Columns>, name: &Name, found: &mut Found)
    ensures { Finds (table_faults (option_copied table.entry) name.now) found.old found.new }
{
    found.unless(table.is_some(), name.at, CheckFaultKind::Unknown);
}

fn check_row(table: Option<&Columns>, name: &Name, count: usize, found: &mut Found)
    ensures { Finds (row_faults (option_copied table.entry) name.now count) found.old found.new }
{
    if let Some(columns) = table {
        found.unless(count == columns.len(), name.at, CheckFaultKind::WrongCount);
    }
}

fn check_column(table: Option<&Columns>, name: &Name, found: &mut Found)
    ensures { Finds (column_faults (option_copied table.entry) name.now) found.old found.new }
{
    if let Some(columns) = table {
        let is_there = columns.has(name.text.as_bytes());
        found.unless(is_there, name.at, CheckFaultKind::Unknown);
    }
}

fn check_columns(table: Option<&Columns>, names: &[Name], found: &mut Found)
    ensures { Finds (columns_faults (option_copied table.entry) names.now) found.old found.new }
{
    for name in names {
        check_column(table, name, found);
    }
}

fn check_set(table: Option<&Columns>, name: &Name, found: &mut Found)
    ensures { Finds (set_faults (option_copied table.entry) name.now) found.old found.new }
{
    if let Some(columns) = table {
        let text = name.text.as_bytes();
        found.unless(columns.has(text), name.at, CheckFaultKind::Unknown);
        found.unless(!columns.is_key(text), name.at, CheckFaultKind::KeyWritten);
    }
}

// A tree that no text spells may have none of these.

/// Whether a transaction has a statement.
pub(crate) fn has_queries(queries: &[Query]) -> bool
    ensures { result ≡ are_some (queries_of queries.now) }
{
    !queries.is_empty()
}

/// Whether a select has a column.
fn has_names(names: &[Name]) -> bool
    ensures { result ≡ is_some_name names.now }
{
    !names.is_empty()
}

/// Whether an update has an assignment.
fn has_sets(sets: &[Assignment]) -> bool
    ensures { result ≡ is_some_set (assignments_of (map assignment_of sets.now)) }
{
    !sets.is_empty()
}

#[cycle(expression)]
fn check_query(index: &Declared, scope: &Scope, query: &Query, found: &mut Found)
    ensures { Finds (query_faults index.now scope.now query.now) found.old found.new }
{
    check_query_node(index, scope, query.at, &query.node, found);
}

#[cycle(expression)]
fn check_query_node(index: &Declared, scope: &Scope, at: usize, node: &QueryNode, found: &mut Found)
    ensures { Finds (in_query_node index.now scope.now at node.now) found.old found.new }
{
    match node {
        QueryNode::Insert(name, values) => {
            let table = index.table(name.text.as_bytes());
            check_table(table, name, found);
            check_row(table, name, values.len(), found);
            check_expressions(index, scope, values.as_slice(), found);
        }
        QueryNode::Select(columns, name, conditions) => {
            let table = index.table(name.text.as_bytes());
            found.unless(
                has_names(columns.as_slice()),
                at,
                CheckFaultKind::WrongCount,
            );
            check_columns(table, columns.as_slice(), found);
            check_table(table, name, found);
            check_tests(index, scope, table, conditions.as_slice(), found);
        }
        QueryNode::Update(name, assignments, conditions) => {
            let table = index.table(name.text.as_bytes());
            found.unless(
                has_sets(assignments.as_slice()),
                at,
                CheckFaultKind::WrongCount,
            );
            check_table(table, name, found);
            check_sets(index, scope, table, assignments.as_slice(), found);
            check_tests(index, scope, table, conditions.as_slice(), found);
        }
        QueryNode::Delete(name, conditions) => {
            let table = index.table(name.text.as_bytes());
            check_table(table, name, found);
            check_tests(index, scope, table, conditions.as_slice(), found);
        }
        QueryNode::Expect(count, name, conditions) => {
            let table = index.table(name.text.as_bytes());
            check_expression(index, scope, count, found);
            check_table(table, name, found);
            check_tests(index, scope, table, conditions.as_slice(), found);
        }
    }
}

/// The statements of a transaction.
#[cycle(expression)]
pub(crate) fn check_queries(index: &Declared, scope: &Scope, queries: &[Query], found: &mut Found)
    ensures { Finds (in_queries index.now scope.now queries.now) found.old found.new }
{
    for query in queries {
        check_query(index, scope, query, found);
    }
}

#[cycle(expression)]
fn check_tests(
    index: &Declared,
    scope: &Scope,
    table: Option<&Columns>,
    tests: &[Condition],
    found: &mut Found,
)
    ensures { Finds (in_tests index.now scope.now table.entry tests.now) found.old found.new }
{
    for test in tests {
        check_column(table, &test.column, found);
        check_expression(index, scope, &test.value, found);
    }
}

#[cycle(expression)]
fn check_sets(
    index: &Declared,
    scope: &Scope,
    table: Option<&Columns>,
    sets: &[Assignment],
    found: &mut Found,
)
    ensures { Finds (in_sets index.now scope.now table.entry sets.now) found.old found.new }
{
    for set in sets {
        check_set(table, &set.column, found);
        check_expression(index, scope, &set.value, found);
    }
}
