//! What the types of a trace and of a report keep: their numbers have 16, 32 and 64 bits. A walk
//! through them tells it. What 32 bits don't count is answered as want of memory.
ghost use Rattle.std.specs.Prelude.{◌<◌, ◌^◌, length, OnOk};
ghost use Rattle.script_tree.specs.Datum.{data_of};
ghost use Rattle.script_tree.specs.ValueView.{datum_of};
ghost use Rattle.wire.specs.Spellings.{HasWideNumbers, HaveWideNumbers};
ghost use Rattle.trace_and_report.specs.Widths.{Each, EachCounted};

use period::group::Group;
use period::report::{Count, LogEntry};
use script_tree::operation::{Act, Choice, Object};
use script_tree::request::Response;
use script_tree::transaction::{Change, Statement, Test};
use script_tree::value::{Node, Value};
use std::alloc::AllocError;

/// What has numbers and members.
pub trait Wide {
    /// Its numbers have their bits, and 32 bits count its members.
    ghost is_wide: { Self → Type 0 };

    /// Tells it.
    fn keep_widths(&self) -> Result<(), AllocError>
        ensures { OnOk result (is_wide self.now) };
}

/// It is so of each of these.
fn keep_each<T: Wide>(items: &[T]) -> Result<(), AllocError>
    ensures { OnOk result (Each T.is_wide items.now) }
{
    for item in items {
        item.keep_widths()?;
    }
    Ok(())
}

/// The same, and 32 bits count them.
fn keep_counted<T: Wide>(items: &[T]) -> Result<(), AllocError>
    ensures { OnOk result (EachCounted T.is_wide items.now) }
{
    keep_count(items)?;
    keep_each(items)
}

/// 32 bits count these.
fn keep_count<T>(items: &[T]) -> Result<(), AllocError>
    ensures { OnOk result (length items.now < 2 ^ 32) }
{
    if items.len() > u32::MAX as usize {
        return Err(AllocError);
    }
    Ok(())
}

impl Wide for u32 {
    ghost use Rattle.trace_and_report.specs.Widths.{IsWide};

    ghost is_wide = { λ n. IsWide n };

    fn keep_widths(&self) -> Result<(), AllocError> {
        let _number: u32 = *self;
        Ok(())
    }
}

impl Wide for i64 {
    ghost use Rattle.wire.specs.Spellings.{integer_field};

    ghost is_wide = { λ n. integer_field.allows n };

    fn keep_widths(&self) -> Result<(), AllocError> {
        let _number: i64 = *self;
        Ok(())
    }
}

impl Wide for Value {
    ghost is_wide = { λ d. HasWideNumbers d };

    fn keep_widths(&self) -> Result<(), AllocError> {
        keep_value(self)
    }
}

#[cycle(keep_value)]
fn keep_value(value: &Value) -> Result<(), AllocError>
    ensures { OnOk result (HasWideNumbers value.now) }
{
    keep_node(&value.node)
}

#[cycle(keep_value)]
fn keep_node(node: &Node) -> Result<(), AllocError>
    ensures { OnOk result (HasWideNumbers (datum_of node.now)) }
{
    match node {
        Node::Null | Node::Bool(_) | Node::Text(_) => Ok(()),
        Node::Number(number) => number.keep_widths(),
        Node::List(values) => keep_values(values.as_slice()),
    }
}

#[cycle(keep_value)]
fn keep_values(values: &[Value]) -> Result<(), AllocError>
    ensures { OnOk result (HaveWideNumbers (data_of values.now)) }
{
    for value in values {
        keep_value(value)?;
    }
    Ok(())
}

impl Wide for Test {
    ghost use Rattle.trace_and_report.specs.Widths.{IsWideTest};

    ghost is_wide = { λ t. IsWideTest t };

    fn keep_widths(&self) -> Result<(), AllocError> {
        self.column.keep_widths()?;
        self.value.keep_widths()
    }
}

impl Wide for Change {
    ghost use Rattle.trace_and_report.specs.Widths.{IsWideChange};

    ghost is_wide = { λ c. IsWideChange c };

    fn keep_widths(&self) -> Result<(), AllocError> {
        self.column.keep_widths()?;
        self.value.keep_widths()
    }
}

impl Wide for Statement {
    ghost use Rattle.trace_and_report.specs.Widths.{IsWideStatement};

    ghost is_wide = { λ s. IsWideStatement s };

    fn keep_widths(&self) -> Result<(), AllocError> {
        match self {
            Statement::Insert { table, row } => {
                table.keep_widths()?;
                keep_count(row.as_slice())?;
                keep_values(row.as_slice())
            }
            Statement::Select {
                table,
                columns,
                tests,
            } => {
                table.keep_widths()?;
                keep_counted(columns.as_slice())?;
                keep_counted(tests.as_slice())
            }
            Statement::Update {
                table,
                changes,
                tests,
            } => {
                table.keep_widths()?;
                keep_counted(changes.as_slice())?;
                keep_counted(tests.as_slice())
            }
            Statement::Delete { table, tests } => {
                table.keep_widths()?;
                keep_counted(tests.as_slice())
            }
            Statement::Expect {
                count,
                table,
                tests,
            } => {
                count.keep_widths()?;
                table.keep_widths()?;
                keep_counted(tests.as_slice())
            }
        }
    }
}

impl Wide for Act {
    ghost use Rattle.trace_and_report.specs.Widths.{IsWideAct};

    ghost is_wide = { λ a. IsWideAct a };

    fn keep_widths(&self) -> Result<(), AllocError> {
        match self {
            Act::Read | Act::Now => Ok(()),
            Act::Write(value) => value.keep_widths(),
            Act::Get(key) | Act::Remove(key) => keep_count(key.as_bytes()),
            Act::Put(key, value) => {
                keep_count(key.as_bytes())?;
                value.keep_widths()
            }
            Act::Transact(statements) => keep_counted(statements.as_slice()),
            Act::Roll(bound) => bound.keep_widths(),
        }
    }
}

impl Wide for Choice {
    ghost use Rattle.wire.specs.Spellings.{IsWideChoice};

    ghost is_wide = { λ c. IsWideChoice c };

    fn keep_widths(&self) -> Result<(), AllocError> {
        match self {
            Choice::Nothing => Ok(()),
            Choice::Number(number) => number.keep_widths(),
        }
    }
}

impl Wide for Object {
    ghost use Rattle.report_format.specs.Operations.{IsObject};

    ghost is_wide = { λ o. IsObject o };

    fn keep_widths(&self) -> Result<(), AllocError> {
        match self {
            Object::Register(name) | Object::Store(name) => keep_count(name.as_bytes()),
            Object::Tables | Object::Clock | Object::Dice => Ok(()),
        }
    }
}

impl Wide for Count {
    ghost use Rattle.trace_and_report.specs.Widths.{IsWideCount};

    ghost is_wide = { λ c. IsWideCount c };

    fn keep_widths(&self) -> Result<(), AllocError> {
        self.rid.keep_widths()?;
        self.operations.keep_widths()
    }
}

impl Wide for LogEntry {
    ghost use Rattle.trace_and_report.specs.Widths.{IsWideEntry};

    ghost is_wide = { λ e. IsWideEntry e };

    fn keep_widths(&self) -> Result<(), AllocError> {
        self.rid.keep_widths()?;
        self.number.keep_widths()?;
        self.act.keep_widths()?;
        self.choice.keep_widths()
    }
}

impl Wide for Group {
    ghost use Rattle.trace_and_report.specs.Widths.{IsWideGroup};

    ghost is_wide = { λ g. IsWideGroup g };

    fn keep_widths(&self) -> Result<(), AllocError> {
        keep_counted(self.rids())
    }
}

impl Wide for Response {
    ghost use Rattle.trace_format.specs.Events.{IsResponse};

    ghost is_wide = { λ x. IsResponse x };

    fn keep_widths(&self) -> Result<(), AllocError> {
        let _status: u16 = self.status;
        keep_count(self.body.as_bytes())
    }
}
