//! Fields of operations: objects, acts, and the statements of transactions.
ghost use Rattle.std.specs.Prelude.{◌≡◌, ◌∷◌, ◌++◌, ◌<◌, ◌^◌, length, OnOk};
ghost use Rattle.wire.specs.Files.{LeavesRoom};
ghost use Rattle.wire.specs.Spellings.{TakesPart};
ghost use Rattle.report_format.specs.Operations.{insert_field};

use crate::fields::{ComparisonField, FieldKind, I64Field, TextField, U32Field, ValueField};
use crate::parts::{
    List, Pair, room_behind_list, room_behind_three, room_behind_two, write_list, write_one,
    write_three, write_two,
};
use basis::OrMemory;
use script_tree::operation::{Act, Object};
use script_tree::transaction::{Change, Statement, Test};
use script_tree::value::Values;
use std::alloc::{AllocError, Global};
use wire::fault::Unreadable;
use wire::field::read_u8;
use wire::writing::write_u8;

type TestParts = Pair<U32Field, Pair<ComparisonField, ValueField>>;

type ChangeParts = Pair<U32Field, ValueField>;

type Tests = List<TestField>;

type InsertParts = Pair<U32Field, List<ValueField>>;

type SelectParts = Pair<U32Field, Pair<List<U32Field>, Tests>>;

type UpdateParts = Pair<U32Field, Pair<List<ChangeField>, Tests>>;

type DeleteParts = Pair<U32Field, Tests>;

type ExpectParts = Pair<I64Field, DeleteParts>;

type PutParts = Pair<TextField, ValueField>;

pub(crate) struct TestField;

impl FieldKind for TestField {
    ghost use Rattle.report_format.specs.Operations.{test_field};
    ghost use Rattle.report_format.specs.TransactionLaws.{test_one};

    type Item = Test;

    ghost field = { test_field };

    ghost one = { test_one };

    fn read(alloc: Global, bytes: &[u8], at: usize) -> Result<(Test, usize), OrMemory<Unreadable>> {
        let ((column, (comparison, value)), next) = TestParts::read(alloc, bytes, at)?;
        Ok((
            Test {
                column,
                comparison,
                value,
            },
            next,
        ))
    }

    fn room_behind(room: usize, test: &Test) -> Option<usize> {
        let left = U32Field::room_behind(room, &test.column)?;
        let left = ComparisonField::room_behind(left, &test.comparison)?;
        ValueField::room_behind(left, &test.value)
    }

    fn write(out: &mut Vec<u8>, test: &Test) -> Result<(), AllocError> {
        U32Field::write(out, &test.column)?;
        ComparisonField::write(out, &test.comparison)?;
        ValueField::write(out, &test.value)
    }
}

pub(crate) struct ChangeField;

impl FieldKind for ChangeField {
    ghost use Rattle.report_format.specs.Operations.{change_field};
    ghost use Rattle.report_format.specs.TransactionLaws.{change_one};

    type Item = Change;

    ghost field = { change_field };

    ghost one = { change_one };

    fn read(
        alloc: Global,
        bytes: &[u8],
        at: usize,
    ) -> Result<(Change, usize), OrMemory<Unreadable>> {
        let ((column, value), next) = ChangeParts::read(alloc, bytes, at)?;
        Ok((Change { column, value }, next))
    }

    fn room_behind(room: usize, change: &Change) -> Option<usize> {
        let left = U32Field::room_behind(room, &change.column)?;
        ValueField::room_behind(left, &change.value)
    }

    fn write(out: &mut Vec<u8>, change: &Change) -> Result<(), AllocError> {
        U32Field::write(out, &change.column)?;
        ValueField::write(out, &change.value)
    }
}

pub(crate) struct StatementField;

impl FieldKind for StatementField {
    ghost use Rattle.report_format.specs.Operations.{statement_field};
    ghost use Rattle.report_format.specs.TransactionLaws.{statement_one};

    type Item = Statement;

    ghost field = { statement_field };

    ghost one = { statement_one };

    fn read(
        alloc: Global,
        bytes: &[u8],
        at: usize,
    ) -> Result<(Statement, usize), OrMemory<Unreadable>> {
        let (tag, next) = read_u8(bytes, at)?;
        match tag {
            1 => {
                let ((table, row), next) = InsertParts::read(alloc, bytes, next)?;
                let row = Values::from_vec(row.into_vec())?;
                Ok((Statement::Insert { table, row }, next))
            }
            2 => {
                let ((table, (columns, tests)), next) = SelectParts::read(alloc, bytes, next)?;
                Ok((
                    Statement::Select {
                        table,
                        columns,
                        tests,
                    },
                    next,
                ))
            }
            3 => {
                let ((table, (changes, tests)), next) = UpdateParts::read(alloc, bytes, next)?;
                Ok((
                    Statement::Update {
                        table,
                        changes,
                        tests,
                    },
                    next,
                ))
            }
            4 => {
                let ((table, tests), next) = DeleteParts::read(alloc, bytes, next)?;
                Ok((Statement::Delete { table, tests }, next))
            }
            5 => {
                let ((count, (table, tests)), next) = ExpectParts::read(alloc, bytes, next)?;
                Ok((
                    Statement::Expect {
                        count,
                        table,
                        tests,
                    },
                    next,
                ))
            }
            _ => Err(OrMemory::Other(Unreadable { at })),
        }
    }

    fn room_behind(room: usize, statement: &Statement) -> Option<usize> {
        let left = room.checked_sub(1)?;
        match statement {
            Statement::Insert { table, row } => room_behind_insert(left, table, row),
            Statement::Select {
                table,
                columns,
                tests,
            } => room_behind_three::<U32Field, List<U32Field>, Tests>(left, table, columns, tests),
            Statement::Update {
                table,
                changes,
                tests,
            } => {
                room_behind_three::<U32Field, List<ChangeField>, Tests>(left, table, changes, tests)
            }
            Statement::Delete { table, tests } => {
                room_behind_two::<U32Field, Tests>(left, table, tests)
            }
            Statement::Expect {
                count,
                table,
                tests,
            } => room_behind_three::<I64Field, U32Field, Tests>(left, count, table, tests),
        }
    }

    fn write(out: &mut Vec<u8>, statement: &Statement) -> Result<(), AllocError> {
        match statement {
            Statement::Insert { table, row } => write_insert(out, table, row),
            Statement::Select {
                table,
                columns,
                tests,
            } => write_three::<U32Field, List<U32Field>, Tests>(out, 2, table, columns, tests),
            Statement::Update {
                table,
                changes,
                tests,
            } => write_three::<U32Field, List<ChangeField>, Tests>(out, 3, table, changes, tests),
            Statement::Delete { table, tests } => {
                write_two::<U32Field, Tests>(out, 4, table, tests)
            }
            Statement::Expect {
                count,
                table,
                tests,
            } => write_three::<I64Field, U32Field, Tests>(out, 5, count, table, tests),
        }
    }
}

/// What is left of so much room behind an insertion's table and row.
fn room_behind_insert(room: usize, table: &u32, row: &Values) -> Option<usize>
    ensures { LeavesRoom room (insert_field.spelling (table.now, row.now)) result }
{
    let left = U32Field::room_behind(room, table)?;
    room_behind_list::<ValueField>(left, row.as_slice())
}

/// Writes the tag of an insertion, its table and its row.
fn write_insert(out: &mut Vec<u8>, table: &u32, row: &Values) -> Result<(), AllocError>
    requires { insert_field.allows (table.now, row.now) }
    ensures { OnOk result
        (out.new.items ≡ out.old.items ++ 1 ∷ insert_field.spelling (table.now, row.now)) }
{
    write_u8(out, 1)?;
    U32Field::write(out, table)?;
    write_list::<ValueField>(out, row.as_slice())
}

pub(crate) struct ObjectField;

impl FieldKind for ObjectField {
    ghost use Rattle.report_format.specs.Operations.{object_field};
    ghost use Rattle.report_format.specs.OperationLaws.{object_one};

    type Item = Object;

    ghost field = { object_field };

    ghost one = { object_one };

    fn read(
        alloc: Global,
        bytes: &[u8],
        at: usize,
    ) -> Result<(Object, usize), OrMemory<Unreadable>> {
        let (tag, next) = read_u8(bytes, at)?;
        match tag {
            1 => {
                let (name, next) = TextField::read(alloc, bytes, next)?;
                Ok((Object::Register(name), next))
            }
            2 => {
                let (name, next) = TextField::read(alloc, bytes, next)?;
                Ok((Object::Store(name), next))
            }
            3 => Ok((Object::Tables, next)),
            4 => Ok((Object::Clock, next)),
            5 => Ok((Object::Dice, next)),
            _ => Err(OrMemory::Other(Unreadable { at })),
        }
    }

    fn room_behind(room: usize, object: &Object) -> Option<usize> {
        let left = room.checked_sub(1)?;
        match object {
            Object::Register(name) | Object::Store(name) => TextField::room_behind(left, name),
            Object::Tables | Object::Clock | Object::Dice => Some(left),
        }
    }

    fn write(out: &mut Vec<u8>, object: &Object) -> Result<(), AllocError> {
        match object {
            Object::Register(name) => write_one::<TextField>(out, 1, name),
            Object::Store(name) => write_one::<TextField>(out, 2, name),
            Object::Tables => write_u8(out, 3),
            Object::Clock => write_u8(out, 4),
            Object::Dice => write_u8(out, 5),
        }
    }
}

pub(crate) struct ActField;

impl FieldKind for ActField {
    ghost use Rattle.report_format.specs.Operations.{act_field};
    ghost use Rattle.report_format.specs.OperationLaws.{act_one};

    type Item = Act;

    ghost field = { act_field };

    ghost one = { act_one };

    fn read(alloc: Global, bytes: &[u8], at: usize) -> Result<(Act, usize), OrMemory<Unreadable>> {
        let (tag, next) = read_u8(bytes, at)?;
        match tag {
            1 => Ok((Act::Read, next)),
            2 => {
                let (value, next) = ValueField::read(alloc, bytes, next)?;
                Ok((Act::Write(value), next))
            }
            3 => {
                let (key, next) = TextField::read(alloc, bytes, next)?;
                Ok((Act::Get(key), next))
            }
            4 => {
                let ((key, value), next) = PutParts::read(alloc, bytes, next)?;
                Ok((Act::Put(key, value), next))
            }
            5 => {
                let (key, next) = TextField::read(alloc, bytes, next)?;
                Ok((Act::Remove(key), next))
            }
            6 => {
                let (statements, next) = List::<StatementField>::read(alloc, bytes, next)?;
                Ok((Act::Transact(statements), next))
            }
            7 => Ok((Act::Now, next)),
            8 => {
                let (bound, next) = I64Field::read(alloc, bytes, next)?;
                Ok((Act::Roll(bound), next))
            }
            _ => Err(OrMemory::Other(Unreadable { at })),
        }
    }

    fn room_behind(room: usize, act: &Act) -> Option<usize> {
        let left = room.checked_sub(1)?;
        match act {
            Act::Read | Act::Now => Some(left),
            Act::Write(value) => ValueField::room_behind(left, value),
            Act::Get(key) | Act::Remove(key) => TextField::room_behind(left, key),
            Act::Put(key, value) => room_behind_two::<TextField, ValueField>(left, key, value),
            Act::Transact(statements) => List::<StatementField>::room_behind(left, statements),
            Act::Roll(bound) => I64Field::room_behind(left, bound),
        }
    }

    fn write(out: &mut Vec<u8>, act: &Act) -> Result<(), AllocError> {
        match act {
            Act::Read => write_u8(out, 1),
            Act::Write(value) => write_one::<ValueField>(out, 2, value),
            Act::Get(key) => write_one::<TextField>(out, 3, key),
            Act::Put(key, value) => write_two::<TextField, ValueField>(out, 4, key, value),
            Act::Remove(key) => write_one::<TextField>(out, 5, key),
            Act::Transact(statements) => write_one::<List<StatementField>>(out, 6, statements),
            Act::Now => write_u8(out, 7),
            Act::Roll(bound) => write_one::<I64Field>(out, 8, bound),
        }
    }
}
