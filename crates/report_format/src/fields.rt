ghost use Rattle.std.specs.Prelude.{List, ◌++◌, ◌≡◌, ◌<◌, ◌^◌, length, OnOk};
ghost use Rattle.wire.specs.Files.{LeavesRoom};
ghost use Rattle.wire.specs.Spellings.{Field, HasOneSpelling, TakesPart};

use crate::value_room::room_behind_value;
use basis::OrMemory;
use script_tree::comparison::Comparison;
use script_tree::operation::Choice;
use script_tree::text::Text;
use script_tree::value::Value;
use std::alloc::{AllocError, Global};
use wire::fault::Unreadable;
use wire::field::{read_bytes, read_choice, read_i64, read_u8, read_u32};
use wire::value_reading::read_value;
use wire::value_writing::write_value;
use wire::writing::{write_bytes, write_choice, write_i64, write_u8, write_u32};

/// A kind of field of a record.
pub(crate) trait FieldKind {
    type Item: Drop;

    ghost field: { Field Self.Item };

    /// The field at a place, and the place behind it.
    fn read(
        alloc: Global,
        bytes: &[u8],
        at: usize,
    ) -> Result<(Self::Item, usize), OrMemory<Unreadable>>
        ensures { TakesPart (λ x. x) field bytes.now at result };

    /// What is left of so much room behind the field, or `None` where it has more bytes.
    fn room_behind(room: usize, item: &Self::Item) -> Option<usize>
        ensures { LeavesRoom room (field.spelling item.now) result };

    /// Writes the field.
    fn write(out: &mut Vec<u8>, item: &Self::Item) -> Result<(), AllocError>
        requires { field.allows item.now }
        ensures { OnOk result (out.new.items ≡ out.old.items ++ field.spelling item.now) };

    /// No two are spelled alike, and none begins another.
    ghost one: { HasOneSpelling field };
}

/// The id of a request, the number of an operation, of a table or of a column, or a count.
pub(crate) struct U32Field;

impl FieldKind for U32Field {
    ghost use Rattle.report_format.specs.Operations.{u32_field};
    ghost use Rattle.report_format.specs.SimpleLaws.{u32_one};

    type Item = u32;

    ghost field = { u32_field };

    ghost one = { u32_one };

    fn read(_alloc: Global, bytes: &[u8], at: usize) -> Result<(u32, usize), OrMemory<Unreadable>> {
        Ok(read_u32(bytes, at)?)
    }

    fn room_behind(room: usize, _id: &u32) -> Option<usize> {
        room.checked_sub(4)
    }

    fn write(out: &mut Vec<u8>, id: &u32) -> Result<(), AllocError> {
        write_u32(out, *id)
    }
}

/// How many rows are expected, or the bound of a roll.
pub(crate) struct I64Field;

impl FieldKind for I64Field {
    ghost use Rattle.wire.specs.Spellings.{integer_field};
    ghost use Rattle.wire.proofs.OneSpelling.{integer_one};

    type Item = i64;

    ghost field = { integer_field };

    ghost one = { integer_one };

    fn read(_alloc: Global, bytes: &[u8], at: usize) -> Result<(i64, usize), OrMemory<Unreadable>> {
        Ok(read_i64(bytes, at)?)
    }

    fn room_behind(room: usize, _number: &i64) -> Option<usize> {
        room.checked_sub(8)
    }

    fn write(out: &mut Vec<u8>, number: &i64) -> Result<(), AllocError> {
        write_i64(out, *number)
    }
}

pub(crate) struct TextField;

impl FieldKind for TextField {
    ghost use Rattle.wire.specs.Spellings.{bytes_field};
    ghost use Rattle.wire.proofs.OneSpelling.{bytes_one};

    type Item = Text;

    ghost field = { bytes_field };

    ghost one = { bytes_one };

    fn read(alloc: Global, bytes: &[u8], at: usize) -> Result<(Text, usize), OrMemory<Unreadable>> {
        let (text, next) = read_bytes(bytes, at)?;
        Ok((Text::from_vec(Vec::from_slice(alloc, text)?), next))
    }

    fn room_behind(room: usize, text: &Text) -> Option<usize> {
        room.checked_sub(4)?.checked_sub(text.len())
    }

    fn write(out: &mut Vec<u8>, text: &Text) -> Result<(), AllocError> {
        write_bytes(out, text.as_bytes())
    }
}

pub(crate) struct ValueField;

impl FieldKind for ValueField {
    ghost use Rattle.wire.specs.Spellings.{value_field};
    ghost use Rattle.wire.proofs.ValueSpellings.{value_one};

    type Item = Value;

    ghost field = { value_field };

    ghost one = { value_one };

    fn read(
        alloc: Global,
        bytes: &[u8],
        at: usize,
    ) -> Result<(Value, usize), OrMemory<Unreadable>> {
        read_value(alloc, bytes, at)
    }

    fn room_behind(room: usize, value: &Value) -> Option<usize> {
        room_behind_value(room, value)
    }

    fn write(out: &mut Vec<u8>, value: &Value) -> Result<(), AllocError> {
        write_value(out, value)
    }
}

pub(crate) struct ChoiceField;

impl FieldKind for ChoiceField {
    ghost use Rattle.wire.specs.Spellings.{choice_field};
    ghost use Rattle.wire.proofs.OneSpelling.{choice_one};

    type Item = Choice;

    ghost field = { choice_field };

    ghost one = { choice_one };

    fn read(
        _alloc: Global,
        bytes: &[u8],
        at: usize,
    ) -> Result<(Choice, usize), OrMemory<Unreadable>> {
        Ok(read_choice(bytes, at)?)
    }

    fn room_behind(room: usize, choice: &Choice) -> Option<usize> {
        match choice {
            Choice::Nothing => room.checked_sub(1),
            Choice::Number(_) => room.checked_sub(9),
        }
    }

    fn write(out: &mut Vec<u8>, choice: &Choice) -> Result<(), AllocError> {
        write_choice(out, *choice)
    }
}

pub(crate) struct ComparisonField;

impl FieldKind for ComparisonField {
    ghost use Rattle.report_format.specs.Operations.{comparison_field};
    ghost use Rattle.report_format.specs.SimpleLaws.{comparison_one};

    type Item = Comparison;

    ghost field = { comparison_field };

    ghost one = { comparison_one };

    fn read(
        _alloc: Global,
        bytes: &[u8],
        at: usize,
    ) -> Result<(Comparison, usize), OrMemory<Unreadable>> {
        let (code, next) = read_u8(bytes, at)?;
        let comparison = match code {
            1 => Comparison::Equal,
            2 => Comparison::Unequal,
            3 => Comparison::Less,
            4 => Comparison::AtMost,
            5 => Comparison::Greater,
            6 => Comparison::AtLeast,
            _ => return Err(OrMemory::Other(Unreadable { at })),
        };
        Ok((comparison, next))
    }

    fn room_behind(room: usize, _comparison: &Comparison) -> Option<usize> {
        room.checked_sub(1)
    }

    fn write(out: &mut Vec<u8>, comparison: &Comparison) -> Result<(), AllocError> {
        let code = match comparison {
            Comparison::Equal => 1,
            Comparison::Unequal => 2,
            Comparison::Less => 3,
            Comparison::AtMost => 4,
            Comparison::Greater => 5,
            Comparison::AtLeast => 6,
        };
        write_u8(out, code)
    }
}
