ghost use Rattle.std.specs.Prelude.{◌≡◌, IfOk};
ghost use Rattle.script_tree.specs.Programs.{Program};
ghost use Rattle.script_code.specs.Translated.{IsCodeOf};

use crate::instruction::{Instruction, Shape, TestShape};
use crate::translate::Code;
use basis::Items;
use script_tree::value::{Node, Value};
use std::alloc::{AllocError, Global};

impl Code {
    /// A copy whose texts are its own, so that two threads with a copy each count no references of
    /// one text.
    pub fn copy(&self, alloc: Global) -> Result<Code, AllocError>
        ensures { (program : Program) → IsCodeOf program self.now
            → IfOk result (IsCodeOf program) }
    {
        let mut instructions = Vec::with_capacity(alloc, self.instructions.len())?;
        for instruction in &self.instructions {
            instructions.push(instruction.copy(alloc)?)?;
        }
        Ok(Code {
            instructions,
            functions: self.functions.as_slice().to_vec(alloc)?,
            pages: self.pages.clone()?,
        })
    }
}

impl Instruction {
    fn copy(&self, alloc: Global) -> Result<Instruction, AllocError>
        ensures { IfOk result (λ copy. copy ≡ self.now) }
    {
        let copy = match self {
            Instruction::Push(value) => Instruction::Push(own(alloc, value)?),
            Instruction::Load(slot) => Instruction::Load(*slot),
            Instruction::Unary(operator) => Instruction::Unary(*operator),
            Instruction::Binary(operator) => Instruction::Binary(*operator),
            Instruction::Index => Instruction::Index,
            Instruction::List(count) => Instruction::List(*count),
            Instruction::CallBuiltin(builtin, count) => Instruction::CallBuiltin(*builtin, *count),
            Instruction::CallStore(builtin, store, count) => {
                Instruction::CallStore(*builtin, store.clone()?, *count)
            }
            Instruction::Call(number, count) => Instruction::Call(*number, *count),
            Instruction::CallUnknown(count) => Instruction::CallUnknown(*count),
            Instruction::Transact(shapes) => Instruction::Transact(copies(alloc, shapes)?),
            Instruction::And(past) => Instruction::And(*past),
            Instruction::Or(past) => Instruction::Or(*past),
            Instruction::Branch(past) => Instruction::Branch(*past),
            Instruction::Again(back) => Instruction::Again(*back),
            Instruction::Jump(past) => Instruction::Jump(*past),
            Instruction::Each(past) => Instruction::Each(*past),
            Instruction::Turn(back) => Instruction::Turn(*back),
            Instruction::Leave(count) => Instruction::Leave(*count),
            Instruction::Declare => Instruction::Declare,
            Instruction::Assign(slot) => Instruction::Assign(*slot),
            Instruction::Echo => Instruction::Echo,
            Instruction::Status => Instruction::Status,
            Instruction::Discard => Instruction::Discard,
            Instruction::Return => Instruction::Return,
            Instruction::End => Instruction::End,
            Instruction::Halt => Instruction::Halt,
        };
        Ok(copy)
    }
}

impl Shape {
    fn copy(&self, alloc: Global) -> Result<Shape, AllocError>
        ensures { IfOk result (λ copy. copy ≡ self.now) }
    {
        match self {
            Shape::Insert { table, values } => Ok(Shape::Insert {
                table: *table,
                values: *values,
            }),
            Shape::Select {
                table,
                columns,
                tests,
            } => Ok(Shape::Select {
                table: *table,
                columns: copied_columns(alloc, columns)?,
                tests: copied_tests(alloc, tests)?,
            }),
            Shape::Update {
                table,
                columns,
                tests,
            } => Ok(Shape::Update {
                table: *table,
                columns: copied_columns(alloc, columns)?,
                tests: copied_tests(alloc, tests)?,
            }),
            Shape::Delete { table, tests } => Ok(Shape::Delete {
                table: *table,
                tests: copied_tests(alloc, tests)?,
            }),
            Shape::Expect { table, tests } => Ok(Shape::Expect {
                table: *table,
                tests: copied_tests(alloc, tests)?,
            }),
        }
    }
}

fn copies(alloc: Global, shapes: &Items<Shape>) -> Result<Items<Shape>, AllocError>
    ensures { IfOk result (λ copies. copies ≡ shapes.now) }
{
    let mut copies = Items::new(alloc);
    for shape in shapes.as_slice() {
        copies.push(shape.copy(alloc)?)?;
    }
    Ok(copies)
}

fn copied_columns(alloc: Global, columns: &Items<u32>) -> Result<Items<u32>, AllocError>
    ensures { IfOk result (λ copied. copied ≡ columns.now) }
{
    Ok(Items::from_vec(columns.as_slice().to_vec(alloc)?))
}

fn copied_tests(alloc: Global, tests: &Items<TestShape>) -> Result<Items<TestShape>, AllocError>
    ensures { IfOk result (λ copied. copied ≡ tests.now) }
{
    Ok(Items::from_vec(tests.as_slice().to_vec(alloc)?))
}

/// The value, where it is a text with a text of its own.
fn own(alloc: Global, value: &Value) -> Result<Value, AllocError>
    ensures { IfOk result (λ own. own ≡ value.now) }
{
    match &value.node {
        Node::Text(text) => Value::text(alloc, text.as_ref().clone()?),
        Node::Null | Node::Bool(_) | Node::Number(_) | Node::List(_) => value.clone(),
    }
}
