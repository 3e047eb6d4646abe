use basis::Items;
use script_tree::comparison::Comparison;
use script_tree::syntax::builtin::Builtin;
use script_tree::syntax::operator::{BinaryOperator, UnaryOperator};
use script_tree::text::Text;
use script_tree::value::Value;

/// One instruction: it takes values off a stack and puts one there. A jump says how many
/// instructions it passes.
#[derive(Drop)]
pub enum Instruction {
    /// Puts a literal on the stack.
    Push(Value),
    /// Puts the value of a slot on the stack.
    Load(usize),
    Unary(UnaryOperator),
    Binary(BinaryOperator),
    Index,
    /// Makes a list of so many values.
    List(usize),
    /// Calls a built-in function with so many arguments.
    CallBuiltin(Builtin, usize),
    /// Calls a built-in function on the store of this name, with so many arguments more.
    CallStore(Builtin, Text, usize),
    /// Calls the function of this number with so many arguments.
    Call(usize, usize),
    /// Calls a name that nothing has, with so many arguments. No valid program does.
    CallUnknown(usize),
    /// Issues the transaction of these statements, with their values.
    Transact(Items<Shape>),
    /// Decides: where the value is true goes on without it, else jumps and leaves it.
    And(usize),
    /// Decides: where the value is true jumps and leaves it, else goes on without it.
    Or(usize),
    /// Decides: where the value is true goes on, else jumps.
    Branch(usize),
    /// Decides: where the value is true jumps back, else goes on.
    Again(usize),
    Jump(usize),
    /// Begins a loop over a list: puts what is left of it on the stack too, and jumps to the turn.
    Each(usize),
    /// Decides whether a member is left: jumps back with it in a slot, else goes on without both.
    Turn(usize),
    /// Leaves so many slots.
    Leave(usize),
    /// Puts the value in a slot of its own.
    Declare,
    /// Puts the value in this slot.
    Assign(usize),
    Echo,
    Status,
    Discard,
    /// Gives the value back from a function; ends a page.
    Return,
    /// Gives null back from a function.
    End,
    /// Ends a page.
    Halt,
}

/// A statement of a transaction without its values. Tables and columns have their numbers.
#[derive(Drop)]
pub enum Shape {
    /// A row of so many values.
    Insert {
        table: u32,
        values: usize,
    },
    Select {
        table: u32,
        columns: Items<u32>,
        tests: Items<TestShape>,
    },
    /// The columns are those that are set.
    Update {
        table: u32,
        columns: Items<u32>,
        tests: Items<TestShape>,
    },
    Delete {
        table: u32,
        tests: Items<TestShape>,
    },
    /// The first value is how many rows are expected.
    Expect {
        table: u32,
        tests: Items<TestShape>,
    },
}

/// A test of a `where` without its value.
#[derive(Clone, Copy)]
pub struct TestShape {
    pub column: u32,
    pub comparison: Comparison,
}
