use script_code::instruction::Shape;
use script_tree::syntax::builtin::Builtin;
use script_tree::syntax::operator::{BinaryOperator, UnaryOperator};
use script_tree::text::Text;
use script_tree::value::Value;

/// What a node makes of its operands.
#[derive(Clone, Copy)]
pub enum Primitive<'a> {
    /// This value, of no operands.
    Literal(&'a Value),
    /// The operand itself, as the value of a variable.
    Pass,
    Unary(UnaryOperator),
    Binary(BinaryOperator),
    Index,
    /// The list of the operands.
    List,
    Builtin(Builtin),
    /// The call of a built-in function on the store of this name.
    OnStore(Builtin, &'a Text),
    /// The transaction of these statements, with the operands as their values.
    Transact(&'a [Shape]),
    /// The boolean that a decision asks for.
    Decide,
    /// The number that a response's status is set to.
    Status,
    /// The text that `echo` prints.
    Echo,
    /// The call of a function of the program, which has no value of its own.
    Call,
    /// The call of a name that nothing has.
    Unknown,
    /// Whether a list has a member beyond so many.
    Member(usize),
}
