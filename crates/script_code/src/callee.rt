ghost use Rattle.std.specs.Prelude.{◌≡◌, length, IfOk};
ghost use Rattle.script_tree.specs.SyntaxLists.{expressions_of};
ghost use Rattle.script_meaning.specs.Evaluate.{store_name};
ghost use Rattle.script_tree.specs.Builtins.{takes_store};
ghost use Rattle.script_code.specs.Callees.{call_of, has_store_first};
ghost use Rattle.script_code.specs.Code.{builtin_code};

use crate::instruction::Instruction;
use script_meaning::store_names::store_name;
use script_tree::syntax::builtin::Builtin;
use script_tree::syntax::expression::Expression;
use script_tree::text::Text;
use std::alloc::{AllocError, Global};

/// What a name calls.
#[derive(Clone, Copy)]
pub(crate) enum Callee {
    /// The function of the program with this number.
    Own(usize),
    Builtin(Builtin),
    Unknown,
}

impl Callee {
    /// Whether its first argument is the bare name of a store.
    pub(crate) fn takes_store(self) -> bool
        ensures { result ≡ has_store_first self }
    {
        match self {
            Callee::Builtin(builtin) => builtin.takes_store(),
            Callee::Own(_) | Callee::Unknown => false,
        }
    }

    /// The instruction that calls it with these arguments.
    pub(crate) fn call(
        self,
        alloc: Global,
        operands: &[Expression],
    ) -> Result<Instruction, AllocError>
        ensures { IfOk result (λ call. call
            ≡ call_of self (store_name (expressions_of operands.now)) (length operands.now)) }
    {
        match self {
            Callee::Own(number) => Ok(Instruction::Call(number, operands.len())),
            Callee::Builtin(builtin) => builtin_call(alloc, builtin, operands),
            Callee::Unknown => Ok(Instruction::CallUnknown(operands.len())),
        }
    }
}

/// The instruction that calls a built-in function with these arguments.
fn builtin_call(
    alloc: Global,
    builtin: Builtin,
    operands: &[Expression],
) -> Result<Instruction, AllocError>
    ensures { IfOk result (λ call. call ≡ builtin_code (takes_store builtin) builtin
        (store_name (expressions_of operands.now)) (length operands.now)) }
{
    if builtin.takes_store() {
        let store = Text::from_vec(store_name(operands).to_vec(alloc)?);
        Ok(Instruction::CallStore(builtin, store, operands.len().saturating_sub(1)))
    } else {
        Ok(Instruction::CallBuiltin(builtin, operands.len()))
    }
}
