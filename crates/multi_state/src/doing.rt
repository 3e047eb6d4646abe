ghost use Rattle.std.specs.Prelude.{◌≤◌, OnOk};
ghost use Rattle.multi_state.specs.Does.{Does};

use crate::state::State;
use crate::went::Went;
use multi_nodes::{Evaluations, Group};
use multivalue::Apart;
use script_code::instruction::Instruction;
use std::sync::ledger::Ledger;

impl State {
    /// Does an instruction after which the next one is done.
    pub fn act<L: Ledger>(
        &mut self,
        instruction: &Instruction,
        group: &Group,
        evaluations: &mut Evaluations<L>,
    ) -> Result<Went, Apart>
        ensures does { Does evaluations.old evaluations.new group.now instruction.now
            self.old result self.new }
        ensures steps { OnOk result (self.old.account.steps ≤ self.new.account.steps) }
    {
        use Instruction::*;
        match instruction {
            Push(value) => self.push(value, group, evaluations),
            Load(slot) => self.load(*slot, group, evaluations),
            Unary(operator) => self.unary(*operator, group, evaluations),
            Binary(operator) => self.binary(*operator, group, evaluations),
            Index => self.index(group, evaluations),
            List(count) => self.list(*count, group, evaluations),
            CallBuiltin(builtin, count) => self.call_builtin(*builtin, *count, group, evaluations),
            CallStore(builtin, store, count) => {
                self.call_store(*builtin, store, *count, group, evaluations)
            }
            CallUnknown(count) => self.call_unknown(*count, group, evaluations),
            Transact(shapes) => self.transact(shapes.as_slice(), group, evaluations),
            Leave(count) => self.leave(*count),
            Declare => self.declare(group, evaluations),
            Assign(slot) => self.assign(*slot, group, evaluations),
            Echo => self.echo(group, evaluations),
            Status => self.status(group, evaluations),
            Discard => self.discard(group, evaluations),
            // These go elsewhere in the code.
            Call(_, _)
            | And(_)
            | Or(_)
            | Branch(_)
            | Again(_)
            | Jump(_)
            | Each(_)
            | Turn(_)
            | Return
            | End
            | Halt => Err(Apart::Memory),
        }
    }
}
