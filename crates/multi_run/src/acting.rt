ghost use Rattle.std.specs.Prelude.{◌≡◌, ◌<◌, ℕ, List, length, Ok, IfOk};
ghost use Rattle.multi_state.specs.declared.went.Went.TheVariants.{On};
ghost use Rattle.multi_run.specs.Acts.{Acts, IsLater};
ghost use Rattle.multi_run.specs.Runs.{HasStopped, Runs, rank};

use crate::run::Run;
use multi_nodes::{Evaluations, Group};
use multi_state::Went;
use multivalue::Apart;
use script_code::instruction::Instruction;
use script_code::translate::Code;
use std::sync::ledger::Ledger;

impl Run {
    /// Does an instruction, and goes on with the next one.
    fn do_next<L: Ledger>(
        &mut self,
        instruction: &Instruction,
        group: &Group,
        evaluations: &mut Evaluations<L>,
    ) -> Result<Went, Apart>
        ensures acts { (functions : List ℕ) → Acts evaluations.old evaluations.new group.now
            functions instruction.now self.old result self.new }
        ensures later { result ≡ Ok On → IsLater self.old self.new }
    {
        self.pass(0)?;
        self.state.act(instruction, group, evaluations)
    }

    /// Does any instruction.
    fn act<L: Ledger>(
        &mut self,
        code: &Code,
        instruction: &Instruction,
        group: &Group,
        evaluations: &mut Evaluations<L>,
    ) -> Result<Went, Apart>
        ensures acts { Acts evaluations.old evaluations.new group.now code.now.functions.items
            instruction.now self.old result self.new }
        ensures later { result ≡ Ok On → IsLater self.old self.new }
    {
        use Instruction::*;
        match instruction {
            Call(function, count) => {
                let functions = code.functions.as_slice();
                self.call(functions, *function, *count, group, evaluations)
            }
            And(count) => self.and(*count, group, evaluations),
            Or(count) => self.or(*count, group, evaluations),
            Branch(count) => self.branch(*count, group, evaluations),
            Again(count) => self.again(*count, group, evaluations),
            Jump(count) => self.jump(*count),
            Each(count) => self.each(*count),
            Turn(count) => self.turn(*count, group, evaluations),
            Return => self.give_back(group, evaluations),
            End => self.end(),
            Halt => Ok(Went::Over),
            Push(_)
            | Load(_)
            | Unary(_)
            | Binary(_)
            | Index
            | List(_)
            | CallBuiltin(_, _)
            | CallStore(_, _, _)
            | CallUnknown(_)
            | Transact(_)
            | Leave(_)
            | Declare
            | Assign(_)
            | Echo
            | Status
            | Discard => self.do_next(instruction, group, evaluations),
        }
    }

    /// Does the instruction that is next.
    fn step<L: Ledger>(
        &mut self,
        code: &Code,
        group: &Group,
        evaluations: &mut Evaluations<L>,
    ) -> Result<Went, Apart>
        ensures runs { Runs evaluations.old evaluations.new group.now code.now
            self.old result self.new }
        ensures falls { result ≡ Ok On → rank (length code.now.instructions.items) self.new
            < rank (length code.now.instructions.items) self.old }
    {
        // No code ends without the end of its page.
        let Some(instruction) = code.instructions.get(self.place) else {
            return Err(Apart::Memory);
        };
        self.act(code, instruction, group, evaluations)
    }

    /// Does instructions up to the next operation that is wanted, or to the end.
    pub fn run<L: Ledger>(
        &mut self,
        code: &Code,
        group: &Group,
        evaluations: &mut Evaluations<L>,
    ) -> Result<Went, Apart>
        ensures runs { Runs evaluations.old evaluations.new group.now code.now
            self.old result self.new }
        ensures stops { IfOk result HasStopped }
    {
        loop {
            match self.step(code, group, evaluations) {
                Ok(Went::On) => {}
                Ok(Went::Over) => return Ok(Went::Over),
                Ok(Went::Wants(ops)) => return Ok(Went::Wants(ops)),
                Err(apart) => return Err(apart),
            }
        }
    }
}
