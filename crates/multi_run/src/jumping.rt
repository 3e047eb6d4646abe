ghost use Rattle.std.specs.Prelude.{◌≡◌, ◌+◌, ℕ, List, Ok, OnOk};
ghost use Rattle.script_tree.specs.Requests.{Request as Asked};
ghost use Rattle.multi_state.specs.declared.went.Went.TheVariants.{On};
ghost use Rattle.multi_run.specs.Acts.{Acts, IsLater};
ghost use Rattle.script_code.specs.declared.instruction.Instruction.TheVariants as instruction;

use crate::run::Run;
use multi_nodes::{Evaluations, Group};
use multi_state::Went;
use multivalue::Apart;
use script_nodes::primitive::Primitive;
use std::alloc::AllocError;
use std::slice;
use std::sync::ledger::Ledger;

impl Run {
    /// Passes this instruction and so many more.
    pub(crate) fn pass(&mut self, count: usize) -> Result<(), AllocError>
        ensures place { OnOk result (self.new.place ≡ self.old.place + 1 + count) }
        ensures frames { self.new.frames ≡ self.old.frames }
        ensures state { self.new.state ≡ self.old.state }
    {
        let Some(next) = self.place.checked_add(1) else {
            return Err(AllocError);
        };
        let Some(place) = next.checked_add(count) else {
            return Err(AllocError);
        };
        self.place = place;
        Ok(())
    }

    pub(crate) fn jump(&mut self, count: usize) -> Result<Went, Apart>
        ensures acts { (n : ℕ) (qs : List Asked) (functions : List ℕ)
            → Acts n n qs functions (instruction.Jump count) self.old result self.new }
        ensures later { result ≡ Ok On → IsLater self.old self.new }
    {
        self.pass(count)?;
        Ok(Went::On)
    }

    pub(crate) fn and<L: Ledger>(
        &mut self,
        count: usize,
        group: &Group,
        evaluations: &mut Evaluations<L>,
    ) -> Result<Went, Apart>
        ensures acts { (functions : List ℕ) → Acts evaluations.old evaluations.new group.now
            functions (instruction.And count) self.old result self.new }
        ensures later { result ≡ Ok On → IsLater self.old self.new }
    {
        let alloc = self.state.alloc;
        let values = self.state.stack.pop()?;
        let operands = slice::from_ref(&values);
        match self
            .state
            .account
            .decide(alloc, Primitive::Decide, operands, group, evaluations)
        {
            Ok(true) => {
                drop(values);
                self.pass(0)?;
                Ok(Went::On)
            }
            Ok(false) => {
                self.state.stack.push(values)?;
                self.pass(count)?;
                Ok(Went::On)
            }
            Err(apart) => {
                drop(values);
                Err(apart)
            }
        }
    }

    pub(crate) fn or<L: Ledger>(
        &mut self,
        count: usize,
        group: &Group,
        evaluations: &mut Evaluations<L>,
    ) -> Result<Went, Apart>
        ensures acts { (functions : List ℕ) → Acts evaluations.old evaluations.new group.now
            functions (instruction.Or count) self.old result self.new }
        ensures later { result ≡ Ok On → IsLater self.old self.new }
    {
        let alloc = self.state.alloc;
        let values = self.state.stack.pop()?;
        let operands = slice::from_ref(&values);
        match self
            .state
            .account
            .decide(alloc, Primitive::Decide, operands, group, evaluations)
        {
            Ok(true) => {
                self.state.stack.push(values)?;
                self.pass(count)?;
                Ok(Went::On)
            }
            Ok(false) => {
                drop(values);
                self.pass(0)?;
                Ok(Went::On)
            }
            Err(apart) => {
                drop(values);
                Err(apart)
            }
        }
    }

    pub(crate) fn branch<L: Ledger>(
        &mut self,
        count: usize,
        group: &Group,
        evaluations: &mut Evaluations<L>,
    ) -> Result<Went, Apart>
        ensures acts { (functions : List ℕ) → Acts evaluations.old evaluations.new group.now
            functions (instruction.Branch count) self.old result self.new }
        ensures later { result ≡ Ok On → IsLater self.old self.new }
    {
        let alloc = self.state.alloc;
        let values = self.state.stack.pop()?;
        match self
            .state
            .account
            .decide(alloc, Primitive::Decide, &[values], group, evaluations)
        {
            Ok(true) => {
                self.pass(0)?;
                Ok(Went::On)
            }
            Ok(false) => {
                self.pass(count)?;
                Ok(Went::On)
            }
            Err(apart) => Err(apart),
        }
    }

    pub(crate) fn again<L: Ledger>(
        &mut self,
        count: usize,
        group: &Group,
        evaluations: &mut Evaluations<L>,
    ) -> Result<Went, Apart>
        ensures acts { (functions : List ℕ) → Acts evaluations.old evaluations.new group.now
            functions (instruction.Again count) self.old result self.new }
        ensures later { result ≡ Ok On → IsLater self.old self.new }
    {
        let alloc = self.state.alloc;
        let values = self.state.stack.pop()?;
        match self
            .state
            .account
            .decide(alloc, Primitive::Decide, &[values], group, evaluations)
        {
            Ok(true) => {
                self.place = self.place.saturating_sub(count);
                Ok(Went::On)
            }
            Ok(false) => {
                self.pass(0)?;
                Ok(Went::On)
            }
            Err(apart) => Err(apart),
        }
    }
}
