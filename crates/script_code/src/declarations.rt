ghost use Rattle.std.specs.Prelude.{◌≡◌, ◌++◌, ◌∷◌, [], OnOk};
ghost use Rattle.script_tree.specs.SyntaxLists.{statements_of};
ghost use Rattle.script_code.specs.Code.{block_code, texts};
ghost use Rattle.script_code.specs.declared.instruction.Instruction.TheVariants as instruction;

use crate::emitter::{Emitter, put};
use crate::instruction::Instruction;
use crate::scope::Scope;
use script_tree::syntax::name::Name;
use script_tree::syntax::statement::Block;
use std::alloc::AllocError;

impl<'a> Emitter<'a> {
    /// Writes the code of a function.
    pub(crate) fn function(
        &self,
        code: &mut Vec<Instruction>,
        parameters: &'a [Name],
        body: &'a Block,
    ) -> Result<(), AllocError>
        ensures { OnOk result (code.new.items ≡ code.old.items ++ (block_code self.now
            (texts parameters.now) (statements_of body.now) ++ instruction.End ∷ [])) }
    {
        let mut scope = Scope::of(self.alloc, parameters)?;
        self.block(code, &mut scope, body)?;
        put(code, Instruction::End)
    }

    /// Writes the code of a page.
    pub(crate) fn page(
        &self,
        code: &mut Vec<Instruction>,
        body: &'a Block,
    ) -> Result<(), AllocError>
        ensures { OnOk result (code.new.items ≡ code.old.items
            ++ (block_code self.now [] (statements_of body.now) ++ instruction.Halt ∷ [])) }
    {
        let mut scope = Scope::new(self.alloc);
        self.block(code, &mut scope, body)?;
        put(code, Instruction::Halt)
    }
}
