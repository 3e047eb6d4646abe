ghost use Rattle.std.specs.Prelude.{◌≡◌, ◌<◌, length};
ghost use Rattle.script_tree.specs.declared.limits.TheConstants.{TOO_MANY_DECLARATIONS};
ghost use Rattle.script_check.specs.Counts.{counts_of};
ghost use Rattle.script_check.specs.Least.{IsChecked};
ghost use Rattle.script_check.specs.Validity.{IsValid};

use crate::counts::{Counts, counts_of};
use crate::declaration::least_fault;
use crate::fault::CheckFault;
use basis::OrMemory;
use script_tree::limits::TOO_MANY_DECLARATIONS;
use script_tree::syntax::declaration::Declaration;
use script_tree::syntax::tree::{Tree, Version};
use std::alloc::Global;
use std::marker::Model;

/// A program: a tree without faults. Contracts see its version and its declarations.
#[derive(Drop)]
pub struct Program {
    tree: Tree,
}

impl Model for Program {
    ghost use Rattle.script_tree.specs.Programs.{Program as Meant};
    ghost use Rattle.script_tree.specs.ProgramCode.{coded_program};

    ghost Value = { Meant };

    ghost coded = { coded_program };

    ghost use Rattle.script_check.specs.ProgramView.{program_in, IsCheckedProgram};

    ghost view = { program_in };

    ghost invariant = { IsCheckedProgram };
}

/// The program of a tree, or the tree's least fault: that which begins first in the file, and of
/// those at one place the one of the least kind. A tree of 2^32 declarations or more is answered as
/// want of memory; no file within the limit of a file has so many.
pub fn check(alloc: Global, tree: Tree) -> Result<Program, OrMemory<CheckFault>>
    ensures { IsChecked tree result }
{
    if tree.declarations.len() >= TOO_MANY_DECLARATIONS {
        return Err(OrMemory::Memory);
    }
    match least_fault(alloc, &tree)? {
        None => Ok(Program { tree }),
        Some(fault) => Err(OrMemory::Other(fault)),
    }
}

impl Program {
    pub fn declarations(&self) -> &[Declaration]
        ensures declarations { result.now ≡ self.now.declarations }
        ensures valid { IsValid self.now }
        ensures few { length self.now.declarations < TOO_MANY_DECLARATIONS }
    {
        self.tree.declarations.as_slice()
    }

    /// The version of its language.
    pub fn version(&self) -> Version
        ensures { result ≡ self.now.version }
    {
        self.tree.version
    }

    /// Gives the tree back.
    pub fn into_tree(self) -> Tree
        ensures { result ≡ self }
    {
        let Program { tree } = self;
        tree
    }

    pub fn counts(&self) -> Counts
        ensures { result ≡ counts_of self.now.declarations }
    {
        counts_of(self.declarations())
    }
}
