ghost use Rattle.std.specs.Prelude.{◌≡◌};

use crate::syntax::declaration::Declaration;
use basis::Items;
use std::marker::Model;

/// A version of the language. There is one so far.
#[derive(Clone, Copy, PartialEq, Eq)]
pub enum Version {
    First,
}

/// The tree of a program's text: the version of its language, and its declarations, in order.
#[derive(Drop)]
pub struct Tree {
    pub version: Version,
    pub declarations: Items<Declaration>,
}

impl Model for Tree {
    ghost use Rattle.script_tree.specs.Programs.{Program};
    ghost use Rattle.script_tree.specs.ProgramCode.{coded_program};

    ghost Value = { Program };

    ghost coded = { coded_program };

    ghost use Rattle.script_tree.specs.TreeView.{program_in};

    ghost view = { program_in };
}
