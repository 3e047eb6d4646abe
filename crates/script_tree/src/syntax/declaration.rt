ghost use Rattle.std.specs.Prelude.{◌≡◌};

use crate::syntax::name::{Name, Names};
use crate::syntax::statement::Block;

/// A declaration of a program.
#[derive(Drop)]
pub enum Declaration {
    Store {
        at: usize,
        name: Name,
    },
    /// The first column is the table's key.
    Table {
        at: usize,
        name: Name,
        columns: Names,
    },
    Function {
        at: usize,
        name: Name,
        parameters: Names,
        body: Block,
    },
    Page {
        at: usize,
        path: Name,
        body: Block,
    },
}
