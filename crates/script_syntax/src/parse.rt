ghost use Rattle.script_grammar.specs.Files.{IsParsed};
ghost use Rattle.script_syntax.specs.Parses.{IsWholeTree};

use crate::declaration::declarations;
use basis::OrMemory;
use script_tokens::fault::{End, SyntaxFault};
use script_tokens::scan::Tokens;
use script_tree::syntax::tree::{Tree, Version};
use std::alloc::Global;

/// The tree that the bytes spell, or the first fault: docs/language.md, "Syntax".
pub fn parse(alloc: Global, bytes: &[u8]) -> Result<Tree, OrMemory<SyntaxFault>>
    ensures { IsParsed bytes.now result }
{
    let mut tokens = Tokens::new(bytes);
    let declarations = declarations(alloc, &mut tokens)?;
    let tree = Tree {
        version: Version::First,
        declarations,
    };
    match tokens.end() {
        None => Ok(tree),
        Some(end) => whole(tree, end),
    }
}

/// The tree, where the tokens go up to the end of the file.
fn whole(tree: Tree, end: End) -> Result<Tree, OrMemory<SyntaxFault>>
    ensures { IsWholeTree tree end result }
{
    match end {
        End::File(_) => Ok(tree),
        End::Fault(fault) => Err(OrMemory::Other(fault)),
    }
}
