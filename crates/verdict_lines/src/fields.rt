ghost use Rattle.std.specs.Prelude.{◌≡◌, ◌++◌, IfOk, string_bytes};
ghost use Rattle.script_tokens.specs.PrintedTexts.{printed_text};
ghost use Rattle.verdict_lines.specs.Fields.{cycle_text, entry_text, node_text, object_text};

use audit_meaning::node::Node;
use script_tokens::print::print_text;
use script_tree::operation::Object;
use script_tree::text::Text;
use std::alloc::{AllocError, Global};

/// An object, by the word for it and its name where it has one.
pub(crate) fn object_text(alloc: Global, object: &Object) -> Result<Vec<u8>, AllocError>
    ensures { IfOk result (λ text. text.items ≡ object_text object.now) }
{
    match object {
        Object::Register(name) => named_text(alloc, "register ", name),
        Object::Store(name) => named_text(alloc, "store ", name),
        Object::Tables => plain_text(alloc, "tables"),
        Object::Clock => plain_text(alloc, "clock"),
        Object::Dice => plain_text(alloc, "dice"),
    }
}

/// Words as bytes.
fn plain_text(alloc: Global, words: &str) -> Result<Vec<u8>, AllocError>
    ensures { IfOk result (λ text. text.items ≡ words.now) }
{
    Ok(String::from_str(alloc, words)?.into_bytes())
}

/// A word, and a name behind it as a text of a program.
fn named_text(alloc: Global, word: &str, name: &Text) -> Result<Vec<u8>, AllocError>
    ensures { IfOk result (λ text. text.items ≡ word.now ++ printed_text name.now) }
{
    let mut text = plain_text(alloc, word)?;
    text.extend_from_slice(print_text(alloc, name.as_bytes())?.as_slice())?;
    Ok(text)
}

/// An entry, by its place in its object's log.
pub(crate) fn entry_text(
    alloc: Global,
    object: &Object,
    position: u32,
) -> Result<Vec<u8>, AllocError>
    ensures { IfOk result (λ text. text.items ≡ entry_text object.now position) }
{
    let mut text = object_text(alloc, object)?;
    text.extend_from_slice(format!(in alloc; " position {position}")?.as_bytes())?;
    Ok(text)
}

fn node_text(alloc: Global, node: Node) -> Result<String, AllocError>
    ensures { IfOk result (λ text. string_bytes text ≡ node_text node) }
{
    match node {
        Node::Number(rid, number) => format!(in alloc; " {rid}.{number}"),
        Node::End(rid) => format!(in alloc; " {rid}.end"),
    }
}

/// The nodes of a cycle.
pub(crate) fn cycle_text(alloc: Global, nodes: &[Node]) -> Result<Vec<u8>, AllocError>
    ensures { IfOk result (λ text. text.items ≡ cycle_text nodes.now) }
{
    let mut text = plain_text(alloc, "cycle")?;
    for node in nodes {
        text.extend_from_slice(node_text(alloc, *node)?.as_bytes())?;
    }
    Ok(text)
}
