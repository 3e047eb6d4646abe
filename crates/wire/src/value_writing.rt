ghost use Rattle.std.specs.Prelude.{◌≡◌, ◌++◌, ◌<◌, ◌^◌, OnOk, OnErr};
ghost use Rattle.script_tree.specs.Datum.{IsWithinLimits, size, members_size, data_of};
ghost use Rattle.script_tree.specs.ValueView.{datum_of};
ghost use Rattle.wire.specs.Spellings.{IsFront, value_spelling, list_spelling};

use crate::writing::{write_bytes, write_i64, write_u8, write_u32};
use script_tree::value::{Node, Value};
use std::alloc::AllocError;

pub fn write_value(out: &mut Vec<u8>, x: &Value) -> Result<(), AllocError>
    requires limits { IsWithinLimits x.now }
    ensures ok { OnOk result (out.new.items ≡ out.old.items ++ value_spelling x.now) }
    ensures err { OnErr result (IsFront out.old.items out.new.items) }
{
    write_any(out, x)
}

/// The same of a value whose counts and lengths have 32 bits.
#[cycle(write_any)]
fn write_any(out: &mut Vec<u8>, value: &Value) -> Result<(), AllocError>
    requires { size value.now < 2 ^ 32 }
    ensures ok { OnOk result (out.new.items ≡ out.old.items ++ value_spelling value.now) }
    ensures err { OnErr result (IsFront out.old.items out.new.items) }
{
    write_node(out, &value.node)
}

#[cycle(write_any)]
fn write_node(out: &mut Vec<u8>, node: &Node) -> Result<(), AllocError>
    requires { size (datum_of node.now) < 2 ^ 32 }
    ensures ok { OnOk result (out.new.items ≡ out.old.items ++ value_spelling (datum_of node.now)) }
    ensures err { OnErr result (IsFront out.old.items out.new.items) }
{
    match node {
        Node::Null => write_u8(out, 0),
        Node::Bool(false) => write_u8(out, 1),
        Node::Bool(true) => write_u8(out, 2),
        Node::Number(number) => {
            write_u8(out, 3)?;
            write_i64(out, *number)
        }
        Node::Text(text) => {
            write_u8(out, 4)?;
            write_bytes(out, text.as_bytes())
        }
        Node::List(values) => {
            write_u8(out, 5)?;
            write_all(out, values.as_slice())
        }
    }
}

/// Writes how many values there are, then these.
#[cycle(write_any)]
fn write_all(out: &mut Vec<u8>, values: &[Value]) -> Result<(), AllocError>
    requires { members_size (data_of values.now) < 2 ^ 32 }
    ensures ok { OnOk result (out.new.items ≡ out.old.items ++ list_spelling values.now) }
    ensures err { OnErr result (IsFront out.old.items out.new.items) }
{
    write_u32(out, values.len() as u32)?;
    for value in values {
        write_any(out, value)?;
    }
    Ok(())
}
