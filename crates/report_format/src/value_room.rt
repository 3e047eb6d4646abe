ghost use Rattle.std.specs.Prelude.{length};
ghost use Rattle.script_tree.specs.Datum.{data_of};
ghost use Rattle.script_tree.specs.ValueView.{datum_of};
ghost use Rattle.wire.specs.Files.{LeavesRoom};
ghost use Rattle.wire.specs.Spellings.{value_spelling, list_spelling};

use script_tree::value::{Node, Value};

/// What is left of so much room behind a value, or `None` where it has more bytes.
#[cycle(room_behind_value)]
pub(crate) fn room_behind_value(room: usize, value: &Value) -> Option<usize>
    ensures { LeavesRoom room (value_spelling value.now) result }
{
    room_behind_node(room, &value.node)
}

#[cycle(room_behind_value)]
fn room_behind_node(room: usize, node: &Node) -> Option<usize>
    ensures { LeavesRoom room (value_spelling (datum_of node.now)) result }
{
    let left = room.checked_sub(1)?;
    match node {
        Node::Null | Node::Bool(_) => Some(left),
        Node::Number(_) => left.checked_sub(8),
        Node::Text(text) => left.checked_sub(4)?.checked_sub(text.len()),
        Node::List(values) => room_behind_values(left, values.as_slice()),
    }
}

#[cycle(room_behind_value)]
fn room_behind_values(room: usize, values: &[Value]) -> Option<usize>
    ensures { LeavesRoom room (list_spelling values.now) result }
{
    let mut left = room.checked_sub(4)?;
    for value in values {
        left = room_behind_value(left, value)?;
    }
    Some(left)
}
