use basis::Items;
use multivalue::Multi;
use script_tree::operation::Op;

/// What a node comes to for all members of a group.
#[derive(Drop)]
pub enum Together {
    Values(Multi),
    /// The operation of each.
    Operations(Items<Op>),
    /// Each has an operation, and none may be issued.
    TooMany,
}
