use basis::Items;
use multivalue::Multi;
use script_tree::operation::Op;

/// What the members have of a node.
#[derive(Drop)]
pub enum Given {
    Values(Multi),
    /// Each wants its operation.
    Wants(Items<Op>),
}
