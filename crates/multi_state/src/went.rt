use basis::Items;
use script_tree::operation::Op;

/// How the members of a group went on, all alike.
#[derive(Drop)]
pub enum Went {
    On,
    Over,
    /// Each wants its operation.
    Wants(Items<Op>),
}
