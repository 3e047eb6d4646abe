use multi_state::{Stack, State};
use multivalue::Multi;

/// Where a call goes on when its function is over.
#[derive(Drop)]
pub struct Frame {
    pub place: usize,
    pub stack: Stack,
    pub slots: Vec<Multi>,
}

/// Where a group is in the code.
#[derive(Drop)]
pub struct Run {
    /// The calls that are not over, the newest last.
    pub frames: Vec<Frame>,
    /// The place of the instruction that is next.
    pub place: usize,
    pub state: State,
}
