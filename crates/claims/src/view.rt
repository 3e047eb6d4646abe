use std::collections::LinkedList;

/// What a seat knows. No value of it is made: it stands in contracts and proofs alone.
pub struct View {
    /// The numbers to draw are those below this.
    pub limit: u64,
    /// Its share of the parts that all seats have together.
    pub parts: u64,
    /// The numbers that it drew, and those that the seats drew that it took in.
    pub drawn: LinkedList<u64>,
    /// It was told that no number is left.
    pub none_left: bool,
    /// The numbers that it and they lowered the least to.
    pub lowered: LinkedList<u64>,
    /// The least is no more than this.
    pub bound: u64,
}
