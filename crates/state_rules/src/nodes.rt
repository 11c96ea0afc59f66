/// A node has fewer children than this: their number fits 32 bits.
pub const CHILD_LIMIT: usize = 4_294_967_296;

/// What a node of a graph is. An And without children is true, an Or without children is false.
#[derive(Clone, Copy, Debug, PartialEq, Eq, Hash)]
pub enum NodeKind {
    // The sign is first, so that a kind takes 8 bytes and not 12: a pass over a graph reads all of them.
    Literal { positive: bool, var: u32 },
    And,
    Or,
}
