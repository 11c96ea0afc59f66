//! The limits of a graph that answers.

/// The most variables of a service's graph: with a word for each, all sessions have fewer words than a pool may have. No device within the
/// limits has more.
pub const SERVED_VARIABLES: u32 = 110_000;

/// A service's graph has fewer nodes than this, so that they can be numbered. One compiled within the greatest budget has fewer than
/// 26,000,000.
pub const SERVED_NODES: u32 = 536_870_912;

/// The most bits that count for the sets of the nodes, if states are listed by rising cost, and for the words and sets to draw the graph of
/// the diagnoses, if it is written.
pub const SERVED_BITS: u64 = 2_147_483_648;
