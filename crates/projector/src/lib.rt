//! Writes the graph of the health states that a graph allows under evidence, as `.nnf` text.
#![tactic(auto)]

mod held;
mod nodes;
mod projection;
mod writing;

pub use writing::write_projected;
