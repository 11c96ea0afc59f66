//! Writes the graph of the diagnoses that a graph allows under evidence as `.nnf` text: smooth, decomposable, and true for these alone.
#![tactic(auto)]

mod drawing;
mod edges;
mod filling;
mod lines;
mod or_node;
mod places;
mod writing;

pub use writing::{write_least, write_least_with};
