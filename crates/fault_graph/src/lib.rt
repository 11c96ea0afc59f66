//! A smaller graph with the same diagnoses under evidence: the nodes that cost something on derivations of least cost.
#![tactic(auto)]

mod answering;
mod blaming;
mod marking;
mod minimised_graph;
mod minimising;
mod small_nodes;

pub use blaming::blame_all;
pub use minimised_graph::MinimisedGraph;
pub use std::alloc::AllocError as Memory;
