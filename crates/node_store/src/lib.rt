//! Nodes of graphs: a store that shares equal ones, the graphs that it is frozen to, and a builder that takes nodes as they come.
#![tactic(auto)]

mod flat;
mod graph;
mod nearby;
mod store;
mod view;
mod walk;

pub use flat::Nodes;
pub use graph::{Graph, GraphBuilder, NODE_LIMIT};
pub use state_rules::NodeKind;
pub use std::alloc::AllocError as Memory;
pub use store::{MADE_LIMIT, Store, VARIABLE_LIMIT};
pub use view::GraphView;
pub use walk::{NodeRef, Walk};
