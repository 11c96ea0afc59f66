//! Definitions: health states and their order, the systems that sessions ask about, and graphs of literal nodes, And nodes and Or nodes,
//! which say which states are allowed.
#![tactic(auto)]

mod blame;
mod extras;
mod nodes;
mod numbers;

pub use blame::Blame;
pub use extras::Extras;
pub use nodes::{CHILD_LIMIT, NodeKind};
pub use numbers::{NO_COST, cost_of};
