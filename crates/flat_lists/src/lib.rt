//! Lists one after the other in one vector.
#![tactic(auto)]

mod flat;
mod lists;

pub use flat::FlatLists;
pub use lists::Lists;
pub use std::alloc::AllocError as Memory;
