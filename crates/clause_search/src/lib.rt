//! A search for bits that make clauses true. A small kernel checks what it finds.
#![tactic(auto)]

mod analysis;
mod counters;
mod database;
mod definitions;
mod exhaustion;
mod facts;
mod finder;
mod kernel;
mod literals;
mod marks;
mod order;
mod propagation;
mod row;
mod search;
mod trail;
mod watches;
mod weighted;

pub use search::{Answer, Search};
pub use std::alloc::AllocError as Memory;
pub use weighted::Weighted;
