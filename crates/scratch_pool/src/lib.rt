//! Words that are allocated once and lent again and again: blocks of one size, and runs of any.
#![tactic(auto)]

mod parts;
mod pool;
mod region;

pub use pool::{Block, POOL_LIMIT, Pool};
pub use region::{REGION_LIMIT, RUN_LIMIT, Region, Run, Span};
pub use std::alloc::AllocError as Memory;
