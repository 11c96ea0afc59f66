//! Lists the health states that a graph allows under evidence, one by one, by rising cost.
#![tactic(auto)]

mod bits;
mod choices;
mod fault_pass;
mod groups;
mod levels;
mod pair_pass;
mod pairs;
mod pass;
mod search;
mod searching;
mod sets;
mod settling;
mod skipping;
mod states;

pub use bits::level_bits;
pub use levels::{LevelStep, Levels, TOP_LIMIT};
pub use states::state_cost;
pub use std::alloc::AllocError as Memory;
