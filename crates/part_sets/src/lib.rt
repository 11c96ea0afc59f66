//! Sets of numbers as bits of words, and for each node of a graph the set of the parts below it.
#![tactic(auto)]

mod below;
mod kept;
mod lacking;
mod numbers;

pub use below::put_nodes;
pub use kept::{PART_LIMIT, PartSets};
pub use numbers::{WIDTH, clear, has_number, next_missing, part_words, put_one, set_at};
pub use std::alloc::AllocError as Memory;
