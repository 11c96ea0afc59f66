//! The way down a forest of variables: the lists of clauses left at each place, where they lead, and what they count.
#![tactic(auto)]

mod bit_list;
mod bits;
mod descent;
mod marks;
mod masks;
mod picks;
mod places;
mod rows;
mod states;
mod table_finder;
mod transition_tables;

pub use descent::{Descended, Measured, descend, measure_along};
pub use std::alloc::AllocError as Memory;
