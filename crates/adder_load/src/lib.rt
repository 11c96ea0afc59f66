//! A load for the program: a ripple adder as a netlist, what was seen of it, and its first diagnoses.
#![tactic(auto)]

mod adders;
mod readings;
mod sampling;

pub use adders::{PLACE_LIMIT, adder_text};
pub use readings::note_readings;
pub use sampling::{Found, sample};
pub use std::alloc::AllocError as Memory;
