//! Answers what is asked about one wire, all wires, or one part.
#![tactic(auto)]

mod asking;
mod blaming;
mod leaving;
mod marking;
mod probing;

pub use asking::probe;
pub use blaming::{blame, blame_faulty};
pub use probing::probe_all;
pub use state_rules::{Blame, cost_of};
