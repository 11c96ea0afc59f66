//! Netlists in `.bench` text.
#![tactic(auto)]

mod assembly;
mod fault;
mod kinds;
mod netlist;
mod sequential;
mod signals;
mod statement;

pub use fault::{BenchError, BenchFault};
pub use netlist::read_bench;
pub use sequential::{Sequential, read_sequential};
