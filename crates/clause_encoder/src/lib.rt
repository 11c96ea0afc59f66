//! The clauses of a device: a list of clauses over the health of its parts and its wires.
#![tactic(auto)]

mod cnf;
mod encoding;
mod gates;
mod limits;
mod replacement;
mod writer;

pub use cnf::{Clause, Cnf};
pub use encoding::{EncodeError, encode, part_count};
pub use limits::{CLAUSE_LIMIT, NARROW_LIMIT, VARIABLE_LIMIT};
pub use replacement::replaced;
pub use std::alloc::AllocError as Memory;
