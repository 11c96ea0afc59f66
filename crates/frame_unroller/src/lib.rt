//! Netlists with flip-flops over several times, as clauses that share the health of each part.
#![tactic(auto)]

mod copying;
mod counting;
mod delays;
mod names;
mod tables;
mod unrolling;

pub use unrolling::{FRAME_LIMIT, UnrollError, Unrolled, unroll};
