//! The seam between sessions and what computes their answers.
#![tactic(auto)]

mod engine;
mod listed;

pub use engine::Engine;
pub use listed::{Listed, NextState};
