//! Answers by a search over clauses.
#![tactic(auto)]

mod engine;

pub use engine::SearchEngine;
pub use std::alloc::AllocError as Memory;
