//! Answers about the health of parts, by a search over clauses.
#![tactic(auto)]

mod assumed;
mod blaming;
mod case_search;
mod cores;
mod evidence;
mod finding;
mod levels;
mod literals;
mod oracle;
mod probing;
mod state_words;
mod weights;

pub use case_search::CaseSearch;
pub use std::alloc::AllocError as Memory;
