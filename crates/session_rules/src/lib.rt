//! The answers of sessions: definitions, their laws, and the refusals.
#![tactic(auto)]

mod laws;
mod refusal;

pub use laws::{answered_alone, graph_replies, is_its_own, same_states};
pub use refusal::Refusal;
