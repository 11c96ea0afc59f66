//! The open sessions: their names in order, and for each a block of words that was taken before the first one opened.
#![tactic(auto)]

mod block;
mod in_order;
mod open_sessions;
mod short_name;

pub use open_sessions::OpenSessions;
pub use std::alloc::AllocError as Memory;
