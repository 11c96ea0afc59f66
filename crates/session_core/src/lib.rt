//! Sessions over an engine: a service that answers a script line by line.
#![tactic(auto)]

mod asking;
mod desk;
mod found;
mod laws;
mod limits;
mod line_buffer;
mod listing;
mod probing;
mod replies;
mod service;
mod serving;
mod sessions;
mod telling;

pub use laws::{one_text, spells_replies, written_alone};
pub use limits::SESSION_LIMIT;
pub use replies::put_faulty;
pub use service::Service;
pub use serving::{READ_LIMIT, ServeEnd};
pub use state_rules::Extras;
pub use std::alloc::AllocError as Memory;
