//! Answers by a compiled graph.
#![tactic(auto)]

mod basis;
mod engine;
mod limits;
mod memory;
mod service;

pub use engine::GraphEngine;
pub use limits::{SERVED_BITS, SERVED_NODES, SERVED_VARIABLES};
pub use service::over;
pub use std::alloc::AllocError as Memory;
