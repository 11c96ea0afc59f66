//! The flat device of a design.
#![tactic(auto)]

mod counting;
mod expanding;
mod flattening;

pub use flattening::{FlattenError, INSTANCE_LIMIT, flatten};
