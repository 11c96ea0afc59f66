//! Questions to a graph whose device is not known: the names and the costs of its variables, and the law that a device's graph
//! answers for the device.
#![tactic(auto)]

mod laws;
mod names;

pub use laws::answers_for_device;
pub use names::{AskError, ask_costs, ask_names};
pub use std::alloc::AllocError as Memory;
