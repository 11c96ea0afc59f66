//! What is left of clauses when their variables are assigned in the order of the names: the states, and how many there are.
#![tactic(auto)]

mod bits;
mod branches;
mod clauses;
mod descent;
mod measuring;
mod order;
mod stepping;

pub use branches::Branches;
pub use descent::{Levels, descend_levels};
pub use measuring::{BUDGET_LIMIT, MeasureError, measure};
pub use std::alloc::AllocError as Memory;
