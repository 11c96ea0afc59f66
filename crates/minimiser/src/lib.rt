//! The least cost of the health states that a graph allows under evidence, and the least cost at each of its nodes; and the parts
//! that are faulty in some diagnosis. Passes are counted.
#![tactic(auto)]

mod outside;
mod pass;
mod steps;
mod suspects;

pub use outside::put_outside_costs;
pub use pass::{TOTAL_LIMIT, least, least_in, part_cost, put_least_costs};
pub use steps::Steps;
pub use suspects::{find_suspects, first_suspect};
