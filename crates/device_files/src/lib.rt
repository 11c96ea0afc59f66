//! What a file is: the device that it describes, its clauses and their sum, or a graph; or the line that refuses it.
#![tactic(auto)]

mod checking;
mod describing;
mod inspecting;
mod paths;
mod refusal;
mod status;
mod weighing;

pub use checking::graph_in;
pub use describing::{described, netlist_device, netlist_refusal};
pub use inspecting::{Count, Inspection, inspect_file, put_count, put_counts};
pub use paths::{is_design_path, is_device_path, is_graph_path, is_netlist_path};
pub use refusal::{Refusal, above, tell};
pub use status::Status;
pub use std::alloc::AllocError as Memory;
pub use weighing::{clauses_along, clauses_of, forest_of, found_within, sum_within};
