//! Graphs as `.nnf` text: reading and writing.
#![tactic(auto)]

mod checking;
mod error;
mod graph_text;
mod header;
mod lines;
mod node_lines;
mod numbers;
mod ranges;
mod reading;
mod sharing;
mod writing;

pub use checking::BITS_LIMIT;
pub use error::NnfError;
pub use graph_text::GraphText;
pub use lines::{add_header, add_node};
pub use ranges::add_counted_range;
pub use reading::read_nnf;
pub use writing::write_nnf;
