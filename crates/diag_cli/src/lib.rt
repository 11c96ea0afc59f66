//! The program: its words, and the one call that does everything.
#![tactic(auto)]

mod asking;
mod besides;
mod compiling;
mod costs;
mod devices;
mod framing;
mod graphs;
mod laws;
mod load_memory;
mod loading;
mod program;
mod refusing;
mod run;
mod saying;
mod searching;
mod serving;
mod summing;
mod words;

pub use laws::{loads_agree, netlists_agree, runs_have_details};
pub use program::diag;
pub use saying::{say, say_load_error, say_usage};
pub use system_edge::{FileShelf, StdSink, StdSource};
