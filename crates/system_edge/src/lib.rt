//! Real files, standard streams and the words of the command line: what the program meets on a machine. That the system serves these few
//! lines is trusted.
#![tactic(auto)]

mod adapters;

pub use adapters::{FileShelf, StdSink, StdSource, words_of};
pub use std::alloc::AllocError as Memory;
