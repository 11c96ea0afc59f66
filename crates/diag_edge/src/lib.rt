//! What a program meets outside: a source of bytes, a shelf of named files, and a sink.
//!
//! The traits are `Source`, `Shelf` and `Sink`. `load` reads a whole file from a shelf. `put_line` writes a line of words; a `Chunk`
//! gathers longer texts. `put_fault` and `put_above` write the lines that say why a file is refused. `MemSource`, `MemShelf` and `MemSink`
//! are in memory, and the caller chooses their bytes and failures. The calls of `SureSource`, `SureShelf` and `TallySink` never fail.
//!
//! Counts of faults and of calls are u64 and stop at the greatest one.
#![tactic(auto)]

mod calls;
mod chunk;
mod copying;
mod error_lines;
mod loading;
mod mem_shelf;
mod mem_sink;
mod mem_source;
mod outside;
mod sure;

pub use chunk::{Chunk, put_line};
pub use error_lines::{put_above, put_fault};
pub use loading::{LoadError, load};
pub use mem_shelf::MemShelf;
pub use mem_sink::MemSink;
pub use mem_source::MemSource;
pub use outside::{ReadFailed, Shelf, Sink, Source, WriteFailed};
pub use std::alloc::AllocError as Memory;
pub use sure::{SureShelf, SureSource, TallySink};
