//! Designs in `.dev` text: types of parts, and blocks of parts and of instances of blocks above.
#![tactic(auto)]

mod blocks;
mod design;
mod fault;
mod kinds;
mod line_error;
mod reading;
mod types;
mod words;

pub use design::{Block, Design, Shape, Used, UsedKind, Uses};
pub use fault::{LangError, LangFault};
pub use reading::read_lang;
