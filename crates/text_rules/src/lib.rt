//! What the texts of this product have in common: names, lines, words and numbers.
#![tactic(auto)]

mod names;
mod numbers;
mod text_lines;
mod tokens;

pub use names::{SHORT_NAME_LIMIT, is_mark, is_name, is_short_name};
pub use numbers::{number, plain_number};
pub use text_lines::{Lines, TEXT_LIMIT, uncommented};
pub use tokens::{Tokens, is_blank};
