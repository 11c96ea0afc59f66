//! Reads the lines of a script.
#![tactic(auto)]

mod cutting;
mod limits;
mod line;
mod naming;
mod operands;
mod refusal;

pub use limits::{COUNT_LIMIT, LINE_LIMIT};
pub use line::{AskedLine, Line, Noted, Question, Request, parse_line};
pub use naming::each_name;
pub use refusal::LineRefusal;
pub use text_rules::Tokens as NameIter;
