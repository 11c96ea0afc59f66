//! Tests of what only a call shows. What a text can say is tested through the program, in `diag_tests`.
#![tactic(auto)]

#[cfg(test)]
mod clauses;
#[cfg(test)]
mod compiling;
#[cfg(test)]
mod ends;
#[cfg(test)]
mod graphs;
#[cfg(test)]
mod sums;
#[cfg(test)]
mod texts;
