//! Tests that cross crates: whole runs of the program over ends in memory, and the real source and sink over memory.
#![tactic(auto)]

#[cfg(test)]
mod adapters;
#[cfg(test)]
mod designs;
#[cfg(test)]
mod failing;
#[cfg(test)]
mod files;
#[cfg(test)]
mod fronts;
#[cfg(test)]
mod graphs;
#[cfg(test)]
mod long;
#[cfg(test)]
mod long_netlists;
#[cfg(test)]
mod long_others;
#[cfg(test)]
mod netlists;
#[cfg(test)]
mod program;
#[cfg(test)]
mod refused;
#[cfg(test)]
mod rows;
#[cfg(test)]
mod running;
#[cfg(test)]
mod scripts;
#[cfg(test)]
mod sure;
#[cfg(test)]
mod texts;
#[cfg(test)]
mod words;
