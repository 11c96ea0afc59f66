//! Clauses of netlists.
use bench_reader::read_bench;
use clause_encoder::{Cnf, encode};
use std::alloc::Global;
use std::test::Fail;
use text_rules::TEXT_LIMIT;

/// Returns the clauses of a netlist.
pub fn clauses_of(alloc: Global, text: &str) -> Result<Cnf, Fail> {
    if TEXT_LIMIT < text.len() {
        return Err("the text is too long".into());
    }
    let device = read_bench(alloc, text.as_bytes())?;
    Ok(encode(alloc, &device)?)
}
