//! Runs over ends whose calls never fail.
use crate::failing::WORDS;
use crate::files::CHAIN;
use crate::program::status_of;
use crate::running::owned;
use diag_edge::{SureShelf, SureSource, TallySink};
use std::test::Fail;

// Each reply to `min S` has eight bytes, and the two lines before them have ten and seven.
#[test]
fn answers_a_long_script(rt: HostRuntime) -> Result<(), Fail> {
    let alloc = rt.alloc();
    let words = owned(alloc, &WORDS)?;
    let mut shelf = SureShelf::new(Vec::from_slice(alloc, CHAIN)?);
    let mut script = Vec::from_slice(alloc, b"open S\n")?;
    for _ in 0..200_000 {
        script.extend_from_slice(b"min S\n")?;
    }
    let mut input = SureSource::new(script, 4096);
    let mut out = TallySink::new();
    let status = status_of(alloc, &words, &mut shelf, &mut input, &mut out);
    assert_eq!(rt; status, 0);
    assert_eq!(rt; out.count(), 1_600_017);
    Ok(())
}
