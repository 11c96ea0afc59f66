//! One run of the program over ends in memory.
ghost use Rattle.std.specs.Prelude.{◌≡◌, ◌<◌, IfOk};

use crate::program::status_of;
use diag_edge::{MemShelf, MemSink, MemSource};
use std::alloc::{AllocError, Global};
use std::test::Fail;

/// More room than any output here needs.
const ROOM: usize = 8192;

/// What a run meets: how the script comes, and the number of each call that fails, or 0 if none does.
#[derive(Clone, Copy)]
pub struct Meeting {
    pub piece: usize,
    pub failing_pick_or_load: u64,
    pub failing_read: u64,
    pub failing_write: u64,
    /// How many bytes a failing write keeps.
    pub keep: usize,
}

/// Nothing fails, and the script comes in one piece.
pub const NOTHING_FAILS: Meeting = Meeting {
    piece: 4096,
    failing_pick_or_load: 0,
    failing_read: 0,
    failing_write: 0,
    keep: 0,
};

/// The status and the output of a run.
#[derive(Drop)]
pub struct Ran {
    pub status: u8,
    pub out: MemSink,
}

/// Copies the words of a command line.
pub fn owned(alloc: Global, words: &[&str]) -> Result<Vec<String>, AllocError> {
    let mut owned = Vec::new(alloc);
    for word in words {
        owned.push(String::from_str(alloc, word)?)?;
    }
    Ok(owned)
}

fn shelf_of(alloc: Global, name: &str, text: &[u8], failing: u64) -> Result<MemShelf, AllocError>
    ensures taken { IfOk result (λ shelf. shelf.taken ≡ 0) }
    ensures faults { IfOk result (λ shelf. shelf.faults ≡ 0) }
{
    let bytes = Vec::from_slice(alloc, text)?;
    let files = vec![in alloc; (String::from_str(alloc, name)?, bytes)]?;
    Ok(MemShelf::new(files, vec![in alloc; failing]?))
}

/// Runs the program on these words and this script, over a shelf that has only this file.
pub fn run(
    alloc: Global,
    name: &str,
    text: &[u8],
    words: &[&str],
    script: &[u8],
    meeting: &Meeting,
) -> Result<Ran, Fail>
    requires { 0 < meeting.now.piece }
{
    let words = owned(alloc, words)?;
    let mut shelf = shelf_of(alloc, name, text, meeting.failing_pick_or_load)?;
    let script = Vec::from_slice(alloc, script)?;
    let failing_read = vec![in alloc; meeting.failing_read]?;
    let mut input = MemSource::new(script, meeting.piece, failing_read);
    let failing_write = vec![in alloc; meeting.failing_write]?;
    let mut out = MemSink::new(alloc, ROOM, failing_write, meeting.keep)?;
    let status = status_of(alloc, &words, &mut shelf, &mut input, &mut out);
    Ok(Ran { status, out })
}
