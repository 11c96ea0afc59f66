//! A whole file, read from a shelf.
ghost use Rattle.std.specs.Prelude.{◌≡◌, ◌↔◌, ◌+◌, ◌^◌, ◌<◌, ◌≤◌, ℕ, length, OnOk, IfOk, IfSome, IsErrOf};
ghost use Rattle.std.specs.Io.KnownBytes.{IsAtEnd};
ghost use Rattle.diag_edge.specs.Edge.{RisesAt, absent, known_bytes};
ghost use Rattle.diag_edge.specs.declared.loading.LoadError.TheVariants.{Failed, Memory};

use crate::{ReadFailed, Shelf};
use std::alloc::{AllocError, Global};

/// The most bytes that one read asks for.
const PIECE: usize = 4096;

/// Why a file was not loaded.
#[derive(Clone, Copy, Debug, PartialEq, Eq)]
pub enum LoadError {
    /// The shelf failed: at the pick, or at a read.
    Failed,
    /// The file has more than `limit` bytes.
    Long { limit: u64 },
    /// Memory ran out.
    Memory,
}

impl From<ReadFailed> for LoadError {
    ghost from_gives = { λ _ e. e ≡ Failed };

    fn from(_: ReadFailed) -> Self {
        LoadError::Failed
    }
}

impl From<AllocError> for LoadError {
    ghost from_gives = { λ _ e. e ≡ Memory };

    fn from(_: AllocError) -> Self {
        LoadError::Memory
    }
}

/// Picks the file with this name and reads it to its end, at most `limit` bytes.
///
/// `LoadError::Failed` comes only from the shelf. `LoadError::Long` is returned exactly if one byte more than `limit` was read; no more
/// is read then. `LoadError::Memory` may be returned at any time. After an error it is open which bytes of the file are still to come.
pub fn load<H: Shelf>(
    alloc: Global,
    shelf: &mut H,
    name: &str,
    limit: usize,
) -> Result<Vec<u8>, LoadError>
    requires may { H.may shelf.old name.now }
    requires limit { limit < 2 ^ 40 }
    requires taken { H.taken shelf.old < 2 ^ 62 }

    // The result is the whole file.
    ensures bytes { IfOk result (λ file.
        IfSome (known_bytes (H.held shelf.old name.now)) (λ bytes. file.items ≡ bytes)) }
    ensures end { OnOk result (IsAtEnd (H.left shelf.new)) }
    ensures short { IfOk result (λ file. length file.items ≤ limit) }
    ensures taken { IfOk result (λ file.
        H.taken shelf.new ≡ H.taken shelf.old + length file.items) }

    ensures failed { RisesAt LoadError.Failed (H.faults shelf.old) (H.faults shelf.new) result }
    ensures absent { H.held shelf.old name.now ≡ absent → IsErrOf result LoadError.Failed }

    ensures long { IsErrOf result (LoadError.Long limit) ↔
        (H.taken shelf.new ≡ H.taken shelf.old + limit + 1) }
    ensures long_file { IsErrOf result (LoadError.Long limit) →
        IfSome (known_bytes (H.held shelf.old name.now)) (λ bytes. limit < length bytes) }
    ensures that_limit { (other : ℕ) → IsErrOf result (LoadError.Long other) → other ≡ limit }

    // Whatever the answer is, no more bytes are taken than the file has, and at most one more than the limit.
    ensures once { IfSome (known_bytes (H.held shelf.old name.now)) (λ bytes.
        H.taken shelf.new ≤ H.taken shelf.old + length bytes) }
    ensures at_most { H.taken shelf.new ≤ H.taken shelf.old + limit + 1 }
    ensures fixed { H.fixed shelf.new ≡ H.fixed shelf.old }
{
    shelf.pick(name)?;
    let mut file = Vec::new(alloc);
    let mut piece = [0u8; PIECE];
    loop {
        // Asks for one byte past the limit, to find a file that is too long.
        let room = (limit + 1 - file.len()).min(PIECE);
        let count = shelf.read(&mut piece[..room])?;
        if count == 0 {
            return Ok(file);
        }
        if count > limit - file.len() {
            return Err(LoadError::Long {
                limit: limit as u64,
            });
        }
        file.extend_from_slice(&piece[..count])?;
    }
}
