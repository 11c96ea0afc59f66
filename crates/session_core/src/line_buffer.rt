ghost use Rattle.std.specs.Prelude.{◌≡◌, ◌≤◌, [], ◌∷◌, ◌++◌, IfOk};
ghost use Rattle.session_core.specs.inner.Gathering.{kept};

use script_lang::LINE_LIMIT;
use std::alloc::{AllocError, Global};
use std::marker::Model;

/// One byte more than the longest line.
const ROOM: usize = LINE_LIMIT + 1;

/// The beginning of a line, up to one byte past the longest line. The rest is dropped: one byte more is enough for the line to be refused.
#[derive(Drop)]
pub struct LineBuffer {
    bytes: Vec<u8>,
}

impl Model for LineBuffer {
    ghost use Rattle.std.specs.Prelude.{ℕ, List, ◌+◌, ◌≤◌, vec_len, vec_capacity};
    ghost use Rattle.script_lang.specs.declared.limits.TheConstants.{LINE_LIMIT};

    ghost Value = { List ℕ };

    ghost view = { λ g. g.bytes.items };

    ghost invariant = { λ g. (vec_len g.bytes ≤ LINE_LIMIT + 1) × (LINE_LIMIT + 1 ≤ vec_capacity g.bytes) };
}

impl LineBuffer {
    /// Makes an empty buffer with memory for the longest line. `Err` means that memory ran out.
    pub fn new(alloc: Global) -> Result<Self, AllocError>
        ensures { IfOk result (λ gathered. gathered ≡ []) }
    {
        let bytes = Vec::with_capacity(alloc, ROOM)?;
        Ok(LineBuffer { bytes })
    }

    /// Adds a byte, or drops it if the line is past the longest.
    #[tactic(auto, using(crate::proofs::Rules::kept_bytes))]
    pub fn push(&mut self, byte: u8)
        ensures { self.new ≡ kept (self.old ++ byte ∷ []) }
    {
        if self.bytes.len() < ROOM {
            self.bytes.push(byte).unwrap();
        }
    }

    /// Begins the next line.
    pub fn clear(&mut self)
        ensures { self.new ≡ [] }
    {
        self.bytes.clear();
    }

    /// Returns the bytes that were kept.
    pub fn as_slice(&self) -> &[u8]
        ensures { result.now ≡ self.now }
    {
        &self.bytes
    }
}
