//! The text of a graph while it is written.
ghost use Rattle.std.specs.Prelude.{◌≡◌, ◌∷◌, [], Some};
ghost use Rattle.diag_edge.specs.Edge.{HasCause, Puts};
ghost use Rattle.nnf_text.specs.Extending.{Extends, Ends};

use diag_edge::{Chunk, Sink, WriteFailed};
use itoa::{Buffer, Integer};
use std::marker::Model;

/// A text that is put in chunks. A failed write is reported at the end; after it nothing more is put.
#[derive(Drop)]
pub struct GraphText {
    chunk: Chunk,
    failed: bool,
}

impl Model for GraphText {
    ghost use Rattle.std.specs.Prelude.{ℕ, List, Option, Some, None, if◌then◌else◌};

    ghost Value = { Option (List ℕ) };

    ghost view = { λ text. if text.failed then None else Some text.chunk };
}

impl GraphText {
    /// Makes an empty text.
    pub fn new() -> GraphText
        ensures { result ≡ Some [] }
    {
        GraphText {
            chunk: Chunk::new(),
            failed: false,
        }
    }

    /// Adds bytes.
    pub fn add<O: Sink>(&mut self, out: &mut O, bytes: &[u8])
        ensures { Extends (O.shown out.old) (O.shown out.new) self.old self.new bytes.now }
    {
        if !self.failed {
            self.failed = self.chunk.add(out, bytes).is_err();
        }
    }

    /// Adds a number in decimal digits.
    pub fn add_number<O: Sink, I: Integer>(&mut self, out: &mut O, number: I)
        ensures { Extends (O.shown out.old) (O.shown out.new) self.old self.new (I.text number) }
    {
        self.add(out, Buffer::new().format(number).as_bytes());
    }

    /// Adds a space and a number in decimal digits.
    pub fn add_count<O: Sink, I: Integer>(&mut self, out: &mut O, number: I)
        ensures { Extends (O.shown out.old) (O.shown out.new) self.old self.new (32 ∷ I.text number) }
    {
        if !self.failed {
            self.failed = self.chunk.add_count(out, number).is_err();
        }
    }

    /// Puts what is not yet put. Fails if a write failed, now or before.
    pub fn finish<O: Sink>(self, out: &mut O) -> Result<(), WriteFailed>
        ensures { Ends (O.shown out.old) (O.shown out.new) self result }
    {
        if self.failed {
            return Err(WriteFailed);
        }
        self.chunk.put(out)
    }
}
