//! The traits of the outside, and the errors of their calls.
ghost use Rattle.std.specs.Prelude.{◌≡◌, ◌≢◌, ◌↔◌, ◌+◌, ◌^◌, ◌<◌, ℕ, List, Option, Some, OnOk, IfSome, MatchResult};
ghost use Rattle.std.specs.Io.{ReadsAtMost};
ghost use Rattle.std.specs.Io.KnownBytes.{ReadConsumes};
ghost use Rattle.diag_edge.specs.Edge.{HasCause, Holding, absent, known_bytes, Puts, Reading, Writing};

/// A read, or the pick of a file, failed.
#[derive(Clone, Copy, Debug, PartialEq, Eq)]
pub struct ReadFailed;

/// A write failed.
#[derive(Clone, Copy, Debug, PartialEq, Eq)]
pub struct WriteFailed;

/// A source of bytes.
pub trait Source {
    /// The bytes still to come, if they are shown.
    ghost left: { Self → Option (List ℕ) };

    /// How many bytes were handed out.
    ghost taken: { Self → ℕ };

    /// How often a call has failed, up to the greatest u64.
    ghost faults: { Self → ℕ };

    /// The type of what no call changes.
    ghost Fixed: { Type 0 };

    /// What no call changes.
    ghost fixed: { Self → Fixed };

    /// What it shows at a time.
    ghost shown: { Self → Reading };

    /// `shown` is these three.
    ghost shown_is: { (s : Self) → shown s ≡ record { left = left s; taken = taken s; faults = faults s } };

    /// Reads some of the bytes still to come into the front of `into`, and returns how many. With room for a byte it returns 0 only at the
    /// end of the input. The rest of `into`, and all of it at `ReadFailed`, is open. At `ReadFailed` no byte was handed out.
    fn read(&mut self, into: &mut [u8]) -> Result<usize, ReadFailed>
        requires { taken self.old < 2 ^ 63 }

        ensures room { ReadsAtMost result into.new }

        // The bytes read are the first of those to come; 0 with room means that none are left.
        ensures bytes { ReadConsumes (left self.old) (left self.new) result into.new }
        ensures taken { MatchResult result
            (λ count. taken self.new ≡ taken self.old + count)
            (λ _. taken self.new ≡ taken self.old) }
        ensures cause { HasCause (faults self.old) (faults self.new) result }
        ensures fixed { fixed self.new ≡ fixed self.old };
}

/// Named files, which are read one at a time.
pub trait Shelf: Source {
    /// Which names may be picked.
    ghost may: { Self → List ℕ → Type 0 };

    /// What is shown of each name.
    ghost held: { Self → List ℕ → Holding };

    /// Goes to the beginning of the file with this name: `read` then gives its bytes. After `ReadFailed` it is open which bytes are still
    /// to come.
    fn pick(&mut self, name: &str) -> Result<(), ReadFailed>
        requires { may self.old name.now }

        ensures file { OnOk result (IfSome (known_bytes (held self.old name.now))
            (λ bytes. Self.left self.new ≡ Some bytes)) }
        ensures absent { OnOk result (held self.old name.now ≢ absent) }
        ensures taken { Self.taken self.new ≡ Self.taken self.old }
        ensures cause { HasCause (Self.faults self.old) (Self.faults self.new) result }
        ensures fixed { Self.fixed self.new ≡ Self.fixed self.old };

    /// What is held never changes.
    ghost held_stays: { (a b : Self) (name : List ℕ) →
        Self.fixed b ≡ Self.fixed a → held b name ≡ held a name };

    /// What may be picked never changes.
    ghost may_stays: { (a b : Self) (name : List ℕ) →
        Self.fixed b ≡ Self.fixed a → may b name ↔ may a name };
}

/// A sink of bytes.
pub trait Sink {
    /// The bytes accepted, if they are shown.
    ghost got: { Self → Option (List ℕ) };

    /// How often a call has failed, up to the greatest u64.
    ghost faults: { Self → ℕ };

    /// What it shows at a time.
    ghost shown: { Self → Writing };

    /// `shown` is these two.
    ghost shown_is: { (s : Self) → shown s ≡ record { got = got s; faults = faults s } };

    /// Writes all the bytes, or at `WriteFailed` a prefix of them.
    fn put(&mut self, bytes: &[u8]) -> Result<(), WriteFailed>
        ensures bytes { Puts (got self.old) (got self.new) result bytes.now }
        ensures cause { HasCause (faults self.old) (faults self.new) result };
}
