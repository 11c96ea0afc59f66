//! A source in memory.
ghost use Rattle.std.specs.Prelude.{◌≡◌, ◌↔◌, ◌+◌, ◌-◌, ◌^◌, ◌<◌, ◌≤◌, min, Some, length, drop, IsErr, OnErr, IfOk, MatchResult, vec_len, refl};
ghost use Rattle.std.specs.Io.{ReadsAtMost};
ghost use Rattle.std.specs.Io.KnownBytes.{ReadConsumes};
ghost use Rattle.diag_edge.specs.Edge.{HasCause};
ghost use Rattle.diag_edge.specs.InMemory.{SourceInMemory, IsNextFailing, after_call, no_calls, one_more};

use crate::calls::NumberedCalls;
use crate::copying::copy_from;
use crate::{ReadFailed, Source};
use std::marker::Model;

/// Bytes that come in pieces. Chosen calls fail.
#[derive(Drop)]
pub struct MemSource {
    bytes: Vec<u8>,
    // How many of the bytes were read.
    at: usize,
    piece: usize,
    calls: NumberedCalls,
    taken: u64,
    faults: u64,
}

impl Model for MemSource {
    ghost Value = { SourceInMemory };

    ghost view = { λ s. record {
      left = drop s.at s.bytes.items;
      piece = s.piece;
      calls = s.calls;
      taken = s.taken;
      faults = s.faults;
    } };

    ghost invariant = { λ s. (s.at ≤ vec_len s.bytes) × (0 < s.piece) };
}

impl MemSource {
    /// Returns a source of these bytes. A read gives at most `piece` bytes. Calls whose numbers, counted from 1, are in `failing` fail.
    pub fn new(bytes: Vec<u8>, piece: usize, failing: Vec<u64>) -> Self
        requires { 0 < piece }
        ensures { result ≡ record {
          left = bytes.items;
          piece = piece;
          calls = no_calls failing.items;
          taken = 0;
          faults = 0;
        } }
    {
        MemSource {
            bytes,
            at: 0,
            piece,
            calls: NumberedCalls::new(failing),
            taken: 0,
            faults: 0,
        }
    }
}

impl Source for MemSource {
    ghost left = { λ s. Some s.left };

    ghost taken = { λ s. s.taken };

    ghost faults = { λ s. s.faults };

    ghost shown = { λ s. record { left = Some s.left; taken = s.taken; faults = s.faults } };

    ghost shown_is = { λ s. refl };

    ghost Fixed = { Unit {0} };

    ghost fixed = { λ _. tt };

    fn read(&mut self, into: &mut [u8]) -> Result<usize, ReadFailed>
        requires { self.old.taken < 2 ^ 63 }

        // What every source does.
        ensures room { ReadsAtMost result into.new }
        ensures bytes { ReadConsumes (Some self.old.left) (Some self.new.left) result into.new }
        ensures taken { MatchResult result
            (λ count. self.new.taken ≡ self.old.taken + count)
            (λ _. self.new.taken ≡ self.old.taken) }
        ensures cause { HasCause self.old.faults self.new.faults result }

        // What this type adds.
        ensures fails { IsErr result ↔ IsNextFailing self.old.calls }
        ensures count { IfOk result (λ count.
            count ≡ min self.old.piece (min (length into.new) (length self.old.left))) }
        ensures faults { OnErr result (self.new.faults ≡ one_more self.old.faults) }
        ensures calls { self.new.calls ≡ after_call self.old.calls }
        ensures piece { self.new.piece ≡ self.old.piece }
    {
        if self.calls.next_fails() {
            self.faults = self.faults.saturating_add(1);
            return Err(ReadFailed);
        }
        let count = copy_from(&self.bytes, self.at, into, self.piece);
        self.at += count;
        self.taken += count as u64;
        Ok(count)
    }
}
