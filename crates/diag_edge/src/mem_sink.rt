//! A sink in memory.
ghost use Rattle.std.specs.Prelude.{◌≡◌, ◌↔◌, ◌+◌, ◌-◌, ◌<◌, ◌≤◌, ◌⊎◌, min, Some, [], ◌++◌, length, take, IsErr, OnErr, IfOk, vec_len, vec_capacity, refl};
ghost use Rattle.diag_edge.specs.Edge.{HasCause, Puts};
ghost use Rattle.diag_edge.specs.InMemory.{SinkInMemory, IsNextFailing, after_call, no_calls, one_more};

use crate::calls::NumberedCalls;
use crate::{Memory, Sink, WriteFailed};
use std::alloc::Global;
use std::marker::Model;

/// Keeps the bytes that it gets, up to a room that `new` allocates. Chosen calls fail.
#[derive(Drop)]
pub struct MemSink {
    bytes: Vec<u8>,
    room: usize,
    keep: usize,
    calls: NumberedCalls,
    faults: u64,
}

impl Model for MemSink {
    ghost Value = { SinkInMemory };

    ghost view = { λ s. record {
      got = s.bytes.items;
      room = s.room;
      keep = s.keep;
      calls = s.calls;
      faults = s.faults;
    } };

    ghost invariant = { λ s. (s.room ≤ vec_capacity s.bytes) × (vec_len s.bytes ≤ s.room) };
}

impl MemSink {
    /// Returns a sink with room for `room` bytes, allocated here and at no later call. A call fails if its number, counted from 1, is
    /// in `failing`, or if its bytes do not fit. It then keeps its first `keep` bytes, as far as there are that many and they fit.
    ///
    /// `Memory` if there is not enough memory.
    pub fn new(alloc: Global, room: usize, failing: Vec<u64>, keep: usize) -> Result<Self, Memory>
        ensures { IfOk result (λ sink. sink ≡ record {
          got = [];
          room = room;
          keep = keep;
          calls = no_calls failing.items;
          faults = 0;
        }) }
    {
        Ok(MemSink {
            bytes: Vec::with_capacity(alloc, room)?,
            room,
            keep,
            calls: NumberedCalls::new(failing),
            faults: 0,
        })
    }

    /// Returns the bytes accepted so far.
    pub fn as_slice(&self) -> &[u8]
        ensures got { result.now ≡ self.now.got }
        ensures fits { length result.now ≤ self.now.room }
    {
        &self.bytes
    }
}

impl Sink for MemSink {
    ghost got = { λ s. Some s.got };

    ghost faults = { λ s. s.faults };

    ghost shown = { λ s. record { got = Some s.got; faults = s.faults } };

    ghost shown_is = { λ s. refl };

    fn put(&mut self, bytes: &[u8]) -> Result<(), WriteFailed>
        // What every sink does.
        ensures bytes { Puts (Some self.old.got) (Some self.new.got) result bytes.now }
        ensures cause { HasCause self.old.faults self.new.faults result }

        // What this type adds. A call that fails appends the first `keep` bytes that fit.
        ensures fails { IsErr result ↔
            (IsNextFailing self.old.calls ⊎
            (self.old.room < length self.old.got + length bytes.now)) }
        ensures kept { OnErr result (self.new.got ≡ self.old.got ++
            take (min self.old.keep (self.old.room - length self.old.got)) bytes.now) }
        ensures faults { OnErr result (self.new.faults ≡ one_more self.old.faults) }
        ensures calls { self.new.calls ≡ after_call self.old.calls }
        ensures room { self.new.room ≡ self.old.room }
        ensures keep { self.new.keep ≡ self.old.keep }
    {
        let named = self.calls.next_fails();
        let free = self.room - self.bytes.len();

        // Both appends fit the room that `new` allocated, so they need no memory.
        if named || bytes.len() > free {
            let kept = self.keep.min(free).min(bytes.len());
            self.bytes.extend_from_slice(&bytes[..kept]).unwrap();
            self.faults = self.faults.saturating_add(1);
            return Err(WriteFailed);
        }
        self.bytes.extend_from_slice(bytes).unwrap();
        Ok(())
    }
}
