//! A source, a shelf and a sink whose calls never fail, for runs whose whole output is wanted.
ghost use Rattle.std.specs.Prelude.{◌≡◌, ◌≢◌, ◌+◌, ◌-◌, ◌%◌, ◌^◌, ◌<◌, ◌≤◌, min, Some, None, [], List, ℕ, length, drop, IsOk, IfOk, IfSome, OnOk, MatchResult, vec_len, refl};
ghost use Rattle.std.specs.Io.{ReadsAtMost};
ghost use Rattle.std.specs.Io.KnownBytes.{ReadConsumes};
ghost use Rattle.diag_edge.specs.Edge.{HasCause, Puts, absent, holds, known_bytes};
ghost use Rattle.diag_edge.specs.Sure.{SureBytes, SureFile};

use crate::copying::copy_from;
use crate::{ReadFailed, Shelf, Sink, Source, WriteFailed};
use std::marker::Model;

/// Bytes that come in pieces.
#[derive(Drop)]
pub struct SureSource {
    bytes: Vec<u8>,
    // How many of the bytes were read.
    at: usize,
    piece: usize,
    taken: u64,
}

impl Model for SureSource {
    ghost Value = { SureBytes };

    ghost view = { λ s. record { left = drop s.at s.bytes.items; piece = s.piece; taken = s.taken } };

    ghost invariant = { λ s. (s.at ≤ vec_len s.bytes) × (0 < s.piece) };
}

impl SureSource {
    /// Returns a source of these bytes. A read gives at most `piece` bytes.
    pub fn new(bytes: Vec<u8>, piece: usize) -> Self
        requires { 0 < piece }
        ensures { result ≡ record { left = bytes.items; piece = piece; taken = 0 } }
    {
        SureSource {
            bytes,
            at: 0,
            piece,
            taken: 0,
        }
    }
}

impl Source for SureSource {
    ghost left = { λ s. Some s.left };

    ghost taken = { λ s. s.taken };

    ghost faults = { λ s. 0 };

    ghost shown = { λ s. record { left = Some s.left; taken = s.taken; faults = 0 } };

    ghost shown_is = { λ s. refl };

    ghost Fixed = { Unit {0} };

    ghost fixed = { λ _. tt };

    fn read(&mut self, into: &mut [u8]) -> Result<usize, ReadFailed>
        requires { self.old.taken < 2 ^ 63 }

        // What every source does.
        ensures room { ReadsAtMost result into.new }
        ensures bytes { ReadConsumes (Some self.old.left) (Some self.new.left) result into.new }
        ensures taken { MatchResult result
            (λ count. self.new.taken ≡ self.old.taken + count)
            (λ _. self.new.taken ≡ self.old.taken) }
        ensures cause { HasCause 0 0 result }

        // What this type adds.
        ensures ok { IsOk result }
        ensures count { IfOk result (λ count.
            count ≡ min self.old.piece (min (length into.new) (length self.old.left))) }
        ensures piece { self.new.piece ≡ self.old.piece }
    {
        let count = copy_from(&self.bytes, self.at, into, self.piece);
        self.at += count;
        self.taken += count as u64;
        Ok(count)
    }
}

/// One file, which has every name.
#[derive(Drop)]
pub struct SureShelf {
    bytes: Vec<u8>,
    // How many of the bytes were read; all of them before the first pick.
    at: usize,
    taken: u64,
}

impl Model for SureShelf {
    ghost Value = { SureFile };

    ghost view = { λ s. record { file = s.bytes.items; left = drop s.at s.bytes.items; taken = s.taken } };

    ghost invariant = { λ s. s.at ≤ vec_len s.bytes };
}

impl SureShelf {
    /// Returns a shelf that has this file under every name. Before a pick nothing is left to read.
    pub fn new(file: Vec<u8>) -> Self
        ensures { result ≡ record { file = file.items; left = []; taken = 0 } }
    {
        let at = file.len();
        SureShelf {
            bytes: file,
            at,
            taken: 0,
        }
    }
}

impl Source for SureShelf {
    ghost left = { λ s. Some s.left };

    ghost taken = { λ s. s.taken };

    ghost faults = { λ s. 0 };

    ghost shown = { λ s. record { left = Some s.left; taken = s.taken; faults = 0 } };

    ghost shown_is = { λ s. refl };

    ghost Fixed = { List ℕ };

    ghost fixed = { λ s. s.file };

    fn read(&mut self, into: &mut [u8]) -> Result<usize, ReadFailed>
        requires { self.old.taken < 2 ^ 63 }

        // What every source does.
        ensures room { ReadsAtMost result into.new }
        ensures bytes { ReadConsumes (Some self.old.left) (Some self.new.left) result into.new }
        ensures taken { MatchResult result
            (λ count. self.new.taken ≡ self.old.taken + count)
            (λ _. self.new.taken ≡ self.old.taken) }
        ensures cause { HasCause 0 0 result }
        ensures file { self.new.file ≡ self.old.file }

        // What this type adds.
        ensures ok { IsOk result }
        ensures count { IfOk result (λ count. count ≡ min (length into.new) (length self.old.left)) }
    {
        let room = into.len();
        let count = copy_from(&self.bytes, self.at, into, room);
        self.at += count;
        self.taken += count as u64;
        Ok(count)
    }
}

impl Shelf for SureShelf {
    ghost use Rattle.std.proofs.Common.{ap};

    ghost may = { λ s name. Unit {0} };

    ghost held = { λ s name. holds s.file };

    ghost held_stays = { λ a b name same. ap holds same };

    ghost may_stays = { λ a b name same. (λ h. h, λ h. h) };

    fn pick(&mut self, _name: &str) -> Result<(), ReadFailed>
        // What every shelf does.
        ensures file { OnOk result (IfSome (known_bytes (holds self.old.file)) (λ bytes. self.new.left ≡ bytes)) }
        ensures absent { OnOk result (holds self.old.file ≢ absent) }
        ensures taken { self.new.taken ≡ self.old.taken }
        ensures cause { HasCause 0 0 result }
        ensures same { self.new.file ≡ self.old.file }

        // What this type adds.
        ensures ok { IsOk result }
    {
        self.at = 0;
        Ok(())
    }
}

/// Counts the bytes that it is given, and keeps none of them.
#[derive(Drop)]
pub struct TallySink {
    count: u64,
}

impl Model for TallySink {
    ghost Value = { ℕ };

    ghost view = { λ s. s.count };
}

impl TallySink {
    /// Returns a sink that has counted no bytes.
    pub fn new() -> Self
        ensures { result ≡ 0 }
    {
        TallySink { count: 0 }
    }

    /// Returns how many bytes were put; after the greatest u64 the count starts at 0 again.
    pub fn count(&self) -> u64
        ensures { result ≡ self.now }
    {
        self.count
    }
}

impl Sink for TallySink {
    ghost got = { λ s. None };

    ghost faults = { λ s. 0 };

    ghost shown = { λ s. record { got = None; faults = 0 } };

    ghost shown_is = { λ s. refl };

    fn put(&mut self, bytes: &[u8]) -> Result<(), WriteFailed>
        // What every sink does.
        ensures bytes { Puts None None result bytes.now }
        ensures cause { HasCause 0 0 result }

        // What this type adds.
        ensures ok { IsOk result }
        ensures count { self.new ≡ (self.old + length bytes.now) % 2 ^ 64 }
    {
        self.count = self.count.wrapping_add(bytes.len() as u64);
        Ok(())
    }
}
