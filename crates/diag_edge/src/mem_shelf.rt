//! A shelf in memory.
ghost use Rattle.std.specs.Prelude.{◌≡◌, ◌≢◌, ◌↔◌, ◌+◌, ◌^◌, ◌<◌, ◌≤◌, ◌⊎◌, min, Some, [], List, length, drop, IsErr, OnOk, OnErr, IfOk, IfSome, IfNone, MatchResult, refl};
ghost use Rattle.std.specs.Io.{ReadsAtMost};
ghost use Rattle.std.specs.Io.KnownBytes.{ReadConsumes};
ghost use Rattle.diag_edge.specs.Edge.{HasCause, absent, holds, known_bytes};
ghost use Rattle.diag_edge.specs.InMemory.{ShelfInMemory, NamedFile, IsNextFailing, after_call, no_calls, one_more, named_files, held_in};
ghost use Rattle.diag_edge.specs.inner.Places.{bytes_at};

use crate::calls::NumberedCalls;
use crate::copying::copy_from;
use crate::{ReadFailed, Shelf, Source};
use std::marker::Model;

/// Named files, and calls that fail. Of several files with one name the first counts.
#[derive(Drop)]
pub struct MemShelf {
    files: Vec<(String, Vec<u8>)>,
    // The place of the file that is read, or past the last one if there is none.
    chosen: usize,
    // How many of its bytes were read.
    at: usize,
    calls: NumberedCalls,
    taken: u64,
    faults: u64,
}

impl Model for MemShelf {
    ghost Value = { ShelfInMemory };

    ghost view = { λ s. record {
      files = named_files s.files.items;
      left = drop s.at (bytes_at s.files.items s.chosen);
      calls = s.calls;
      taken = s.taken;
      faults = s.faults;
    } };

    ghost invariant = { λ s. s.at ≤ length (bytes_at s.files.items s.chosen) };
}

impl MemShelf {
    /// Returns a shelf with these files, each a name and its bytes. Calls of `pick` and `read` are numbered together, from 1; those whose
    /// numbers are in `failing` fail. Before a pick nothing is left to read.
    pub fn new(files: Vec<(String, Vec<u8>)>, failing: Vec<u64>) -> Self
        ensures { result ≡ record {
          files = named_files files.items;
          left = [];
          calls = no_calls failing.items;
          taken = 0;
          faults = 0;
        } }
    {
        let chosen = files.len();
        MemShelf {
            files,
            chosen,
            at: 0,
            calls: NumberedCalls::new(failing),
            taken: 0,
            faults: 0,
        }
    }
}

// Returns the place of the first file with the name.
fn place_of(files: &[(String, Vec<u8>)], name: &str) -> Option<usize>
    ensures none { IfNone result (held_in (named_files files.now) name.now ≡ absent) }
    ensures some { IfSome result (λ place.
        held_in (named_files files.now) name.now ≡ holds (bytes_at files.now place)) }
{
    for (place, file) in files.iter().enumerate() {
        if file.0.as_str() == name {
            return Some(place);
        }
    }
    None
}

fn file_at(files: &[(String, Vec<u8>)], place: usize) -> &[u8]
    ensures { result.now ≡ bytes_at files.now place }
{
    match files.get(place) {
        Some(file) => &file.1,
        None => &[],
    }
}

impl Source for MemShelf {
    ghost left = { λ s. Some s.left };

    ghost taken = { λ s. s.taken };

    ghost faults = { λ s. s.faults };

    ghost shown = { λ s. record { left = Some s.left; taken = s.taken; faults = s.faults } };

    ghost shown_is = { λ s. refl };

    ghost Fixed = { List NamedFile };

    ghost fixed = { λ s. s.files };

    fn read(&mut self, into: &mut [u8]) -> Result<usize, ReadFailed>
        requires { self.old.taken < 2 ^ 63 }

        // What every source does.
        ensures room { ReadsAtMost result into.new }
        ensures bytes { ReadConsumes (Some self.old.left) (Some self.new.left) result into.new }
        ensures taken { MatchResult result
            (λ count. self.new.taken ≡ self.old.taken + count)
            (λ _. self.new.taken ≡ self.old.taken) }
        ensures cause { HasCause self.old.faults self.new.faults result }
        ensures files { self.new.files ≡ self.old.files }

        // What this type adds.
        ensures fails { IsErr result ↔ IsNextFailing self.old.calls }
        ensures count { IfOk result (λ count.
            count ≡ min (length into.new) (length self.old.left)) }
        ensures faults { OnErr result (self.new.faults ≡ one_more self.old.faults) }
        ensures calls { self.new.calls ≡ after_call self.old.calls }
    {
        if self.calls.next_fails() {
            self.faults = self.faults.saturating_add(1);
            return Err(ReadFailed);
        }
        let room = into.len();
        let count = copy_from(file_at(&self.files, self.chosen), self.at, into, room);
        self.at += count;
        self.taken += count as u64;
        Ok(count)
    }
}

impl Shelf for MemShelf {
    ghost use Rattle.std.proofs.Common.{ap};

    ghost may = { λ s name. Unit {0} };

    ghost held = { λ s. held_in s.files };

    ghost held_stays = { λ a b name same. ap (λ files. held_in files name) same };

    ghost may_stays = { λ a b name same. (λ h. h, λ h. h) };

    fn pick(&mut self, name: &str) -> Result<(), ReadFailed>
        // What every shelf does.
        ensures file { OnOk result (IfSome (known_bytes (held_in self.old.files name.now))
            (λ bytes. self.new.left ≡ bytes)) }
        ensures absent { OnOk result (held_in self.old.files name.now ≢ absent) }
        ensures taken { self.new.taken ≡ self.old.taken }
        ensures cause { HasCause self.old.faults self.new.faults result }
        ensures files { self.new.files ≡ self.old.files }

        // What this type adds.
        ensures fails { IsErr result ↔
            (IsNextFailing self.old.calls ⊎ (held_in self.old.files name.now ≡ absent)) }
        ensures empty_after_failure { OnErr result (self.new.left ≡ []) }
        ensures faults { OnErr result (self.new.faults ≡ one_more self.old.faults) }
        ensures calls { self.new.calls ≡ after_call self.old.calls }
    {
        let named = self.calls.next_fails();
        self.at = 0;
        if !named {
            if let Some(place) = place_of(&self.files, name) {
                self.chosen = place;
                return Ok(());
            }
        }
        // There is no file at this place, so nothing is left to read.
        self.chosen = self.files.len();
        self.faults = self.faults.saturating_add(1);
        Err(ReadFailed)
    }
}
