ghost use Rattle.std.specs.Prelude.{◌≡◌, ◌<◌, ◌≤◌, ◌+◌, ◌^◌, ◌==◌, nat_eq, [], true, length, slice_get, slice_index_or, Some, IfOk, OnOk};
ghost use Rattle.std.specs.List.{list_all, position_or_len};
ghost use Rattle.indexmap.specs.IndexSet.{insert_key};
ghost use Rattle.forest_states.specs.declared.states.Kept.TheVariants.{Words, Lists};
ghost use Rattle.forest_states.specs.inner.BitLists.{is_same};
ghost use Rattle.forest_states.specs.inner.KeptStates.{kept_words, kept_lists, AreKept};

use crate::bit_list::BitList;
use crate::bits::Bits;
use indexmap::IndexSet;
use smallvec::SmallVec;
use std::alloc::{AllocError, Global};
use std::marker::Model;

/// Different states of one length, in the order in which they were added.
#[derive(Drop)]
pub(crate) struct States {
    size: usize,
    kept: Kept,
}

/// The words of states. If one is enough for each, only that is kept, since there can be millions of states.
#[derive(Drop)]
pub(crate) enum Kept {
    Words(IndexSet<u64>),
    Lists(IndexSet<SmallVec<u64, 2>>),
}

impl Model for States {
    ghost use Rattle.forest_states.specs.inner.KeptStates.{SizedLists, kept_lists, AreKept};

    ghost Value = { SizedLists };

    ghost view = { λ s. record { size = s.size; lists = kept_lists s.size s.kept } };

    ghost invariant = { λ s. AreKept s.size s.kept };
}

impl States {
    /// Creates an empty set of states of `size` bits, with room for `room`.
    pub(crate) fn new(alloc: Global, size: usize, room: usize) -> Result<States, AllocError>
        ensures { IfOk result (λ states. states ≡ record { size = size; lists = [] }) }
    {
        let kept = if size < 64 {
            Kept::Words(IndexSet::with_capacity(alloc, room)?)
        } else {
            Kept::Lists(IndexSet::with_capacity(alloc, room)?)
        };
        Ok(States { size, kept })
    }

    /// Returns the number of bits of each state.
    pub(crate) fn size(&self) -> usize
        ensures size { result ≡ self.now.size }
        ensures all { list_all (λ s. length s == self.now.size) self.now.lists ≡ true }
    {
        self.size
    }

    pub(crate) fn len(&self) -> usize
        ensures { result ≡ length self.now.lists }
    {
        match &self.kept {
            Kept::Words(words) => words.len(),
            Kept::Lists(lists) => lists.len(),
        }
    }

    pub(crate) fn at(&self, place: usize) -> Bits<'_>
        requires { place < length self.now.lists }
        ensures { slice_get self.now.lists place ≡ Some result }
    {
        Bits::of(words_at(&self.kept, place), self.size)
    }

    /// Adds a state if it is new, and returns its place.
    pub(crate) fn add(&mut self, state: BitList) -> Result<u32, AllocError>
        requires few { length self.old.lists < 2 ^ 32 }
        requires size { length state ≡ self.old.size }
        ensures few { OnOk result (length self.new.lists ≤ length self.old.lists + 1) }
        ensures size { OnOk result (self.new.size ≡ self.old.size) }
        ensures lists { OnOk result (self.new.lists ≡ insert_key is_same self.old.lists state) }
        ensures place { IfOk result (λ place. place ≡ position_or_len (is_same state) self.old.lists) }
    {
        match &mut self.kept {
            Kept::Words(words) => add_word(words, self.size, state),
            Kept::Lists(lists) => add_list(lists, self.size, state),
        }
    }
}

#[tactic(auto, using(crate::proofs::Rules::words_at_steps))]
fn words_at(kept: &Kept, place: usize) -> &[u64]
    requires { place < length (kept_words kept.now) }
    ensures { result.now ≡ slice_index_or (kept_words kept.now) place [] }
{
    match kept {
        Kept::Words(words) => &words.as_slice()[place..place + 1],
        Kept::Lists(lists) => lists.as_slice()[place].as_slice(),
    }
}

fn add_word(words: &mut IndexSet<u64>, size: usize, state: BitList) -> Result<u32, AllocError>
    requires few { length words.old.keys < 2 ^ 32 }
    requires kept { AreKept size (Words words.old) }
    requires size { length state ≡ size }
    ensures few { OnOk result (length words.new.keys ≤ length words.old.keys + 1) }
    ensures kept { AreKept size (Words words.new) }
    ensures lists { OnOk result (kept_lists size (Words words.new) ≡ insert_key is_same (kept_lists size (Words words.old)) state) }
    ensures place { IfOk result (λ place. place ≡ position_or_len (is_same state) (kept_lists size (Words words.old))) }
{
    let (place, _) = words.insert_full(state.into_word())?;
    Ok(place as u32)
}

fn add_list(
    lists: &mut IndexSet<SmallVec<u64, 2>>,
    size: usize,
    state: BitList,
) -> Result<u32, AllocError>
    requires few { length lists.old.keys < 2 ^ 32 }
    requires kept { AreKept size (Lists lists.old) }
    requires size { length state ≡ size }
    ensures few { OnOk result (length lists.new.keys ≤ length lists.old.keys + 1) }
    ensures kept { AreKept size (Lists lists.new) }
    ensures lists { OnOk result (kept_lists size (Lists lists.new) ≡ insert_key is_same (kept_lists size (Lists lists.old)) state) }
    ensures place { IfOk result (λ place. place ≡ position_or_len (is_same state) (kept_lists size (Lists lists.old))) }
{
    let (place, _) = lists.insert_full(state.into_words())?;
    Ok(place as u32)
}
