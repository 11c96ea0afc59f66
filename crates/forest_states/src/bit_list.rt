ghost use Rattle.std.specs.Prelude.{◌≡◌, ◌<◌, ◌≤◌, ◌+◌, ◌*◌, ◌/◌, ◌%◌, Bool, List, ◌^◌, [], ◌∷◌, ◌++◌, length, drop, IfOk, OnOk};
ghost use Rattle.state_rules.specs.Bits.{row_number};
ghost use Rattle.elimination_forests.specs.Branches.{words_of};
ghost use Rattle.forest_states.specs.inner.BitLists.{copied};

use crate::bits::Bits;
use smallvec::SmallVec;
use std::alloc::{AllocError, Global};
use std::marker::Model;

/// A list of bits.
#[derive(Drop)]
pub(crate) struct BitList {
    words: SmallVec<u64, 2>,
    len: usize,
}

impl Model for BitList {
    ghost use Rattle.std.specs.Prelude.{Bool, List};
    ghost use Rattle.forest_states.specs.inner.BitLists.{bits_in, AreBits};

    ghost Value = { List Bool };

    ghost view = { λ b. bits_in b.len b.words.items };

    ghost invariant = { λ b. AreBits b.len b.words.items };
}

impl BitList {
    /// Creates an empty list with room for `room` bits.
    pub(crate) fn new(alloc: Global, room: usize) -> Result<BitList, AllocError>
        ensures { IfOk result (λ bits. bits ≡ []) }
    {
        let mut words = SmallVec::from_slice(alloc, &[0])?;
        if room >= 128 {
            words.reserve_exact(room / 64)?;
        }
        Ok(BitList { words, len: 0 })
    }

    /// Creates a list of `len` bits, which are those of one word.
    #[tactic(auto, using(crate::proofs::Rules::bit_list_of_word_steps))]
    pub(crate) fn of_word(alloc: Global, word: u64, len: usize) -> Result<BitList, AllocError>
        requires few { len < 64 }
        requires word { (bits : List Bool) × ((length bits ≡ len) × (word ≡ row_number bits)) }
        ensures { IfOk result (λ list. (bits : List Bool) → length bits ≡ len → word ≡ row_number bits → list ≡ bits) }
    {
        let words = SmallVec::from_slice(alloc, &[word])?;
        Ok(BitList { words, len })
    }

    /// Returns the only word.
    pub(crate) fn into_word(self) -> u64
        requires { length self < 64 }
        ensures { result ∷ [] ≡ words_of (length self / 64 + 1) self }
    {
        self.words[0]
    }

    /// Returns the words.
    #[tactic(auto, using(crate::proofs::Rules::bit_lengths))]
    pub(crate) fn into_words(self) -> SmallVec<u64, 2>
        ensures { result.items ≡ words_of (length self / 64 + 1) self }
    {
        self.words
    }

    /// Adds a bit at the end.
    pub(crate) fn push(&mut self, bit: bool) -> Result<(), AllocError>
        requires { length self.old < 2 ^ 63 }
        ensures { OnOk result (self.new ≡ self.old ++ bit ∷ []) }
    {
        self.put(u64::from(bit), 1)
    }

    /// Adds `count` bits of another list from a place on, and 0 for those past its end.
    #[tactic(auto, using(crate::proofs::Rules::bit_list_append_steps))]
    pub(crate) fn append(
        &mut self,
        from: &Bits<'_>,
        at: usize,
        count: usize,
    ) -> Result<(), AllocError>
        requires few { length self.old + count < 2 ^ 63 }
        requires at { at + count < 2 ^ 64 }
        ensures { OnOk result (self.new ≡ self.old ++ copied count (drop at from.now)) }
    {
        let mut done = 0;
        'pieces: while done < count {
            let many = piece(at + done, self.len, count - done);
            self.put(from.read(at + done, many), many)?;
            done += many;
        }
        Ok(())
    }

    /// Adds `count` bits, which stay in one word.
    #[tactic(auto, using(crate::proofs::Rules::bit_lengths))]
    pub(crate) fn put(&mut self, row: u64, count: usize) -> Result<(), AllocError>
        requires some { 0 < count }
        requires few { length self.old < 2 ^ 63 }
        requires within { length self.old % 64 + count ≤ 64 }
        requires row { (more : List Bool) × ((length more ≡ count) × (row ≡ row_number more)) }
        ensures { OnOk result ((more : List Bool) → length more ≡ count → row ≡ row_number more → self.new ≡ self.old ++ more) }
    {
        if self.len % 64 + count == 64 {
            self.words.push(0)?;
        }
        put_row(self.words.as_mut_slice(), self.len, row);
        self.len += count;
        Ok(())
    }
}

// How many of the `left` bits to copy at once: they are in one word at both places.
fn piece(at: usize, len: usize, left: usize) -> usize
    requires { 0 < left }
    ensures some { 0 < result }
    ensures few { result ≤ left }
    ensures at { at % 64 + result ≤ 64 }
    ensures len { len % 64 + result ≤ 64 }
{
    left.min(64 - at % 64).min(64 - len % 64)
}

// Writes bits, which stay in one word, after those that the words have.
#[tactic(auto, using(crate::proofs::Rules::put_row_steps))]
fn put_row(words: &mut [u64], at: usize, row: u64)
    requires { at < 64 * length words.old }
    ensures long { length words.new ≡ length words.old }
    ensures words { (bits more : List Bool) → length bits ≡ at → at % 64 + length more ≤ 64 → row ≡ row_number more
        → words.old ≡ words_of (length words.old) bits → words.new ≡ words_of (length words.old) (bits ++ more) }
{
    words[at / 64] |= row << (at % 64);
}
