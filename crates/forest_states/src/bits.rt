ghost use Rattle.std.specs.Prelude.{◌≡◌, ◌<◌, ◌≤◌, ◌+◌, ◌%◌, length, drop};
ghost use Rattle.state_rules.specs.Bits.{bit_in, row_number};
ghost use Rattle.forest_states.specs.inner.BitLists.{bits_in, AreBits, copied};

use std::marker::Model;

/// A list of bits in the words of another value.
#[derive(Drop)]
pub(crate) struct Bits<'a> {
    words: &'a [u64],
    len: usize,
}

impl<'a> Model for Bits<'a> {
    ghost use Rattle.std.specs.Prelude.{Bool, List};
    ghost use Rattle.forest_states.specs.inner.BitLists.{bits_in, AreBits};

    ghost Value = { List Bool };

    ghost view = { λ b. bits_in b.len b.words.now };

    ghost invariant = { λ b. AreBits b.len b.words.now };
}

impl<'a> Bits<'a> {
    /// Takes the first `len` bits of words, which have no others.
    pub(crate) fn of(words: &'a [u64], len: usize) -> Bits<'a>
        requires { AreBits len words.now }
        ensures { result ≡ bits_in len words.now }
    {
        Bits { words, len }
    }

    #[tactic(auto, using(crate::proofs::Rules::bit_lengths))]
    pub(crate) fn len(&self) -> usize
        ensures { result ≡ length self.now }
    {
        self.len
    }

    /// Returns the bit at a place, or 0 past the end.
    #[tactic(auto, using(crate::proofs::Rules::bits_at_steps))]
    pub(crate) fn at(&self, place: usize) -> bool
        ensures { result ≡ bit_in self.now place }
    {
        if place >= self.len {
            return false;
        }
        (self.words[place / 64] >> (place % 64)) & 1 == 1
    }

    /// Returns `count` bits from a place on, which are in one word.
    #[tactic(auto, using(crate::proofs::Rules::bits_read_steps))]
    pub(crate) fn read(&self, at: usize, count: usize) -> u64
        requires some { 0 < count }
        requires within { at % 64 + count ≤ 64 }
        ensures { result ≡ row_number (copied count (drop at self.now)) }
    {
        if at / 64 >= self.words.len() {
            return 0;
        }
        (self.words[at / 64] << (64 - at % 64 - count)) >> (64 - count)
    }
}
