ghost use Rattle.std.specs.Prelude.{◌≡◌, ◌<◌, ◌≤◌, ◌+◌, ◌++◌, ◌==◌, Bool, List, true, not, length, drop, replicate};
ghost use Rattle.state_rules.specs.Bits.{bit_in, row_number};
ghost use Rattle.forest_states.specs.inner.BitLists.{copied};
ghost use Rattle.forest_states.specs.inner.TransitionTables.{in_both, in_one};

/// Returns the first `len` bits of a word, and those of `row` after them.
#[tactic(auto, using(crate::proofs::Rules::row_steps))]
pub(crate) fn with_bits(word: u64, len: usize, row: u64) -> u64
    requires { len < 64 }
    ensures { (bits more : List Bool) → length bits ≡ len → len + length more ≤ 64 → word ≡ row_number bits → row ≡ row_number more
        → result ≡ row_number (bits ++ more) }
{
    word | (row << len)
}

/// Returns the first `count` bits of a word.
#[tactic(auto, using(crate::proofs::Rules::row_steps))]
pub(crate) fn first_bits(word: u64, count: usize) -> u64
    requires { count < 64 }
    ensures { (bits : List Bool) → word ≡ row_number bits → result ≡ row_number (copied count bits) }
{
    word & ((1 << count) - 1)
}

/// Returns the bits of a word after the first `count`.
#[tactic(auto, using(crate::proofs::Rules::row_steps))]
pub(crate) fn later_bits(word: u64, count: usize) -> u64
    requires { count < 64 }
    ensures { (bits : List Bool) → word ≡ row_number bits → result ≡ row_number (drop count bits) }
{
    word >> count
}

/// Returns `count` bits that are 1.
#[tactic(auto, using(crate::proofs::Rules::row_steps))]
pub(crate) fn ones(count: usize) -> u64
    requires { count < 64 }
    ensures { result ≡ row_number (replicate count true) }
{
    (1 << count) - 1
}

/// Returns the bits of a word that are not in another one.
#[tactic(auto, using(crate::proofs::Rules::row_steps))]
pub(crate) fn without(word: u64, other: u64) -> u64
    ensures { (bits others : List Bool) → word ≡ row_number bits → other ≡ row_number others → result ≡ row_number (in_one bits others) }
{
    word - (word & other)
}

/// Whether two words have a bit in common.
#[tactic(auto, using(crate::proofs::Rules::row_steps))]
pub(crate) fn meets(word: u64, other: u64) -> bool
    ensures { (bits others : List Bool) → word ≡ row_number bits → other ≡ row_number others → result ≡ not (row_number (in_both bits others) == 0) }
{
    word & other != 0
}
