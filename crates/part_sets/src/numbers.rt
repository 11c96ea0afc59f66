//! Sets of numbers, as bits of words.
ghost use Rattle.std.specs.Prelude.{◌≡◌, ◌⊎◌, ℕ, ◌+◌, ◌*◌, ◌<◌, ◌≤◌, ◌&&◌, ◌||◌, true, false, not, length, ◌==◌};
ghost use Rattle.part_sets.specs.Numbers.{has_number, part_words, set_at};

use crate::kept::PART_LIMIT;

/// How many numbers a word holds.
pub const WIDTH: usize = 32;

/// Returns how many words a set of `parts` parts has.
pub fn part_words(parts: usize) -> usize
    ensures { result ≡ part_words parts }
{
    parts.div_ceil(WIDTH)
}

/// Returns one of several sets that are one after the other.
pub fn set_at(sets: &[u32], k: usize, size: usize) -> &[u32]
    requires { k * size + size ≤ length sets.now }
    ensures set { result.now ≡ set_at sets.now k size }
    ensures long { length result.now ≡ size }
{
    let start = k * size;
    &sets[start..start + size]
}

/// Whether a set has a number.
pub fn has_number(set: &[u32], number: usize) -> bool
    requires { number < WIDTH * length set.now }
    ensures { result ≡ has_number set.now number }
{
    (set[number / WIDTH] >> (number % WIDTH)) & 1 == 1
}

/// Makes a set empty.
pub fn clear(set: &mut [u32])
    ensures { (n : ℕ) → has_number set.new n ≡ false }
{
    set.fill(0);
}

/// Makes a set of one number, if it has room for it; else an empty one.
#[tactic(auto, using(crate::proofs::SetBits::one_is))]
pub fn put_one(set: &mut [u32], number: usize)
    ensures { (n : ℕ) → n < WIDTH * length set.old → has_number set.new n ≡ (n == number) }
{
    clear(set);
    if number / WIDTH < set.len() {
        set[number / WIDTH] = 1 << (number % WIDTH);
    }
}

#[tactic(auto, using(crate::proofs::JoinedSets::added_one))]
pub(crate) fn add_one(set: &mut [u32], number: usize)
    requires { number < 32 * length set.old }
    ensures { (n : ℕ) → has_number set.new n ≡ (has_number set.old n || (n == number)) }
{
    set[number / WIDTH] |= 1 << (number % WIDTH);
}

// Adds the numbers of another set to a set.
#[tactic(auto, using(crate::proofs::Rules::added_words))]
pub(crate) fn add_all(set: &mut [u32], other: &[u32])
    requires { length other.now ≡ length set.old }
    ensures { (n : ℕ) → n < 32 * length set.old
        → has_number set.new n ≡ (has_number set.old n || has_number other.now n) }
{
    for (i, word) in set.iter_mut().enumerate() {
        *word |= other[i];
    }
}

/// Returns the first number from `from` on that the outer set has and the inner one has not. If there is none, returns the number after
/// both sets, or `from` if that is greater.
#[tactic(auto, using(crate::proofs::Rules::missing_numbers))]
pub fn next_missing(outer: &[u32], inner: &[u32], from: usize) -> usize
    requires inner { length inner.now ≡ length outer.now }
    requires few { length outer.now ≤ part_words PART_LIMIT }
    ensures from { from ≤ result }
    ensures most { (result ≡ from) ⊎ (result ≤ WIDTH * length outer.now) }
    ensures before { (p : ℕ) → from ≤ p → p < result → (has_number outer.now p && not (has_number inner.now p)) ≡ false }
    ensures found { result < WIDTH * length outer.now
        → (has_number outer.now result && not (has_number inner.now result)) ≡ true }
{
    let mut at = from;
    while at < WIDTH * outer.len() {
        let gap = (outer[at / WIDTH] & !inner[at / WIDTH]) >> (at % WIDTH);
        if gap != 0 {
            return at + gap.trailing_zeros() as usize;
        }
        at = (at / WIDTH + 1) * WIDTH;
    }
    at
}
