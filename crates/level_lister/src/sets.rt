//! Sets of costs, as bits of words.
ghost use Rattle.std.specs.Prelude.{◌≡◌, ℕ, ◌+◌, ◌-◌, ◌*◌, ◌/◌, ◌%◌, ◌<◌, ◌≤◌, true, false, ◌||◌, length, ◌==◌};
ghost use Rattle.std.specs.Int.{bit_at};
ghost use Rattle.part_sets.specs.Numbers.{has_number};
ghost use Rattle.level_lister.specs.inner.CostSets.{has_shifted, word_before, AreSums};

use part_sets::{WIDTH, clear, has_number};

/// The most words of a set: those for costs below 2^31.
pub const SET_LIMIT: usize = 67_108_864;

// Adds to a set the numbers of another, each increased by `more`.
#[tactic(auto, using(crate::proofs::Rules::additions))]
pub(crate) fn add_shifted(set: &mut [u32], other: &[u32], more: usize)
    requires { length other.now ≡ length set.old }
    ensures { (n : ℕ) → n < 32 * length set.old
        → has_number set.new n ≡ (has_number set.old n || has_shifted other.now more n) }
{
    for (i, word) in set.iter_mut().enumerate() {
        *word |= shifted_word(other, i, more);
    }
}

// Increases each number of a set by `more`. It begins with the last word, since each depends on those up to it.
#[tactic(auto, using(crate::proofs::Rules::moves))]
pub(crate) fn shift(set: &mut [u32], more: usize)
    ensures { (n : ℕ) → n < 32 * length set.old → has_number set.new n ≡ has_shifted set.old more n }
{
    for i in (0..set.len()).rev() {
        set[i] = shifted_word(set, i, more);
    }
}

// Returns word `i` of a set whose numbers are increased by `more`.
fn shifted_word(set: &[u32], i: usize, more: usize) -> u32
    requires { i < length set.now }
    ensures { (n : ℕ) → n / 32 ≡ i → (bit_at result (n % 32) == 1) ≡ has_shifted set.now more n }
{
    let Some(at) = i.checked_sub(more / WIDTH) else {
        return 0;
    };
    joined_word(set[at], word_before(set, at), more % WIDTH)
}

// Returns the word before the one at a place, or 0 before the first.
fn word_before(set: &[u32], at: usize) -> u32
    requires { at < length set.now }
    ensures { result ≡ word_before set.now at }
{
    match at.checked_sub(1) {
        None => 0,
        Some(before) => set[before],
    }
}

// Returns `high` moved up by `more` bits, with the highest bits of `low` below it.
#[tactic(auto, using(crate::proofs::Rules::joined_words))]
fn joined_word(high: u32, low: u32, more: usize) -> u32
    requires { more < 32 }
    ensures below { (b : ℕ) → b < more → bit_at result b ≡ bit_at low (32 - more + b) }
    ensures above { (b : ℕ) → more ≤ b → b < 32 → bit_at result b ≡ bit_at high (b - more) }
{
    let both = (u64::from(high) << WIDTH) | u64::from(low);
    ((both >> (WIDTH - more)) & 0xFFFF_FFFF) as u32
}

// Makes `set` the sums of a number of `left` and a number of `right`. `left` should have few: `right` is moved by each.
#[tactic(auto, using(crate::proofs::Rules::sums))]
pub(crate) fn put_sums(set: &mut [u32], left: &[u32], right: &[u32])
    requires few { length set.old ≤ SET_LIMIT }
    requires left { length left.now ≡ length set.old }
    requires right { length right.now ≡ length set.old }
    ensures { AreSums left.now right.now (32 * length set.old) set.new }
{
    clear(set);
    if is_empty(right) {
        return;
    }
    for i in 0..left.len() {
        add_moved(set, right, left, i);
    }
}

// True only if a set has no number.
pub(crate) fn is_empty(set: &[u32]) -> bool
    ensures { result ≡ true → (n : ℕ) → has_number set.now n ≡ false }
{
    set.iter().all(|word| *word == 0)
}

// Adds to a set the numbers of `other`, moved by each number of one word of `moves`.
#[tactic(auto, using(crate::proofs::Rules::sums))]
fn add_moved(set: &mut [u32], other: &[u32], moves: &[u32], i: usize)
    requires few { length set.old ≤ SET_LIMIT }
    requires other { length other.now ≡ length set.old }
    requires moves { length moves.now ≡ length set.old }
    requires i { i < length moves.now }
    requires before { AreSums other.now moves.now (32 * i) set.old }
    ensures { AreSums other.now moves.now (32 * (i + 1)) set.new }
{
    for bit in 0..WIDTH {
        // Most words are 0 or have low bits only.
        if moves[i] >> bit == 0 {
            return;
        }
        let number = WIDTH * i + bit;
        if has_number(moves, number) {
            add_shifted(set, other, number);
        }
    }
}
