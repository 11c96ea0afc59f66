//! Two words for a node, if few costs are listed: the costs that it can have, and those at which a part of a group is faulty.
ghost use Rattle.std.specs.Prelude.{◌≡◌, ℕ, ◌+◌, ◌*◌, ◌<◌, ◌≤◌, Bool, false, ◌&&◌, ◌||◌, List, ◌==◌};
ghost use Rattle.state_rules.specs.Assignments.{Assignment};
ghost use Rattle.state_rules.specs.Bits.{has_bit};
ghost use Rattle.level_lister.specs.inner.Pairs.{IsSpread, Tells};

/// How many numbers a word holds.
const BITS: u32 = 32;

/// What is known of a node: its costs, and for each group those at which a part of it is faulty.
#[derive(Clone, Copy, Debug)]
pub(crate) struct Pair {
    pub(crate) costs: u32,
    pub(crate) faults: u32,
}

// Returns the word of one number, or 0 if a word has no room for it.
pub(crate) fn one(number: u32) -> u32
    ensures { (n : ℕ) → n < 32 → has_bit result n ≡ (n == number) }
{
    if number < BITS { 1 << number } else { 0 }
}

pub(crate) fn has_bit(word: u32, number: u32) -> bool
    requires { number < 32 }
    ensures { result ≡ has_bit word number }
{
    (word >> number) & 1 == 1
}

// Returns the numbers of `left`, each increased by `step` times each number of `right` below `count`.
#[tactic(auto, using(crate::proofs::Rules::spreads))]
fn spread(left: u32, right: u32, step: u32, count: u32) -> u32
    requires step { 0 < step }
    requires room { step * count ≤ 32 }
    ensures { IsSpread left right step count result }
{
    let mut set = 0;
    if left == 0 {
        return set;
    }
    for times in 0..count {
        // Most words have low bits only.
        if right >> times == 0 {
            return set;
        }
        if has_bit(right, times) {
            set |= left << (step * times);
        }
    }
    set
}

// Returns the words of both of two tests that share no variable.
pub(crate) fn joined(left: Pair, right: Pair, step: u32, count: u32) -> Pair
    requires step { 0 < step }
    requires count { 0 < count }
    requires room { step * count ≤ 32 }
    ensures { (evidence costs : List ℕ) (top groups : ℕ) (group : ℕ → ℕ → Bool) (test other : Assignment → Bool) (some more : ℕ → Bool)
        → step ≡ groups → count ≡ top + 1 → ((v : ℕ) → (some v && more v) ≡ false)
        → Tells evidence costs top groups group test some left → Tells evidence costs top groups group other more right
        → Tells evidence costs top groups group (λ a. test a && other a) (λ v. some v || more v) result }
{
    Pair {
        costs: spread(left.costs, right.costs, 1, count),
        faults: spread(left.faults, right.costs, step, count)
            | spread(right.faults, left.costs, step, count),
    }
}

// Returns the words of one test or the other.
pub(crate) fn either(left: Pair, right: Pair) -> Pair
    ensures { (evidence costs : List ℕ) (top step : ℕ) (group : ℕ → ℕ → Bool) (test other : Assignment → Bool) (some : ℕ → Bool)
        → Tells evidence costs top step group test some left → Tells evidence costs top step group other some right
        → Tells evidence costs top step group (λ a. test a || other a) some result }
{
    Pair {
        costs: left.costs | right.costs,
        faults: left.faults | right.faults,
    }
}
