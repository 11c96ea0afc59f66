ghost use Rattle.std.specs.Prelude.{◌≡◌, ℕ, ◌+◌, ◌^◌, ◌<◌, ◌≤◌, true, false, length, vec_capacity};
ghost use Rattle.state_rules.specs.Assignments.{Assignment};
ghost use Rattle.clause_search.specs.Searching.{IsModel, Refutes, all_true, all_vars, are_within};
ghost use Rattle.clause_answers.specs.inner.Known.{Knows, AreTrue};

use crate::evidence::Evidence;
use crate::literals::{add_all, add_if, add_weighted};
use crate::weights::Weights;
use clause_search::{Answer, Search};

// Assumes what is known, each literal with a weight, and some others. The order is always the same, so that a search need not begin anew.
#[tactic(auto, using(crate::proofs::KnownLiterals::assume_steps))]
pub(crate) fn assume(
    assumed: &mut Vec<i32>,
    evidence: &Evidence,
    weights: &Weights,
    literals: &[i32],
)
    requires parts { length weights.now.parts.items ≤ length evidence.now }
    requires few { length weights.now.bounds.items < 2 ^ 30 }
    requires room { length evidence.now + length literals.now ≤ vec_capacity assumed.old }
    ensures known { (a : Assignment) → all_true a assumed.new.items ≡ true → Knows a evidence.now (length evidence.now) }
    ensures others { (a : Assignment) → all_true a assumed.new.items ≡ true → all_true a literals.now ≡ true }
    ensures enough { (a : Assignment) → Knows a evidence.now (length evidence.now) → all_true a literals.now ≡ true
        → AreTrue a 0 weights.now.parts.items (length weights.now.parts.items)
        → AreTrue a (length evidence.now) weights.now.bounds.items (length weights.now.bounds.items) → all_true a assumed.new.items ≡ true }
    ensures within { (n : ℕ) → length evidence.now + length weights.now.bounds.items ≤ n → are_within n literals.now ≡ true → are_within n assumed.new.items ≡ true }
    ensures capacity { vec_capacity assumed.old ≤ vec_capacity assumed.new }
{
    let vars = evidence.words().len();
    assumed.clear();
    add_all(assumed, evidence.literals());
    add_weighted(assumed, 0, &weights.parts, literals.len());
    add_weighted(assumed, vars, &weights.bounds, literals.len());
    add_all(assumed, literals);
}

// Assumes what is known, that the parts cost at most the limit of the first definition, above that of the second one if there is to be one
// above, and some others.
#[tactic(auto, using(crate::proofs::KnownLiterals::assume_steps))]
pub(crate) fn assume_range(
    assumed: &mut Vec<i32>,
    evidence: &Evidence,
    is_above: bool,
    literals: &[i32],
)
    requires room { length evidence.now + 2 + length literals.now ≤ vec_capacity assumed.old }
    ensures known { (a : Assignment) → all_true a assumed.new.items ≡ true → Knows a evidence.now (length evidence.now) }
    ensures others { (a : Assignment) → all_true a assumed.new.items ≡ true → all_true a literals.now ≡ true }
    ensures most { (a : Assignment) → all_true a assumed.new.items ≡ true → a (length evidence.now + 1) ≡ true }
    ensures above { (a : Assignment) → all_true a assumed.new.items ≡ true → is_above ≡ true → a (length evidence.now + 2) ≡ false }
    ensures enough { (a : Assignment) → Knows a evidence.now (length evidence.now) → all_true a literals.now ≡ true
        → a (length evidence.now + 1) ≡ true → (is_above ≡ true → a (length evidence.now + 2) ≡ false) → all_true a assumed.new.items ≡ true }
    ensures within { (n : ℕ) → length evidence.now + 2 ≤ n → are_within n literals.now ≡ true → are_within n assumed.new.items ≡ true }
    ensures capacity { vec_capacity assumed.old ≤ vec_capacity assumed.new }
{
    let vars = evidence.words().len();
    assumed.clear();
    add_all(assumed, evidence.literals());
    add_if(assumed, vars, true, true);
    add_if(assumed, vars + 1, false, is_above);
    add_all(assumed, literals);
}

// Whether there are bits that keep the rules of a search and make literals true. If so, it has them as its model.
pub(crate) fn meet(search: &mut Search, literals: &Vec<i32>) -> bool
    requires { are_within (all_vars search.old.rules) literals.now.items ≡ true }
    ensures rules { search.new.rules ≡ search.old.rules }
    ensures model { result ≡ true → IsModel search.old.rules literals.now.items search.new.model }
    ensures refuted { result ≡ false → Refutes search.old.rules literals.now.items }
{
    match search.solve(literals.as_slice()) {
        Answer::Model => true,
        Answer::Core => false,
        Answer::Conflict => false,
    }
}
