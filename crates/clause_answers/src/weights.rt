ghost use Rattle.std.specs.Prelude.{◌≡◌, ℕ, ◌+◌, ◌-◌, ◌*◌, ◌<◌, ◌≤◌, ℤ, List, [], true, false, IfOk, IfSome, length, slice_index_or, slice_set, vec_len, vec_capacity};
ghost use Rattle.state_rules.specs.Assignments.{Assignment};
ghost use Rattle.clause_search.specs.Searching.{holds, false_weight, keeps, all_true, all_vars};
ghost use Rattle.clause_search.specs.declared.weighted.Weighted.{Weighted};
ghost use Rattle.clause_answers.specs.inner.Known.{Knows};
ghost use Rattle.clause_answers.specs.inner.Weighing.{unit_if_false, spread, weighed, IsFresh, Grown};

use crate::Memory;
use crate::evidence::Evidence;
use crate::literals::place_of;
use clause_search::{Search, Weighted};
use std::alloc::Global;

/// For how many weights of definitions there is memory.
pub(crate) const DEFINITIONS: usize = 1024;

/// Weights of literals, each of which is to be true, and what all bits cost at least.
#[derive(Drop)]
pub(crate) struct Weights {
    // that of each part
    pub(crate) parts: Vec<u32>,
    // those of the first definitions
    pub(crate) bounds: Vec<u32>,
    pub(crate) lower: u32,
}

// Takes an amount from a weight if it is there.
fn take(weights: &mut Vec<u32>, place: usize, amount: u32) -> bool
    ensures within { result ≡ true → place < length weights.old.items }
    ensures enough { result ≡ true → amount ≤ slice_index_or weights.old.items place 0 }
    ensures taken { result ≡ true → weights.new.items ≡ slice_set weights.old.items place (slice_index_or weights.old.items place 0 - amount) }
    ensures len { length weights.new.items ≡ length weights.old.items }
{
    if weights.len() <= place || weights[place] < amount {
        return false;
    }
    weights[place] -= amount;
    true
}

// Gives the weight 0 to definitions that have none, up to a number of them.
#[tactic(auto, using(crate::proofs::Spread::pad_steps))]
fn pad(bounds: &mut Vec<u32>, definitions: usize)
    requires { length bounds.old.items ≤ definitions }
    ensures short { length bounds.new.items ≤ definitions }
    ensures same { (a : Assignment) (members : List (List Weighted)) (limits : List ℕ) → spread a members limits bounds.new.items ≡ spread a members limits bounds.old.items }
    ensures capacity { vec_capacity bounds.new ≡ vec_capacity bounds.old }
{
    for _definition in 0..definitions {
        if bounds.len() < bounds.capacity() && bounds.len() < definitions {
            bounds.push_reserved(0);
        }
    }
}

// Gives a weight to the definition that has these members and this limit, or to a new one.
#[tactic(auto, using(crate::proofs::Spread::grow_steps))]
fn charge(
    search: &mut Search,
    bounds: &mut Vec<u32>,
    members: &[Weighted],
    limit: u32,
    weight: u32,
) -> bool
    requires { length bounds.old.items ≤ length search.old.rules.members }
    ensures grown { Grown search.old.rules search.new.rules }
    ensures short { length bounds.new.items ≤ length search.new.rules.members }
    ensures charged { result ≡ true → (a : Assignment) → spread a search.new.rules.members search.new.rules.limits bounds.new.items
        ≡ spread a search.old.rules.members search.old.rules.limits bounds.old.items + weight * (false_weight a members.now - limit) }
{
    let definitions = search.definitions();
    pad(bounds, definitions);
    if let Some(place) = place_of_definition(search, members, limit) {
        return give(bounds, place, weight);
    }
    if bounds.len() != definitions || bounds.capacity() <= bounds.len() {
        return false;
    }
    if search.define(members, limit).is_none() {
        return false;
    }
    bounds.push_reserved(weight);
    true
}

// Copies members if there is room for them.
fn copy(to: &mut Vec<Weighted>, members: &[Weighted]) -> bool
    ensures { result ≡ true → to.new.items ≡ members.now }
{
    to.clear();
    members.len() <= to.capacity() && to.extend_from_slice(members).is_ok()
}

// Takes an amount from the weight of a definition. As much goes to the same members with the next limit.
fn lessen_bound(
    search: &mut Search,
    bounds: &mut Vec<u32>,
    spare: &mut Vec<Weighted>,
    place: usize,
    amount: u32,
) -> bool
    requires { length bounds.old.items ≤ length search.old.rules.members }
    ensures grown { Grown search.old.rules search.new.rules }
    ensures short { length bounds.new.items ≤ length search.new.rules.members }
    ensures lessened { result ≡ true → (a : Assignment) (l : ℤ) → keeps search.new.rules a ≡ true → holds a l ≡ a (search.old.rules.cnf.vars + place + 1)
        → spread a search.new.rules.members search.new.rules.limits bounds.new.items + amount * unit_if_false a l
        ≤ spread a search.old.rules.members search.old.rules.limits bounds.old.items }
{
    let definitions = search.definitions();
    if bounds.len() <= place || definitions <= place || !copy(spare, search.members(place)) {
        return false;
    }
    let limit = search.limit(place);
    if limit == u32::MAX || !take(bounds, place, amount) {
        return false;
    }
    // No more members than that can be false.
    if spare.len() <= limit as usize + 1 {
        return true;
    }
    charge(search, bounds, spare.as_slice(), limit + 1, amount)
}

// Adds an amount to a weight if there is one.
fn give(weights: &mut Vec<u32>, place: usize, amount: u32) -> bool
    ensures within { result ≡ true → place < length weights.old.items }
    ensures given { result ≡ true → weights.new.items ≡ slice_set weights.old.items place (slice_index_or weights.old.items place 0 + amount) }
    ensures len { length weights.new.items ≡ length weights.old.items }
{
    if weights.len() <= place || u32::MAX - weights[place] < amount {
        return false;
    }
    weights[place] += amount;
    true
}

// Finds a definition with these members and this limit.
fn place_of_definition(search: &Search, members: &[Weighted], limit: u32) -> Option<usize>
    ensures within { IfSome result (λ at. at < length search.now.rules.members) }
    ensures members { IfSome result (λ at. slice_index_or search.now.rules.members at [] ≡ members.now) }
    ensures limit { IfSome result (λ at. slice_index_or search.now.rules.limits at 0 ≡ limit) }
{
    for at in 0..search.definitions() {
        if search.limit(at) == limit && are_same(search.members(at), members) {
            return Some(at);
        }
    }
    None
}

#[tactic(auto, using(crate::proofs::Collected::same_steps))]
fn are_same(members: &[Weighted], others: &[Weighted]) -> bool
    ensures { result ≡ true → members.now ≡ others.now }
{
    if members.len() != others.len() {
        return false;
    }
    for at in 0..members.len() {
        if members[at].literal != others[at].literal || members[at].weight != others[at].weight {
            return false;
        }
    }
    true
}

// Takes an amount from the weight of a literal.
fn lessen(
    search: &mut Search,
    weights: &mut Weights,
    spare: &mut Vec<Weighted>,
    vars: usize,
    literal: i32,
    amount: u32,
) -> bool
    requires vars { vars ≡ search.old.rules.cnf.vars }
    requires short { length weights.old.bounds.items ≤ length search.old.rules.members }
    ensures grown { Grown search.old.rules search.new.rules }
    ensures short { length weights.new.bounds.items ≤ length search.new.rules.members }
    ensures parts { length weights.new.parts.items ≡ length weights.old.parts.items }
    ensures lessened { result ≡ true → (a : Assignment) → keeps search.new.rules a ≡ true
        → weighed search.new.rules weights.new a + amount * unit_if_false a literal ≤ weighed search.old.rules weights.old a }
{
    match place_of(literal) {
        None => false,
        Some(place) => {
            if place < weights.parts.len() {
                return take(&mut weights.parts, place, amount);
            }
            if place < vars {
                return false;
            }
            lessen_bound(search, &mut weights.bounds, spare, place - vars, amount)
        }
    }
}

impl Weights {
    /// Makes the costs the weights of the parts, with memory for weights of so many definitions.
    pub(crate) fn new(alloc: Global, costs: &[u32], definitions: usize) -> Result<Weights, Memory>
        ensures { IfOk result (λ weights. IsFresh costs.now weights) }
    {
        Ok(Weights {
            parts: Vec::from_slice(alloc, costs)?,
            bounds: Vec::with_capacity(alloc, definitions)?,
            lower: 0,
        })
    }

    /// Makes the costs the weights of the parts again.
    pub(crate) fn reset(&mut self, costs: &[u32])
        requires { length self.old.parts.items ≡ length costs.now }
        ensures { IsFresh costs.now self.new }
    {
        self.parts.as_mut_slice().copy_from_slice(costs);
        self.bounds.clear();
        self.lower = 0;
    }

    /// Returns the weight of a literal, or 0.
    fn of(&self, vars: usize, literal: i32) -> u32 {
        match place_of(literal) {
            None => 0,
            Some(place) => {
                if place < self.parts.len() {
                    return self.parts[place];
                }
                let bound = place.saturating_sub(vars);
                if vars <= place && bound < self.bounds.len() {
                    self.bounds[bound]
                } else {
                    0
                }
            }
        }
    }

    /// Copies other weights if there is room for them.
    pub(crate) fn copy(&mut self, other: &Weights) -> bool
        ensures { result ≡ true → (self.new.parts.items ≡ other.now.parts.items) × (self.new.bounds.items ≡ other.now.bounds.items) × (self.new.lower ≡ other.now.lower) }
    {
        self.lower = other.lower;
        copy_words(&mut self.parts, &other.parts) && copy_words(&mut self.bounds, &other.bounds)
    }
}

// Copies numbers if there is room for them.
fn copy_words(to: &mut Vec<u32>, words: &[u32]) -> bool
    ensures { result ≡ true → to.new.items ≡ words.now }
{
    to.clear();
    words.len() <= to.capacity() && to.extend_from_slice(words).is_ok()
}

// Whether a literal is known to be true, or among those that are assumed.
fn is_given(evidence: &Evidence, literals: &[i32], literal: i32) -> bool
    ensures { result ≡ true → (a : Assignment) → Knows a evidence.now (length evidence.now) → all_true a literals.now ≡ true → holds a literal ≡ true }
{
    evidence.knows(literal) || is_among(literals, literal)
}

// Whether a literal is among those that are assumed.
#[tactic(auto, using(crate::proofs::KnownLiterals::true_at))]
fn is_among(literals: &[i32], literal: i32) -> bool
    ensures { result ≡ true → (a : Assignment) → all_true a literals.now ≡ true → holds a literal ≡ true }
{
    for other in literals {
        if *other == literal {
            return true;
        }
    }
    false
}

// Whether all literals of a core are given.
pub(crate) fn are_given(evidence: &Evidence, literals: &[i32], core: &[i32]) -> bool
    ensures { result ≡ true → (a : Assignment) → Knows a evidence.now (length evidence.now) → all_true a literals.now ≡ true → all_true a core.now ≡ true }
{
    for literal in core {
        if !is_given(evidence, literals, *literal) {
            return false;
        }
    }
    true
}

// The least weight of the literals of a core that are not given.
pub(crate) fn least_weight(
    weights: &Weights,
    evidence: &Evidence,
    literals: &[i32],
    vars: usize,
    core: &[i32],
) -> u32 {
    let mut least = u32::MAX;
    for literal in core {
        if !is_given(evidence, literals, *literal) {
            least = least.min(weights.of(vars, *literal));
        }
    }
    least
}

// Takes an amount from the weight of each literal of a core that is not given, and collects these literals.
#[tactic(auto, using(crate::proofs::Collected::collect_steps))]
fn collect(
    search: &mut Search,
    weights: &mut Weights,
    spare: &mut Vec<Weighted>,
    moved: &mut Vec<Weighted>,
    evidence: &Evidence,
    literals: &[i32],
    core: &[i32],
    amount: u32,
) -> bool
    requires vars { length evidence.now ≡ search.old.rules.cnf.vars }
    requires short { length weights.old.bounds.items ≤ length search.old.rules.members }
    ensures grown { Grown search.old.rules search.new.rules }
    ensures short { length weights.new.bounds.items ≤ length search.new.rules.members }
    ensures parts { length weights.new.parts.items ≡ length weights.old.parts.items }
    ensures moved { result ≡ true → (a : Assignment) → keeps search.new.rules a ≡ true
        → weighed search.new.rules weights.new a + amount * false_weight a moved.new.items ≤ weighed search.old.rules weights.old a }
    ensures some { result ≡ true → (a : Assignment) → Knows a evidence.now (length evidence.now) → all_true a literals.now ≡ true → all_true a core.now ≡ false
        → 1 ≤ false_weight a moved.new.items }
{
    moved.clear();
    let vars = evidence.words().len();
    for literal in core {
        if is_given(evidence, literals, *literal) {
            continue;
        }
        if !lessen(search, weights, spare, vars, *literal, amount)
            || moved.capacity() <= moved.len()
        {
            return false;
        }
        moved.push_reserved(Weighted {
            literal: *literal,
            weight: 1,
        });
    }
    true
}

// Raises what all bits cost at least by an amount, since not all literals of a core are true. How many more of them are false is left to a
// definition.
#[tactic(auto, using(crate::proofs::Collected::raise_steps))]
pub(crate) fn raise(
    search: &mut Search,
    weights: &mut Weights,
    spare: &mut Vec<Weighted>,
    moved: &mut Vec<Weighted>,
    evidence: &Evidence,
    literals: &[i32],
    core: &[i32],
    amount: u32,
) -> bool
    requires vars { length evidence.now ≡ search.old.rules.cnf.vars }
    requires short { length weights.old.bounds.items ≤ length search.old.rules.members }
    ensures grown { Grown search.old.rules search.new.rules }
    ensures short { length weights.new.bounds.items ≤ length search.new.rules.members }
    ensures parts { length weights.new.parts.items ≡ length weights.old.parts.items }
    ensures raised { result ≡ true → (a : Assignment) → keeps search.new.rules a ≡ true → Knows a evidence.now (length evidence.now) → all_true a literals.now ≡ true
        → all_true a core.now ≡ false → weighed search.new.rules weights.new a ≤ weighed search.old.rules weights.old a }
{
    if !collect(
        search, weights, spare, moved, evidence, literals, core, amount,
    ) || u32::MAX - weights.lower < amount
    {
        return false;
    }
    weights.lower += amount;
    if moved.len() <= 1 {
        return true;
    }
    charge(search, &mut weights.bounds, moved.as_slice(), 1, amount)
}
