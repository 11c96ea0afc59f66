ghost use Rattle.std.specs.Prelude.{◌≡◌, ℕ, ◌+◌, ◌<◌, ◌≤◌, true, false, IfOk, length, take, vec_capacity};
ghost use Rattle.state_rules.specs.Assignments.{Assignment};
ghost use Rattle.state_rules.specs.Ranking.{cost};
ghost use Rattle.conditioner.specs.Models.{total_cost};
ghost use Rattle.clause_search.specs.Searching.{all_true, are_within, keeps};
ghost use Rattle.clause_answers.specs.inner.Known.{Knows};
ghost use Rattle.clause_answers.specs.inner.Weighing.{Weighs, Grown, IsReached};

use crate::Memory;
use crate::assumed::assume;
use crate::evidence::Evidence;
use crate::weights::{DEFINITIONS, Weights, are_given, least_weight, raise};
use clause_search::{Answer, Search, Weighted};
use minimiser::TOTAL_LIMIT;
use std::alloc::Global;

/// Memory for literals.
#[derive(Drop)]
pub(crate) struct Room {
    pub(crate) assumed: Vec<i32>,
    core: Vec<i32>,
    moved: Vec<Weighted>,
    spare: Vec<Weighted>,
}

impl Room {
    /// Takes memory for so many literals.
    pub(crate) fn new(alloc: Global, literals: usize) -> Result<Room, Memory>
        ensures { IfOk result (λ room. literals ≤ vec_capacity room.assumed) }
    {
        Ok(Room {
            assumed: Vec::with_capacity(alloc, literals)?,
            core: Vec::with_capacity(alloc, literals)?,
            moved: Vec::with_capacity(alloc, literals)?,
            spare: Vec::with_capacity(alloc, literals)?,
        })
    }
}

/// What a search by cores found.
#[derive(Debug, Clone, Copy)]
pub(crate) enum Found {
    /// Bits that cost no more than all bits cost at least.
    Model,
    /// No bits fit.
    Nothing,
    /// Nothing is known.
    Stopped,
}

// The cost of the parts in bits of all variables.
#[tactic(auto, using(crate::proofs::BitCosts::cost_steps))]
pub(crate) fn bits_cost(costs: &Vec<u32>, bits: &[bool]) -> u32
    requires total { total_cost costs.now.items < TOTAL_LIMIT }
    requires long { length costs.now.items ≤ length bits.now }
    ensures { result ≡ cost costs.now.items (take (length costs.now.items) bits.now) }
{
    let mut total = 0;
    for (part, cost) in costs.iter().enumerate() {
        if !bits[part] {
            total += *cost;
        }
    }
    total
}

// Copies literals if there is room for them.
fn copy(to: &mut Vec<i32>, literals: &[i32]) -> bool
    ensures { result ≡ true → to.new.items ≡ literals.now }
{
    to.clear();
    literals.len() <= to.capacity() && to.extend_from_slice(literals).is_ok()
}

/// Searches for bits that cost least. Each core raises what all bits cost at least, until there are bits that cost no more.
pub(crate) fn find(
    search: &mut Search,
    weights: &mut Weights,
    room: &mut Room,
    evidence: &Evidence,
    costs: &Vec<u32>,
    literals: &[i32],
) -> Found
    requires vars { length evidence.now ≡ search.old.rules.cnf.vars }
    requires parts { length costs.now.items ≤ length evidence.now }
    requires total { total_cost costs.now.items < TOTAL_LIMIT }
    requires within { are_within (length evidence.now) literals.now ≡ true }
    requires room { length evidence.now + length literals.now ≤ vec_capacity room.old.assumed }
    requires weighs { Weighs search.old.rules costs.now.items evidence.now literals.now weights.old }
    ensures grown { Grown search.old.rules search.new.rules }
    ensures room { vec_capacity room.old.assumed ≤ vec_capacity room.new.assumed }
    ensures weighs { result ≡ Found.Model → Weighs search.new.rules costs.now.items evidence.now literals.now weights.new }
    ensures reached { result ≡ Found.Model → IsReached search.new.rules evidence.now literals.now search.new.model }
    ensures cheap { result ≡ Found.Model → cost costs.now.items (take (length costs.now.items) search.new.model) ≤ weights.new.lower }
    ensures none { result ≡ Found.Nothing → (a : Assignment) → keeps search.new.rules a ≡ true → Knows a evidence.now (length evidence.now) → all_true a literals.now ≡ false }
{
    let vars = evidence.words().len();
    for _turn in 0..u32::MAX {
        if DEFINITIONS < weights.bounds.len() {
            return Found::Stopped;
        }
        assume(&mut room.assumed, evidence, weights, literals);
        match search.solve(room.assumed.as_slice()) {
            Answer::Model => {
                if bits_cost(costs, search.model()) <= weights.lower {
                    return Found::Model;
                }
                return Found::Stopped;
            }
            Answer::Conflict => return Found::Stopped,
            Answer::Core => {}
        }
        if !copy(&mut room.core, search.core()) {
            return Found::Stopped;
        }
        if are_given(evidence, literals, &room.core) {
            return Found::Nothing;
        }
        let amount = least_weight(weights, evidence, literals, vars, &room.core);
        if amount == 0
            || !raise(
                search,
                weights,
                &mut room.spare,
                &mut room.moved,
                evidence,
                literals,
                &room.core,
                amount,
            )
        {
            return Found::Stopped;
        }
    }
    Found::Stopped
}
