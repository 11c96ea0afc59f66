ghost use Rattle.std.specs.Prelude.{◌≡◌, ℕ, ◌+◌, ◌<◌, ◌≤◌, Bool, List, [], ◌∷◌, true, false, All, Option, IfOk, Some, length, take, replicate, slice_index_or, vec_capacity};
ghost use Rattle.state_rules.specs.Bits.{bit_in};
ghost use Rattle.clause_encoder.specs.Clauses.{is_clause_list};
ghost use Rattle.conditioner.specs.Models.{total_cost};
ghost use Rattle.clause_search.specs.Searching.{Rules, are_within};
ghost use Rattle.clause_answers.specs.inner.Asking.{Asked, Fits, cost_of, IsMinimum, IsLeast, IsFound, NoneFound, LeastFrom};
ghost use Rattle.clause_answers.specs.inner.Weighing.{Weighs};
ghost use Rattle.clause_answers.specs.inner.Carrying.{first_two, IsOracle};

use crate::Memory;
use crate::assumed::{assume, assume_range, meet};
use crate::cores::{Found, Room, bits_cost, find};
use crate::evidence::Evidence;
use crate::weights::{DEFINITIONS, Weights};
use clause_encoder::Cnf;
use clause_search::Search;
use minimiser::TOTAL_LIMIT;
use std::alloc::Global;
use std::marker::Model;
use std::mem;

// When there are so many definitions, it is time to begin anew.
const MANY: usize = 768;

/// A search for bits of all variables that agree with evidence, make all clauses true, and cost little. Only `new` takes memory.
#[derive(Drop)]
pub(crate) struct Oracle {
    search: Search,
    costs: Vec<u32>,
    evidence: Evidence,
    // what is known of the costs of all bits, and a copy that holds under some more literals
    weights: Weights,
    trial: Weights,
    room: Room,
    bits: Vec<bool>,
    low: u32,
    high: u32,
}

impl Model for Oracle {
    ghost use Rattle.std.specs.Prelude.{vec_capacity};
    ghost use Rattle.clause_answers.specs.inner.Asking.{Asked};
    ghost use Rattle.clause_answers.specs.inner.Carrying.{asked, IsOracle};

    ghost Value = { Asked };

    ghost view = { λ o. record { question = asked o.search.rules o.costs.items o.evidence; low = o.low; high = o.high; bits = o.bits.items } };

    ghost invariant = { λ o. IsOracle o.search.rules o.costs.items o.evidence o.weights o.bits.items (vec_capacity o.room.assumed) };
}

impl Oracle {
    /// Begins with no evidence, and the range of costs from 0 to 0.
    pub(crate) fn new(alloc: Global, cnf: &Cnf, costs: &[u32]) -> Result<Oracle, Memory>
        requires parts { length costs.now ≤ cnf.now.vars }
        requires total { total_cost costs.now < TOTAL_LIMIT }
        ensures { IfOk result (λ oracle. oracle.question ≡ record { cnf = cnf.now; costs = costs.now; evidence = replicate cnf.now.vars 0 }) }
    {
        let vars = cnf.vars();
        let literals = vars as usize * 3 + 2 + DEFINITIONS;
        let bits = vec![in alloc; false; vars as usize]?;
        let evidence = Evidence::new(alloc, vars)?;
        let weights = Weights::new(alloc, costs, DEFINITIONS)?;
        let trial = Weights::new(alloc, costs, DEFINITIONS)?;
        Ok(Oracle {
            search: Search::new(alloc, cnf, costs)?,
            costs: Vec::from_slice(alloc, costs)?,
            evidence,
            weights,
            trial,
            room: Room::new(alloc, literals)?,
            bits,
            low: 0,
            high: 0,
        })
    }

    /// Takes up other evidence.
    pub(crate) fn take_up(&mut self, evidence: &[u32])
        requires long { length evidence.now ≡ self.old.question.cnf.vars }
        requires words { All (λ w. w < 3) evidence.now }
        ensures question { self.new.question ≡ record self.old.question { evidence = evidence.now } }
        ensures low { self.new.low ≡ self.old.low }
        ensures high { self.new.high ≡ self.old.high }
    {
        self.search.restart(0, 0);
        self.weights.reset(&self.costs);
        self.evidence.take_up(evidence);
    }

    /// Returns the least cost of bits that fit and make the literals true; these bits are then in `bits`. `None` if there are none.
    ///
    /// After a call with no literals, `ask` is fast for the range of this cost alone.
    pub(crate) fn minimum(&mut self, literals: &[i32]) -> Option<u32>
        requires within { are_within self.old.question.cnf.vars literals.now ≡ true }
        requires few { length literals.now ≤ self.old.question.cnf.vars }
        ensures minimum { IsMinimum self.old.question literals.now self.new.bits result }
        ensures question { self.new.question ≡ self.old.question }
        ensures low { self.new.low ≡ self.old.low }
        ensures high { self.new.high ≡ self.old.high }
    {
        if self.search.definitions() < MANY {
            if let Some(answer) = self.by_cores(literals) {
                return answer;
            }
        }
        self.begin_anew();
        let _ = self.by_cores(&[]);
        match self.by_cores(literals) {
            Some(answer) => answer,
            None => self.by_models(literals),
        }
    }

    /// Sets the range of costs of `ask`.
    pub(crate) fn seek(&mut self, low: u32, high: u32)
        ensures { self.new ≡ record self.old { low = low; high = high } }
    {
        self.low = low;
        self.high = high;
    }

    /// Returns the range of costs of `ask`.
    pub(crate) fn range(&self) -> (u32, u32)
        ensures low { result.0 ≡ self.now.low }
        ensures high { result.1 ≡ self.now.high }
    {
        (self.low, self.high)
    }

    /// Whether there are bits that fit, make the literals true and have a cost in the range. If so, they are then in `bits`.
    pub(crate) fn ask(&mut self, literals: &[i32]) -> bool
        requires within { are_within self.old.question.cnf.vars literals.now ≡ true }
        requires few { length literals.now ≤ self.old.question.cnf.vars }
        ensures found { result ≡ true → IsFound self.new literals.now }
        ensures none { result ≡ false → NoneFound self.old literals.now }
        ensures kept { result ≡ false → self.new.bits ≡ self.old.bits }
        ensures question { self.new.question ≡ self.old.question }
        ensures low { self.new.low ≡ self.old.low }
        ensures high { self.new.high ≡ self.old.high }
    {
        match self.ask_weighted(literals) {
            Some(answer) => answer,
            None => self.ask_range(literals),
        }
    }

    /// The bits that were found last, variable 1 first.
    pub(crate) fn bits(&self) -> &[bool]
        ensures value { result.now ≡ self.now.bits }
        ensures long { length self.now.bits ≡ self.now.question.cnf.vars }
    {
        self.bits.as_slice()
    }

    /// The cost of the state in these bits.
    pub(crate) fn cost(&self) -> u32
        ensures { result ≡ cost_of self.now.question self.now.bits }
    {
        bits_cost(&self.costs, &self.bits)
    }

    /// The costs of the parts.
    pub(crate) fn costs(&self) -> &[u32]
        ensures value { result.now ≡ self.now.question.costs }
        ensures parts { length self.now.question.costs ≤ self.now.question.cnf.vars }
        ensures total { total_cost self.now.question.costs < TOTAL_LIMIT }
    {
        self.costs.as_slice()
    }

    /// What is known of each variable.
    pub(crate) fn evidence(&self) -> &[u32]
        ensures value { result.now ≡ self.now.question.evidence }
        ensures long { length self.now.question.evidence ≡ self.now.question.cnf.vars }
        ensures words { All (λ w. w < 3) self.now.question.evidence }
        ensures valid { is_clause_list self.now.question.cnf ≡ true }
    {
        let _ = self.search.definitions();
        self.evidence.words()
    }

    /// Whether it is known that a part is ok in all bits that fit and cost at most the end of the range.
    pub(crate) fn is_ok(&self, part: u32) -> bool
        requires { part < length self.now.question.costs }
        ensures { result ≡ true → (bits : List Bool) → Fits self.now.question bits → cost_of self.now.question bits ≤ self.now.high → bit_in bits part ≡ true }
    {
        let _ = self.search.definitions();
        self.high <= self.weights.lower && self.weights.parts[part as usize] != 0
    }

    // Drops all definitions, and begins with the costs as weights.
    fn begin_anew(&mut self)
        ensures { self.new ≡ self.old }
    {
        self.search.restart(0, 0);
        self.weights.reset(&self.costs);
    }

    // Searches for the least cost by cores. Without more literals, what is then known of all costs stays known.
    fn by_cores(&mut self, literals: &[i32]) -> Option<Option<u32>>
        requires within { are_within self.old.question.cnf.vars literals.now ≡ true }
        requires few { length literals.now ≤ self.old.question.cnf.vars }
        ensures minimum { (answer : Option ℕ) → result ≡ Some answer → IsMinimum self.old.question literals.now self.new.bits answer }
        ensures question { self.new.question ≡ self.old.question }
        ensures low { self.new.low ≡ self.old.low }
        ensures high { self.new.high ≡ self.old.high }
    {
        if !self.trial.copy(&self.weights) {
            return None;
        }
        let found = find(
            &mut self.search,
            &mut self.trial,
            &mut self.room,
            &self.evidence,
            &self.costs,
            literals,
        );
        let _ = self.search.definitions();
        match found {
            Found::Stopped => None,
            Found::Nothing => Some(None),
            Found::Model => {
                take_bits(&mut self.bits, self.search.model());
                keep(&mut self.weights, &mut self.trial, literals);
                Some(Some(bits_cost(&self.costs, &self.bits)))
            }
        }
    }

    // Searches for the least cost by bits that cost less and less.
    fn by_models(&mut self, literals: &[i32]) -> Option<u32>
        requires within { are_within self.old.question.cnf.vars literals.now ≡ true }
        requires few { length literals.now ≤ self.old.question.cnf.vars }
        ensures minimum { IsMinimum self.old.question literals.now self.new.bits result }
        ensures question { self.new.question ≡ self.old.question }
        ensures low { self.new.low ≡ self.old.low }
        ensures high { self.new.high ≡ self.old.high }
    {
        let _parts = self.costs();
        self.least_from(0, TOTAL_LIMIT, literals)
    }

    /// Returns the least cost from `from` to `top` of bits that fit and make the literals true; these bits are then in `bits`. `None` if there
    /// are none. The range of `ask` stays.
    pub(crate) fn least_from(&mut self, from: u32, top: u32, literals: &[i32]) -> Option<u32>
        requires within { are_within self.old.question.cnf.vars literals.now ≡ true }
        requires few { length literals.now ≤ self.old.question.cnf.vars }
        ensures least { LeastFrom self.old.question literals.now from top self.new.bits result }
        ensures question { self.new.question ≡ self.old.question }
        ensures low { self.new.low ≡ self.old.low }
        ensures high { self.new.high ≡ self.old.high }
    {
        let low = self.low;
        let high = self.high;
        self.seek(from, top);
        let mut least = None;
        while self.ask(literals) {
            let cost = self.cost();
            if cost == from {
                self.seek(low, high);
                return Some(from);
            }
            least = Some(cost);
            self.seek(from, cost - 1);
        }
        self.seek(low, high);
        least
    }

    // Searches with all weights, if bits in the range have all these literals true. What is found may cost too much or too little: then
    // nothing is known.
    fn ask_weighted(&mut self, literals: &[i32]) -> Option<bool>
        requires within { are_within self.old.question.cnf.vars literals.now ≡ true }
        requires few { length literals.now ≤ self.old.question.cnf.vars }
        ensures found { result ≡ Some true → IsFound self.new literals.now }
        ensures none { result ≡ Some false → NoneFound self.old literals.now }
        ensures kept { (result ≡ Some true → ⊥) → self.new.bits ≡ self.old.bits }
        ensures question { self.new.question ≡ self.old.question }
        ensures low { self.new.low ≡ self.old.low }
        ensures high { self.new.high ≡ self.old.high }
    {
        if self.weights.lower < self.high || DEFINITIONS < self.weights.bounds.len() {
            return None;
        }
        assume(
            &mut self.room.assumed,
            &self.evidence,
            &self.weights,
            literals,
        );
        let _ = self.search.definitions();
        if !meet(&mut self.search, &self.room.assumed) {
            return Some(false);
        }
        let cost = bits_cost(&self.costs, self.search.model());
        if cost < self.low || self.high < cost {
            return None;
        }
        take_bits(&mut self.bits, self.search.model());
        Some(true)
    }

    // Searches with the definitions of the range.
    fn ask_range(&mut self, literals: &[i32]) -> bool
        requires within { are_within self.old.question.cnf.vars literals.now ≡ true }
        requires few { length literals.now ≤ self.old.question.cnf.vars }
        ensures found { result ≡ true → IsFound self.new literals.now }
        ensures none { result ≡ false → NoneFound self.old literals.now }
        ensures kept { result ≡ false → self.new.bits ≡ self.old.bits }
        ensures question { self.new.question ≡ self.old.question }
        ensures low { self.new.low ≡ self.old.low }
        ensures high { self.new.high ≡ self.old.high }
    {
        bound(
            &mut self.search,
            &mut self.weights,
            &self.costs,
            self.high,
            self.low.saturating_sub(1),
        );
        let _ = self.search.definitions();
        assume_range(
            &mut self.room.assumed,
            &self.evidence,
            self.low != 0,
            literals,
        );
        if !meet(&mut self.search, &self.room.assumed) {
            return false;
        }
        take_bits(&mut self.bits, self.search.model());
        true
    }
}

// Gives the first two definitions these limits, if they have others.
fn bound(search: &mut Search, weights: &mut Weights, costs: &Vec<u32>, most: u32, less: u32)
    requires first { take 2 search.old.rules.members ≡ first_two costs.now.items }
    requires parts { length weights.old.parts.items ≡ length costs.now.items }
    ensures cnf { search.new.rules.cnf ≡ search.old.rules.cnf }
    ensures first { take 2 search.new.rules.members ≡ first_two costs.now.items }
    ensures most { slice_index_or search.new.rules.limits 0 0 ≡ most }
    ensures less { slice_index_or search.new.rules.limits 1 0 ≡ less }
    ensures weighs { (evidence : List ℕ) → Weighs search.old.rules costs.now.items evidence [] weights.old → Weighs search.new.rules costs.now.items evidence [] weights.new }
{
    if search.definitions() < 2 || search.limit(0) != most || search.limit(1) != less {
        search.restart(most, less);
        weights.reset(costs);
    }
}

// Takes over what was found out without more literals.
fn keep(weights: &mut Weights, trial: &mut Weights, literals: &[i32])
    ensures { (rules : Rules) (costs evidence : List ℕ) → Weighs rules costs evidence [] weights.old → Weighs rules costs evidence literals.now trial.old → Weighs rules costs evidence [] weights.new }
{
    if literals.is_empty() {
        mem::swap(weights, trial);
    }
}

// Takes over the first bits of a model.
fn take_bits(bits: &mut Vec<bool>, model: &[bool])
    requires { length bits.old.items ≤ length model.now }
    ensures { bits.new.items ≡ take (length bits.old.items) model.now }
{
    let vars = bits.len();
    bits.as_mut_slice().copy_from_slice(&model[..vars]);
}
