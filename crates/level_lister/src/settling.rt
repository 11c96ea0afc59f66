//! Fixes parts one after the other, so that one state of a cost is left.
ghost use Rattle.std.specs.Prelude.{◌≡◌, ◌↔◌, ℕ, ◌+◌, ◌*◌, ◌<◌, ◌≤◌, true, length, All, IsTrue, MatchOption, slice_index};
ghost use Rattle.conditioner.specs.Evidence.{bits_of};
ghost use Rattle.diagnosis_lister.specs.Listing.{fault_count};
ghost use Rattle.diagnosis_lister.specs.inner.Fixing.{IsFirst, NoneAfter, Leaves, fixed_bits};
ghost use Rattle.part_sets.specs.Numbers.{has_number};
ghost use Rattle.level_lister.specs.Listing.{cost_words};
ghost use Rattle.level_lister.specs.Passes.{AreEnough, fixing_passes};
ghost use Rattle.level_lister.specs.inner.Searching.{OfCost, HasCost, CanAsk, AreSaved, IsBegun};

use crate::groups::Groups;
use crate::search::{Asked, Search};
use crate::states::follow;
use conditioner::{fix_ok, is_false, is_faulty, is_open};
use minimiser::Steps;
use part_sets::has_number;
use std::sync::ledger::Ledger;

impl Asked<'_> {
    // Whether two words for each node fit into `work` and hold all listed costs.
    fn has_pairs(&self, work: &[u32]) -> bool
        ensures few { result ≡ true → self.now.levels.now.top < 32 }
        ensures room { result ≡ true → 2 * length self.now.graph.now.nodes ≤ length work.now }
    {
        self.levels.top() < 32 && 2 * self.graph.len() as usize <= work.len()
    }

    // Computes the set of the listed costs of the states that agree with the evidence.
    fn put_costs(&self, set: &mut [u32], work: &mut [u32])
        requires set { length set.old ≡ cost_words self.now.levels.now.top }
        requires work { (length self.now.graph.now.nodes + 1) * cost_words self.now.levels.now.top ≤ length work.old }
        ensures { (c : ℕ) → c ≤ self.now.levels.now.top
            → (IsTrue (has_number set.new c) ↔ HasCost self.now.graph.now self.now.evidence.now self.now.levels.now.costs c) }
    {
        if self.has_pairs(work) {
            let pair = self.put_pairs(Groups::NONE, work);
            set[0] = pair.costs;
            return;
        }
        let size = set.len();
        let (sets, rest) = work.split_at_mut(self.graph.len() as usize * size);
        let (spare, _) = rest.split_at_mut(size);
        self.put_whole(sets, set, spare);
    }

    // Whether some state that agrees with the evidence has this cost. Takes one pass.
    fn reaches<L: Ledger>(&self, work: &mut [u32], cost: u32, steps: &mut Steps<L>) -> bool
        requires work { (length self.now.graph.now.nodes + 2) * cost_words self.now.levels.now.top ≤ length work.old }
        requires cost { cost ≤ self.now.levels.now.top }
        ensures reached { IsTrue result ↔ HasCost self.now.graph.now self.now.evidence.now self.now.levels.now.costs cost }
        ensures steps { steps.new ≡ steps.old + 1 }
    {
        steps.tick();
        let (set, rest) = work.split_at_mut(self.levels.size());
        self.put_costs(set, rest);
        has_number(set, cost as usize)
    }

    // Finds the least listed cost, from `from` on, of a state that agrees with the evidence. Takes one pass.
    #[tactic(auto, using(std::proofs::lemmas::Bool::cases_lt))]
    pub(crate) fn next_cost<L: Ledger>(
        &self,
        work: &mut [u32],
        from: u32,
        steps: &mut Steps<L>,
    ) -> Option<u32>
        requires work { (length self.now.graph.now.nodes + 2) * cost_words self.now.levels.now.top ≤ length work.old }
        ensures next { MatchOption result
            ((c : ℕ) → from ≤ c → c ≤ self.now.levels.now.top → HasCost self.now.graph.now self.now.evidence.now self.now.levels.now.costs c → ⊥)
            (λ cost. (from ≤ cost) × (cost ≤ self.now.levels.now.top) × HasCost self.now.graph.now self.now.evidence.now self.now.levels.now.costs cost
            × ((c : ℕ) → from ≤ c → c < cost → HasCost self.now.graph.now self.now.evidence.now self.now.levels.now.costs c → ⊥)) }
        ensures steps { steps.new ≡ steps.old + 1 }
    {
        steps.tick();
        let (set, rest) = work.split_at_mut(self.levels.size());
        self.put_costs(set, rest);
        for cost in from..self.levels.top() + 1 {
            if has_number(set, cost as usize) {
                return Some(cost);
            }
        }
        None
    }
}

impl Search<'_> {
    // Fixes each open part from `from` on, so that only the first state of this cost that agrees with the evidence is left.
    pub(crate) fn settle<L: Ledger>(
        &self,
        evidence: &mut [u32],
        work: &mut [u32],
        cost: u32,
        from: usize,
        steps: &mut Steps<L>,
    )
        requires asked { CanAsk self.now.graph.now self.now.skips.now evidence.old self.now.levels.now }
        requires work { (length self.now.graph.now.nodes + 2) * cost_words self.now.levels.now.top ≤ length work.old }
        requires begun { IsBegun self.now.graph.now evidence.old self.now.levels.now cost from }
        ensures others { (k : ℕ) → length self.now.levels.now.costs ≤ k → slice_index evidence.new k ≡ slice_index evidence.old k }
        ensures evidence { All (λ w. w < 3) evidence.new }
        ensures first { IsFirst (OfCost self.now.graph.now evidence.old self.now.levels.now.costs cost)
            (fixed_bits (length self.now.levels.now.costs) evidence.new) }
        ensures steps { (length self.now.graph.now.nodes + 2) * (2 * cost_words self.now.levels.now.top) ≤ length work.old
            → (search : ℕ) → AreEnough (length self.now.levels.now.costs) self.now.levels.now.top search → steps.new ≤ steps.old
            + fixing_passes search (fixed_bits (length self.now.levels.now.costs) evidence.new) }
    {
        let wide = (self.graph.len() as usize + 2) * (2 * self.levels.size());
        if work.len() < wide {
            self.settle_by_parts(evidence, work, cost, from, steps);
        } else {
            let (work, _) = work.split_at_mut(wide);
            self.settle_by_groups(evidence, work, cost, from, steps);
        }
    }

    // The same: finds each next part that can be faulty, and fixes those before it as ok.
    #[tactic(auto, using(crate::proofs::Rules::fixed_words))]
    fn settle_by_groups<L: Ledger>(
        &self,
        evidence: &mut [u32],
        work: &mut [u32],
        cost: u32,
        from: usize,
        steps: &mut Steps<L>,
    )
        requires asked { CanAsk self.now.graph.now self.now.skips.now evidence.old self.now.levels.now }
        requires work { length work.old ≡ (length self.now.graph.now.nodes + 2) * (2 * cost_words self.now.levels.now.top) }
        requires begun { IsBegun self.now.graph.now evidence.old self.now.levels.now cost from }
        ensures others { (k : ℕ) → length self.now.levels.now.costs ≤ k → slice_index evidence.new k ≡ slice_index evidence.old k }
        ensures evidence { All (λ w. w < 3) evidence.new }
        ensures first { IsFirst (OfCost self.now.graph.now evidence.old self.now.levels.now.costs cost)
            (fixed_bits (length self.now.levels.now.costs) evidence.new) }
        ensures steps { (search : ℕ) → AreEnough (length self.now.levels.now.costs) self.now.levels.now.top search → steps.new ≤ steps.old
            + fixing_passes search (fixed_bits (length self.now.levels.now.costs) evidence.new) }
    {
        let mut from = from;
        while let Some(part) = (Asked {
            levels: self.levels,
            graph: self.graph,
            skips: self.skips,
            evidence,
        })
        .first_faulty(work, cost, from, steps)
        {
            fix_ok(evidence, from, part);
            evidence[part] = 2;
            from = part + 1;
        }
        fix_ok(evidence, from, self.levels.costs().len());
    }

    // The same with less room: fixes each open part as faulty if that leaves a state, else as ok. Takes a pass for each.
    fn settle_by_parts<L: Ledger>(
        &self,
        evidence: &mut [u32],
        work: &mut [u32],
        cost: u32,
        from: usize,
        steps: &mut Steps<L>,
    )
        requires asked { CanAsk self.now.graph.now self.now.skips.now evidence.old self.now.levels.now }
        requires work { (length self.now.graph.now.nodes + 2) * cost_words self.now.levels.now.top ≤ length work.old }
        requires begun { IsBegun self.now.graph.now evidence.old self.now.levels.now cost from }
        ensures others { (k : ℕ) → length self.now.levels.now.costs ≤ k → slice_index evidence.new k ≡ slice_index evidence.old k }
        ensures evidence { All (λ w. w < 3) evidence.new }
        ensures first { IsFirst (OfCost self.now.graph.now evidence.old self.now.levels.now.costs cost)
            (fixed_bits (length self.now.levels.now.costs) evidence.new) }
    {
        for part in from..self.levels.costs().len() {
            if is_open(evidence[part]) {
                evidence[part] = 2;
                let asked = Asked {
                    levels: self.levels,
                    graph: self.graph,
                    skips: self.skips,
                    evidence,
                };
                if !asked.reaches(work, cost, steps) {
                    evidence[part] = 1;
                }
            }
        }
    }

    // Finds the last part at which a later state of this cost can leave `state`: both are the same before it, and there `state` is faulty
    // and the later one ok. Fixes the evidence up to there. Takes at most a pass for each faulty part of the state.
    #[tactic(auto, using(crate::proofs::Rules::fixed_words))]
    pub(crate) fn leave<L: Ledger>(
        &self,
        evidence: &mut [u32],
        saved: &[u32],
        work: &mut [u32],
        state: &[u32],
        cost: u32,
        steps: &mut Steps<L>,
    ) -> Option<usize>
        requires asked { CanAsk self.now.graph.now self.now.skips.now evidence.old self.now.levels.now }
        requires saved { AreSaved (length self.now.levels.now.costs) evidence.old saved.now }
        requires work { (length self.now.graph.now.nodes + 2) * cost_words self.now.levels.now.top ≤ length work.old }
        requires state { length state.now ≡ length self.now.levels.now.costs }
        requires cost { cost ≤ self.now.levels.now.top }
        ensures evidence { All (λ w. w < 3) evidence.new }
        ensures left { MatchOption result
            ((evidence.new ≡ evidence.old) × NoneAfter (OfCost self.now.graph.now evidence.old self.now.levels.now.costs cost) (bits_of state.now) 0)
            (λ part. Leaves (λ ws h. OfCost self.now.graph.now ws self.now.levels.now.costs cost h) evidence.old (bits_of state.now) evidence.new part) }
        ensures steps { steps.new ≤ steps.old + fault_count (bits_of state.now) }
    {
        let end = follow(evidence, state);
        for part in (0..end).rev() {
            let word = saved[part];
            if is_faulty(state[part]) && !is_false(word) {
                evidence[part] = 1;
                let asked = Asked {
                    levels: self.levels,
                    graph: self.graph,
                    skips: self.skips,
                    evidence,
                };
                if asked.reaches(work, cost, steps) {
                    return Some(part);
                }
            }
            evidence[part] = word;
        }
        None
    }
}
