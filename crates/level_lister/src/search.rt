//! The search for the next state.
ghost use Rattle.std.specs.Prelude.{◌≡◌, ℕ, ◌+◌, ◌*◌, ◌<◌, ◌≤◌, length, All, Some, MatchOption};
ghost use Rattle.std.proofs.Props.{props};
ghost use Rattle.state_rules.specs.Graphs.{IsGraph};
ghost use Rattle.conditioner.specs.Evidence.{bits_of};
ghost use Rattle.diagnosis_lister.specs.Listing.{fault_count};
ghost use Rattle.diagnosis_lister.specs.inner.Fixing.{fixed_bits};
ghost use Rattle.level_lister.specs.Listing.{IsFor, cost_words, point_if};
ghost use Rattle.level_lister.specs.Passes.{AreEnough, fixing_passes, point_faults};
ghost use Rattle.level_lister.specs.inner.Searching.{CanAsk, AreSaved, FindsFirst, FindsNext};
ghost use Rattle.level_lister.specs.inner.Skips.{IsEnough};

use crate::levels::Levels;
use crate::states::state_cost;
use minimiser::Steps;
use node_store::Graph;
use std::sync::ledger::Ledger;

// What is searched: a graph, what is kept of it, and for each node whether the passes skip it (0 if not).
#[derive(Drop)]
pub(crate) struct Search<'a> {
    pub(crate) levels: &'a Levels,
    pub(crate) graph: &'a Graph,
    pub(crate) skips: &'a [u32],
    ghost valid: { IsGraph graph.now } by { Prim.hlevel props },
    ghost for_graph: { IsFor graph.now levels.now },
    ghost marks: { length skips.now ≡ length graph.now.nodes },
}

// The same with the evidence that all passes use.
#[derive(Clone, Copy)]
pub(crate) struct Asked<'a> {
    pub(crate) levels: &'a Levels,
    pub(crate) graph: &'a Graph,
    pub(crate) skips: &'a [u32],
    pub(crate) evidence: &'a [u32],
    ghost valid: { IsGraph graph.now } by { Prim.hlevel props },
    ghost for_graph: { IsFor graph.now levels.now },
    ghost marks: { length skips.now ≡ length graph.now.nodes },
    ghost long: { length evidence.now ≡ graph.now.vars },
    ghost small: { All (λ w. w < 3) evidence.now },
    ghost enough: { IsEnough graph.now skips.now evidence.now levels.now.costs levels.now.top },
}

impl Search<'_> {
    // Fixes the parts as in the next state and returns its cost, if there is one.
    pub(crate) fn find<L: Ledger>(
        &self,
        evidence: &mut [u32],
        saved: &[u32],
        work: &mut [u32],
        state: &[u32],
        pointed: bool,
        steps: &mut Steps<L>,
    ) -> Option<u32>
        requires asked { CanAsk self.now.graph.now self.now.skips.now evidence.old self.now.levels.now }
        requires saved { AreSaved (length self.now.levels.now.costs) evidence.old saved.now }
        requires work { (length self.now.graph.now.nodes + 2) * cost_words self.now.levels.now.top ≤ length work.old }
        requires state { length state.now ≡ length self.now.levels.now.costs }
        ensures found { FindsNext self.now.graph.now evidence.old self.now.levels.now (point_if pointed (bits_of state.now)) evidence.new result }
        ensures steps { MatchOption result (steps.new ≤ steps.old + (point_faults (point_if pointed (bits_of state.now)) + 1))
            (λ _. (length self.now.graph.now.nodes + 2) * (2 * cost_words self.now.levels.now.top) ≤ length work.old
            → (search : ℕ) → AreEnough (length self.now.levels.now.costs) self.now.levels.now.top search → steps.new ≤ steps.old
            + (point_faults (point_if pointed (bits_of state.now)) + 1
            + fixing_passes search (fixed_bits (length self.now.levels.now.costs) evidence.new))) }
    {
        if pointed {
            self.find_after(evidence, saved, work, state, steps)
        } else {
            self.find_from(evidence, work, 0, steps)
        }
    }

    #[tactic(auto, using(crate::proofs::Rules::fixed_words))]
    fn find_after<L: Ledger>(
        &self,
        evidence: &mut [u32],
        saved: &[u32],
        work: &mut [u32],
        state: &[u32],
        steps: &mut Steps<L>,
    ) -> Option<u32>
        requires asked { CanAsk self.now.graph.now self.now.skips.now evidence.old self.now.levels.now }
        requires saved { AreSaved (length self.now.levels.now.costs) evidence.old saved.now }
        requires work { (length self.now.graph.now.nodes + 2) * cost_words self.now.levels.now.top ≤ length work.old }
        requires state { length state.now ≡ length self.now.levels.now.costs }
        ensures found { FindsNext self.now.graph.now evidence.old self.now.levels.now (Some (bits_of state.now)) evidence.new result }
        ensures steps { MatchOption result (steps.new ≤ steps.old + (fault_count (bits_of state.now) + 1))
            (λ _. (length self.now.graph.now.nodes + 2) * (2 * cost_words self.now.levels.now.top) ≤ length work.old
            → (search : ℕ) → AreEnough (length self.now.levels.now.costs) self.now.levels.now.top search → steps.new ≤ steps.old
            + (fault_count (bits_of state.now) + 1
            + fixing_passes search (fixed_bits (length self.now.levels.now.costs) evidence.new))) }
    {
        let own = state_cost(state, self.levels.costs());
        let top = self.levels.top();
        if own > top {
            return None;
        }
        match self.leave(evidence, saved, work, state, own, steps) {
            Some(part) => {
                self.settle(evidence, work, own, part + 1, steps);
                Some(own)
            }
            None => self.find_from(evidence, work, own + 1, steps),
        }
    }

    // Finds the first state that costs at least `from`.
    fn find_from<L: Ledger>(
        &self,
        evidence: &mut [u32],
        work: &mut [u32],
        from: u32,
        steps: &mut Steps<L>,
    ) -> Option<u32>
        requires asked { CanAsk self.now.graph.now self.now.skips.now evidence.old self.now.levels.now }
        requires work { (length self.now.graph.now.nodes + 2) * cost_words self.now.levels.now.top ≤ length work.old }
        ensures found { FindsFirst self.now.graph.now evidence.old self.now.levels.now from evidence.new result }
        ensures steps { MatchOption result (steps.new ≤ steps.old + 1)
            (λ _. (length self.now.graph.now.nodes + 2) * (2 * cost_words self.now.levels.now.top) ≤ length work.old
            → (search : ℕ) → AreEnough (length self.now.levels.now.costs) self.now.levels.now.top search → steps.new ≤ steps.old
            + (1 + fixing_passes search (fixed_bits (length self.now.levels.now.costs) evidence.new))) }
    {
        let asked = Asked {
            levels: self.levels,
            graph: self.graph,
            skips: self.skips,
            evidence,
        };
        match asked.next_cost(work, from, steps) {
            None => None,
            Some(cost) => {
                self.settle(evidence, work, cost, 0, steps);
                Some(cost)
            }
        }
    }
}
