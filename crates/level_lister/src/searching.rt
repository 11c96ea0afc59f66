//! Finds the first part that is faulty in some state of a cost.
ghost use Rattle.std.specs.Prelude.{◌≡◌, ℕ, ◌+◌, ◌*◌, ◌<◌, ◌≤◌, length, MatchOption};
ghost use Rattle.level_lister.specs.Listing.{cost_words};
ghost use Rattle.level_lister.specs.Passes.{AreEnough, first_passes, group_count, groups_per_pass};
ghost use Rattle.level_lister.specs.inner.NodeSets.{BeginWithSets, AreReady};
ghost use Rattle.level_lister.specs.inner.Pairs.{FaultOf, FaultIn, OkAmong};

use crate::fault_pass::FaultPass;
use crate::groups::Groups;
use crate::pairs::has_bit;
use crate::search::Asked;
use minimiser::Steps;
use part_sets::has_number;
use std::sync::ledger::Ledger;

impl Asked<'_> {
    // If costs of 32 and more are listed, computes the sets of costs of all nodes at the front of `work`, by one pass. While the evidence
    // is the same, each pass that looks for a fault uses them.
    fn prepare<L: Ledger>(&self, work: &mut [u32], steps: &mut Steps<L>)
        requires work { length work.old ≡ (length self.now.graph.now.nodes + 2) * (2 * cost_words self.now.levels.now.top) }
        ensures ready { AreReady self.now.graph.now self.now.skips.now self.now.evidence.now self.now.levels.now work.new }
        ensures steps { steps.new ≡ steps.old + first_passes self.now.levels.now.top }
    {
        if self.levels.top() < 32 {
            return;
        }
        steps.tick();
        let size = self.levels.size();
        let (sets, rest) = work.split_at_mut(self.graph.len() as usize * size);
        let (spare, rest) = rest.split_at_mut(size);
        let (other, _) = rest.split_at_mut(size);
        self.put_sets(sets, spare, other);
    }

    // Returns the first group of those in a pass in which an open part is faulty in some state of this cost, or their number if there is
    // none. Takes one pass, and keeps what was prepared.
    fn faulty_group(&self, work: &mut [u32], cost: u32, groups: Groups) -> u32
        requires work { length work.old ≡ (length self.now.graph.now.nodes + 2) * (2 * cost_words self.now.levels.now.top) }
        requires cost { cost ≤ self.now.levels.now.top }
        requires ready { AreReady self.now.graph.now self.now.skips.now self.now.evidence.now self.now.levels.now work.old }
        ensures few { result ≤ groups_per_pass self.now.levels.now.top }
        ensures found { result < groups_per_pass self.now.levels.now.top
            → FaultOf self.now.graph.now self.now.evidence.now self.now.levels.now.costs cost groups result }
        ensures before { (g : ℕ) → g < result → FaultOf self.now.graph.now self.now.evidence.now self.now.levels.now.costs cost groups g → ⊥ }
        ensures ready { AreReady self.now.graph.now self.now.skips.now self.now.evidence.now self.now.levels.now work.new }
    {
        if self.levels.top() < 32 {
            self.faulty_group_by_pairs(work, cost, groups)
        } else {
            self.faulty_group_by_sets(work, cost, groups)
        }
    }

    // The same, if only costs below 32 are listed.
    #[tactic(auto, using(crate::proofs::Rules::group_faults))]
    fn faulty_group_by_pairs(&self, work: &mut [u32], cost: u32, groups: Groups) -> u32
        requires top { self.now.levels.now.top < 32 }
        requires work { 2 * length self.now.graph.now.nodes ≤ length work.old }
        requires cost { cost ≤ self.now.levels.now.top }
        ensures few { result ≤ group_count self.now.levels.now.top }
        ensures found { result < group_count self.now.levels.now.top
            → FaultOf self.now.graph.now self.now.evidence.now self.now.levels.now.costs cost groups result }
        ensures before { (g : ℕ) → g < result → FaultOf self.now.graph.now self.now.evidence.now self.now.levels.now.costs cost groups g → ⊥ }
    {
        let pair = self.put_pairs(groups, work);
        let count = self.levels.group_count();
        for group in 0..count {
            if has_bit(pair.faults, count * cost + group) {
                return group;
            }
        }
        count
    }

    // The same for the first group alone: 0 if an open part of it is faulty in some state of this cost, else 1. The pass computes only the
    // costs with a fault, since the sets of all costs are there.
    #[tactic(auto, using(crate::proofs::Rules::first_faults))]
    fn faulty_group_by_sets(&self, work: &mut [u32], cost: u32, groups: Groups) -> u32
        requires work { length work.old ≡ (length self.now.graph.now.nodes + 2) * (2 * cost_words self.now.levels.now.top) }
        requires cost { cost ≤ self.now.levels.now.top }
        requires sets { BeginWithSets self.now.graph.now self.now.skips.now self.now.evidence.now self.now.levels.now work.old }
        ensures few { result ≤ 1 }
        ensures found { result < 1 → FaultOf self.now.graph.now self.now.evidence.now self.now.levels.now.costs cost groups result }
        ensures before { (g : ℕ) → g < result → FaultOf self.now.graph.now self.now.evidence.now self.now.levels.now.costs cost groups g → ⊥ }
        ensures sets { BeginWithSets self.now.graph.now self.now.skips.now self.now.evidence.now self.now.levels.now work.new }
    {
        let size = self.levels.size();
        let all = self.graph.len() as usize * size;
        let (sets, rest) = work.split_at_mut(all);
        let (faults, rest) = rest.split_at_mut(all);
        let (whole, scratch) = rest.split_at_mut(size);
        let pass = FaultPass {
            levels: self.levels,
            graph: self.graph,
            evidence: self.evidence,
            groups,
            sets,
            skips: self.skips,
        };
        pass.put_all(faults, whole, scratch);
        if has_number(whole, cost as usize) {
            0
        } else {
            1
        }
    }

    // Finds the first open part from `from` on that is faulty in some state of this cost. After `prepare` each pass says in which of some
    // groups it is, or that it is after them.
    pub(crate) fn first_faulty<L: Ledger>(
        &self,
        work: &mut [u32],
        cost: u32,
        from: usize,
        steps: &mut Steps<L>,
    ) -> Option<usize>
        requires work { length work.old ≡ (length self.now.graph.now.nodes + 2) * (2 * cost_words self.now.levels.now.top) }
        requires cost { cost ≤ self.now.levels.now.top }
        requires from { from ≤ length self.now.levels.now.costs }
        ensures found { MatchOption result (OkAmong self.now.graph.now self.now.evidence.now self.now.levels.now.costs cost from (length self.now.levels.now.costs))
            (λ part. (from ≤ part) × (FaultIn self.now.graph.now self.now.evidence.now self.now.levels.now.costs cost part
            × OkAmong self.now.graph.now self.now.evidence.now self.now.levels.now.costs cost from part)) }
        ensures steps { (search : ℕ) → AreEnough (length self.now.levels.now.costs) self.now.levels.now.top search → steps.new ≤ steps.old + search }
    {
        let parts = self.levels.costs().len();
        if from == parts {
            return None;
        }
        self.prepare(work, steps);
        let count = self.levels.groups_per_pass() as usize;
        let mut low = from;
        let mut span = parts - from + 1;
        while span > 1 {
            let size = (span + count) / (count + 1);
            steps.tick();
            let group = self.faulty_group(work, cost, Groups { low, size }) as usize;
            low += group * size;
            span = size;
        }
        if low < parts { Some(low) } else { None }
    }
}
