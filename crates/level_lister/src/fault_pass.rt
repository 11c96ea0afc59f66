//! One pass over the nodes that computes for each the set of costs at which an open part of a group is faulty.
ghost use Rattle.std.specs.Prelude.{◌≡◌, ℕ, ◌+◌, ◌*◌, ◌<◌, ◌≤◌, Bool, true, false, ◌&&◌, ◌||◌, List, length, All, ◌==◌};
ghost use Rattle.std.proofs.Props.{props};
ghost use Rattle.state_rules.specs.Assignments.{Assignment};
ghost use Rattle.state_rules.specs.Bits.{same_bit};
ghost use Rattle.state_rules.specs.declared.nodes.NodeKind.TheVariants.{And, Or};
ghost use Rattle.state_rules.specs.Graphs.{IsGraph, node_at};
ghost use Rattle.part_sets.specs.Numbers.{has_number, part_words, set_at};
ghost use Rattle.part_sets.specs.PartSets.{ArePartsOf};
ghost use Rattle.level_lister.specs.Listing.{IsFor, cost_words};
ghost use Rattle.level_lister.specs.inner.Skips.{LivesAs};
ghost use Rattle.level_lister.specs.inner.NodeSets.{AreNodeSets};
ghost use Rattle.level_lister.specs.inner.FaultSets.{in_first, IsFaultSet, AreBothSets, IsNodeFaults, AreNodeFaults, IsWholeFaults};

use crate::choices::add_part;
use crate::groups::Groups;
use crate::levels::Levels;
use crate::pass::put_full;
use crate::sets::{SET_LIMIT, add_shifted, is_empty, put_sums};
use conditioner::is_open;
use node_store::Graph;
use part_sets::{clear, next_missing, part_words, put_one, set_at};
use state_rules::NodeKind;

// The inputs of the pass: a graph, evidence, groups, the sets of costs of all nodes, and which nodes are skipped.
#[derive(Drop)]
pub(crate) struct FaultPass<'a> {
    pub(crate) levels: &'a Levels,
    pub(crate) graph: &'a Graph,
    pub(crate) evidence: &'a [u32],
    pub(crate) groups: Groups,
    pub(crate) sets: &'a [u32],
    pub(crate) skips: &'a [u32],
    ghost valid: { IsGraph graph.now } by { Prim.hlevel props },
    ghost for_graph: { IsFor graph.now levels.now },
    ghost long: { length evidence.now ≡ graph.now.vars },
    ghost small: { All (λ w. w < 3) evidence.now },
    ghost room: { length sets.now ≡ length graph.now.nodes * cost_words levels.now.top },
    ghost marks: { length skips.now ≡ length graph.now.nodes },
}

impl FaultPass<'_> {
    // Computes the set of each node, and that of the last node over all parts.
    pub(crate) fn put_all(&self, faults: &mut [u32], whole: &mut [u32], scratch: &mut [u32])
        requires are { AreNodeSets self.now.graph.now self.now.skips.now self.now.evidence.now self.now.levels.now.costs (cost_words self.now.levels.now.top)
            self.now.sets.now (length self.now.graph.now.nodes) }
        requires faults { length faults.old ≡ length self.now.graph.now.nodes * cost_words self.now.levels.now.top }
        requires whole { length whole.old ≡ cost_words self.now.levels.now.top }
        requires scratch { length scratch.old ≡ 3 * cost_words self.now.levels.now.top }
        ensures { IsWholeFaults self.now.graph.now self.now.skips.now self.now.evidence.now self.now.levels.now.costs self.now.groups whole.new }
    {
        self.put_faults(faults, scratch);
        let root = self.graph.len() as usize - 1;
        let size = self.levels.size();
        whole.copy_from_slice(set_at(faults, root, size));
        if self.levels.lacking()[root + 1] == 0 {
            return;
        }
        let (all, rest) = scratch.split_at_mut(size);
        let (spare, _) = rest.split_at_mut(size);
        all.copy_from_slice(set_at(self.sets, root, size));
        self.widen_both(root, root + 1, all, whole, spare);
    }

    fn put_faults(&self, faults: &mut [u32], scratch: &mut [u32])
        requires are { AreNodeSets self.now.graph.now self.now.skips.now self.now.evidence.now self.now.levels.now.costs (cost_words self.now.levels.now.top)
            self.now.sets.now (length self.now.graph.now.nodes) }
        requires faults { length faults.old ≡ length self.now.graph.now.nodes * cost_words self.now.levels.now.top }
        requires scratch { length scratch.old ≡ 3 * cost_words self.now.levels.now.top }
        ensures { AreNodeFaults self.now.graph.now self.now.skips.now self.now.evidence.now self.now.levels.now.costs self.now.groups (cost_words self.now.levels.now.top)
            faults.new (length self.now.graph.now.nodes) }
    {
        let size = self.levels.size();
        for at in 0..self.graph.len() {
            let (earlier, rest) = faults.split_at_mut(at as usize * size);
            let (set, _) = rest.split_at_mut(size);
            self.put_node(earlier, at, set, scratch);
        }
    }

    // Computes the set of a node from those of the nodes before it. A skipped node has no cost.
    #[tactic(auto, using(crate::proofs::Rules::literals))]
    fn put_node(&self, earlier: &[u32], at: u32, set: &mut [u32], scratch: &mut [u32])
        requires are { AreNodeSets self.now.graph.now self.now.skips.now self.now.evidence.now self.now.levels.now.costs (cost_words self.now.levels.now.top)
            self.now.sets.now (length self.now.graph.now.nodes) }
        requires at { at < length self.now.graph.now.nodes }
        requires sets { length earlier.now ≡ at * cost_words self.now.levels.now.top }
        requires earlier { AreNodeFaults self.now.graph.now self.now.skips.now self.now.evidence.now self.now.levels.now.costs self.now.groups
            (cost_words self.now.levels.now.top) earlier.now at }
        requires set { length set.old ≡ cost_words self.now.levels.now.top }
        requires scratch { length scratch.old ≡ 3 * cost_words self.now.levels.now.top }
        ensures { IsNodeFaults self.now.graph.now self.now.skips.now self.now.evidence.now self.now.levels.now.costs self.now.groups at set.new }
    {
        if self.skips[at as usize] != 0 {
            clear(set);
            return;
        }
        match self.graph.what(at) {
            NodeKind::Literal { var, positive } => self.put_literal_faults(var, positive, set),
            NodeKind::And => self.put_and_faults(earlier, at, set, scratch),
            NodeKind::Or => {
                if self.levels.lacking()[at as usize] == 0 {
                    put_full(self.graph, earlier, at, set)
                } else {
                    self.put_or_faults(earlier, at, set, scratch)
                }
            }
        }
    }

    // Whether a part is open and in the first group. `part` may be no part's number.
    #[tactic(auto, using(crate::proofs::Rules::marks))]
    fn is_marked(&self, part: usize) -> bool
        ensures marked { result ≡ in_first self.now.evidence.now self.now.levels.now.costs self.now.groups (part + 1) }
        ensures within { result ≡ true → part < length self.now.levels.now.costs }
    {
        if part >= self.levels.costs().len()
            || !is_open(self.evidence[part])
            || part < self.groups.low
        {
            return false;
        }
        part - self.groups.low < self.groups.size
    }

    // Computes the set of a literal: its cost, if it says that an open part of the first group is faulty.
    fn put_literal_faults(&self, var: u32, positive: bool, set: &mut [u32])
        requires var { 1 ≤ var }
        ensures { IsFaultSet self.now.evidence.now self.now.levels.now.costs (in_first self.now.evidence.now self.now.levels.now.costs self.now.groups)
            (λ a. same_bit positive (a var)) (λ v. var == v) set.new }
    {
        clear(set);
        if positive {
            return;
        }
        let part = var as usize - 1;
        if !self.is_marked(part) {
            return;
        }
        put_one(set, self.levels.costs()[part] as usize);
    }

    // Computes the set of an And node: a part of one child is faulty. The children share no variable.
    fn put_and_faults(&self, earlier: &[u32], at: u32, set: &mut [u32], scratch: &mut [u32])
        requires are { AreNodeSets self.now.graph.now self.now.skips.now self.now.evidence.now self.now.levels.now.costs (cost_words self.now.levels.now.top)
            self.now.sets.now (length self.now.graph.now.nodes) }
        requires node { LivesAs self.now.graph.now self.now.skips.now at And }
        requires sets { length earlier.now ≡ at * cost_words self.now.levels.now.top }
        requires earlier { AreNodeFaults self.now.graph.now self.now.skips.now self.now.evidence.now self.now.levels.now.costs self.now.groups
            (cost_words self.now.levels.now.top) earlier.now at }
        requires set { length set.old ≡ cost_words self.now.levels.now.top }
        requires scratch { length scratch.old ≡ 3 * cost_words self.now.levels.now.top }
        ensures { IsNodeFaults self.now.graph.now self.now.skips.now self.now.evidence.now self.now.levels.now.costs self.now.groups at set.new }
    {
        clear(set);
        // If no child has a fault, the And node has none. This holds at many nodes, since groups soon have few parts.
        if !self.has_faulty_child(earlier, at) {
            return;
        }
        let size = self.levels.size();
        let (other, rest) = scratch.split_at_mut(size);
        let (all, spare) = rest.split_at_mut(size);
        put_one(all, 0);
        for child in self.graph.kids(at) {
            let own = set_at(self.sets, *child as usize, size);
            let faults = set_at(earlier, *child as usize, size);
            put_both_sums(set, other, all, spare, own, faults);
        }
    }

    // Whether the set of some child is not empty.
    #[tactic(auto, using(crate::proofs::Rules::child_places))]
    fn has_faulty_child(&self, earlier: &[u32], at: u32) -> bool
        requires at { at < length self.now.graph.now.nodes }
        requires sets { length earlier.now ≡ at * cost_words self.now.levels.now.top }
        ensures { result ≡ false
            → All (λ k. (n : ℕ) → has_number (set_at earlier.now k (cost_words self.now.levels.now.top)) n ≡ false)
            (node_at self.now.graph.now.nodes at).kids }
    {
        let size = self.levels.size();
        for child in self.graph.kids(at) {
            if !is_empty(set_at(earlier, *child as usize, size)) {
                return true;
            }
        }
        false
    }

    // Computes the set of an Or node: parts that a child does not mention are free where it is true.
    #[tactic(auto, using(crate::proofs::Rules::child_places))]
    fn put_or_faults(&self, earlier: &[u32], at: u32, set: &mut [u32], scratch: &mut [u32])
        requires are { AreNodeSets self.now.graph.now self.now.skips.now self.now.evidence.now self.now.levels.now.costs (cost_words self.now.levels.now.top)
            self.now.sets.now (length self.now.graph.now.nodes) }
        requires node { LivesAs self.now.graph.now self.now.skips.now at Or }
        requires sets { length earlier.now ≡ at * cost_words self.now.levels.now.top }
        requires earlier { AreNodeFaults self.now.graph.now self.now.skips.now self.now.evidence.now self.now.levels.now.costs self.now.groups
            (cost_words self.now.levels.now.top) earlier.now at }
        requires set { length set.old ≡ cost_words self.now.levels.now.top }
        requires scratch { length scratch.old ≡ 3 * cost_words self.now.levels.now.top }
        ensures { IsNodeFaults self.now.graph.now self.now.skips.now self.now.evidence.now self.now.levels.now.costs self.now.groups at set.new }
    {
        let size = self.levels.size();
        let (own, rest) = scratch.split_at_mut(size);
        let (all, spare) = rest.split_at_mut(size);
        clear(set);
        for child in self.graph.kids(at) {
            all.copy_from_slice(set_at(self.sets, *child as usize, size));
            own.copy_from_slice(set_at(earlier, *child as usize, size));
            self.widen_both(*child as usize, at as usize, all, own, spare);
            add_shifted(set, own, 0);
        }
    }

    // Makes each part free that is below `outer` and not below `inner`, in the set of all costs and in that of those with a fault.
    fn widen_both(
        &self,
        inner: usize,
        outer: usize,
        all: &mut [u32],
        faults: &mut [u32],
        spare: &mut [u32],
    )
        requires inner { inner ≤ length self.now.graph.now.nodes }
        requires outer { outer ≤ length self.now.graph.now.nodes }
        requires faults { length faults.old ≡ length all.old }
        requires spare { length spare.old ≡ length all.old }
        ensures { (test : Assignment → Bool) (some more : ℕ → Bool)
            → ArePartsOf (length self.now.levels.now.costs) some (set_at self.now.levels.now.below inner (part_words (length self.now.levels.now.costs)))
            → ArePartsOf (length self.now.levels.now.costs) more (set_at self.now.levels.now.below outer (part_words (length self.now.levels.now.costs)))
            → ((v : ℕ) → some v ≡ true → more v ≡ true)
            → AreBothSets self.now.evidence.now self.now.levels.now.costs (in_first self.now.evidence.now self.now.levels.now.costs self.now.groups)
            test some all.old faults.old
            → AreBothSets self.now.evidence.now self.now.levels.now.costs (in_first self.now.evidence.now self.now.levels.now.costs self.now.groups)
            test more all.new faults.new }
    {
        let parts = self.levels.costs().len();
        let size = part_words(parts);
        let below = set_at(self.levels.below(), outer, size);
        let own = set_at(self.levels.below(), inner, size);
        let mut part = next_missing(below, own, 0);
        while part < parts {
            self.add_free(part, all, faults, spare);
            part = next_missing(below, own, part + 1);
        }
    }

    // Adds one part to both sets.
    fn add_free(&self, part: usize, all: &mut [u32], faults: &mut [u32], spare: &mut [u32])
        requires part { part < length self.now.levels.now.costs }
        requires faults { length faults.old ≡ length all.old }
        requires spare { length spare.old ≡ length all.old }
        ensures { (test : Assignment → Bool) (some : ℕ → Bool) → some (part + 1) ≡ false
            → AreBothSets self.now.evidence.now self.now.levels.now.costs (in_first self.now.evidence.now self.now.levels.now.costs self.now.groups)
            test some all.old faults.old
            → AreBothSets self.now.evidence.now self.now.levels.now.costs (in_first self.now.evidence.now self.now.levels.now.costs self.now.groups)
            test (λ v. some v || (part + 1 == v)) all.new faults.new }
    {
        let word = self.evidence[part];
        let cost = self.levels.costs()[part];
        // The faults come first: they depend on the costs without the part.
        add_part(word, cost, faults, spare);
        if self.is_marked(part) {
            add_shifted(faults, all, cost as usize);
        }
        add_part(word, cost, all, spare);
    }
}

// Joins both sets with those of a test that shares no variable: a part of one or the other is faulty.
fn put_both_sums(
    set: &mut [u32],
    other: &mut [u32],
    all: &mut [u32],
    spare: &mut [u32],
    own: &[u32],
    faults: &[u32],
)
    requires few { length set.old ≤ SET_LIMIT }
    requires other { length other.old ≡ length set.old }
    requires all { length all.old ≡ length set.old }
    requires spare { length spare.old ≡ length set.old }
    requires own { length own.now ≡ length set.old }
    requires faults { length faults.now ≡ length set.old }
    ensures { (evidence costs : List ℕ) (group : ℕ → Bool) (test more_test : Assignment → Bool) (some more : ℕ → Bool)
        → ((v : ℕ) → (some v && more v) ≡ false)
        → AreBothSets evidence costs group test some all.old set.old
        → AreBothSets evidence costs group more_test more own.now faults.now
        → AreBothSets evidence costs group (λ a. test a && more_test a) (λ v. some v || more v) all.new set.new }
{
    // The costs come last: both sums of the faults use the old ones.
    spare.copy_from_slice(set);
    put_sums(set, spare, own);
    put_sums(other, all, faults);
    add_shifted(set, other, 0);
    spare.copy_from_slice(all);
    put_sums(all, spare, own);
}
