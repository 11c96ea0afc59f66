//! One pass over the nodes that computes the set of costs of each.
ghost use Rattle.std.specs.Prelude.{◌≡◌, ◌≢◌, ℕ, ◌+◌, ◌*◌, ◌<◌, ◌≤◌, false, List, length, slice_index, ◌==◌, if◌then◌else◌};
ghost use Rattle.state_rules.specs.declared.nodes.NodeKind.TheVariants.{And, Or};
ghost use Rattle.state_rules.specs.Graphs.{node_at};
ghost use Rattle.conditioner.specs.declared.leaves.Leaf.{Leaf};
ghost use Rattle.part_sets.specs.Numbers.{has_number, part_words, set_at};
ghost use Rattle.part_sets.specs.PartSets.{SameBelow};
ghost use Rattle.level_lister.specs.declared.groups.Groups.{Groups};
ghost use Rattle.level_lister.specs.inner.Skips.{LivesAs};
ghost use Rattle.level_lister.specs.inner.NodeSets.{IsNodeSet, AreNodeSets, IsWholeSet};
ghost use Rattle.level_lister.specs.inner.FaultSets.{IsNodeFaults, AreNodeFaults};

use crate::choices::widen;
use crate::search::Asked;
use crate::sets::{SET_LIMIT, add_shifted, put_sums};
use conditioner::{Leaf, leaf};
use minimiser::part_cost;
use node_store::Graph;
use part_sets::{clear, part_words, put_one, set_at};
use state_rules::NodeKind;

impl Asked<'_> {
    // Computes the set of costs of each node, and that of the last node over all parts.
    pub(crate) fn put_whole(&self, sets: &mut [u32], whole: &mut [u32], spare: &mut [u32])
        requires room { length whole.old ≤ SET_LIMIT }
        requires sets { length sets.old ≡ length self.now.graph.now.nodes * length whole.old }
        requires spare { length spare.old ≡ length whole.old }
        ensures { IsWholeSet self.now.graph.now self.now.skips.now self.now.evidence.now self.now.levels.now.costs whole.new }
    {
        self.put_sets(sets, whole, spare);
        let root = self.graph.len() as usize - 1;
        whole.copy_from_slice(set_at(sets, root, whole.len()));
        if self.levels.lacking()[root + 1] == 0 {
            return;
        }
        let costs = self.levels.costs();
        let below = self.levels.below();
        let size = part_words(costs.len());
        widen(
            set_at(below, root + 1, size),
            set_at(below, root, size),
            self.evidence,
            costs,
            whole,
            spare,
        );
    }

    // Computes the set of costs of each node.
    pub(crate) fn put_sets(&self, sets: &mut [u32], spare: &mut [u32], other: &mut [u32])
        requires room { length spare.old ≤ SET_LIMIT }
        requires sets { length sets.old ≡ length self.now.graph.now.nodes * length spare.old }
        requires other { length other.old ≡ length spare.old }
        ensures { AreNodeSets self.now.graph.now self.now.skips.now self.now.evidence.now self.now.levels.now.costs (length spare.old) sets.new (length self.now.graph.now.nodes) }
    {
        let size = spare.len();
        for at in 0..self.graph.len() {
            let (earlier, rest) = sets.split_at_mut(at as usize * size);
            let (set, _) = rest.split_at_mut(size);
            self.put_set(earlier, at, set, spare, other);
        }
    }

    // Computes the set of a node from those of the nodes before it. A skipped node has no cost.
    #[tactic(auto, using(crate::proofs::Rules::literals))]
    fn put_set(&self, sets: &[u32], at: u32, set: &mut [u32], spare: &mut [u32], other: &mut [u32])
        requires room { length set.old ≤ SET_LIMIT }
        requires at { at < length self.now.graph.now.nodes }
        requires sets { length sets.now ≡ at * length set.old }
        requires earlier { AreNodeSets self.now.graph.now self.now.skips.now self.now.evidence.now self.now.levels.now.costs (length set.old) sets.now at }
        requires spare { length spare.old ≡ length set.old }
        requires other { length other.old ≡ length set.old }
        ensures { IsNodeSet self.now.graph.now self.now.skips.now self.now.evidence.now self.now.levels.now.costs at set.new }
    {
        if self.skips[at as usize] != 0 {
            clear(set);
            return;
        }
        match self.graph.what(at) {
            NodeKind::Literal { var, positive } => {
                put_literal(
                    leaf(self.evidence, var, positive),
                    positive,
                    part_cost(var, self.levels.costs()),
                    set,
                )
            }
            NodeKind::And => self.put_and(sets, at, set, spare),
            NodeKind::Or => {
                if self.levels.lacking()[at as usize] == 0 {
                    put_full(self.graph, sets, at, set)
                } else {
                    self.put_or(sets, at, set, spare, other)
                }
            }
        }
    }

    // Computes the set of an And node. Its children share no variable.
    #[tactic(auto, using(crate::proofs::Rules::child_places))]
    fn put_and(&self, sets: &[u32], at: u32, set: &mut [u32], spare: &mut [u32])
        requires room { length set.old ≤ SET_LIMIT }
        requires node { LivesAs self.now.graph.now self.now.skips.now at And }
        requires sets { length sets.now ≡ at * length set.old }
        requires spare { length spare.old ≡ length set.old }
        ensures { (evidence costs : List ℕ) → AreNodeSets self.now.graph.now self.now.skips.now evidence costs (length set.old) sets.now at
            → IsNodeSet self.now.graph.now self.now.skips.now evidence costs at set.new }
    {
        let size = set.len();
        put_one(set, 0);
        for child in self.graph.kids(at) {
            spare.copy_from_slice(set);
            put_sums(set, spare, set_at(sets, *child as usize, size));
        }
    }

    // Computes the set of an Or node: parts that a child does not mention are free where it is true.
    #[tactic(auto, using(crate::proofs::Rules::child_places))]
    fn put_or(&self, sets: &[u32], at: u32, set: &mut [u32], spare: &mut [u32], other: &mut [u32])
        requires node { LivesAs self.now.graph.now self.now.skips.now at Or }
        requires sets { length sets.now ≡ at * length set.old }
        requires earlier { AreNodeSets self.now.graph.now self.now.skips.now self.now.evidence.now self.now.levels.now.costs (length set.old) sets.now at }
        requires spare { length spare.old ≡ length set.old }
        requires other { length other.old ≡ length set.old }
        ensures { IsNodeSet self.now.graph.now self.now.skips.now self.now.evidence.now self.now.levels.now.costs at set.new }
    {
        let size = set.len();
        let costs = self.levels.costs();
        let below = self.levels.below();
        let parts = part_words(costs.len());
        let own = set_at(below, at as usize, parts);
        clear(set);
        for child in self.graph.kids(at) {
            spare.copy_from_slice(set_at(sets, *child as usize, size));
            widen(
                own,
                set_at(below, *child as usize, parts),
                self.evidence,
                costs,
                spare,
                other,
            );
            add_shifted(set, spare, 0);
        }
    }
}

// Computes the set of an Or node whose children lack no part, from their sets: of all costs, or of those with a fault.
#[tactic(auto, using(crate::proofs::Rules::child_places))]
pub(crate) fn put_full(graph: &Graph, sets: &[u32], at: u32, set: &mut [u32])
    requires at { at < length graph.now.nodes }
    requires what { (node_at graph.now.nodes at).what ≡ Or }
    requires sets { length sets.now ≡ at * length set.old }
    ensures all { (skips evidence costs : List ℕ) → slice_index skips at ≡ 0 → SameBelow graph.now (length costs) at
        → AreNodeSets graph.now skips evidence costs (length set.old) sets.now at → IsNodeSet graph.now skips evidence costs at set.new }
    ensures faulty { (skips evidence costs : List ℕ) (groups : Groups) → slice_index skips at ≡ 0 → SameBelow graph.now (length costs) at
        → AreNodeFaults graph.now skips evidence costs groups (length set.old) sets.now at → IsNodeFaults graph.now skips evidence costs groups at set.new }
{
    let size = set.len();
    clear(set);
    for child in graph.kids(at) {
        add_shifted(set, set_at(sets, *child as usize, size), 0);
    }
}

fn put_literal(leaf: Leaf, positive: bool, cost: u32, set: &mut [u32])
    ensures ruled_out { leaf ≡ Leaf.False → (n : ℕ) → has_number set.new n ≡ false }
    ensures allowed { leaf ≢ Leaf.False → (n : ℕ) → n < 32 * length set.old
        → has_number set.new n ≡ (n == (if positive then 0 else cost)) }
{
    match leaf {
        Leaf::False => clear(set),
        Leaf::True | Leaf::Open => put_one(set, if positive { 0 } else { cost as usize }),
    }
}
