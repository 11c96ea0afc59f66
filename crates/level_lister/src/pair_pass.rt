//! One pass over the nodes that computes two words for each, if only costs below 32 are listed.
ghost use Rattle.std.specs.Prelude.{◌≡◌, ℕ, ◌+◌, ◌*◌, ◌<◌, ◌≤◌, Bool, true, false, ◌&&◌, List, length, All, ◌==◌};
ghost use Rattle.std.proofs.Props.{props};
ghost use Rattle.state_rules.specs.Assignments.{Assignment};
ghost use Rattle.state_rules.specs.Bits.{same_bit, has_bit};
ghost use Rattle.state_rules.specs.Cases.{agrees_at};
ghost use Rattle.state_rules.specs.declared.nodes.NodeKind.TheVariants.{And, Or};
ghost use Rattle.state_rules.specs.Graphs.{IsGraph};
ghost use Rattle.minimiser.specs.Costs.{known_at};
ghost use Rattle.part_sets.specs.Numbers.{part_words, set_at};
ghost use Rattle.part_sets.specs.PartSets.{ArePartsOf, SameBelow};
ghost use Rattle.level_lister.specs.Listing.{IsFor};
ghost use Rattle.level_lister.specs.Passes.{group_count};
ghost use Rattle.level_lister.specs.inner.Skips.{LivesAs};
ghost use Rattle.level_lister.specs.inner.Pairs.{Tells, TellsNode, TellNodes, TellsWhole, group_in, pair_at};

use crate::groups::Groups;
use crate::levels::Levels;
use crate::pairs::{Pair, either, joined, one};
use crate::search::Asked;
use conditioner::{Leaf, is_open, known_of, leaf};
use node_store::Graph;
use part_sets::{next_missing, part_words, set_at};
use state_rules::NodeKind;

// The pair of what costs nothing and has no faulty part.
const FREE: Pair = Pair {
    costs: 1,
    faults: 0,
};

// The pair of what is never true.
const NEVER: Pair = Pair {
    costs: 0,
    faults: 0,
};

fn pair_at(values: &[u32], k: usize) -> Pair
    requires { 2 * k + 1 < length values.now }
    ensures { result ≡ pair_at values.now k }
{
    Pair {
        costs: values[2 * k],
        faults: values[2 * k + 1],
    }
}

// The inputs of a pass: a graph, evidence, groups, and which nodes are skipped.
#[derive(Drop)]
struct PairPass<'a> {
    levels: &'a Levels,
    graph: &'a Graph,
    skips: &'a [u32],
    evidence: &'a [u32],
    groups: Groups,
    ghost valid: { IsGraph graph.now } by { Prim.hlevel props },
    ghost for_graph: { IsFor graph.now levels.now },
    ghost marks: { length skips.now ≡ length graph.now.nodes },
    ghost long: { length evidence.now ≡ graph.now.vars },
    ghost small: { All (λ w. w < 3) evidence.now },
    ghost few: { levels.now.top < 32 },
}

impl Levels {
    // Returns the number of groups that a word tells apart at each cost.
    pub(crate) fn group_count(&self) -> u32
        requires { self.now.top < 32 }
        ensures count { result ≡ group_count self.now.top }
        ensures some { 0 < result }
        ensures room { result * (self.now.top + 1) ≤ 32 }
    {
        32 / (self.top() + 1)
    }
}

impl Asked<'_> {
    // Computes the two words of each node, and returns those of the last node over all parts.
    pub(crate) fn put_pairs(&self, groups: Groups, values: &mut [u32]) -> Pair
        requires top { self.now.levels.now.top < 32 }
        requires room { 2 * length self.now.graph.now.nodes ≤ length values.old }
        ensures { TellsWhole self.now.graph.now self.now.skips.now self.now.evidence.now self.now.levels.now.costs self.now.levels.now.top groups result }
    {
        let pass = PairPass {
            levels: self.levels,
            graph: self.graph,
            skips: self.skips,
            evidence: self.evidence,
            groups,
        };
        pass.put_all(values)
    }
}

impl PairPass<'_> {
    fn literal_pair(&self, var: u32, positive: bool) -> Pair
        requires var { (1 ≤ var) × (var ≤ length self.now.evidence.now) }
        ensures { Tells self.now.evidence.now self.now.levels.now.costs self.now.levels.now.top (group_count self.now.levels.now.top) (group_in self.now.evidence.now (length self.now.levels.now.costs) self.now.groups)
            (λ a. same_bit positive (a var)) (λ v. var == v) result }
    {
        match leaf(self.evidence, var, positive) {
            Leaf::False => NEVER,
            _ => if positive {
                FREE
            } else {
                self.fault_pair(var as usize - 1)
            },
        }
    }

    // Returns the words of a variable that is false: of a faulty part, or of no part.
    fn fault_pair(&self, part: usize) -> Pair
        requires part { part < length self.now.evidence.now }
        requires allowed { agrees_at (known_at self.now.evidence.now (part + 1)) false ≡ true }
        ensures { Tells self.now.evidence.now self.now.levels.now.costs self.now.levels.now.top (group_count self.now.levels.now.top) (group_in self.now.evidence.now (length self.now.levels.now.costs) self.now.groups)
            (λ a. same_bit false (a (part + 1))) (λ v. part + 1 == v) result }
    {
        let costs = self.levels.costs();
        if part >= costs.len() {
            return FREE;
        }
        Pair {
            costs: one(costs[part]),
            faults: self.mark(part, costs[part]),
        }
    }

    // Returns the bit of a part's group at its cost, or 0 if it is fixed or in no group, or costs too much.
    fn mark(&self, part: usize, cost: u32) -> u32
        requires part { part < length self.now.levels.now.costs }
        ensures { (n g : ℕ) → n ≤ self.now.levels.now.top → g < group_count self.now.levels.now.top → has_bit result (group_count self.now.levels.now.top * n + g)
            ≡ ((n == cost) && group_in self.now.evidence.now (length self.now.levels.now.costs) self.now.groups g (part + 1)) }
    {
        if !is_open(self.evidence[part]) || cost > self.levels.top() || part < self.groups.low {
            return 0;
        }
        let count = self.levels.group_count();
        let group = (part - self.groups.low) / self.groups.size;
        if group >= count as usize {
            return 0;
        }
        one(count * cost + group as u32)
    }

    // Returns the words of a part that is as free as the evidence leaves it.
    fn free_pair(&self, part: usize) -> Pair
        requires part { part < length self.now.levels.now.costs }
        ensures { Tells self.now.evidence.now self.now.levels.now.costs self.now.levels.now.top (group_count self.now.levels.now.top) (group_in self.now.evidence.now (length self.now.levels.now.costs) self.now.groups)
            (λ a. true) (λ v. part + 1 == v) result }
    {
        match known_of(self.evidence[part]) {
            Some(true) => FREE,
            Some(false) => self.fault_pair(part),
            None => either(FREE, self.fault_pair(part)),
        }
    }

    // Makes each part free that is below `outer` and not below `inner`.
    fn widened(&self, pair: Pair, inner: usize, outer: usize) -> Pair
        requires inner { inner * part_words (length self.now.levels.now.costs) + part_words (length self.now.levels.now.costs) ≤ length self.now.levels.now.below }
        requires outer { outer * part_words (length self.now.levels.now.costs) + part_words (length self.now.levels.now.costs) ≤ length self.now.levels.now.below }
        ensures { (test : Assignment → Bool) (some more : ℕ → Bool)
            → ArePartsOf (length self.now.levels.now.costs) some (set_at self.now.levels.now.below inner (part_words (length self.now.levels.now.costs)))
            → ArePartsOf (length self.now.levels.now.costs) more (set_at self.now.levels.now.below outer (part_words (length self.now.levels.now.costs)))
            → ((v : ℕ) → some v ≡ true → more v ≡ true)
            → Tells self.now.evidence.now self.now.levels.now.costs self.now.levels.now.top (group_count self.now.levels.now.top) (group_in self.now.evidence.now (length self.now.levels.now.costs) self.now.groups) test some pair
            → Tells self.now.evidence.now self.now.levels.now.costs self.now.levels.now.top (group_count self.now.levels.now.top) (group_in self.now.evidence.now (length self.now.levels.now.costs) self.now.groups) test more result }
    {
        let parts = self.levels.costs().len();
        let below = set_at(self.levels.below(), outer, part_words(parts));
        let own = set_at(self.levels.below(), inner, part_words(parts));
        let mut pair = pair;
        let mut part = next_missing(below, own, 0);
        while part < parts {
            let free = self.free_pair(part);
            pair = joined(pair, free, self.levels.group_count(), self.levels.top() + 1);
            part = next_missing(below, own, part + 1);
        }
        pair
    }

    // Computes the two words of each node, and returns those of the last node over all parts.
    #[tactic(auto, using(crate::proofs::Rules::child_pairs))]
    fn put_all(&self, values: &mut [u32]) -> Pair
        requires room { 2 * length self.now.graph.now.nodes ≤ length values.old }
        ensures { TellsWhole self.now.graph.now self.now.skips.now self.now.evidence.now self.now.levels.now.costs self.now.levels.now.top self.now.groups result }
    {
        for at in 0..self.graph.len() {
            let pair = self.node_pair(values, at);
            values[2 * at as usize] = pair.costs;
            values[2 * at as usize + 1] = pair.faults;
        }
        let root = self.graph.len() as usize - 1;
        let pair = pair_at(values, root);
        if self.levels.lacking()[root + 1] == 0 {
            return pair;
        }
        self.widened(pair, root, root + 1)
    }

    // Computes the two words of a node from those of the nodes before it. A skipped node is never true.
    #[tactic(auto, using(crate::proofs::Rules::literals))]
    fn node_pair(&self, values: &[u32], at: u32) -> Pair
        requires at { at < length self.now.graph.now.nodes }
        requires room { 2 * length self.now.graph.now.nodes ≤ length values.now }
        requires earlier { TellNodes self.now.graph.now self.now.skips.now self.now.evidence.now self.now.levels.now.costs self.now.levels.now.top self.now.groups values.now at }
        ensures { TellsNode self.now.graph.now self.now.skips.now self.now.evidence.now self.now.levels.now.costs self.now.levels.now.top self.now.groups at result }
    {
        if self.skips[at as usize] != 0 {
            return NEVER;
        }
        match self.graph.what(at) {
            NodeKind::Literal { var, positive } => self.literal_pair(var, positive),
            NodeKind::And => self.and_pair(values, at),
            NodeKind::Or => {
                if self.levels.lacking()[at as usize] == 0 {
                    self.full_pair(values, at)
                } else {
                    self.or_pair(values, at)
                }
            }
        }
    }

    #[tactic(auto, using(crate::proofs::Rules::child_pairs))]
    fn and_pair(&self, values: &[u32], at: u32) -> Pair
        requires node { LivesAs self.now.graph.now self.now.skips.now at And }
        requires room { 2 * length self.now.graph.now.nodes ≤ length values.now }
        ensures { (evidence : List ℕ) (groups : Groups)
            → TellNodes self.now.graph.now self.now.skips.now evidence self.now.levels.now.costs self.now.levels.now.top groups values.now at
            → TellsNode self.now.graph.now self.now.skips.now evidence self.now.levels.now.costs self.now.levels.now.top groups at result }
    {
        let mut pair = FREE;
        for child in self.graph.kids(at) {
            // The second pair should have few costs: what is joined so far is mostly literals.
            pair = joined(
                pair_at(values, *child as usize),
                pair,
                self.levels.group_count(),
                self.levels.top() + 1,
            );
        }
        pair
    }

    // Computes the words of an Or node whose children lack no part.
    #[tactic(auto, using(crate::proofs::Rules::child_pairs))]
    fn full_pair(&self, values: &[u32], at: u32) -> Pair
        requires node { LivesAs self.now.graph.now self.now.skips.now at Or }
        requires same { SameBelow self.now.graph.now (length self.now.levels.now.costs) at }
        requires room { 2 * length self.now.graph.now.nodes ≤ length values.now }
        ensures { (evidence : List ℕ) (groups : Groups)
            → TellNodes self.now.graph.now self.now.skips.now evidence self.now.levels.now.costs self.now.levels.now.top groups values.now at
            → TellsNode self.now.graph.now self.now.skips.now evidence self.now.levels.now.costs self.now.levels.now.top groups at result }
    {
        let mut pair = NEVER;
        for child in self.graph.kids(at) {
            pair = either(pair, pair_at(values, *child as usize));
        }
        pair
    }

    // Computes the words of an Or node: parts that a child does not mention are free where it is true.
    #[tactic(auto, using(crate::proofs::Rules::child_pairs))]
    fn or_pair(&self, values: &[u32], at: u32) -> Pair
        requires node { LivesAs self.now.graph.now self.now.skips.now at Or }
        requires room { 2 * length self.now.graph.now.nodes ≤ length values.now }
        requires earlier { TellNodes self.now.graph.now self.now.skips.now self.now.evidence.now self.now.levels.now.costs self.now.levels.now.top self.now.groups values.now at }
        ensures { TellsNode self.now.graph.now self.now.skips.now self.now.evidence.now self.now.levels.now.costs self.now.levels.now.top self.now.groups at result }
    {
        let mut pair = NEVER;
        for child in self.graph.kids(at) {
            let own = pair_at(values, *child as usize);
            pair = either(pair, self.widened(own, *child as usize, at as usize));
        }
        pair
    }
}
