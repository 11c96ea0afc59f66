//! What a text is drawn from.
ghost use Rattle.std.specs.Prelude.{◌≡◌, ℕ, ◌+◌, ◌*◌, ◌^◌, ◌<◌, ◌≤◌, ◌&&◌, true, false, not, nat_le, map, length, slice_index, MatchOption};
ghost use Rattle.std.specs.List.{filter, range_with_len};
ghost use Rattle.state_rules.specs.Bits.{has_bit};
ghost use Rattle.state_rules.specs.Graphs.{mentions};
ghost use Rattle.minimiser.specs.Costs.{cost_at};
ghost use Rattle.state_rules.specs.Numbers.{cost_in};
ghost use Rattle.part_sets.specs.Numbers.{part_words};
ghost use Rattle.smooth_nnf.specs.Layouts.{fillers, filler, literal_line};
ghost use Rattle.smooth_nnf.specs.inner.Sets.{part_at};
ghost use Rattle.smooth_nnf.specs.inner.Drawings.{IsDrawing, IsNodeOf, IsUnder, is_over, missing_in, part_count, set_parts};

use conditioner::is_false;
use node_store::Graph;
use part_sets::{part_words, set_at};
use std::marker::Model;

/// A graph under evidence, the number of its parts, and for each node the least cost, the own line and the parts below it. Also, if known,
/// which Or nodes have a child that lacks a part.
#[derive(Drop)]
pub(crate) struct Drawing<'a> {
    pub(crate) graph: &'a Graph,
    pub(crate) evidence: &'a [u32],
    pub(crate) parts: u32,
    pub(crate) values: &'a [u32],
    pub(crate) lines: &'a [u32],
    pub(crate) below: &'a [u32],
    pub(crate) lacking: Option<&'a [u32]>,
}

impl<'a> Model for Drawing<'a> {
    ghost use Rattle.std.specs.Option.{option_map};
    ghost use Rattle.smooth_nnf.specs.inner.Drawings.{Drawing as Kept, IsDrawing};

    ghost Value = { Kept };

    ghost view = { λ d. record { graph = d.graph.now; evidence = d.evidence.now; parts = d.parts; values = d.values.now; lines = d.lines.now; sets = d.below.now; lacking = option_map (λ words. words.now) d.lacking } };

    ghost invariant = { λ d. IsDrawing (record { graph = d.graph.now; evidence = d.evidence.now; parts = d.parts; values = d.values.now; lines = d.lines.now; sets = d.below.now; lacking = option_map (λ words. words.now) d.lacking }) };
}

impl<'a> Drawing<'a> {
    pub(crate) fn graph(&self) -> &Graph
        ensures graph { result.now ≡ self.now.graph }
        ensures whole { IsDrawing self.now }
    {
        self.graph
    }

    pub(crate) fn parts(&self) -> u32
        ensures parts { result ≡ self.now.parts }
        ensures whole { IsDrawing self.now }
    {
        self.parts
    }

    // Returns the own line of a node.
    pub(crate) fn line(&self, node: u32) -> u32
        requires { node < length self.now.graph.nodes }
        ensures { result ≡ slice_index self.now.lines node }
    {
        self.lines[node as usize]
    }

    // Returns the least cost at a node, or `NO_COST`.
    #[tactic(auto, using(crate::proofs::Rules::stored_costs))]
    pub(crate) fn value(&self, node: u32) -> u32
        requires { node < length self.now.graph.nodes }
        ensures value { result ≡ slice_index self.now.values node }
        ensures cost { cost_in result ≡ cost_at (map cost_in self.now.values) node }
    {
        self.values[node as usize]
    }

    // Returns the least costs.
    pub(crate) fn values(&self) -> &[u32]
        ensures { result.now ≡ self.now.values }
    {
        self.values
    }

    // Returns the sets of parts below the nodes.
    fn below(&self) -> &[u32]
        ensures sets { result.now ≡ self.now.sets }
        ensures wide { length self.now.graph.nodes * part_words self.now.parts ≤ length result.now }
        ensures whole { IsDrawing self.now }
    {
        self.below
    }

    // Returns the number of words of a set.
    pub(crate) fn width(&self) -> usize
        ensures { result ≡ part_words self.now.parts }
    {
        part_words(self.parts as usize)
    }

    #[tactic(auto, using(crate::proofs::Rules::parts_below_node))]
    pub(crate) fn part_count(&self, node: u32) -> u32
        requires { node < length self.now.graph.nodes }
        ensures count { result ≡ part_count self.now node }
        ensures most { result ≤ self.now.parts }
        ensures whole { IsDrawing self.now }
    {
        count_parts(set_at(self.below(), node as usize, self.width()))
    }

    // Returns the number of parts that a line must have below it.
    fn over_count(&self, over: Option<u32>) -> u32
        requires { IsNodeOf self.now over }
        ensures count { result ≡ length (filter (is_over self.now.graph.nodes over) (range_with_len 1 self.now.parts)) }
        ensures most { result ≤ self.now.parts }
    {
        match over {
            Some(over) => self.part_count(over),
            None => self.parts,
        }
    }

    // True only if nothing is missing below the nodes whose lines are filled in up to the parts of `over`, or up to all parts.
    #[tactic(auto, using(crate::proofs::Rules::nothing_lacks))]
    pub(crate) fn lacks_none(&self, over: Option<u32>) -> bool
        requires over { IsNodeOf self.now over }
        ensures { (node part : ℕ) → result ≡ true → IsUnder self.now over node → 1 ≤ part → part ≤ self.now.parts
            → missing_in self.now over node part ≡ false }
    {
        match self.lacking {
            Some(lacking) => lacking[self.place_over(over)] == 0,
            None => false,
        }
    }

    // Returns the place of the node, or the one after all nodes.
    fn place_over(&self, over: Option<u32>) -> usize
        requires { IsNodeOf self.now over }
        ensures within { result ≤ length self.now.graph.nodes }
        ensures place { MatchOption over (result ≡ length self.now.graph.nodes) (λ node. result ≡ node) }
    {
        match over {
            Some(node) => node as usize,
            None => self.graph.len() as usize,
        }
    }

    // Returns the number of parts missing below a node.
    #[tactic(auto, using(crate::proofs::Rules::missing_parts))]
    pub(crate) fn missing_count(&self, over: Option<u32>, node: u32) -> u32
        requires node { node < length self.now.graph.nodes }
        requires over { IsNodeOf self.now over }
        requires under { IsUnder self.now over node }
        ensures count { result ≡ length (fillers self.now.evidence self.now.parts (missing_in self.now over node)) }
        ensures most { 2 * result + 1 < 2 ^ 32 }
    {
        if self.lacks_none(over) {
            return 0;
        }
        self.over_count(over) - self.part_count(node)
    }

    // Returns the parts of a word that a line must have below it.
    #[tactic(auto, using(crate::proofs::Rules::masked_bits))]
    fn over_word(&self, over: Option<u32>, word: usize) -> u32
        requires over { IsNodeOf self.now over }
        requires word { word < part_words self.now.parts }
        ensures { (b : ℕ) → b < 32 → has_bit result b
            ≡ (nat_le (part_at word b) self.now.parts && is_over self.now.graph.nodes over (part_at word b)) }
    {
        match over {
            Some(node) => self.node_word(node, word),
            None => part_bits(self.parts, word),
        }
    }

    // Returns the parts of a word that are below a node.
    #[tactic(auto, using(crate::proofs::Rules::parts_below_node))]
    fn node_word(&self, node: u32, word: usize) -> u32
        requires node { node < length self.now.graph.nodes }
        requires word { word < part_words self.now.parts }
        ensures { (b : ℕ) → b < 32 → has_bit result b
            ≡ (nat_le (part_at word b) self.now.parts && mentions self.now.graph.nodes (part_at word b) node) }
    {
        self.below()[node as usize * self.width() + word]
    }

    // Returns the parts of a word that are missing below a node.
    #[tactic(auto, using(crate::proofs::Rules::masked_bits))]
    pub(crate) fn missing_word(&self, over: Option<u32>, node: u32, word: usize) -> u32
        requires node { node < length self.now.graph.nodes }
        requires over { IsNodeOf self.now over }
        requires word { word < part_words self.now.parts }
        ensures { (b : ℕ) → b < 32 → has_bit result b
            ≡ (nat_le (part_at word b) self.now.parts && missing_in self.now over node (part_at word b)) }
    {
        without(self.over_word(over, word), self.node_word(node, word))
    }

    // Returns the line that fills in the part of a bit.
    pub(crate) fn filler(&self, word: usize, b: u32) -> u32
        requires { part_at word b ≤ self.now.parts }
        ensures { result ≡ filler self.now.evidence (part_at word b) }
    {
        let evidence = self.evidence;
        let part = 32 * word as u32 + b + 1;
        literal_line(part, !is_false(evidence[part as usize - 1]))
    }
}

#[tactic(auto, using(crate::proofs::Rules::counted_parts))]
fn count_parts(set: &[u32]) -> u32
    requires { length set.now < 2 ^ 27 }
    ensures { result ≡ length (set_parts 0 set.now) }
{
    let mut count = 0;
    for word in set {
        count += word.count_ones();
    }
    count
}

// Returns the bits of a word that are parts'.
#[tactic(auto, using(crate::proofs::Rules::masked_bits))]
fn part_bits(parts: u32, word: usize) -> u32
    requires { word < part_words parts }
    ensures { (b : ℕ) → b < 32 → has_bit result b ≡ nat_le (part_at word b) parts }
{
    let count = (parts as usize - 32 * word).min(32);
    ((1_u64 << count) - 1) as u32
}

#[tactic(auto, using(crate::proofs::Rules::masked_bits))]
fn without(all: u32, others: u32) -> u32
    ensures { (b : ℕ) → b < 32 → has_bit result b ≡ (has_bit all b && not (has_bit others b)) }
{
    all & !others
}

pub(crate) fn literal_line(part: u32, ok: bool) -> u32
    requires { (1 ≤ part) × (2 * part < 2 ^ 32) }
    ensures { result ≡ literal_line part ok }
{
    if ok {
        2 * (part - 1)
    } else {
        2 * (part - 1) + 1
    }
}
