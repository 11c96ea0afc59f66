ghost use Rattle.std.specs.Prelude.{◌≡◌, ℕ, ◌+◌, ◌-◌, ◌*◌, ◌/◌, ◌^◌, ◌<◌, ◌≤◌, ◌≢◌, length, All, false, slice_index};
ghost use Rattle.minimiser.specs.inner.Outside.{lowered};
ghost use Rattle.probe_report.specs.inner.Outside.{is_left, mark_at, IsLowered, Without};
ghost use Rattle.probe_report.specs.inner.Leaving.{LeftChild, LeftNode, LowersBlock};

use crate::marking::{WIDTH, clear_marks, first_marked, has_bit, mark_at, mark_of, set_mark};
use conditioner::is_open;
use minimiser::{Steps, TOTAL_LIMIT};
use node_store::Graph;
use state_rules::NodeKind;
use std::sync::ledger::Ledger;

// The nodes of a graph, the least cost of each, and the cost of the rest of a derivation of the root outside it.
#[derive(Drop)]
pub(crate) struct NodeCosts<'a> {
    pub(crate) graph: &'a Graph,
    pub(crate) values: &'a [u32],
    pub(crate) outside: &'a [u32],
    ghost value_each: { length values.now ≡ length graph.now.nodes },
    ghost outside_each: { length outside.now ≡ length graph.now.nodes },
}

impl NodeCosts<'_> {
    // Lowers the number of each wire that is not seen to the least cost of a derivation without it. The wires' variables follow the parts'.
    // Takes one sweep over the nodes for each 64 wires of which one is not seen.
    pub(crate) fn lower_without<L: Ledger>(
        &self,
        evidence: &[u32],
        parts: u32,
        marks: &mut [u32],
        list: &mut [u32],
        steps: &mut Steps<L>,
    )
        requires marks { length marks.old ≡ 2 * length self.now.graph.now.nodes }
        requires evidence { length evidence.now ≡ self.now.graph.now.vars }
        requires wires { parts + length list.old ≤ self.now.graph.now.vars }
        ensures lowered { (i : ℕ) → i < length list.old → slice_index evidence.now (parts + i) ≡ 0
            → IsLowered (Without self.now.graph.now.nodes self.now.values.now self.now.outside.now (parts + i + 1)) (slice_index list.old i) (slice_index list.new i) }
        ensures steps { steps.new ≤ steps.old + (length list.old + 63) / 64 }
    {
        let wires = list.len();
        for block in 0..wires.div_ceil(WIDTH as usize) {
            let start = block * WIDTH as usize;
            let end = (start + WIDTH as usize).min(wires);
            if is_some_open(evidence, parts as usize + start, parts as usize + end) {
                steps.tick();
                self.lower_block(parts, start, marks, list);
            }
        }
    }

    // The same for the 64 wires from `start` on. The others stay. Nodes before the first that mentions one of them do not matter.
    fn lower_block(&self, parts: u32, start: usize, marks: &mut [u32], list: &mut [u32])
        requires marks { length marks.old ≡ 2 * length self.now.graph.now.nodes }
        requires wires { parts + length list.old ≤ self.now.graph.now.vars }
        requires start { start < length list.old }
        ensures { LowersBlock start (λ i. Without self.now.graph.now.nodes self.now.values.now self.now.outside.now (parts + i + 1)) list.old list.new }
    {
        let count = self.graph.len();
        let first = parts + start as u32 + 1;
        let begin = first_marked(self.graph, first);
        clear_marks(marks, begin as usize);
        for at in begin..count {
            let mark = mark_of(self.graph, marks, at, first);
            set_mark(marks, at as usize, mark);
            self.lower_node(marks, at, start, list);
        }
        let root = count as usize - 1;
        lower_all(
            start,
            u64::MAX,
            mark_at(marks, root),
            self.values[root],
            list,
        );
    }

    // If a node is an Or node, lowers the numbers of the wires that it mentions and one of its children does not.
    #[tactic(auto, using(minimiser::proofs::SpreadMarks::children_before))]
    fn lower_node(&self, marks: &[u32], at: u32, start: usize, list: &mut [u32])
        requires at { at < length self.now.graph.now.nodes }
        requires marks { length marks.now ≡ 2 * length self.now.graph.now.nodes }
        requires start { start < length list.old }
        ensures { LowersBlock start (λ i. LeftNode self.now.graph.now.nodes self.now.values.now self.now.outside.now marks.now at start i) list.old list.new }
    {
        let outside = self.outside[at as usize];
        if outside >= TOTAL_LIMIT {
            return;
        }
        match self.graph.what(at) {
            NodeKind::Literal { .. } => {}
            NodeKind::And => {}
            NodeKind::Or => {
                lower_left(
                    self.values,
                    marks,
                    self.graph.kids(at),
                    mark_at(marks, at as usize),
                    outside,
                    start,
                    list,
                );
            }
        }
    }
}

// Whether a word from `from` to before `to` is open.
fn is_some_open(evidence: &[u32], from: usize, to: usize) -> bool
    requires from { from ≤ to }
    requires to { to ≤ length evidence.now }
    ensures { result ≡ false → (i : ℕ) → from ≤ i → i < to → slice_index evidence.now i ≢ 0 }
{
    for i in from..to {
        if is_open(evidence[i]) {
            return true;
        }
    }
    false
}

// Lowers the numbers of the wires that an Or node mentions and a child does not to the cost with that child.
fn lower_left(
    values: &[u32],
    marks: &[u32],
    kids: &[u32],
    mark: u64,
    outside: u32,
    start: usize,
    list: &mut [u32],
)
    requires start { start < length list.old }
    requires kids { All (λ k. k < length values.now) kids.now }
    requires marks { length marks.now ≡ 2 * length values.now }
    requires outside { outside < TOTAL_LIMIT }
    ensures { LowersBlock start (λ i. LeftChild values.now marks.now kids.now mark outside start i) list.old list.new }
{
    for k in kids {
        let value = values[*k as usize];
        let child = mark_at(marks, *k as usize);
        if child != mark && value < TOTAL_LIMIT {
            lower_all(start, mark, child, outside + value, list);
        }
    }
}

// Lowers the numbers of the wires in `mark` and not in `child` to `cost`.
fn lower_all(start: usize, mark: u64, child: u64, cost: u32, list: &mut [u32])
    requires { start < length list.old }
    ensures { (i : ℕ) → i < length list.old
        → slice_index list.new i ≡ lowered (is_left start mark child i) cost (slice_index list.old i) }
{
    let end = (start + WIDTH as usize).min(list.len());
    for i in start..end {
        if has_bit(mark, i - start) && !has_bit(child, i - start) {
            list[i] = list[i].min(cost);
        }
    }
}
