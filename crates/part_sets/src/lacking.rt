//! Which nodes have a child that lacks a part.
ghost use Rattle.std.specs.Prelude.{◌≡◌, ◌↔◌, ℕ, ◌+◌, ◌*◌, ◌<◌, ◌≤◌, false, not, ◌&&◌, length, IfOk};
ghost use Rattle.state_rules.specs.declared.nodes.NodeKind.TheVariants.{Or};
ghost use Rattle.state_rules.specs.Graphs.{node_at};
ghost use Rattle.part_sets.specs.Numbers.{has_number, part_words, set_at};
ghost use Rattle.part_sets.specs.PartSets.{AreBelow, SameBelow, LacksNone, AreLacking};

use crate::Memory;
use crate::kept::PART_LIMIT;
use crate::numbers::{next_missing, part_words, set_at};
use node_store::Graph;
use state_rules::NodeKind;
use std::alloc::Global;

// Returns for each node a word that is 0 if it is no Or node, or no child of it lacks a part; and after them one that is 0 if the root
// lacks no part.
pub(crate) fn nodes_lacking(
    alloc: Global,
    graph: &Graph,
    below: &[u32],
    parts: usize,
) -> Result<Vec<u32>, Memory>
    requires parts { parts ≤ PART_LIMIT }
    requires below { AreBelow graph.now parts below.now }
    ensures { IfOk result (λ lacking. AreLacking graph.now parts lacking.items) }
{
    let mut lacking = vec![in alloc; 0; graph.len() as usize + 1]?;
    put_lacking(graph, below, parts, &mut lacking);
    Ok(lacking)
}

#[tactic(auto, using(crate::proofs::Rules::lacking_nodes))]
fn put_lacking(graph: &Graph, below: &[u32], parts: usize, lacking: &mut [u32])
    requires parts { parts ≤ PART_LIMIT }
    requires below { AreBelow graph.now parts below.now }
    requires long { length lacking.old ≡ length graph.now.nodes + 1 }
    ensures { AreLacking graph.now parts lacking.new }
{
    let count = graph.len();
    for at in 0..count {
        lacking[at as usize] = flag(child_lacks(graph, below, parts, at));
    }
    let root = count as usize - 1;
    lacking[root + 1] = flag(lacks(below, parts, root + 1, root));
}

fn flag(lacks: bool) -> u32
    ensures { (result ≡ 0) ↔ (lacks ≡ false) }
{
    u32::from(lacks)
}

// Whether a node is an Or node with a child that lacks a part.
fn child_lacks(graph: &Graph, below: &[u32], parts: usize, at: u32) -> bool
    requires parts { parts ≤ PART_LIMIT }
    requires below { AreBelow graph.now parts below.now }
    requires at { at < length graph.now.nodes }
    ensures { (result ≡ false) ↔ LacksNone graph.now parts at }
{
    match graph.what(at) {
        NodeKind::Literal { .. } => false,
        NodeKind::And => false,
        NodeKind::Or => one_lacks(graph, below, parts, at),
    }
}

#[tactic(auto, using(crate::proofs::Rules::lacking_children))]
fn one_lacks(graph: &Graph, below: &[u32], parts: usize, at: u32) -> bool
    requires parts { parts ≤ PART_LIMIT }
    requires below { AreBelow graph.now parts below.now }
    requires at { at < length graph.now.nodes }
    requires what { (node_at graph.now.nodes at).what ≡ Or }
    ensures { (result ≡ false) ↔ SameBelow graph.now parts at }
{
    for child in graph.kids(at) {
        if lacks(below, parts, at as usize, *child as usize) {
            return true;
        }
    }
    false
}

// Whether the set `outer` has a part that `inner` has not.
fn lacks(below: &[u32], parts: usize, outer: usize, inner: usize) -> bool
    requires parts { parts ≤ PART_LIMIT }
    requires outer { outer * part_words parts + part_words parts ≤ length below.now }
    requires inner { inner * part_words parts + part_words parts ≤ length below.now }
    ensures { (result ≡ false) ↔ ((p : ℕ) → p < parts
        → (has_number (set_at below.now outer (part_words parts)) p && not (has_number (set_at below.now inner (part_words parts)) p)) ≡ false) }
{
    let size = part_words(parts);
    next_missing(set_at(below, outer, size), set_at(below, inner, size), 0) < parts
}
