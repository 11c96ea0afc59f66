//! For each node of a graph the parts below it.
ghost use Rattle.std.specs.Prelude.{◌≡◌, ℕ, ◌+◌, ◌*◌, ◌<◌, ◌≤◌, ◌==◌, length, true, IfOk, slice_index};
ghost use Rattle.std.specs.List.{list_any};
ghost use Rattle.state_rules.specs.Graphs.{mentions, IsGraph};
ghost use Rattle.part_sets.specs.Numbers.{has_number, part_words, set_at};
ghost use Rattle.part_sets.specs.PartSets.{ArePartsOf, ArePartsBelow, AreBelow};

use crate::Memory;
use crate::kept::PART_LIMIT;
use crate::numbers::{add_all, add_one, clear, part_words, put_one, set_at};
use node_store::Graph;
use state_rules::NodeKind;
use std::alloc::Global;

// Returns the sets of the parts below the nodes of a graph, and after them the set of all parts.
pub(crate) fn parts_below(alloc: Global, graph: &Graph, parts: usize) -> Result<Vec<u32>, Memory>
    requires { parts ≤ PART_LIMIT }
    ensures sets { IfOk result (λ below. AreBelow graph.now parts below.items) }
    ensures valid { IsGraph graph.now }
{
    let size = part_words(parts);
    let mut below = vec![in alloc; 0; (graph.len() as usize + 1) * size]?;
    put_all(graph, parts, &mut below);
    Ok(below)
}

fn put_all(graph: &Graph, parts: usize, below: &mut [u32])
    requires parts { parts ≤ PART_LIMIT }
    requires long { length below.old ≡ (length graph.now.nodes + 1) * part_words parts }
    ensures { AreBelow graph.now parts below.new }
{
    let size = part_words(parts);
    let (nodes, all) = below.split_at_mut(graph.len() as usize * size);
    put_nodes(graph, parts, nodes);
    put_every(all, parts);
}

/// Writes the sets of the parts below the nodes of a graph, one after the other.
pub fn put_nodes(graph: &Graph, parts: usize, below: &mut [u32])
    requires parts { parts ≤ PART_LIMIT }
    requires long { length below.old ≡ length graph.now.nodes * part_words parts }

    ensures { ArePartsBelow graph.now parts below.new (length graph.now.nodes) }
{
    let size = part_words(parts);
    for at in 0..graph.len() {
        let (earlier, rest) = below.split_at_mut(at as usize * size);
        let (set, _) = rest.split_at_mut(size);
        put_node(graph, parts, earlier, at, set);
    }
}

// Writes the parts below a node, from those below the nodes before it.
#[tactic(auto, using(crate::proofs::Rules::child_places))]
fn put_node(graph: &Graph, parts: usize, earlier: &[u32], at: u32, set: &mut [u32])
    requires parts { parts ≤ PART_LIMIT }
    requires at { at < length graph.now.nodes }
    requires long { length set.old ≡ part_words parts }
    requires sets { length earlier.now ≡ at * part_words parts }
    requires earlier { ArePartsBelow graph.now parts earlier.now at }
    ensures { ArePartsOf parts (λ v. mentions graph.now.nodes v at) set.new }
{
    let kids = graph.kids(at);
    match graph.what(at) {
        NodeKind::Literal { var, .. } => put_variable(var, parts, set),
        NodeKind::And => put_joined(kids, earlier, set),
        NodeKind::Or => put_joined(kids, earlier, set),
    }
}

// Writes the part of a variable, if it has one.
fn put_variable(var: u32, parts: usize, set: &mut [u32])
    requires var { 1 ≤ var }
    requires long { length set.old ≡ part_words parts }
    ensures { ArePartsOf parts (λ v. var == v) set.new }
{
    if var as usize <= parts {
        put_one(set, var as usize - 1);
    } else {
        clear(set);
    }
}

// Writes the numbers that are in any of the children's sets.
#[tactic(auto, using(crate::proofs::JoinedSets::joined_more))]
fn put_joined(kids: &[u32], sets: &[u32], set: &mut [u32])
    requires room { (j : ℕ) → j < length kids.now
        → slice_index kids.now j * length set.old + length set.old ≤ length sets.now }
    ensures { (n : ℕ) → n < 32 * length set.old
        → has_number set.new n ≡ list_any (λ k. has_number (set_at sets.now k (length set.old)) n) kids.now }
{
    let size = set.len();
    clear(set);
    for child in kids {
        add_all(set, set_at(sets, *child as usize, size));
    }
}

// Writes each number below `count`.
fn put_every(set: &mut [u32], count: usize)
    requires { length set.old ≡ part_words count }
    ensures { ArePartsOf count (λ v. true) set.new }
{
    clear(set);
    for number in 0..count {
        add_one(set, number);
    }
}
