ghost use Rattle.std.specs.Prelude.{◌≡◌, ℕ, ◌-◌, ◌<◌, ◌≤◌, ◌↔◌, length, All, IsSome, IfSome, MatchOption, slice_index};
ghost use Rattle.conditioner.specs.Models.{least_under, total_cost};
ghost use Rattle.minimiser.specs.Stored.{AreLeastCosts};
ghost use Rattle.minimiser.specs.LeastStates.{Suspect, OkBelow};
ghost use Rattle.minimiser.specs.inner.Swept.{IsValue, has_mark, spread_value, IsSwept, suspect_of, suspect_at};

use crate::pass::TOTAL_LIMIT;
use conditioner::is_open;
use node_store::GraphView;
use state_rules::{NO_COST, NodeKind};

/// Marks a node in its value. Costs are below it.
const MARK: u32 = TOTAL_LIMIT + 1;

/// Returns the first open part that is faulty in some state of least cost. Parts are counted from 0.
///
/// The values are those that [`least`](crate::least) left, and some state agrees with the evidence. They are overwritten. The call makes
/// one sweep over the nodes, from the root down, and one look at them.
#[tactic(auto, using(crate::proofs::Rules::swept_costs))]
pub fn first_suspect(
    graph: &GraphView<'_>,
    evidence: &[u32],
    costs: &[u32],
    values: &mut [u32],
) -> Option<u32>
    requires long { length evidence.now ≡ graph.now.vars }
    requires parts { length costs.now ≤ graph.now.vars }
    requires total { total_cost costs.now < TOTAL_LIMIT }
    requires dear { All (λ c. 0 < c) costs.now }
    requires values { AreLeastCosts graph.now evidence.now costs.now values.old }
    requires some { IsSome (least_under graph.now evidence.now costs.now) }

    ensures { MatchOption result (OkBelow graph.now evidence.now costs.now (length costs.now))
        (λ part. Suspect graph.now evidence.now costs.now part × OkBelow graph.now evidence.now costs.now part) }
{
    let nodes = graph.len();
    let parts = costs.len() as u32;
    sweep(graph, values);
    let mut first = parts;
    for at in 0..nodes {
        if let Some(part) = suspect_at(graph, evidence, parts, values, at) {
            first = first.min(part);
        }
    }
    if first == parts { None } else { Some(first) }
}

/// Writes all open parts that are faulty in some state of least cost to `state`: 1 for each of them, and 0 for every other part.
///
/// The values are as for [`first_suspect`]. They are overwritten.
#[tactic(auto, using(crate::proofs::Rules::swept_costs))]
pub fn find_suspects(
    graph: &GraphView<'_>,
    evidence: &[u32],
    costs: &[u32],
    values: &mut [u32],
    state: &mut [u32],
)
    requires long { length evidence.now ≡ graph.now.vars }
    requires parts { length costs.now ≤ graph.now.vars }
    requires total { total_cost costs.now < TOTAL_LIMIT }
    requires dear { All (λ c. 0 < c) costs.now }
    requires values { AreLeastCosts graph.now evidence.now costs.now values.old }
    requires some { IsSome (least_under graph.now evidence.now costs.now) }
    requires state { length state.old ≡ length costs.now }

    ensures state { All (λ s. s < 2) state.new }
    ensures suspects { (part : ℕ) → part < length costs.now
        → (slice_index state.new part ≡ 1) ↔ Suspect graph.now evidence.now costs.now part }
{
    let nodes = graph.len();
    let parts = costs.len() as u32;
    sweep(graph, values);
    state.fill(0);
    for at in 0..nodes {
        if let Some(part) = suspect_at(graph, evidence, parts, values, at) {
            state[part as usize] = 1;
        }
    }
}

// Marks the root, and the children of each marked node that cost no more than it. These are all children of an And node, and those of
// an Or node that make it true at its cost.
#[tactic(auto, using(crate::proofs::Rules::met_children))]
fn sweep(graph: &GraphView<'_>, values: &mut [u32])
    requires room { length values.old ≡ length graph.now.nodes }
    requires values { All IsValue values.old }
    requires root { slice_index values.old (length graph.now.nodes - 1) < TOTAL_LIMIT }
    ensures { IsSwept graph.now.nodes values.old values.new 0 }
{
    let count = graph.len();
    values[count as usize - 1] += MARK;
    for at in (0..count).rev() {
        let value = values[at as usize];
        if has_mark(value) {
            spread(values, graph.kids(at), value - MARK);
        }
    }
}

fn has_mark(value: u32) -> bool
    ensures { result ≡ has_mark value }
{
    value >= MARK && value != NO_COST
}

fn spread(values: &mut [u32], kids: &[u32], cost: u32)
    requires kids { All (λ k. k < length values.old) kids.now }
    requires cost { cost < TOTAL_LIMIT }
    ensures { (j : ℕ) → j < length values.old
        → slice_index values.new j ≡ spread_value kids.now cost j (slice_index values.old j) }
{
    for k in kids {
        if values[*k as usize] <= cost {
            values[*k as usize] += MARK;
        }
    }
}

// Returns the part of a marked open literal that says faulty.
fn suspect_at(
    graph: &GraphView<'_>,
    evidence: &[u32],
    parts: u32,
    values: &[u32],
    at: u32,
) -> Option<u32>
    requires at { at < length graph.now.nodes }
    requires parts { parts ≤ length evidence.now }
    requires room { length values.now ≡ length graph.now.nodes }
    ensures suspect { result ≡ suspect_at graph.now.nodes evidence.now parts values.now at }
    ensures within { IfSome result (λ part. part < parts) }
{
    if !has_mark(values[at as usize]) {
        return None;
    }
    match graph.what(at) {
        NodeKind::Literal { var, positive } => suspect_of(var, positive, evidence, parts),
        NodeKind::And => None,
        NodeKind::Or => None,
    }
}

fn suspect_of(var: u32, positive: bool, evidence: &[u32], parts: u32) -> Option<u32>
    requires var { 1 ≤ var }
    requires parts { parts ≤ length evidence.now }
    ensures suspect { result ≡ suspect_of evidence.now parts (NodeKind.Literal positive var) }
    ensures within { IfSome result (λ part. part < parts) }
{
    if !positive && var <= parts && is_open(evidence[var as usize - 1]) {
        Some(var - 1)
    } else {
        None
    }
}
