ghost use Rattle.std.specs.Prelude.{◌≡◌, ℕ, ◌+◌, ◌-◌, ◌<◌, ◌≤◌, ◌⊎◌, Bool, true, Option, [], ◌∷◌, map, length, All, IfSome};
ghost use Rattle.state_rules.specs.Graphs.{node_fits};
ghost use Rattle.conditioner.specs.Models.{least_under, total_cost};
ghost use Rattle.minimiser.specs.Costs.{part_cost, known_at, node_cost, literal_cost, cost_at, cost_by, sum_costs, cheapest};
ghost use Rattle.minimiser.specs.inner.Held.{held_cost};
ghost use Rattle.state_rules.specs.Numbers.{cost_in};
ghost use Rattle.minimiser.specs.Stored.{AreLeastCosts};

use crate::steps::Steps;
use conditioner::{Leaf, is_false, leaf};
use node_store::{Graph, GraphView, NodeRef};
use state_rules::{NO_COST, NodeKind};
use std::sync::ledger::Ledger;

/// All parts together cost less than this, so that a cost leaves the highest bit of its number free.
pub const TOTAL_LIMIT: u32 = 2_147_483_647;

/// Returns the least cost of a health state that is a model with some bits of the other variables: it agrees with the evidence, and the
/// graph is true under them. `None` if there is none.
///
/// The parts are the first variables, and each has a cost. A part that is fixed to faulty counts even if the graph does not mention it;
/// an open part that is not mentioned counts as ok. A call makes one pass over the nodes, and leaves the least cost at each in `values`,
/// for [`first_suspect`](crate::first_suspect) and [`find_suspects`](crate::find_suspects).
pub fn least<L: Ledger>(
    graph: &Graph,
    evidence: &[u32],
    costs: &[u32],
    values: &mut [u32],
    steps: &mut Steps<L>,
) -> Option<u32>
    requires long { length evidence.now ≡ graph.now.vars }
    requires evidence { All (λ w. w < 3) evidence.now }
    requires parts { length costs.now ≤ graph.now.vars }
    requires total { total_cost costs.now < TOTAL_LIMIT }
    requires room { length values.old ≡ length graph.now.nodes }

    ensures least { result ≡ least_under graph.now evidence.now costs.now }
    ensures values { AreLeastCosts graph.now evidence.now costs.now values.new }
    ensures steps { steps.new ≡ steps.old + 1 }
{
    least_in(&graph.view(), evidence, costs, values, steps)
}

/// Does the same as [`least`] in a graph whose nodes may lie anywhere.
#[tactic(auto, using(crate::proofs::Rules::root_costs))]
pub fn least_in<L: Ledger>(
    graph: &GraphView<'_>,
    evidence: &[u32],
    costs: &[u32],
    values: &mut [u32],
    steps: &mut Steps<L>,
) -> Option<u32>
    requires long { length evidence.now ≡ graph.now.vars }
    requires evidence { All (λ w. w < 3) evidence.now }
    requires parts { length costs.now ≤ graph.now.vars }
    requires total { total_cost costs.now < TOTAL_LIMIT }
    requires room { length values.old ≡ length graph.now.nodes }

    ensures least { result ≡ least_under graph.now evidence.now costs.now }
    ensures values { AreLeastCosts graph.now evidence.now costs.now values.new }
    ensures steps { steps.new ≡ steps.old + 1 }
{
    put_least_costs(graph, evidence, costs, values, steps);
    let root = values[graph.len() as usize - 1];
    if root == NO_COST {
        None
    } else {
        Some(root + held_cost(evidence, costs))
    }
}

/// Makes the pass of [`least`], for a caller that needs only the least cost at each node.
#[tactic(auto, using(crate::proofs::Rules::pass_ends))]
pub fn put_least_costs<L: Ledger>(
    graph: &GraphView<'_>,
    evidence: &[u32],
    costs: &[u32],
    values: &mut [u32],
    steps: &mut Steps<L>,
)
    requires long { length evidence.now ≡ graph.now.vars }
    requires evidence { All (λ w. w < 3) evidence.now }
    requires parts { length costs.now ≤ graph.now.vars }
    requires total { total_cost costs.now < TOTAL_LIMIT }
    requires room { length values.old ≡ length graph.now.nodes }

    ensures values { AreLeastCosts graph.now evidence.now costs.now values.new }
    ensures steps { steps.new ≡ steps.old + 1 }
{
    steps.tick();
    let mut at = 0;
    for node in graph.walk() {
        let value = node_value(&node, evidence, costs, &values[..at]);
        values[at] = value;
        at += 1;
    }
}

// Returns the least cost at a node, from those of the nodes before it.
fn node_value(node: &NodeRef<'_>, evidence: &[u32], costs: &[u32], values: &[u32]) -> u32
    requires fits { node_fits (length evidence.now) (length values.now) node.now ≡ true }
    requires evidence { All (λ w. w < 3) evidence.now }
    requires total { total_cost costs.now < TOTAL_LIMIT }
    requires small { node.now.what ≡ NodeKind.And
        → IfSome (node_cost (known_at evidence.now) (part_cost costs.now) node.now (map cost_in values.now)) (λ n. n < TOTAL_LIMIT) }
    ensures { cost_in result ≡ node_cost (known_at evidence.now) (part_cost costs.now) node.now (map cost_in values.now) }
{
    if let [one, other] = node.kids {
        return pair_value(node.what, values[*one as usize], values[*other as usize]);
    }
    match node.what {
        NodeKind::Literal { var, positive } => {
            literal_value(
                leaf(evidence, var, positive),
                positive,
                part_cost(var, costs),
            )
        }
        NodeKind::And => and_value(values, node.kids),
        NodeKind::Or => or_value(values, node.kids),
    }
}

// Returns the value of a node with two children, as most have.
//
// The greatest number means no cost, so that a sum with it is not below it.
#[tactic(auto, using(crate::proofs::Rules::pair_costs))]
fn pair_value(what: NodeKind, one: u32, other: u32) -> u32
    requires gate { (what ≡ NodeKind.And) ⊎ (what ≡ NodeKind.Or) }
    requires small { what ≡ NodeKind.And → IfSome (sum_costs (cost_in one ∷ cost_in other ∷ [])) (λ n. n < TOTAL_LIMIT) }
    ensures { (known : ℕ → Option Bool) (price : ℕ → ℕ)
        → cost_in result ≡ cost_by known price what (cost_in one ∷ cost_in other ∷ []) }
{
    let sum = u64::from(one) + u64::from(other);
    let value = either(what, sum, u64::from(one.min(other)));
    value.min(u64::from(NO_COST)) as u32
}

// Returns one of two numbers, by the kind of a node. Both are computed before, so that no branch depends on it.
fn either(what: NodeKind, of_and: u64, of_or: u64) -> u64
    requires gate { (what ≡ NodeKind.And) ⊎ (what ≡ NodeKind.Or) }
    ensures and { what ≡ NodeKind.And → result ≡ of_and }
    ensures or { what ≡ NodeKind.Or → result ≡ of_or }
{
    match what {
        NodeKind::Or => of_or,
        NodeKind::And | NodeKind::Literal { .. } => of_and,
    }
}

/// Returns the cost of the failure of a variable's part, and 0 for a variable of no part.
pub fn part_cost(var: u32, costs: &[u32]) -> u32
    requires { 1 ≤ var }
    ensures { result ≡ part_cost costs.now var }
{
    match costs.get(var as usize - 1) {
        Some(cost) => *cost,
        None => 0,
    }
}

fn literal_value(leaf: Leaf, positive: bool, cost: u32) -> u32
    requires { cost < TOTAL_LIMIT }
    ensures { cost_in result ≡ literal_cost leaf cost positive }
{
    match leaf {
        Leaf::True => 0,
        Leaf::False => NO_COST,
        Leaf::Open => { if positive { 0 } else { cost } }
    }
}

#[tactic(auto, using(crate::proofs::Sums::sum_step))]
fn and_value(values: &[u32], kids: &[u32]) -> u32
    requires kids { All (λ k. k < length values.now) kids.now }
    requires small { IfSome (sum_costs (map (cost_at (map cost_in values.now)) kids.now)) (λ n. n < TOTAL_LIMIT) }
    ensures { cost_in result ≡ sum_costs (map (cost_at (map cost_in values.now)) kids.now) }
{
    let mut total: u32 = 0;
    for k in kids {
        total = total.saturating_add(values[*k as usize]);
    }
    total
}

#[tactic(auto, using(crate::proofs::Sums::least_step))]
fn or_value(values: &[u32], kids: &[u32]) -> u32
    requires { All (λ k. k < length values.now) kids.now }
    ensures { cost_in result ≡ cheapest (map (cost_at (map cost_in values.now)) kids.now) }
{
    let mut best = NO_COST;
    for k in kids {
        best = best.min(values[*k as usize]);
    }
    best
}

// Returns the cost of the parts that the evidence fixes to faulty.
#[tactic(auto, using(crate::proofs::Held::held_steps))]
pub(crate) fn held_cost(evidence: &[u32], costs: &[u32]) -> u32
    requires evidence { All (λ w. w < 3) evidence.now }
    requires long { length costs.now ≤ length evidence.now }
    requires total { total_cost costs.now < TOTAL_LIMIT }
    ensures cost { result ≡ held_cost costs.now evidence.now }
    ensures few { result ≤ total_cost costs.now }
{
    let mut total = 0;
    for (part, cost) in costs.iter().enumerate() {
        if is_false(evidence[part]) {
            total += *cost;
        }
    }
    total
}
