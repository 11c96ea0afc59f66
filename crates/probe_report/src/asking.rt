ghost use Rattle.std.specs.Prelude.{◌≡◌, ◌+◌, ◌<◌, ◌≤◌, length, All, false, true};
ghost use Rattle.conditioner.specs.Models.{least_with, total_cost};

use conditioner::{Leaf, fix, leaf, loose};
use minimiser::{Steps, TOTAL_LIMIT, least_in};
use node_store::{Graph, GraphView};
use std::sync::ledger::Ledger;

/// Returns the least cost if a wire's variable is 0, and if it is 1; none if no state is left.
///
/// The evidence is the same afterwards. It takes at most two passes.
pub fn probe<L: Ledger>(
    graph: &Graph,
    evidence: &mut [u32],
    costs: &[u32],
    wire: u32,
    values: &mut [u32],
    steps: &mut Steps<L>,
) -> (Option<u32>, Option<u32>)
    requires long { length evidence.old ≡ graph.now.vars }
    requires evidence { All (λ w. w < 3) evidence.old }
    requires parts { length costs.now ≤ graph.now.vars }
    requires total { total_cost costs.now < TOTAL_LIMIT }
    requires wire { (length costs.now < wire) × (wire ≤ graph.now.vars) }
    requires room { length values.old ≡ length graph.now.nodes }

    ensures zero { result.0 ≡ least_with graph.now evidence.old costs.now wire false }
    ensures one { result.1 ≡ least_with graph.now evidence.old costs.now wire true }
    ensures evidence { evidence.new ≡ evidence.old }
    ensures steps { steps.new ≤ steps.old + 2 }
{
    let graph = &graph.view();
    let zero = least_where(graph, evidence, costs, wire, false, values, steps);
    let one = least_where(graph, evidence, costs, wire, true, values, steps);
    (zero, one)
}

// Returns the least cost if a variable has this bit too.
pub(crate) fn least_where<L: Ledger>(
    graph: &GraphView<'_>,
    evidence: &mut [u32],
    costs: &[u32],
    var: u32,
    bit: bool,
    values: &mut [u32],
    steps: &mut Steps<L>,
) -> Option<u32>
    requires long { length evidence.old ≡ graph.now.vars }
    requires evidence { All (λ w. w < 3) evidence.old }
    requires parts { length costs.now ≤ graph.now.vars }
    requires total { total_cost costs.now < TOTAL_LIMIT }
    requires var { (1 ≤ var) × (var ≤ graph.now.vars) }
    requires room { length values.old ≡ length graph.now.nodes }
    ensures least { result ≡ least_with graph.now evidence.old costs.now var bit }
    ensures evidence { evidence.new ≡ evidence.old }
    ensures steps { steps.new ≤ steps.old + 1 }
{
    match leaf(evidence, var, bit) {
        Leaf::True => least_in(graph, evidence, costs, values, steps),
        Leaf::False => None,
        Leaf::Open => {
            fix(evidence, var, bit);
            let fewest = least_in(graph, evidence, costs, values, steps);
            loose(evidence, var);
            fewest
        }
    }
}
