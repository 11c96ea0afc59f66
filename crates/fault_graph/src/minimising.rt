ghost use Rattle.std.specs.Prelude.{◌≡◌, ◌+◌, ◌<◌, ◌≤◌, length, All, MatchOption, Some, None};
ghost use Rattle.state_rules.specs.Graphs.{IsGraph, edges};
ghost use Rattle.conditioner.specs.Models.{least_under, total_cost};
ghost use Rattle.fault_graph.specs.Minimised.{IsMinimised};
ghost use Rattle.fault_graph.specs.Small.{IsSmall};

use crate::marking::mark;
use crate::small_nodes::SmallNodes;
use minimiser::{Steps, TOTAL_LIMIT, least};
use node_store::Graph;
use state_rules::NodeKind;
use std::sync::ledger::Ledger;

/// Marks a node that costs something and is on a derivation of least cost.
pub(crate) const MARKED: u32 = 1;

// Returns the least cost; the nodes are then those of the smaller graph. If the root costs nothing, that is one true node.
#[tactic(auto, using(crate::proofs::Rules::sizes_of_pieces))]
pub(crate) fn minimise<L: Ledger>(
    nodes: &mut SmallNodes,
    graph: &Graph,
    evidence: &[u32],
    costs: &[u32],
    values: &mut [u32],
    places: &mut [u32],
    steps: &mut Steps<L>,
) -> Option<u32>
    requires long { length evidence.now ≡ graph.now.vars }
    requires evidence { All (λ w. w < 3) evidence.now }
    requires parts { length costs.now ≤ graph.now.vars }
    requires total { total_cost costs.now < TOTAL_LIMIT }
    requires dear { All (λ c. 0 < c) costs.now }
    requires room { length values.old ≡ length graph.now.nodes }
    requires places { length places.old ≡ length graph.now.nodes }
    requires node_room { nodes.old.node_room ≡ length graph.now.nodes }
    requires child_room { nodes.old.child_room ≡ edges graph.now.nodes }
    ensures minimised { MatchOption result
        (least_under graph.now evidence.now costs.now ≡ None)
        (λ cost. (least_under graph.now evidence.now costs.now ≡ Some cost)
        × IsGraph (record { nodes = nodes.new.nodes; vars = graph.now.vars })
        × IsMinimised graph.now evidence.now costs.now (record { nodes = nodes.new.nodes; vars = graph.now.vars })
        × IsSmall evidence.now costs.now (record { nodes = nodes.new.nodes; vars = graph.now.vars })) }
    ensures stays { nodes.new ≡ record nodes.old { nodes = nodes.new.nodes } }
    ensures steps { steps.new ≡ steps.old + 1 }
{
    let cost = least(graph, evidence, costs, values, steps)?;
    nodes.clear();
    let root = graph.len() - 1;
    let root_cost = values[root as usize];
    if root_cost == 0 {
        nodes.add(NodeKind::And, &[], values, places, 0, true);
        return Some(cost);
    }
    mark(graph, values, places);
    for at in 0..root {
        if places[at as usize] == MARKED {
            let value = values[at as usize];
            let place = nodes.add(graph.what(at), graph.kids(at), values, places, value, false);
            places[at as usize] = place;
        }
    }
    nodes.add(
        graph.what(root),
        graph.kids(root),
        values,
        places,
        root_cost,
        true,
    );
    Some(cost)
}
