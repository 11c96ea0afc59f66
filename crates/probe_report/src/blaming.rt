ghost use Rattle.std.specs.Prelude.{◌≡◌, ◌+◌, ◌-◌, ◌<◌, ◌≤◌, length, All, false, true, Some};
ghost use Rattle.conditioner.specs.Models.{least_under, least_with, total_cost};
ghost use Rattle.probe_report.specs.Verdicts.{blame_of};

use crate::asking::least_where;
use minimiser::{Steps, TOTAL_LIMIT, least};
use node_store::{Graph, GraphView};
use state_rules::Blame;
use std::sync::ledger::Ledger;

/// Whether a part is faulty in all diagnoses, in some, or in none.
///
/// The evidence is the same afterwards. It takes at most three passes.
pub fn blame<L: Ledger>(
    graph: &Graph,
    evidence: &mut [u32],
    costs: &[u32],
    part: u32,
    values: &mut [u32],
    steps: &mut Steps<L>,
) -> Blame
    requires long { length evidence.old ≡ graph.now.vars }
    requires evidence { All (λ w. w < 3) evidence.old }
    requires parts { length costs.now ≤ graph.now.vars }
    requires total { total_cost costs.now < TOTAL_LIMIT }
    requires part { (1 ≤ part) × (part ≤ length costs.now) }
    requires room { length values.old ≡ length graph.now.nodes }

    ensures blame { result ≡ blame_of graph.now evidence.old costs.now (part - 1) }
    ensures evidence { evidence.new ≡ evidence.old }
    ensures steps { steps.new ≤ steps.old + 3 }
{
    let Some(fewest) = least(graph, evidence, costs, values, steps) else {
        return Blame::Inconsistent;
    };
    let graph = &graph.view();
    if least_where(graph, evidence, costs, part, false, values, steps) == Some(fewest) {
        blame_faulty(graph, evidence, costs, part, fewest, values, steps)
    } else {
        Blame::Never
    }
}

/// Returns what [`blame`] returns for a part that is faulty in some diagnosis, if the least cost is known. It takes at most one pass.
pub fn blame_faulty<L: Ledger>(
    graph: &GraphView<'_>,
    evidence: &mut [u32],
    costs: &[u32],
    part: u32,
    fewest: u32,
    values: &mut [u32],
    steps: &mut Steps<L>,
) -> Blame
    requires long { length evidence.old ≡ graph.now.vars }
    requires evidence { All (λ w. w < 3) evidence.old }
    requires parts { length costs.now ≤ graph.now.vars }
    requires total { total_cost costs.now < TOTAL_LIMIT }
    requires part { (1 ≤ part) × (part ≤ length costs.now) }
    requires room { length values.old ≡ length graph.now.nodes }
    requires least { least_under graph.now evidence.old costs.now ≡ Some fewest }
    requires faulty { least_with graph.now evidence.old costs.now part false ≡ Some fewest }

    ensures blame { result ≡ blame_of graph.now evidence.old costs.now (part - 1) }
    ensures evidence { evidence.new ≡ evidence.old }
    ensures steps { steps.new ≤ steps.old + 1 }
{
    if least_where(graph, evidence, costs, part, true, values, steps) == Some(fewest) {
        Blame::Sometimes
    } else {
        Blame::Always
    }
}
