ghost use Rattle.std.specs.Prelude.{◌≡◌, ◌-◌, ◌<◌, ◌≤◌, [], length, take, All, slice_index_or, IfSome};
ghost use Rattle.std.specs.Option.{option_map};
ghost use Rattle.conditioner.specs.Models.{least_under, diagnoses_under, total_cost};
ghost use Rattle.conditioner.specs.Evidence.{bits_of};
ghost use Rattle.fault_graph.specs.Minimised.{Serves};

use diagnosis_lister::Step;
use fault_graph::MinimisedGraph;
use minimiser::{Steps, TOTAL_LIMIT};
use node_store::Graph;
use std::sync::ledger::Ledger;

/// What is found of the first diagnoses of a graph.
#[derive(Clone, Copy, Debug, PartialEq, Eq)]
pub struct Found {
    /// The cost of each of them.
    pub fewest: u32,
    /// The number that were listed.
    pub listed: u32,
}

// Lists the diagnoses after the first one, up to `most` in all, and returns how many are listed then. The last one is in the state.
fn list_on<L: Ledger>(
    minimised_graph: &mut MinimisedGraph,
    graph: &Graph,
    evidence: &mut [u32],
    costs: &[u32],
    values: &mut [u32],
    state: &mut [u32],
    most: u32,
    steps: &mut Steps<L>,
) -> u32
    requires long { length evidence.old ≡ graph.now.vars }
    requires evidence { All (λ w. w < 3) evidence.old }
    requires parts { length costs.now ≤ graph.now.vars }
    requires total { total_cost costs.now < TOTAL_LIMIT }
    requires dear { All (λ c. 0 < c) costs.now }
    requires room { length values.old ≡ length graph.now.nodes }
    requires state { length state.old ≡ length costs.now }
    requires state_words { All (λ s. s < 2) state.old }
    requires some { 1 ≤ most }
    requires serves { Serves graph.now costs.now minimised_graph.old }
    requires there { 0 < length (diagnoses_under graph.now evidence.old costs.now) }
    requires first { bits_of state.old ≡ slice_index_or (diagnoses_under graph.now evidence.old costs.now) 0 [] }
    ensures listed { result ≡ length (take most (diagnoses_under graph.now evidence.old costs.now)) }
    ensures last { bits_of state.new ≡ slice_index_or (diagnoses_under graph.now evidence.old costs.now) (result - 1) [] }
    ensures state { All (λ s. s < 2) state.new }
    ensures evidence { evidence.new ≡ evidence.old }
    ensures serves { Serves graph.now costs.now minimised_graph.new }
{
    for count in 1..most {
        match minimised_graph.next(graph, evidence, costs, values, state, steps) {
            Step::Found => {}
            Step::End | Step::Inconsistent => return count,
        }
    }
    most
}

/// Finds the least cost over a graph, and the number of diagnoses, up to `most`. Writes the first and the last of these into the states: 0
/// if a part is ok, and 1 if it is faulty. Returns `None` if the graph allows no state.
///
/// The evidence is the same afterwards.
pub fn sample<L: Ledger>(
    minimised_graph: &mut MinimisedGraph,
    graph: &Graph,
    evidence: &mut [u32],
    costs: &[u32],
    values: &mut [u32],
    first_state: &mut [u32],
    last_state: &mut [u32],
    most: u32,
    steps: &mut Steps<L>,
) -> Option<Found>
    requires long { length evidence.old ≡ graph.now.vars }
    requires evidence { All (λ w. w < 3) evidence.old }
    requires parts { length costs.now ≤ graph.now.vars }
    requires total { total_cost costs.now < TOTAL_LIMIT }
    requires dear { All (λ c. 0 < c) costs.now }
    requires room { length values.old ≡ length graph.now.nodes }
    requires first_state { length first_state.old ≡ length costs.now }
    requires first_words { All (λ s. s < 2) first_state.old }
    requires last_state { length last_state.old ≡ length costs.now }
    requires some { 1 ≤ most }
    requires serves { Serves graph.now costs.now minimised_graph.old }
    ensures least { option_map (λ found. found.fewest) result ≡ least_under graph.now evidence.old costs.now }
    ensures listed { IfSome result (λ found.
        found.listed ≡ length (take most (diagnoses_under graph.now evidence.old costs.now))) }
    ensures first { IfSome result (λ found.
        bits_of first_state.new ≡ slice_index_or (diagnoses_under graph.now evidence.old costs.now) 0 []) }
    ensures last { IfSome result (λ found.
        bits_of last_state.new ≡ slice_index_or (diagnoses_under graph.now evidence.old costs.now) (found.listed - 1) []) }
    ensures first_state { All (λ s. s < 2) first_state.new }
    ensures last_state { IfSome result (λ _. All (λ s. s < 2) last_state.new) }
    ensures evidence { evidence.new ≡ evidence.old }
    ensures serves { Serves graph.now costs.now minimised_graph.new }
{
    let fewest = minimised_graph.first(graph, evidence, costs, values, first_state, steps)?;
    last_state.copy_from_slice(first_state);
    let listed = list_on(
        minimised_graph,
        graph,
        evidence,
        costs,
        values,
        last_state,
        most,
        steps,
    );
    Some(Found { fewest, listed })
}
