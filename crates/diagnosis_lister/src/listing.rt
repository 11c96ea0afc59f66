ghost use Rattle.std.specs.Prelude.{◌≡◌, ◌+◌, ◌*◌, ◌<◌, ◌≤◌, length, All, Some, slice_index_or};
ghost use Rattle.state_rules.specs.Ranking.{rest};
ghost use Rattle.conditioner.specs.Models.{models, least_under, diagnoses_under, total_cost};
ghost use Rattle.conditioner.specs.Evidence.{bits_of};
ghost use Rattle.diagnosis_lister.specs.Listing.{step_of, fault_count};

use crate::leaving::leave;
use crate::open_marks::{mark, unmark, write_back};
use crate::settling::settle;
use minimiser::{Steps, TOTAL_LIMIT, least_in};
use node_store::{Graph, GraphView};
use std::sync::ledger::Ledger;

/// Whether there is a next diagnosis.
#[derive(Clone, Copy, Debug, PartialEq, Eq)]
pub enum Step {
    /// There is one.
    Found,
    /// There are diagnoses, and none is later.
    End,
    /// The evidence agrees with no state.
    Inconsistent,
}

/// Returns the least cost, and writes the first diagnosis to the state: 0 if a part is ok, and 1 if it is faulty. Returns `None` if the
/// graph allows no state; the state stays then.
///
/// The evidence is the same afterwards. The call makes at most one pass, and one more for each faulty part of the diagnosis; each pass
/// has at most one sweep.
pub fn first<L: Ledger>(
    graph: &Graph,
    evidence: &mut [u32],
    costs: &[u32],
    values: &mut [u32],
    state: &mut [u32],
    steps: &mut Steps<L>,
) -> Option<u32>
    requires long { length evidence.old ≡ graph.now.vars }
    requires evidence { All (λ w. w < 3) evidence.old }
    requires parts { length costs.now ≤ graph.now.vars }
    requires total { total_cost costs.now < TOTAL_LIMIT }
    requires dear { All (λ c. 0 < c) costs.now }
    requires room { length values.old ≡ length graph.now.nodes }
    requires state { length state.old ≡ length costs.now }
    requires state_words { All (λ s. s < 2) state.old }

    ensures least { result ≡ least_under graph.now evidence.old costs.now }
    ensures first { bits_of state.new
        ≡ slice_index_or (diagnoses_under graph.now evidence.old costs.now) 0 (bits_of state.old) }
    ensures state { All (λ s. s < 2) state.new }
    ensures evidence { evidence.new ≡ evidence.old }

    // The most passes.
    ensures steps { steps.new ≤ steps.old + 2 * length costs.now + 1 }
    ensures few_steps { steps.new ≤ steps.old + fault_count (bits_of state.new) + 1 }
{
    first_in(&graph.view(), evidence, costs, values, state, steps)
}

/// Does the same as [`first`] in a graph whose nodes may lie anywhere.
pub fn first_in<L: Ledger>(
    graph: &GraphView<'_>,
    evidence: &mut [u32],
    costs: &[u32],
    values: &mut [u32],
    state: &mut [u32],
    steps: &mut Steps<L>,
) -> Option<u32>
    requires long { length evidence.old ≡ graph.now.vars }
    requires evidence { All (λ w. w < 3) evidence.old }
    requires parts { length costs.now ≤ graph.now.vars }
    requires total { total_cost costs.now < TOTAL_LIMIT }
    requires dear { All (λ c. 0 < c) costs.now }
    requires room { length values.old ≡ length graph.now.nodes }
    requires state { length state.old ≡ length costs.now }
    requires state_words { All (λ s. s < 2) state.old }

    ensures least { result ≡ least_under graph.now evidence.old costs.now }
    ensures first { bits_of state.new
        ≡ slice_index_or (diagnoses_under graph.now evidence.old costs.now) 0 (bits_of state.old) }
    ensures state { All (λ s. s < 2) state.new }
    ensures evidence { evidence.new ≡ evidence.old }

    // The most passes.
    ensures steps { steps.new ≤ steps.old + 2 * length costs.now + 1 }
    ensures few_steps { steps.new ≤ steps.old + fault_count (bits_of state.new) + 1 }
{
    let fewest = least_in(graph, evidence, costs, values, steps)?;
    mark(evidence, state);
    settle(graph, evidence, costs, values, 0, steps);
    write_back(evidence, state);
    Some(fewest)
}

/// Finds the first diagnosis after the state, and writes it to the state. Returns whether there is one, and if not, why. The state need
/// not be a diagnosis.
///
/// The evidence is the same afterwards. If there is none, the state stays. The call makes at most one pass, and one more for each faulty
/// part of the state and of the diagnosis; each pass has at most one sweep.
pub fn next<L: Ledger>(
    graph: &Graph,
    evidence: &mut [u32],
    costs: &[u32],
    values: &mut [u32],
    state: &mut [u32],
    steps: &mut Steps<L>,
) -> Step
    requires long { length evidence.old ≡ graph.now.vars }
    requires evidence { All (λ w. w < 3) evidence.old }
    requires parts { length costs.now ≤ graph.now.vars }
    requires total { total_cost costs.now < TOTAL_LIMIT }
    requires dear { All (λ c. 0 < c) costs.now }
    requires room { length values.old ≡ length graph.now.nodes }
    requires state { length state.old ≡ length costs.now }
    requires state_words { All (λ s. s < 2) state.old }

    ensures step { result ≡ step_of (models graph.now evidence.old (length costs.now))
        (rest (diagnoses_under graph.now evidence.old costs.now) (Some (bits_of state.old))) }
    ensures next { bits_of state.new
        ≡ slice_index_or (rest (diagnoses_under graph.now evidence.old costs.now) (Some (bits_of state.old)))
        0 (bits_of state.old) }
    ensures state { All (λ s. s < 2) state.new }
    ensures evidence { evidence.new ≡ evidence.old }

    // The most passes.
    ensures steps { steps.new ≤ steps.old + 2 * length costs.now + 1 }
    ensures few_steps { steps.new
        ≤ steps.old + fault_count (bits_of state.old) + fault_count (bits_of state.new) + 1 }
{
    next_in(&graph.view(), evidence, costs, values, state, steps)
}

/// Does the same as [`next`] in a graph whose nodes may lie anywhere.
pub fn next_in<L: Ledger>(
    graph: &GraphView<'_>,
    evidence: &mut [u32],
    costs: &[u32],
    values: &mut [u32],
    state: &mut [u32],
    steps: &mut Steps<L>,
) -> Step
    requires long { length evidence.old ≡ graph.now.vars }
    requires evidence { All (λ w. w < 3) evidence.old }
    requires parts { length costs.now ≤ graph.now.vars }
    requires total { total_cost costs.now < TOTAL_LIMIT }
    requires dear { All (λ c. 0 < c) costs.now }
    requires room { length values.old ≡ length graph.now.nodes }
    requires state { length state.old ≡ length costs.now }
    requires state_words { All (λ s. s < 2) state.old }

    ensures step { result ≡ step_of (models graph.now evidence.old (length costs.now))
        (rest (diagnoses_under graph.now evidence.old costs.now) (Some (bits_of state.old))) }
    ensures next { bits_of state.new
        ≡ slice_index_or (rest (diagnoses_under graph.now evidence.old costs.now) (Some (bits_of state.old)))
        0 (bits_of state.old) }
    ensures state { All (λ s. s < 2) state.new }
    ensures evidence { evidence.new ≡ evidence.old }

    // The most passes.
    ensures steps { steps.new ≤ steps.old + 2 * length costs.now + 1 }
    ensures few_steps { steps.new
        ≤ steps.old + fault_count (bits_of state.old) + fault_count (bits_of state.new) + 1 }
{
    let Some(fewest) = least_in(graph, evidence, costs, values, steps) else {
        return Step::Inconsistent;
    };
    mark(evidence, state);
    match leave(graph, evidence, costs, values, state, fewest, steps) {
        None => {
            unmark(state);
            Step::End
        }
        Some(part) => {
            settle(graph, evidence, costs, values, part + 1, steps);
            write_back(evidence, state);
            Step::Found
        }
    }
}
