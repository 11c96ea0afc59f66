ghost use Rattle.std.specs.Prelude.{◌≡◌, ℕ, ◌+◌, ◌*◌, ◌<◌, ◌≤◌, length, All, Some, [], slice_get, slice_index, slice_index_or};
ghost use Rattle.conditioner.specs.Models.{least_under, diagnoses_under, total_cost};
ghost use Rattle.conditioner.specs.Evidence.{bits_of};
ghost use Rattle.minimiser.specs.LeastStates.{ModelWithin};
ghost use Rattle.diagnosis_lister.specs.Listing.{fault_count};
ghost use Rattle.probe_report.specs.Verdicts.{blame_of};
ghost use Rattle.fault_graph.specs.inner.Presumed.{presumed, IsPresumed};

use conditioner::{is_faulty, is_open, known_of};
use diagnosis_lister::first_in;
use minimiser::{Steps, TOTAL_LIMIT, find_suspects, least_in};
use node_store::GraphView;
use probe_report::blame_faulty;
use state_rules::Blame;
use std::sync::ledger::Ledger;

/// Writes what [`blame`](probe_report::blame) returns for each part, in order.
///
/// One pass and one sweep find the parts that are faulty in no diagnosis. Only those of the first diagnosis can be faulty in all: a pass
/// for each of them. The state is overwritten; the evidence is the same afterwards.
#[tactic(auto, using(crate::proofs::Rules::few_faults))]
pub fn blame_all<L: Ledger>(
    graph: &GraphView<'_>,
    evidence: &mut [u32],
    costs: &[u32],
    values: &mut [u32],
    state: &mut [u32],
    verdicts: &mut [Blame],
    steps: &mut Steps<L>,
)
    requires long { length evidence.old ≡ graph.now.vars }
    requires evidence { All (λ w. w < 3) evidence.old }
    requires parts { length costs.now ≤ graph.now.vars }
    requires total { total_cost costs.now < TOTAL_LIMIT }
    requires dear { All (λ c. 0 < c) costs.now }
    requires room { length values.old ≡ length graph.now.nodes }
    requires state { length state.old ≡ length costs.now }
    requires state_words { All (λ s. s < 2) state.old }
    requires verdicts { length verdicts.old ≡ length costs.now }

    ensures blame { (part : ℕ) → part < length costs.now
        → slice_get verdicts.new part ≡ Some (blame_of graph.now evidence.old costs.now part) }
    ensures evidence { evidence.new ≡ evidence.old }
    ensures state { All (λ s. s < 2) state.new }

    // The most passes.
    ensures steps { steps.new ≤ steps.old + 2 * length costs.now + 2 }
    ensures few_steps { steps.new ≤ steps.old
        + 2 * fault_count (slice_index_or (diagnoses_under graph.now evidence.old costs.now) 0 []) + 2 }
{
    let Some(fewest) = least_in(graph, evidence, costs, values, steps) else {
        verdicts.fill(Blame::Inconsistent);
        return;
    };
    find_suspects(graph, evidence, costs, values, state);
    presume(evidence, state, verdicts);
    first_in(graph, evidence, costs, values, state, steps);
    confirm(
        graph, evidence, costs, values, state, fewest, verdicts, steps,
    );
}

// Writes a verdict on each part from its word, and on an open part that is faulty in some diagnosis: Sometimes, for the time being.
fn presume(evidence: &[u32], suspects: &[u32], verdicts: &mut [Blame])
    requires long { length verdicts.old ≤ length evidence.now }
    requires suspects { length verdicts.old ≤ length suspects.now }
    ensures { (part : ℕ) → part < length verdicts.old
        → slice_get verdicts.new part ≡ Some (presumed (slice_index evidence.now part) (slice_index suspects.now part)) }
{
    for (part, verdict) in verdicts.iter_mut().enumerate() {
        *verdict = presumed(evidence[part], suspects[part]);
    }
}

fn presumed(word: u32, suspect: u32) -> Blame
    ensures { result ≡ presumed word suspect }
{
    match known_of(word) {
        None if suspect == 1 => Blame::Sometimes,
        None | Some(true) => Blame::Never,
        Some(false) => Blame::Always,
    }
}

// Checks for each open part that is faulty in one diagnosis whether it is so in all. The others, if they are faulty in some
// diagnosis, are ok in this one.
#[tactic(auto, using(crate::proofs::Rules::few_faults))]
fn confirm<L: Ledger>(
    graph: &GraphView<'_>,
    evidence: &mut [u32],
    costs: &[u32],
    values: &mut [u32],
    state: &[u32],
    fewest: u32,
    verdicts: &mut [Blame],
    steps: &mut Steps<L>,
)
    requires long { length evidence.old ≡ graph.now.vars }
    requires evidence { All (λ w. w < 3) evidence.old }
    requires parts { length costs.now ≤ graph.now.vars }
    requires total { total_cost costs.now < TOTAL_LIMIT }
    requires room { length values.old ≡ length graph.now.nodes }
    requires state { length state.now ≡ length costs.now }
    requires verdicts { length verdicts.old ≡ length costs.now }
    requires least { least_under graph.now evidence.old costs.now ≡ Some fewest }
    requires diagnosis { ModelWithin graph.now evidence.old costs.now fewest (bits_of state.now) }
    requires presumed { (part : ℕ) → part < length costs.now
        → IsPresumed graph.now evidence.old costs.now verdicts.old part }
    ensures blame { (part : ℕ) → part < length costs.now
        → slice_get verdicts.new part ≡ Some (blame_of graph.now evidence.old costs.now part) }
    ensures evidence { evidence.new ≡ evidence.old }
    ensures steps { steps.new ≤ steps.old + fault_count (bits_of state.now) }
{
    // There are no more parts than variables, so their numbers fit in 32 bits.
    prove!(state.len() <= graph.vars() as usize);
    for (part, mark) in state.iter().enumerate() {
        if is_faulty(*mark) && is_open(evidence[part]) {
            verdicts[part] = blame_faulty(
                graph,
                evidence,
                costs,
                part as u32 + 1,
                fewest,
                values,
                steps,
            );
        }
    }
}
