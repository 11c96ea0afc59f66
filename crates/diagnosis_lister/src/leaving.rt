ghost use Rattle.std.specs.Prelude.{◌≡◌, ◌+◌, ◌<◌, ◌≤◌, length, All, Some, IfSome, MatchOption};
ghost use Rattle.conditioner.specs.Models.{least_under, total_cost};
ghost use Rattle.minimiser.specs.Stored.{AreLeastCosts};
ghost use Rattle.diagnosis_lister.specs.Listing.{fault_count};
ghost use Rattle.diagnosis_lister.specs.inner.OpenMarks.{marked_bits, AreMarks};
ghost use Rattle.minimiser.specs.LeastStates.{ModelWithin};
ghost use Rattle.diagnosis_lister.specs.inner.Fixing.{Agrees, Follows, Leaves, NoneAfter};

use crate::settling::reaches;
use conditioner::{is_false, word_of_known};
use minimiser::{Steps, TOTAL_LIMIT};
use node_store::GraphView;
use std::sync::ledger::Ledger;

// Fixes the open parts as the state has them, up to the first part that is held otherwise. Returns how many parts these are, with that one.
#[tactic(auto, using(crate::proofs::Rules::followed_points))]
fn follow(evidence: &mut [u32], state: &[u32]) -> usize
    requires long { length state.now ≤ length evidence.old }
    requires evidence { All (λ w. w < 3) evidence.old }
    requires marks { AreMarks evidence.old state.now }
    ensures within { result ≤ length state.now }
    ensures evidence { All (λ w. w < 3) evidence.new }
    ensures follows { Follows (Agrees (length state.now) evidence.old) evidence.old (marked_bits state.now) evidence.new result }
{
    for (part, mark) in state.iter().enumerate() {
        let word = word_of_known(Some(*mark % 2 == 0));
        if *mark >= 2 {
            evidence[part] = word;
        } else if evidence[part] != word {
            return part + 1;
        }
    }
    state.len()
}

// Returns the last part at which a later diagnosis can leave the state: it is the same before the part, and ok there, where the state is
// faulty. The evidence is then fixed up to the part. Makes at most one pass for each part that is faulty in the state.
pub(crate) fn leave<L: Ledger>(
    graph: &GraphView<'_>,
    evidence: &mut [u32],
    costs: &[u32],
    values: &mut [u32],
    state: &[u32],
    fewest: u32,
    steps: &mut Steps<L>,
) -> Option<usize>
    requires long { length evidence.old ≡ graph.now.vars }
    requires evidence { All (λ w. w < 3) evidence.old }
    requires parts { length costs.now ≤ graph.now.vars }
    requires total { total_cost costs.now < TOTAL_LIMIT }
    requires room { length values.old ≡ length graph.now.nodes }
    requires state { length state.now ≡ length costs.now }
    requires marks { AreMarks evidence.old state.now }
    requires least { least_under graph.now evidence.old costs.now ≡ Some fewest }
    ensures evidence { All (λ w. w < 3) evidence.new }
    ensures left { MatchOption result
        ((evidence.new ≡ evidence.old) × NoneAfter (ModelWithin graph.now evidence.old costs.now fewest) (marked_bits state.now) 0)
        (λ part. Leaves (λ ws h. ModelWithin graph.now ws costs.now fewest h) evidence.old (marked_bits state.now) evidence.new part) }
    ensures least { IfSome result (λ _. least_under graph.now evidence.new costs.now ≡ Some fewest) }
    ensures values { IfSome result (λ _. AreLeastCosts graph.now evidence.new costs.now values.new) }
    ensures steps { steps.new ≤ steps.old + fault_count (marked_bits state.now) }
{
    let end = follow(evidence, state);
    for part in (0..end).rev() {
        let mark = state[part];
        let word = if mark >= 2 { 0 } else { evidence[part] };
        if mark % 2 == 1 && !is_false(word) {
            evidence[part] = 1;
            if reaches(graph, evidence, costs, values, fewest, steps) {
                return Some(part);
            }
        }
        evidence[part] = word;
    }
    None
}
