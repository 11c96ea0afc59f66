ghost use Rattle.std.specs.Prelude.{◌≡◌, ◌≢◌, ◌↔◌, ℕ, ◌+◌, ◌<◌, ◌≤◌, length, All, Some, IsSome, IsTrue, slice_index};
ghost use Rattle.conditioner.specs.Models.{least_under, total_cost};
ghost use Rattle.minimiser.specs.LeastStates.{LeastState};
ghost use Rattle.minimiser.specs.Stored.{AreLeastCosts};
ghost use Rattle.diagnosis_lister.specs.Listing.{fault_count};
ghost use Rattle.diagnosis_lister.specs.inner.Fixing.{IsFirst, fixed_bits};

use conditioner::fix_ok;
use minimiser::{Steps, TOTAL_LIMIT, first_suspect, least_in, put_least_costs};
use node_store::GraphView;
use std::sync::ledger::Ledger;

// Whether the least cost under the evidence is `fewest`.
pub(crate) fn reaches<L: Ledger>(
    graph: &GraphView<'_>,
    evidence: &[u32],
    costs: &[u32],
    values: &mut [u32],
    fewest: u32,
    steps: &mut Steps<L>,
) -> bool
    requires long { length evidence.now ≡ graph.now.vars }
    requires evidence { All (λ w. w < 3) evidence.now }
    requires parts { length costs.now ≤ graph.now.vars }
    requires total { total_cost costs.now < TOTAL_LIMIT }
    requires room { length values.old ≡ length graph.now.nodes }
    ensures reached { IsTrue result ↔ (least_under graph.now evidence.now costs.now ≡ Some fewest) }
    ensures values { AreLeastCosts graph.now evidence.now costs.now values.new }
    ensures steps { steps.new ≡ steps.old + 1 }
{
    least_in(graph, evidence, costs, values, steps) == Some(fewest)
}

// Fixes each open part from `from` on, to faulty if that can be, so that only the first of the states of least cost is left.
// The values are the costs of the nodes. It makes a pass for each part that it fixes to faulty.
pub(crate) fn settle<L: Ledger>(
    graph: &GraphView<'_>,
    evidence: &mut [u32],
    costs: &[u32],
    values: &mut [u32],
    from: usize,
    steps: &mut Steps<L>,
)
    requires long { length evidence.old ≡ graph.now.vars }
    requires evidence { All (λ w. w < 3) evidence.old }
    requires parts { length costs.now ≤ graph.now.vars }
    requires total { total_cost costs.now < TOTAL_LIMIT }
    requires dear { All (λ c. 0 < c) costs.now }
    requires room { length values.old ≡ length graph.now.nodes }
    requires values { AreLeastCosts graph.now evidence.old costs.now values.old }
    requires from { from ≤ length costs.now }
    requires front { (k : ℕ) → k < from → slice_index evidence.old k ≢ 0 }
    requires some { IsSome (least_under graph.now evidence.old costs.now) }
    ensures kept { (k : ℕ) → slice_index evidence.old k ≢ 0 → slice_index evidence.new k ≡ slice_index evidence.old k }
    ensures others { (k : ℕ) → length costs.now ≤ k → slice_index evidence.new k ≡ slice_index evidence.old k }
    ensures evidence { All (λ w. w < 3) evidence.new }
    ensures first { IsFirst (LeastState graph.now evidence.old costs.now) (fixed_bits (length costs.now) evidence.new) }
    ensures steps { steps.new ≤ steps.old + fault_count (fixed_bits (length costs.now) evidence.new) }
{
    let mut from = from;
    while let Some(part) = first_suspect(graph, evidence, costs, values) {
        let part = part as usize;
        fix_ok(evidence, from, part);
        evidence[part] = 2;
        from = part + 1;
        put_least_costs(graph, evidence, costs, values, steps);
    }
    fix_ok(evidence, from, costs.len());
}
