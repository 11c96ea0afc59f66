ghost use Rattle.std.specs.Prelude.{◌≡◌, ℕ, Bool, ◌+◌, ◌*◌, ◌/◌, ◌%◌, ◌<◌, ◌≤◌, ◌==◌, length, All, false, true, min, slice_index, if◌then◌else◌};
ghost use Rattle.conditioner.specs.Models.{least_under, least_with, total_cost};
ghost use Rattle.state_rules.specs.Numbers.{cost_in, probed};
ghost use Rattle.probe_report.specs.inner.Outside.{IsLowered, With};
ghost use Rattle.probe_report.specs.inner.Settled.{settled};

use crate::leaving::NodeCosts;
use minimiser::{Steps, TOTAL_LIMIT, least, put_outside_costs};
use node_store::Graph;
use state_rules::NodeKind;
use std::sync::ledger::Ledger;

/// Computes for all wires at once what [`probe`](crate::probe) returns for one. Returns the least cost of all states.
///
/// The wires' variables follow the parts'. [`cost_of`] reads the numbers, two for each wire. `room` is scratch.
pub fn probe_all<L: Ledger>(
    graph: &Graph,
    evidence: &[u32],
    costs: &[u32],
    room: &mut [u32],
    numbers: &mut [u32],
    steps: &mut Steps<L>,
) -> Option<u32>
    requires long { length evidence.now ≡ graph.now.vars }
    requires evidence { All (λ w. w < 3) evidence.now }
    requires even { length numbers.old % 2 ≡ 0 }
    requires wires { length costs.now + length numbers.old / 2 ≤ graph.now.vars }
    requires total { total_cost costs.now < TOTAL_LIMIT }
    requires room { length room.old ≡ 4 * length graph.now.nodes }

    ensures least { result ≡ least_under graph.now evidence.now costs.now }
    ensures probes { (wire : ℕ) (bit : Bool) → wire < length numbers.old / 2
        → probed numbers.new wire bit ≡ least_with graph.now evidence.now costs.now (length costs.now + wire + 1) bit }

    // A pass, a sweep for the outside costs, two for literals, and one for each 64 wires of which one is not seen.
    ensures steps { steps.new ≤ steps.old + 4 + (length numbers.old / 2 + 63) / 64 }
{
    let (zeros, ones) = numbers.split_at_mut(numbers.len() / 2);
    let (values, room) = room.split_at_mut(graph.len() as usize);
    let (outside, marks) = room.split_at_mut(graph.len() as usize);
    probe_wires(
        graph, evidence, costs, values, outside, marks, zeros, ones, steps,
    )
}

impl NodeCosts<'_> {
    // Lowers the number of each wire to the least cost of a derivation with a literal that gives it this bit.
    fn lower_with(&self, parts: u32, bit: bool, list: &mut [u32])
        requires wires { parts + length list.old ≤ self.now.graph.now.vars }
        ensures { (i : ℕ) → i < length list.old
            → IsLowered (With self.now.graph.now.nodes self.now.outside.now (parts + i + 1) bit) (slice_index list.old i) (slice_index list.new i) }
    {
        for at in 0..self.graph.len() {
            if let NodeKind::Literal { var, positive } = self.graph.what(at) {
                if positive == bit {
                    lower_wire(var, parts, self.outside[at as usize], list);
                }
            }
        }
    }
}

// Computes the numbers of the wires if they are 0, and if they are 1.
fn probe_wires<L: Ledger>(
    graph: &Graph,
    evidence: &[u32],
    costs: &[u32],
    values: &mut [u32],
    outside: &mut [u32],
    marks: &mut [u32],
    zeros: &mut [u32],
    ones: &mut [u32],
    steps: &mut Steps<L>,
) -> Option<u32>
    requires long { length evidence.now ≡ graph.now.vars }
    requires evidence { All (λ w. w < 3) evidence.now }
    requires wires { length costs.now + length zeros.old ≤ graph.now.vars }
    requires total { total_cost costs.now < TOTAL_LIMIT }
    requires values { length values.old ≡ length graph.now.nodes }
    requires outside { length outside.old ≡ length graph.now.nodes }
    requires marks { length marks.old ≡ 2 * length graph.now.nodes }
    requires ones { length ones.old ≡ length zeros.old }

    ensures least { result ≡ least_under graph.now evidence.now costs.now }
    ensures zeros { (wire : ℕ) → wire < length zeros.old
        → cost_in (slice_index zeros.new wire) ≡ least_with graph.now evidence.now costs.now (length costs.now + wire + 1) false }
    ensures ones { (wire : ℕ) → wire < length ones.old
        → cost_in (slice_index ones.new wire) ≡ least_with graph.now evidence.now costs.now (length costs.now + wire + 1) true }
    ensures steps { steps.new ≤ steps.old + 4 + (length zeros.old + 63) / 64 }
{
    let root = graph.len() as usize - 1;
    zeros.fill(u32::MAX);
    ones.fill(u32::MAX);
    let fewest = least(graph, evidence, costs, values, steps)?;
    let parts = costs.len() as u32;
    put_outside_costs(graph, values, outside);
    steps.tick();
    let nodes = NodeCosts {
        graph,
        values,
        outside,
    };
    nodes.lower_without(evidence, parts, marks, zeros, steps);
    ones.copy_from_slice(zeros);
    nodes.lower_with(parts, false, zeros);
    steps.tick();
    nodes.lower_with(parts, true, ones);
    steps.tick();
    let held = fewest - values[root];
    settle(evidence, parts, fewest, held, false, zeros);
    settle(evidence, parts, fewest, held, true, ones);
    Some(fewest)
}

// Lowers the number of a variable's wire, if it is a wire's.
fn lower_wire(var: u32, parts: u32, cost: u32, list: &mut [u32])
    requires { 1 ≤ var }
    ensures { (i : ℕ) → i < length list.old
        → slice_index list.new i ≡ (if var == parts + i + 1 then min (slice_index list.old i) cost else slice_index list.old i) }
{
    if var <= parts {
        return;
    }
    let wire = (var - parts) as usize - 1;
    if wire < list.len() {
        list[wire] = list[wire].min(cost);
    }
}

// Adds what is held to the number of each wire that is not seen. A seen wire gets `fewest` for its own bit, and none for the other.
fn settle(evidence: &[u32], parts: u32, fewest: u32, held: u32, bit: bool, list: &mut [u32])
    requires evidence { All (λ w. w < 3) evidence.now }
    requires long { parts + length list.old ≤ length evidence.now }
    requires held { held < TOTAL_LIMIT }
    ensures { (i : ℕ) → i < length list.old
        → slice_index list.new i ≡ settled (slice_index evidence.now (parts + i)) fewest held bit (slice_index list.old i) }
{
    for i in 0..list.len() {
        list[i] = settled(evidence[parts as usize + i], fewest, held, bit, list[i]);
    }
}

fn settled(word: u32, fewest: u32, held: u32, bit: bool, cost: u32) -> u32
    requires word { word < 3 }
    requires held { held < TOTAL_LIMIT }
    ensures { result ≡ settled word fewest held bit cost }
{
    match word {
        0 if cost < TOTAL_LIMIT => cost + held,
        1 if bit => fewest,
        2 if !bit => fewest,
        _ => u32::MAX,
    }
}
