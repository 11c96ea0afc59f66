ghost use Rattle.std.specs.Prelude.{◌≡◌, ℕ, ◌+◌, ◌*◌, ◌<◌, ◌≤◌, [], length, All, IfSome, Some, slice_get, slice_index_or};
ghost use Rattle.state_rules.specs.Ranking.{rest};
ghost use Rattle.conditioner.specs.Models.{models, least_under, diagnoses_under, total_cost};
ghost use Rattle.conditioner.specs.Evidence.{bits_of};
ghost use Rattle.diagnosis_lister.specs.Listing.{step_of, fault_count};
ghost use Rattle.probe_report.specs.Verdicts.{blame_of};
ghost use Rattle.fault_graph.specs.Minimised.{IsOf, Serves};

use crate::blaming::blame_all;
use crate::minimised_graph::MinimisedGraph;
use diagnosis_lister::{Step, first_in, next_in};
use minimiser::{Steps, TOTAL_LIMIT};
use node_store::Graph;
use state_rules::Blame;
use std::sync::ledger::Ledger;

impl MinimisedGraph {
    /// Returns the least cost, and writes the first diagnosis to the state, as [`diagnosis_lister::first`] does.
    ///
    /// It makes at most one pass over the graph, and none if what is kept is of this evidence and so stays. The other passes are over
    /// what is kept.
    #[tactic(auto, using(crate::proofs::Rules::last_minimised_one))]
    pub fn first<L: Ledger>(
        &mut self,
        graph: &Graph,
        evidence: &mut [u32],
        costs: &[u32],
        values: &mut [u32],
        state: &mut [u32],
        steps: &mut Steps<L>,
    ) -> Option<u32>
        requires long { length evidence.old ≡ graph.now.vars }
        requires evidence { All (λ w. w < 3) evidence.old }
        requires parts { length costs.now ≤ graph.now.vars }
        requires total { total_cost costs.now < TOTAL_LIMIT }
        requires dear { All (λ c. 0 < c) costs.now }
        requires room { length values.old ≡ length graph.now.nodes }
        requires state { length state.old ≡ length costs.now }
        requires state_words { All (λ s. s < 2) state.old }
        requires serves { Serves graph.now costs.now self.old }

        ensures least { result ≡ least_under graph.now evidence.old costs.now }
        ensures first { bits_of state.new
            ≡ slice_index_or (diagnoses_under graph.now evidence.old costs.now) 0 (bits_of state.old) }
        ensures state { All (λ s. s < 2) state.new }
        ensures evidence { evidence.new ≡ evidence.old }
        ensures last { IfSome self.new.last (λ last. last.evidence ≡ evidence.old) }
        ensures stays { IsOf evidence.old self.old → self.new ≡ self.old }
        ensures serves { Serves graph.now costs.now self.new }

        ensures steps { steps.new ≤ steps.old + 1 + (fault_count (bits_of state.new) + 1) }
        ensures again { IsOf evidence.old self.old → steps.new ≤ steps.old + (fault_count (bits_of state.new) + 1) }
    {
        if !self.prepare(graph, evidence, costs, values, steps) {
            return None;
        }
        let small = self.minimised();
        let values = &mut values[..small.len() as usize];
        first_in(&small, evidence, costs, values, state, steps)
    }

    /// Finds the first diagnosis after the state, and writes it to the state, as [`diagnosis_lister::next`] does.
    ///
    /// It makes at most one pass over the graph, and none if what is kept is of this evidence and so stays. The other passes are over
    /// what is kept.
    #[tactic(auto, using(crate::proofs::Rules::last_minimised_one))]
    pub fn next<L: Ledger>(
        &mut self,
        graph: &Graph,
        evidence: &mut [u32],
        costs: &[u32],
        values: &mut [u32],
        state: &mut [u32],
        steps: &mut Steps<L>,
    ) -> Step
        requires long { length evidence.old ≡ graph.now.vars }
        requires evidence { All (λ w. w < 3) evidence.old }
        requires parts { length costs.now ≤ graph.now.vars }
        requires total { total_cost costs.now < TOTAL_LIMIT }
        requires dear { All (λ c. 0 < c) costs.now }
        requires room { length values.old ≡ length graph.now.nodes }
        requires state { length state.old ≡ length costs.now }
        requires state_words { All (λ s. s < 2) state.old }
        requires serves { Serves graph.now costs.now self.old }

        ensures step { result ≡ step_of (models graph.now evidence.old (length costs.now))
            (rest (diagnoses_under graph.now evidence.old costs.now) (Some (bits_of state.old))) }
        ensures next { bits_of state.new
            ≡ slice_index_or (rest (diagnoses_under graph.now evidence.old costs.now) (Some (bits_of state.old)))
            0 (bits_of state.old) }
        ensures state { All (λ s. s < 2) state.new }
        ensures evidence { evidence.new ≡ evidence.old }
        ensures last { IfSome self.new.last (λ last. last.evidence ≡ evidence.old) }
        ensures stays { IsOf evidence.old self.old → self.new ≡ self.old }
        ensures serves { Serves graph.now costs.now self.new }

        ensures steps { steps.new
            ≤ steps.old + 1 + (fault_count (bits_of state.old) + fault_count (bits_of state.new) + 1) }
        ensures again { IsOf evidence.old self.old
            → steps.new ≤ steps.old + (fault_count (bits_of state.old) + fault_count (bits_of state.new) + 1) }
    {
        if !self.prepare(graph, evidence, costs, values, steps) {
            return Step::Inconsistent;
        }
        let small = self.minimised();
        let values = &mut values[..small.len() as usize];
        next_in(&small, evidence, costs, values, state, steps)
    }

    /// Writes whether each part is faulty in all diagnoses, in some or in none, as [`blame_all`] does.
    ///
    /// It makes at most one pass over the graph, and none if what is kept is of this evidence and so stays. The other passes are over
    /// what is kept.
    #[tactic(auto, using(crate::proofs::Rules::last_minimised_one))]
    pub fn blame_all<L: Ledger>(
        &mut self,
        graph: &Graph,
        evidence: &mut [u32],
        costs: &[u32],
        values: &mut [u32],
        state: &mut [u32],
        verdicts: &mut [Blame],
        steps: &mut Steps<L>,
    )
        requires long { length evidence.old ≡ graph.now.vars }
        requires evidence { All (λ w. w < 3) evidence.old }
        requires parts { length costs.now ≤ graph.now.vars }
        requires total { total_cost costs.now < TOTAL_LIMIT }
        requires dear { All (λ c. 0 < c) costs.now }
        requires room { length values.old ≡ length graph.now.nodes }
        requires state { length state.old ≡ length costs.now }
        requires state_words { All (λ s. s < 2) state.old }
        requires verdicts { length verdicts.old ≡ length costs.now }
        requires serves { Serves graph.now costs.now self.old }

        ensures blame { (part : ℕ) → part < length costs.now
            → slice_get verdicts.new part ≡ Some (blame_of graph.now evidence.old costs.now part) }
        ensures evidence { evidence.new ≡ evidence.old }
        ensures state { All (λ s. s < 2) state.new }
        ensures last { IfSome self.new.last (λ last. last.evidence ≡ evidence.old) }
        ensures stays { IsOf evidence.old self.old → self.new ≡ self.old }
        ensures serves { Serves graph.now costs.now self.new }

        ensures steps { steps.new ≤ steps.old + 1
            + (2 * fault_count (slice_index_or (diagnoses_under graph.now evidence.old costs.now) 0 []) + 2) }
        ensures again { IsOf evidence.old self.old → steps.new ≤ steps.old
            + (2 * fault_count (slice_index_or (diagnoses_under graph.now evidence.old costs.now) 0 []) + 2) }
    {
        if !self.prepare(graph, evidence, costs, values, steps) {
            tell_none(verdicts);
            return;
        }
        let small = self.minimised();
        let values = &mut values[..small.len() as usize];
        blame_all(&small, evidence, costs, values, state, verdicts, steps)
    }
}

// Writes that there is no diagnosis.
fn tell_none(verdicts: &mut [Blame])
    ensures { (part : ℕ) → part < length verdicts.old → slice_get verdicts.new part ≡ Some Blame.Inconsistent }
{
    for verdict in verdicts.iter_mut() {
        *verdict = Blame::Inconsistent;
    }
}
