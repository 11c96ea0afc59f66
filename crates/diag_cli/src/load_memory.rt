//! The memory for the diagnoses of an adder. It is in a file with few imports, since the prover goes through all that is dropped when
//! memory runs out.
ghost use Rattle.std.specs.Prelude.{◌≡◌, ◌-◌, ◌+◌, ◌<◌, ◌≤◌, ℕ, List, [], replicate, length, take, All, slice_index_or, IfOk, IfSome};
ghost use Rattle.std.specs.Option.{option_map};
ghost use Rattle.conditioner.specs.Models.{least_under, diagnoses_under, total_cost};
ghost use Rattle.conditioner.specs.Evidence.{bits_of};
ghost use Rattle.session_rules.specs.GraphSystems.{case_evidence};
ghost use Rattle.adder_load.specs.Readings.{adder_case};
ghost use Rattle.fault_graph.specs.Minimised.{Serves};

use crate::loading::LISTED_LIMIT;
use adder_load::{Found, PLACE_LIMIT, note_readings, sample};
use device_model::Device;
use fault_graph::MinimisedGraph;
use minimiser::{Steps, TOTAL_LIMIT};
use node_store::Graph;
use std::alloc::{AllocError, Global};
use std::sync::ledger::Ledger;

/// What is known of each variable, what a pass finds at each node, two states, and room for a smaller graph.
#[derive(Drop)]
pub(crate) struct LoadMemory {
    pub(crate) words: Vec<u32>,
    pub(crate) values: Vec<u32>,
    pub(crate) first: Vec<u32>,
    pub(crate) last: Vec<u32>,
    pub(crate) minimised_graph: MinimisedGraph,
}

impl LoadMemory {
    /// Takes memory for a graph over `parts` parts. Nothing is known yet.
    pub(crate) fn new(alloc: Global, graph: &Graph, parts: usize) -> Result<LoadMemory, AllocError>
        ensures words { IfOk result (λ memory. memory.words.items ≡ replicate graph.now.vars 0) }
        ensures values { IfOk result (λ memory. length memory.values.items ≡ length graph.now.nodes) }
        ensures first { IfOk result (λ memory. memory.first.items ≡ replicate parts 0) }
        ensures last { IfOk result (λ memory. memory.last.items ≡ replicate parts 0) }
        ensures serves { IfOk result (λ memory. (costs : List ℕ) → Serves graph.now costs memory.minimised_graph) }
    {
        Ok(LoadMemory {
            words: zeros(alloc, graph.vars() as usize)?,
            values: zeros(alloc, graph.len() as usize)?,
            first: zeros(alloc, parts)?,
            last: zeros(alloc, parts)?,
            minimised_graph: MinimisedGraph::new(alloc, graph)?,
        })
    }

    /// Notes the readings of the adder of `places` places. Nothing is known before.
    pub(crate) fn note(&mut self, device: &Device, places: u32)
        requires none { self.old.words.items ≡ replicate (length self.old.words.items) 0 }
        requires room { length device.now.parts + length device.now.wires ≤ length self.old.words.items }
        requires places { places ≤ PLACE_LIMIT }
        ensures case { self.new.words.items ≡ case_evidence (length self.old.words.items) (adder_case device.now places) }
        ensures long { length self.new.words.items ≡ length self.old.words.items }
        ensures words { All (λ w. w < 3) self.new.words.items }
        ensures values { self.new.values ≡ self.old.values }
        ensures first { self.new.first ≡ self.old.first }
        ensures last { self.new.last ≡ self.old.last }
        ensures minimised_graph { self.new.minimised_graph ≡ self.old.minimised_graph }
    {
        note_readings(&mut self.words, device, places);
    }

    /// Finds the least cost over a graph, and how many diagnoses are listed. The first and the last are then in the states.
    pub(crate) fn sample<L: Ledger>(
        &mut self,
        graph: &Graph,
        costs: &[u32],
        steps: &mut Steps<L>,
    ) -> Option<Found>
        requires long { length self.old.words.items ≡ graph.now.vars }
        requires words { All (λ w. w < 3) self.old.words.items }
        requires parts { length costs.now ≤ graph.now.vars }
        requires total { total_cost costs.now < TOTAL_LIMIT }
        requires dear { All (λ c. 0 < c) costs.now }
        requires room { length self.old.values.items ≡ length graph.now.nodes }
        requires first { self.old.first.items ≡ replicate (length costs.now) 0 }
        requires last { self.old.last.items ≡ replicate (length costs.now) 0 }
        requires serves { Serves graph.now costs.now self.old.minimised_graph }
        ensures least { option_map (λ found. found.fewest) result ≡ least_under graph.now self.old.words.items costs.now }
        ensures listed { IfSome result (λ found.
            found.listed ≡ length (take LISTED_LIMIT (diagnoses_under graph.now self.old.words.items costs.now))) }
        ensures first { IfSome result (λ found.
            bits_of self.new.first.items ≡ slice_index_or (diagnoses_under graph.now self.old.words.items costs.now) 0 []) }
        ensures last { IfSome result (λ found.
            bits_of self.new.last.items ≡ slice_index_or (diagnoses_under graph.now self.old.words.items costs.now) (found.listed - 1) []) }
        ensures first_long { length self.new.first.items ≡ length costs.now }
        ensures last_long { length self.new.last.items ≡ length costs.now }
    {
        sample(
            &mut self.minimised_graph,
            graph,
            &mut self.words,
            costs,
            &mut self.values,
            &mut self.first,
            &mut self.last,
            LISTED_LIMIT,
            steps,
        )
    }

    /// Returns the first state and the last.
    pub(crate) fn states(self) -> (Vec<u32>, Vec<u32>)
        ensures first { result.0 ≡ self.first }
        ensures last { result.1 ≡ self.last }
    {
        let LoadMemory {
            words: _,
            values: _,
            first,
            last,
            minimised_graph: _,
        } = self;
        (first, last)
    }
}

fn zeros(alloc: Global, count: usize) -> Result<Vec<u32>, AllocError>
    ensures { IfOk result (λ zeros. zeros.items ≡ replicate count 0) }
{
    vec![in alloc; 0; count]
}
