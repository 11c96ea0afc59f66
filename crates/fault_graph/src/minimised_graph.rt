ghost use Rattle.std.specs.Prelude.{◌≡◌, ℕ, ◌+◌, ◌<◌, ◌≤◌, ◌↔◌, List, length, true, All, IfOk, IfSome, IsSome, IsTrue, None, is_some};
ghost use Rattle.state_rules.specs.Graphs.{edges};
ghost use Rattle.conditioner.specs.Models.{least_under, total_cost};
ghost use Rattle.fault_graph.specs.Minimised.{IsOf, Serves};

use crate::Memory;
use crate::minimising::minimise;
use crate::small_nodes::SmallNodes;
use minimiser::{Steps, TOTAL_LIMIT};
use node_store::{Graph, GraphView};
use std::alloc::Global;
use std::marker::Model;
use std::sync::ledger::Ledger;

/// Answers questions about a graph from a smaller one, which it makes when the evidence changes.
///
/// Its memory is allocated when it is made.
#[derive(Drop)]
pub struct MinimisedGraph {
    // what was minimised last: its variables, if there is something, its evidence, and its nodes
    vars: Option<u32>,
    evidence: Vec<u32>,
    nodes: SmallNodes,
    // for each node of the graph, the place of the node that replaces it
    places: Vec<u32>,
}

impl Model for MinimisedGraph {
    ghost use Rattle.std.specs.Prelude.{◌≡◌, length, IfSome};
    ghost use Rattle.std.specs.Option.{option_map};
    ghost use Rattle.state_rules.specs.Graphs.{IsGraph};
    ghost use Rattle.fault_graph.specs.Minimised.{Kept};

    ghost Value = { Kept };

    ghost view = { λ d. record {
      nodes = length d.places.items;
      kids = d.nodes.child_room;
      vars = length d.evidence.items;
      last = option_map (λ vars. record {
        evidence = d.evidence.items;
        small = record { nodes = d.nodes.nodes; vars = vars };
      }) d.vars;
    } };

    ghost invariant = { λ d. (d.nodes.node_room ≡ length d.places.items)
        × IfSome d.vars (λ vars. IsGraph (record { nodes = d.nodes.nodes; vars = vars })) };
}

impl MinimisedGraph {
    /// Returns one with room for whatever is minimised from `graph`. Nothing is minimised yet. The only error is lack of memory.
    pub fn new(alloc: Global, graph: &Graph) -> Result<MinimisedGraph, Memory>
        ensures made { IfOk result (λ made. made ≡ record {
          nodes = length graph.now.nodes;
          kids = edges graph.now.nodes;
          vars = graph.now.vars;
          last = None;
        }) }
        ensures serves { IfOk result (λ made. (costs : List ℕ) → Serves graph.now costs made) }
    {
        let count = graph.len() as usize;
        Ok(MinimisedGraph {
            vars: None,
            evidence: vec![in alloc; 0; graph.vars() as usize]?,
            nodes: SmallNodes::new(alloc, count, graph.edges() as usize)?,
            places: vec![in alloc; 0; count]?,
        })
    }

    /// Returns whether some state agrees with the evidence. If so, the graph is then minimised under it.
    ///
    /// It makes one pass over the graph, or none if what is kept is of this evidence, which then stays.
    #[tactic(auto, using(crate::proofs::Rules::last_minimised_one))]
    pub fn prepare<L: Ledger>(
        &mut self,
        graph: &Graph,
        evidence: &[u32],
        costs: &[u32],
        values: &mut [u32],
        steps: &mut Steps<L>,
    ) -> bool
        requires long { length evidence.now ≡ graph.now.vars }
        requires evidence { All (λ w. w < 3) evidence.now }
        requires parts { length costs.now ≤ graph.now.vars }
        requires total { total_cost costs.now < TOTAL_LIMIT }
        requires dear { All (λ c. 0 < c) costs.now }
        requires room { length values.old ≡ length graph.now.nodes }
        requires serves { Serves graph.now costs.now self.old }

        ensures some { result ≡ is_some (least_under graph.now evidence.now costs.now) }
        ensures kept { result ≡ true → IsOf evidence.now self.new }
        ensures last { IfSome self.new.last (λ last. last.evidence ≡ evidence.now) }
        ensures serves { Serves graph.now costs.now self.new }
        ensures steps { steps.new ≤ steps.old + 1 }
        ensures again { IsOf evidence.now self.old → (result ≡ true) × (self.new ≡ self.old) × (steps.new ≡ steps.old) }
    {
        if self.is_of(evidence) {
            return true;
        }
        let places = &mut self.places;
        let cost = minimise(
            &mut self.nodes,
            graph,
            evidence,
            costs,
            values,
            places,
            steps,
        );
        if cost.is_none() {
            self.vars = None;
            return false;
        }
        self.evidence.copy_from_slice(evidence);
        self.vars = Some(graph.vars());
        true
    }

    /// Returns what was minimised last.
    pub(crate) fn minimised(&self) -> GraphView<'_>
        requires { IsSome self.now.last }
        ensures { IfSome self.now.last (λ last. result ≡ last.small) }
    {
        GraphView::new(self.nodes.walk(), self.vars.unwrap())
    }

    // Whether something was minimised under this evidence.
    fn is_of(&self, evidence: &[u32]) -> bool
        ensures { IsTrue result ↔ IsOf evidence.now self.now }
    {
        self.vars.is_some() && self.evidence.as_slice() == evidence
    }
}
