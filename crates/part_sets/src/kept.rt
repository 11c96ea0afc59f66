//! What is kept of a graph.
ghost use Rattle.std.specs.Prelude.{◌≡◌, ◌≤◌, IfOk};
ghost use Rattle.state_rules.specs.Graphs.{IsGraph};
ghost use Rattle.part_sets.specs.PartSets.{AreFor};

use crate::Memory;
use crate::below::parts_below;
use crate::lacking::nodes_lacking;
use node_store::Graph;
use std::alloc::Global;
use std::marker::Model;

/// The most parts of which sets are kept.
pub const PART_LIMIT: usize = 4_096;

/// For each node of a graph the parts below it, and for each Or node whether a child of it lacks one of them. The parts are the first
/// variables.
#[derive(Drop)]
pub struct PartSets {
    // for each node the parts below it, and after them all parts
    below: Vec<u32>,
    // for each node a word that is 0 if it is no Or node, or no child of it lacks a part; and after them one that is 0 if the root lacks no
    // part
    lacking: Vec<u32>,
}

impl Model for PartSets {
    ghost use Rattle.part_sets.specs.PartSets.{Kept};

    ghost Value = { Kept };

    ghost view = { λ s. record { below = s.below.items; lacking = s.lacking.items } };
}

impl PartSets {
    /// Returns the sets of a graph whose first `parts` variables are parts. `Err` means that memory ran out.
    pub fn new(alloc: Global, graph: &Graph, parts: usize) -> Result<PartSets, Memory>
        requires few { parts ≤ PART_LIMIT }
        ensures for_graph { IfOk result (λ sets. AreFor graph.now parts sets) }
        ensures valid { IsGraph graph.now }
    {
        let below = parts_below(alloc, graph, parts)?;
        let lacking = nodes_lacking(alloc, graph, &below, parts)?;
        Ok(PartSets { below, lacking })
    }

    /// Returns for each node the parts below it, one set after the other, and at the end all parts.
    pub fn below(&self) -> &[u32]
        ensures { result.now ≡ self.now.below }
    {
        &self.below
    }

    /// Returns for each node a word that is 0 exactly if the node is no Or node, or no child of it lacks a part of it; and at the end one
    /// that is 0 exactly if the root lacks no part.
    pub fn lacking(&self) -> &[u32]
        ensures { result.now ≡ self.now.lacking }
    {
        &self.lacking
    }
}
