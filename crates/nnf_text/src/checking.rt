ghost use Rattle.std.specs.Prelude.{◌≡◌, ◌<◌, ◌≤◌, length, true};
ghost use Rattle.text_rules.specs.Expected.{Fulfils};
ghost use Rattle.state_rules.specs.Graphs.{nodes_fit};
ghost use Rattle.nnf_text.specs.GraphTexts.{checked};
ghost use Rattle.nnf_text.specs.Refusals.{told};

use crate::error::NnfError;
use crate::sharing::first_shared;
use node_store::{Graph, Nodes};
use std::alloc::Global;
use text_rules::TEXT_LIMIT;

/// The most nodes times variables of a graph that is read from text.
pub const BITS_LIMIT: u64 = 2_147_483_648;

// Makes a graph of nodes, if no two children of an And node share a variable.
pub(crate) fn graph_of(alloc: Global, vars: u32, nodes: Nodes) -> Result<Graph, NnfError>
    requires some { 0 < length nodes }
    requires few { length nodes ≤ TEXT_LIMIT }
    requires fit { nodes_fit vars 0 nodes ≡ true }
    ensures { Fulfils (λ graph. graph) told (checked (record { nodes = nodes; vars = vars })) result }
{
    let bits = nodes.len() as u64 * u64::from(vars);
    if bits > BITS_LIMIT {
        return Err(NnfError::TooLarge { bits });
    }
    match first_shared(alloc, vars, &nodes)? {
        Some((node, var)) => Err(NnfError::Shared { node, var }),
        None => Ok(Graph::new(nodes, vars)),
    }
}
