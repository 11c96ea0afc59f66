//! The memory in which answers are computed. It is taken in a file of few imports, since the prover goes through all that is dropped when
//! memory runs out.
ghost use Rattle.std.specs.Prelude.{◌≡◌, replicate, IfOk};
ghost use Rattle.graph_engine.specs.inner.Held.{FitsTogether};

use crate::basis::Basis;
use fault_graph::MinimisedGraph;
use scratch_pool::Region;
use std::alloc::{AllocError, Global};

/// The memory of an engine beside its basis.
#[derive(Drop)]
pub(crate) struct Memory {
    // a word for each variable, which passes change and restore
    pub(crate) known: Vec<u32>,
    // what a pass finds at each node
    pub(crate) values: Vec<u32>,
    // a state that an answer leaves open
    pub(crate) state: Vec<u32>,
    // room that one answer at a time takes whole: the probes of all wires, or a step by rising cost
    pub(crate) room: Region,
    // a smaller graph that has the diagnoses under the last evidence
    pub(crate) minimised_graph: MinimisedGraph,
}

impl Memory {
    /// Takes memory for all answers over a basis. The first case knows nothing.
    pub(crate) fn new(alloc: Global, basis: &Basis) -> Result<Memory, AllocError>
        ensures { IfOk result (λ memory. FitsTogether basis.now memory.known.items memory.values.items memory.state.items memory.room
            memory.minimised_graph) }
    {
        Ok(Memory {
            known: zeros(alloc, basis.vars())?,
            values: zeros(alloc, basis.nodes())?,
            state: zeros(alloc, basis.parts().len())?,
            room: Region::new(alloc, basis.most_room())?,
            minimised_graph: MinimisedGraph::new(alloc, basis.graph())?,
        })
    }
}

fn zeros(alloc: Global, count: usize) -> Result<Vec<u32>, AllocError>
    ensures { IfOk result (λ zeros. zeros.items ≡ replicate count 0) }
{
    vec![in alloc; 0; count]
}
