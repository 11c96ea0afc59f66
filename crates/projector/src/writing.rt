ghost use Rattle.std.specs.Prelude.{◌≡◌, ◌+◌, ◌^◌, ◌<◌, ◌≤◌, length, All, true};
ghost use Rattle.text_rules.specs.Tokens.{is_neat};
ghost use Rattle.state_rules.specs.Graphs.{IsGraph};
ghost use Rattle.diag_edge.specs.Edge.{HasCause, Puts};
ghost use Rattle.nnf_text.specs.GraphTexts.{parsed};
ghost use Rattle.nnf_text.specs.StateGraphs.{IsGraphOfStates};
ghost use Rattle.conditioner.specs.Models.{models};
ghost use Rattle.projector.specs.Projecting.{projected_text};

use crate::projection::Projection;
use diag_edge::{Sink, WriteFailed};
use nnf_text::{GraphText, add_header};
use node_store::Graph;

/// Writes the graph of the health states that a graph allows under evidence, one word a variable: 0 if it is open, 1 if true, 2 if false.
/// Variables 1 to `parts` are the health of the parts; a part whose word is not 0 is held.
///
/// After its header the text has a line for each node of the graph, one for each held part, and one for its root. No memory is taken.
pub fn write_projected<O: Sink>(
    graph: &Graph,
    evidence: &[u32],
    parts: u32,
    out: &mut O,
) -> Result<(), WriteFailed>
    requires evidence { length evidence.now ≡ graph.now.vars }
    requires small { All (λ w. w < 3) evidence.now }
    requires parts { parts ≤ graph.now.vars }
    requires few { length graph.now.nodes + parts + 1 < 2 ^ 32 }

    ensures bytes { Puts (O.got out.old) (O.got out.new) result
        (projected_text graph.now evidence.now parts) }
    ensures cause { HasCause (O.faults out.old) (O.faults out.new) result }

    // The text has no blank line. It is read as a decomposable graph over the parts that is true for the models alone.
    ensures neat { is_neat (projected_text graph.now evidence.now parts) ≡ true }
    ensures models { IsGraphOfStates parts (models graph.now evidence.now parts)
        (parsed (projected_text graph.now evidence.now parts)) }
{
    let projection = Projection {
        graph,
        evidence,
        parts,
    };
    projection.put(out)
}

impl Projection<'_> {
    // Writes all lines.
    fn put<O: Sink>(&self, out: &mut O) -> Result<(), WriteFailed>
        ensures bytes { Puts (O.got out.old) (O.got out.new) result
            (projected_text self.now.graph.now self.now.evidence.now self.now.parts) }
        ensures cause { HasCause (O.faults out.old) (O.faults out.new) result }
        ensures valid { IsGraph self.now.graph.now }
    {
        let held = self.held_count();
        let nodes = self.graph.len() + held + 1;
        let edges = self.graph.edges() + u64::from(held) + 1;
        let mut text = GraphText::new();
        add_header(&mut text, out, nodes, edges, self.parts);
        self.add_nodes(&mut text, out);
        self.add_ends(&mut text, out, held);
        text.finish(out)
    }
}
