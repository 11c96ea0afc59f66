ghost use Rattle.std.specs.Prelude.{◌≡◌, ◌≤◌, true, Ok};
ghost use Rattle.std.specs.List.{flat_map};
ghost use Rattle.text_rules.specs.Tokens.{spaced, is_neat};
ghost use Rattle.state_rules.specs.Graphs.{IsGraph};
ghost use Rattle.diag_edge.specs.Edge.{HasCause, Puts};
ghost use Rattle.nnf_text.specs.Extending.{Extends};
ghost use Rattle.nnf_text.specs.GraphTexts.{parsed};
ghost use Rattle.nnf_text.specs.WrittenGraphs.{node_words, graph_text};

use crate::GraphText;
use crate::lines::{add_header, add_node};
use diag_edge::{Sink, WriteFailed};
use node_store::Graph;

/// Writes a graph as text: a line of its numbers of nodes, edges and variables, and a line for each node. `vars` may be
/// greater than the number of variables of the graph.
#[tactic(auto, using(crate::proofs::Rules::read_back))]
pub fn write_nnf<O: Sink>(graph: &Graph, vars: u32, out: &mut O) -> Result<(), WriteFailed>
    requires { graph.now.vars ≤ vars }

    ensures bytes { Puts (O.got out.old) (O.got out.new) result
        (graph_text (record graph.now { vars = vars })) }
    ensures cause { HasCause (O.faults out.old) (O.faults out.new) result }

    // The text has no blank line, and is read back as this graph over `vars` variables.
    ensures neat { is_neat (graph_text (record graph.now { vars = vars })) ≡ true }
    ensures read { let written = record graph.now { vars = vars } in
        parsed (graph_text written) ≡ Ok written }
{
    put_lines(out, graph, vars)
}

#[tactic(auto, using(crate::proofs::Extended::extends_on, crate::proofs::Extended::extends_whole))]
fn put_lines<O: Sink>(out: &mut O, graph: &Graph, vars: u32) -> Result<(), WriteFailed>
    ensures bytes { Puts (O.got out.old) (O.got out.new) result
        (graph_text (record graph.now { vars = vars })) }
    ensures cause { HasCause (O.faults out.old) (O.faults out.new) result }
    ensures valid { IsGraph graph.now }
{
    let mut text = GraphText::new();
    add_header(&mut text, out, graph.len(), graph.edges(), vars);
    add_nodes(&mut text, out, graph);
    text.finish(out)
}

#[tactic(auto, using(crate::proofs::Extended::extending))]
fn add_nodes<O: Sink>(text: &mut GraphText, out: &mut O, graph: &Graph)
    ensures { Extends (O.shown out.old) (O.shown out.new) text.old text.new
        (flat_map (λ node. spaced (node_words node)) graph.now.nodes) }
{
    for node in 0..graph.len() {
        add_node(text, out, graph.what(node), graph.kids(node));
    }
}
