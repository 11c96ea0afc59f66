ghost use Rattle.std.specs.Prelude.{◌≡◌, true};
ghost use Rattle.std.specs.List.{flat_map};
ghost use Rattle.text_rules.specs.Tokens.{spaced};
ghost use Rattle.nnf_text.specs.Extending.{Extends};
ghost use Rattle.nnf_text.specs.GraphTexts.{variable_fits};
ghost use Rattle.nnf_text.specs.WrittenGraphs.{node_words};
ghost use Rattle.projector.specs.Projecting.{projected_literal, projected_kind, projected_node};

use crate::projection::Projection;
use conditioner::{Leaf, leaf};
use diag_edge::Sink;
use nnf_text::{GraphText, add_node};
use state_rules::NodeKind;

// Returns what a literal becomes.
fn projected_literal(parts: u32, var: u32, positive: bool, leaf: Leaf) -> NodeKind
    ensures { result ≡ projected_literal parts var positive leaf }
{
    match leaf {
        Leaf::False => NodeKind::Or,
        Leaf::Open if var <= parts => NodeKind::Literal { var, positive },
        Leaf::True | Leaf::Open => NodeKind::And,
    }
}

impl Projection<'_> {
    // Returns what a node becomes under the evidence.
    fn kind(&self, kind: NodeKind) -> NodeKind
        requires { variable_fits self.now.graph.now.vars kind ≡ true }
        ensures { result ≡ projected_kind self.now.evidence.now self.now.parts kind }
    {
        match kind {
            NodeKind::Literal { var, positive } => {
                let leaf = leaf(self.evidence, var, positive);
                projected_literal(self.parts, var, positive, leaf)
            }
            NodeKind::And | NodeKind::Or => kind,
        }
    }

    // Adds the line of each node under the evidence.
    #[tactic(auto, using(nnf_text::proofs::Extended::extending))]
    pub(crate) fn add_nodes<O: Sink>(&self, text: &mut GraphText, out: &mut O)
        ensures { Extends (O.shown out.old) (O.shown out.new) text.old text.new
            (flat_map (λ node. spaced (node_words (projected_node self.now.evidence.now self.now.parts node))) self.now.graph.now.nodes) }
    {
        let graph = self.graph;
        for node in 0..graph.len() {
            add_node(text, out, self.kind(graph.what(node)), graph.kids(node));
        }
    }
}
