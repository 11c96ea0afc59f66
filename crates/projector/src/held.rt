ghost use Rattle.std.specs.Prelude.{◌≡◌, ◌==◌, ◌≤◌, ◌++◌, not, length, take, count_by};
ghost use Rattle.std.specs.List.{flat_map, enumerate_from};
ghost use Rattle.text_rules.specs.Tokens.{spaced};
ghost use Rattle.nnf_text.specs.Extending.{Extends};
ghost use Rattle.nnf_text.specs.WrittenGraphs.{node_words};
ghost use Rattle.conditioner.specs.Evidence.{known};
ghost use Rattle.projector.specs.Projecting.{root_with};
ghost use Rattle.projector.specs.inner.Lines.{held_line};

use crate::projection::Projection;
use conditioner::{is_open, known_of};
use diag_edge::Sink;
use nnf_text::{GraphText, add_counted_range, add_node};
use state_rules::NodeKind;

impl Projection<'_> {
    // Returns the number of parts of which something is known.
    pub(crate) fn held_count(&self) -> u32
        ensures count { result ≡ count_by (λ word. not (word == 0)) (take self.now.parts self.now.evidence.now) }
        ensures most { result ≤ self.now.parts }
    {
        self.health().iter().filter(|word| !is_open(**word)).count() as u32
    }

    // Adds the lines of the literals of held parts, and of the And node over the root and these.
    pub(crate) fn add_ends<O: Sink>(&self, text: &mut GraphText, out: &mut O, held: u32)
        requires { held ≤ self.now.parts }
        ensures { Extends (O.shown out.old) (O.shown out.new) text.old text.new
            (flat_map held_line (enumerate_from 1 (known (take self.now.parts self.now.evidence.now)))
            ++ spaced (node_words (root_with (length self.now.graph.now.nodes) held))) }
    {
        self.add_held(text, out);
        text.add(out, b"A");
        add_counted_range(text, out, self.graph.len() - 1, held + 1);
    }

    // Adds the lines of the literals of held parts.
    #[tactic(auto, using(nnf_text::proofs::Extended::extending))]
    fn add_held<O: Sink>(&self, text: &mut GraphText, out: &mut O)
        ensures { Extends (O.shown out.old) (O.shown out.new) text.old text.new
            (flat_map held_line (enumerate_from 1 (known (take self.now.parts self.now.evidence.now)))) }
    {
        let health = self.health();
        for (i, word) in health.iter().enumerate() {
            add_known(text, out, i as u32 + 1, known_of(*word));
        }
    }
}

// Adds the line of a part's literal, if something is known of the part.
#[tactic(auto, using(nnf_text::proofs::Extended::extending))]
fn add_known<O: Sink>(text: &mut GraphText, out: &mut O, part: u32, known: Option<bool>)
    ensures { Extends (O.shown out.old) (O.shown out.new) text.old text.new (held_line (part, known)) }
{
    if let Some(positive) = known {
        let literal = NodeKind::Literal {
            var: part,
            positive,
        };
        add_node(text, out, literal, &[]);
    }
}
