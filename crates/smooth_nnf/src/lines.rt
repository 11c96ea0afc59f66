//! The lines of nodes.
ghost use Rattle.std.specs.Prelude.{◌≡◌, ◌≢◌, ◌+◌, ◌*◌, ◌^◌, ◌<◌, ◌≤◌, ◌++◌, ◌∷◌, [], true, false, Some, map, length, slice_index, decimal, All};
ghost use Rattle.std.specs.List.{flat_map, enumerate_from, range_with_len};
ghost use Rattle.text_rules.specs.Tokens.{spaced};
ghost use Rattle.state_rules.specs.Graphs.{node_at, literal_node};
ghost use Rattle.nnf_text.specs.Extending.{Extends};
ghost use Rattle.nnf_text.specs.WrittenGraphs.{node_words};
ghost use Rattle.minimiser.specs.Costs.{cost_at};
ghost use Rattle.state_rules.specs.Numbers.{cost_in};
ghost use Rattle.smooth_nnf.specs.Layouts.{and_over, literal_pair, lines_by, literal_children, cheapest_children, or_behind, node_lines, last_line};
ghost use Rattle.smooth_nnf.specs.inner.Drawings.{IsUnder, shown};
ghost use Rattle.smooth_nnf.specs.inner.Texts.{lines_text, child_text};

use crate::drawing::{Drawing, literal_line};
use crate::filling::add_filled;
use crate::or_node::OrNode;
use crate::places::cheapest_count;
use diag_edge::Sink;
use nnf_text::{GraphText, add_counted_range, add_node};
use state_rules::{NO_COST, NodeKind};

// Adds the lines of the parts' literals.
#[tactic(auto, using(nnf_text::proofs::Extended::extending))]
pub(crate) fn add_literals<O: Sink>(text: &mut GraphText, out: &mut O, parts: u32)
    ensures { Extends (O.shown out.old) (O.shown out.new) text.old text.new
        (flat_map (λ part. lines_text (literal_pair part)) (range_with_len 1 parts)) }
{
    for i in 0..parts {
        add_pair(text, out, i + 1);
    }
}

// Adds the lines of one part's literals.
#[tactic(auto, using(nnf_text::proofs::Extended::extending, crate::proofs::Rules::appended_nothing))]
fn add_pair<O: Sink>(text: &mut GraphText, out: &mut O, var: u32)
    ensures { Extends (O.shown out.old) (O.shown out.new) text.old text.new
        (lines_text (literal_pair var)) }
{
    let ok = NodeKind::Literal {
        var,
        positive: true,
    };
    add_node(text, out, ok, &[]);
    let faulty = NodeKind::Literal {
        var,
        positive: false,
    };
    add_node(text, out, faulty, &[]);
}

#[tactic(auto, using(nnf_text::proofs::Extended::extending, crate::proofs::Rules::numbered_nodes))]
pub(crate) fn add_nodes<O: Sink>(text: &mut GraphText, out: &mut O, drawing: &Drawing<'_>)
    ensures { Extends (O.shown out.old) (O.shown out.new) text.old text.new
        (flat_map (λ x. lines_text (node_lines (shown drawing.now) x)) (enumerate_from 0 drawing.now.graph.nodes)) }
{
    for node in 0..drawing.graph().len() {
        add_node_lines(text, out, drawing, node);
    }
}

// Adds the line of the root.
#[tactic(auto, using(crate::proofs::Rules::last_line))]
pub(crate) fn add_last<O: Sink>(text: &mut GraphText, out: &mut O, drawing: &Drawing<'_>)
    ensures { Extends (O.shown out.old) (O.shown out.new) text.old text.new
        (spaced (node_words (last_line (shown drawing.now)))) }
{
    let root = drawing.graph().len() - 1;
    if drawing.value(root) == NO_COST {
        add_node(text, out, NodeKind::Or, &[]);
        return;
    }
    add_filled(text, out, drawing, None, root);
}

fn add_node_lines<O: Sink>(text: &mut GraphText, out: &mut O, drawing: &Drawing<'_>, node: u32)
    requires { node < length drawing.now.graph.nodes }
    ensures { Extends (O.shown out.old) (O.shown out.new) text.old text.new
        (lines_text (node_lines (shown drawing.now) (node, node_at drawing.now.graph.nodes node))) }
{
    let cost = drawing.value(node);
    if cost == NO_COST {
        add_node(text, out, NodeKind::Or, &[]);
        return;
    }
    add_lines_by(text, out, drawing, node, drawing.graph().kids(node), cost);
}

// Adds the lines of a node that can be true, by what it is and its children.
#[tactic(auto, using(crate::proofs::Rules::lines_of_kind))]
fn add_lines_by<O: Sink>(
    text: &mut GraphText,
    out: &mut O,
    drawing: &Drawing<'_>,
    node: u32,
    kids: &[u32],
    cost: u32,
)
    requires node { node < length drawing.now.graph.nodes }
    requires kids { kids.now ≡ (node_at drawing.now.graph.nodes node).kids }
    requires known { cost_at (map cost_in drawing.now.values) node ≡ Some cost }
    requires cost { cost ≢ NO_COST }
    ensures { Extends (O.shown out.old) (O.shown out.new) text.old text.new
        (lines_text (lines_by (shown drawing.now) node cost (node_at drawing.now.graph.nodes node).what kids.now)) }
{
    let graph = drawing.graph();
    let parts = drawing.parts();
    match graph.what(node) {
        NodeKind::Literal { var, positive } => add_literal(text, out, parts, var, positive),
        NodeKind::And => add_and(text, out, drawing, kids),
        NodeKind::Or => {
            let or_node = OrNode {
                drawing,
                node,
                kids,
                cost,
            };
            or_node.add_lines(text, out);
        }
    }
}

// Adds the line of a literal: an And node over the part's line, or over nothing (always true) for another variable.
fn add_literal<O: Sink>(text: &mut GraphText, out: &mut O, parts: u32, var: u32, positive: bool)
    requires var { 1 ≤ var }
    requires few { 2 * parts < 2 ^ 32 }
    ensures { Extends (O.shown out.old) (O.shown out.new) text.old text.new
        (spaced (node_words (and_over (literal_children parts var positive)))) }
{
    if var <= parts {
        add_node(text, out, NodeKind::And, &[literal_line(var, positive)]);
    } else {
        add_node(text, out, NodeKind::And, &[]);
    }
}

#[tactic(auto, using(nnf_text::proofs::Extended::extending))]
fn add_and<O: Sink>(text: &mut GraphText, out: &mut O, drawing: &Drawing<'_>, kids: &[u32])
    requires { All (λ child. child < length drawing.now.graph.nodes) kids.now }
    ensures { Extends (O.shown out.old) (O.shown out.new) text.old text.new
        (65 ∷ ((32 ∷ decimal (length kids.now))
        ++ (flat_map (λ child. 32 ∷ decimal (slice_index drawing.now.lines child)) kids.now ++ 10 ∷ []))) }
{
    text.add(out, b"A");
    text.add_count(out, kids.len() as u64);
    for child in kids {
        text.add_count(out, drawing.line(*child));
    }
    text.add(out, b"\n");
}

impl OrNode<'_> {
    // Adds the lines of an Or node: one for each of its cheapest children, and its own over these.
    #[tactic(auto, using(crate::proofs::Rules::text_of_or))]
    fn add_lines<O: Sink>(&self, text: &mut GraphText, out: &mut O)
        requires { length (cheapest_children (map cost_in self.now.drawing.now.values) self.now.cost self.now.kids.now)
            ≤ slice_index self.now.drawing.now.lines self.now.node }
        ensures { Extends (O.shown out.old) (O.shown out.new) text.old text.new
            (flat_map (child_text self.now.drawing.now self.now.node self.now.cost) self.now.kids.now ++ spaced (node_words
            (or_behind (slice_index self.now.drawing.now.lines self.now.node)
            (length (cheapest_children (map cost_in self.now.drawing.now.values) self.now.cost self.now.kids.now))))) }
    {
        let drawing = self.drawing;
        let count = cheapest_count(self.kids, drawing.values(), self.cost);
        let first = drawing.line(self.node) - count;
        self.add_child_lines(text, out);
        text.add(out, b"O 0");
        add_counted_range(text, out, first, count);
    }

    // Adds the lines of its cheapest children.
    #[tactic(auto, using(nnf_text::proofs::Extended::extending, crate::proofs::Rules::child_under))]
    fn add_child_lines<O: Sink>(&self, text: &mut GraphText, out: &mut O)
        ensures { Extends (O.shown out.old) (O.shown out.new) text.old text.new
            (flat_map (child_text self.now.drawing.now self.now.node self.now.cost) self.now.kids.now) }
    {
        let kids = self.kids;
        for child in kids {
            self.add_child_line(text, out, *child);
        }
    }

    // Adds the line of a child, if it has the cost.
    #[tactic(auto, using(nnf_text::proofs::Extended::extending))]
    fn add_child_line<O: Sink>(&self, text: &mut GraphText, out: &mut O, child: u32)
        requires child { child < length self.now.drawing.now.graph.nodes }
        requires under { IsUnder self.now.drawing.now (Some self.now.node) child }
        ensures { Extends (O.shown out.old) (O.shown out.new) text.old text.new
            (child_text self.now.drawing.now self.now.node self.now.cost child) }
    {
        let drawing = self.drawing;
        if drawing.value(child) != self.cost {
            return;
        }
        add_filled(text, out, drawing, Some(self.node), child);
    }
}
