//! The number of edges of the lines.
ghost use Rattle.std.specs.Prelude.{◌≡◌, ◌≢◌, ◌+◌, ◌*◌, ◌^◌, ◌<◌, ◌≤◌, true, Some, length, sum_by, All};
ghost use Rattle.state_rules.specs.Graphs.{node_at, IsGraph, edges};
ghost use Rattle.smooth_nnf.specs.Layouts.{all_lines, last_line, lines_by, node_lines};
ghost use Rattle.smooth_nnf.specs.inner.Drawings.{IsUnder, shown};
ghost use Rattle.smooth_nnf.specs.inner.Texts.{child_edges};

use crate::drawing::Drawing;
use crate::or_node::OrNode;
use state_rules::{NO_COST, NodeKind};

// Returns the number of children of all lines.
#[tactic(auto, using(crate::proofs::Rules::counted_edges))]
pub(crate) fn edge_count(drawing: &Drawing<'_>) -> u64
    requires { edges (all_lines (shown drawing.now)) < 2 ^ 64 }
    ensures { result ≡ edges (all_lines (shown drawing.now)) }
{
    let mut total = last_edges(drawing);
    for node in 0..drawing.graph().len() {
        total += node_edges(drawing, node);
    }
    total
}

// The same for the last line.
#[tactic(auto, using(crate::proofs::Rules::last_line))]
fn last_edges(drawing: &Drawing<'_>) -> u64
    ensures { result ≡ length (last_line (shown drawing.now)).kids }
{
    let root = drawing.graph().len() - 1;
    if drawing.value(root) == NO_COST {
        return 0;
    }
    u64::from(drawing.missing_count(None, root) + 1)
}

// The same for the lines of a node.
fn node_edges(drawing: &Drawing<'_>, node: u32) -> u64
    requires { node < length drawing.now.graph.nodes }
    ensures { result ≡ edges (node_lines (shown drawing.now) (node, node_at drawing.now.graph.nodes node)) }
{
    let graph = drawing.graph();
    let cost = drawing.value(node);
    if cost == NO_COST {
        return 0;
    }
    edges_by(drawing, node, graph.what(node), graph.kids(node), cost)
}

// The same for the lines of a node that can be true.
#[tactic(auto, using(crate::proofs::Rules::edges_of_or))]
fn edges_by(drawing: &Drawing<'_>, node: u32, what: NodeKind, kids: &[u32], cost: u32) -> u64
    requires node { node < length drawing.now.graph.nodes }
    requires is { node_at drawing.now.graph.nodes node ≡ record { what = what; kids = kids.now } }
    requires cost { cost ≢ NO_COST }
    ensures { result ≡ edges (lines_by (shown drawing.now) node cost what kids.now) }
{
    let parts = drawing.parts();
    match what {
        NodeKind::Literal { var, .. } => { if var <= parts { 1 } else { 0 } }
        NodeKind::And => kids.len() as u64,
        NodeKind::Or => {
            let or_node = OrNode {
                drawing,
                node,
                kids,
                cost,
            };
            or_node.edges()
        }
    }
}

impl OrNode<'_> {
    // The same for the lines of an Or node: each of its cheapest children has a line, which is a child of its own line.
    #[tactic(auto, using(crate::proofs::Rules::edges_of_or))]
    fn edges(&self) -> u64
        ensures { result ≡ sum_by (child_edges self.now.drawing.now self.now.node self.now.cost) self.now.kids.now }
    {
        let mut total = 0;
        let kids = self.kids;
        for child in kids {
            total += self.child_edges(*child);
        }
        total
    }

    // Returns the edges of a child's line and one more, if it has the cost, else 0.
    fn child_edges(&self, child: u32) -> u64
        requires child { child < length self.now.drawing.now.graph.nodes }
        requires under { IsUnder self.now.drawing.now (Some self.now.node) child }
        ensures count { result ≡ child_edges self.now.drawing.now self.now.node self.now.cost child }
        ensures most { result ≤ 2 ^ 31 + 2 }
    {
        let drawing = self.drawing;
        if drawing.value(child) != self.cost {
            return 0;
        }
        u64::from(drawing.missing_count(Some(self.node), child) + 2)
    }
}
