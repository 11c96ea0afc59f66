ghost use Rattle.std.specs.Prelude.{◌≡◌, ℕ, ◌+◌, ◌<◌, length, All, slice_index};
ghost use Rattle.minimiser.specs.inner.Outside.{others_cost, lowered, AreOutsideCosts};
ghost use Rattle.minimiser.specs.inner.Swept.{is_child};

use node_store::Graph;
use state_rules::{NO_COST, NodeKind};

/// Writes for each node the least cost of the rest of a derivation of the root outside it, from the values that [`least`](crate::least)
/// left: one sweep over the nodes, from the root down. The number of a node that has no value means nothing.
#[tactic(auto, using(crate::proofs::SpreadMarks::children_before))]
pub fn put_outside_costs(graph: &Graph, values: &[u32], outside: &mut [u32])
    requires values { length values.now ≡ length graph.now.nodes }
    requires room { length outside.old ≡ length graph.now.nodes }
    ensures { AreOutsideCosts graph.now.nodes values.now outside.new 0 }
{
    let count = graph.len();
    outside.fill(NO_COST);
    outside[count as usize - 1] = 0;
    for at in (0..count).rev() {
        let rest = outside[at as usize];
        lower_children(
            graph.what(at),
            values[at as usize],
            rest,
            graph.kids(at),
            values,
            outside,
        );
    }
}

// Lowers the costs outside the children of a node to those by way of this node.
fn lower_children(
    what: NodeKind,
    own: u32,
    rest: u32,
    kids: &[u32],
    values: &[u32],
    outside: &mut [u32],
)
    requires kids { All (λ k. k < length values.now) kids.now }
    requires room { length outside.old ≡ length values.now }
    ensures { (j : ℕ) → j < length outside.old → slice_index outside.new j
        ≡ lowered (is_child kids.now j) (rest + others_cost what own (slice_index values.now j)) (slice_index outside.old j) }
{
    for k in kids {
        let below = rest.saturating_add(others_cost(what, own, values[*k as usize]));
        outside[*k as usize] = outside[*k as usize].min(below);
    }
}

// Returns the cost of the other children of an And node, from its cost and that of one child.
fn others_cost(what: NodeKind, own: u32, child: u32) -> u32
    ensures { result ≡ others_cost what own child }
{
    match what {
        NodeKind::And => own.saturating_sub(child),
        NodeKind::Literal { .. } | NodeKind::Or => 0,
    }
}
