ghost use Rattle.std.specs.Prelude.{◌≡◌, ◌≢◌, ◌+◌, ◌*◌, ◌^◌, ◌<◌, ◌≤◌, map, length, All};
ghost use Rattle.state_rules.specs.Graphs.{edges};
ghost use Rattle.state_rules.specs.Numbers.{cost_in};
ghost use Rattle.smooth_nnf.specs.Layouts.{cheapest_children, lines_to, own_lines};
ghost use Rattle.smooth_nnf.specs.inner.Drawings.{lines_after};

use node_store::Graph;
use state_rules::{NO_COST, NodeKind};

// Computes the own line of each node. Returns the number of lines up to the last of them.
#[tactic(auto, using(crate::proofs::Rules::placed_lines))]
pub(crate) fn place_lines(graph: &Graph, parts: u32, values: &[u32], lines: &mut [u32]) -> u32
    requires values { length values.now ≡ length graph.now.nodes }
    requires room { length lines.old ≡ length graph.now.nodes }
    requires few { length graph.now.nodes + edges graph.now.nodes + 2 * parts + 1 < 2 ^ 32 }
    ensures places { lines.new ≡ own_lines (map cost_in values.now) (2 * parts) 0 graph.now.nodes }
    ensures count { result ≡ lines_after (map cost_in values.now) (2 * parts) 0 graph.now.nodes }
{
    let mut line = 2 * parts;
    for at in 0..graph.len() {
        line += lines_to(graph.what(at), graph.kids(at), values, values[at as usize]);
        lines[at as usize] = line;
        line += 1;
    }
    line
}

// Returns the number of lines of a node before its own.
fn lines_to(what: NodeKind, kids: &[u32], values: &[u32], cost: u32) -> u32
    requires kids { All (λ child. child < length values.now) kids.now }
    requires few { length kids.now < 2 ^ 32 }
    ensures { result ≡ lines_to (map cost_in values.now) (record { what = what; kids = kids.now }) (cost_in cost) }
{
    if cost == NO_COST {
        return 0;
    }
    match what {
        NodeKind::Or => cheapest_count(kids, values, cost),
        NodeKind::Literal { .. } | NodeKind::And => 0,
    }
}

// Returns the number of children with this cost.
#[tactic(auto, using(crate::proofs::Rules::cheapest_one))]
pub(crate) fn cheapest_count(kids: &[u32], values: &[u32], cost: u32) -> u32
    requires kids { All (λ child. child < length values.now) kids.now }
    requires few { length kids.now < 2 ^ 32 }
    requires cost { cost ≢ NO_COST }
    ensures count { result ≡ length (cheapest_children (map cost_in values.now) cost kids.now) }
    ensures most { result ≤ length kids.now }
{
    let mut count = 0;
    for child in kids {
        if values[*child as usize] == cost {
            count += 1;
        }
    }
    count
}
