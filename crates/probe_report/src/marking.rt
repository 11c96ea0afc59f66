ghost use Rattle.std.specs.Prelude.{◌≡◌, ◌≢◌, ℕ, ◌+◌, ◌*◌, ◌<◌, ◌≤◌, ◌==◌, length, All, false, map};
ghost use Rattle.std.specs.List.{list_any};
ghost use Rattle.state_rules.specs.Graphs.{node_at, mention_by, mentions};
ghost use Rattle.state_rules.specs.Bits.{has_bit};
ghost use Rattle.probe_report.specs.inner.Outside.{mark_at};

use node_store::Graph;
use state_rules::NodeKind;

/// The number of variables with a bit in a mark.
pub(crate) const WIDTH: u32 = 64;

// A mark takes two words. A 1 in the second counts this much.
const HALF: u64 = 4_294_967_296;

// Returns the first node that mentions one of the 64 variables from `first` on, or the number of nodes.
pub(crate) fn first_marked(graph: &Graph, first: u32) -> u32
    ensures within { result ≤ length graph.now.nodes }
    ensures none { (node b : ℕ) → node < result → b < WIDTH → mentions graph.now.nodes (first + b) node ≡ false }
{
    let count = graph.len();
    for at in 0..count {
        if let NodeKind::Literal { var, .. } = graph.what(at) {
            if literal_mark(var, first) != 0 {
                return at;
            }
        }
    }
    count
}

// Returns which of the 64 variables from `first` on a node mentions, from the marks of the nodes before it.
#[tactic(auto, using(minimiser::proofs::SpreadMarks::children_before))]
pub(crate) fn mark_of(graph: &Graph, marks: &[u32], at: u32, first: u32) -> u64
    requires at { at < length graph.now.nodes }
    requires room { length marks.now ≡ 2 * length graph.now.nodes }
    ensures { (b : ℕ) → b < WIDTH → has_bit result b ≡ mention_by (first + b) (node_at graph.now.nodes at).what
        (map (λ k. has_bit (mark_at marks.now k) b) (node_at graph.now.nodes at).kids) }
{
    match graph.what(at) {
        NodeKind::Literal { var, .. } => literal_mark(var, first),
        NodeKind::And | NodeKind::Or => joined(marks, graph.kids(at)),
    }
}

// Returns the bit of a variable, or 0 if it has none.
#[tactic(auto, using(crate::proofs::Rules::variable_bits))]
fn literal_mark(var: u32, first: u32) -> u64
    ensures { (b : ℕ) → b < WIDTH → has_bit result b ≡ (var == first + b) }
{
    if var < first || WIDTH <= var - first {
        return 0;
    }
    1 << (var - first)
}

// Returns the bits that the mark of some child has.
fn joined(marks: &[u32], kids: &[u32]) -> u64
    requires { All (λ k. 2 * k + 1 < length marks.now) kids.now }
    ensures { (b : ℕ) → has_bit result b ≡ list_any (λ x. x) (map (λ k. has_bit (mark_at marks.now k) b) kids.now) }
{
    let mut any = 0;
    for k in kids {
        any |= mark_at(marks, *k as usize);
    }
    any
}

pub(crate) fn mark_at(marks: &[u32], node: usize) -> u64
    requires { 2 * node + 1 < length marks.now }
    ensures { result ≡ mark_at marks.now node }
{
    u64::from(marks[2 * node]) + HALF * u64::from(marks[2 * node + 1])
}

pub(crate) fn set_mark(marks: &mut [u32], node: usize, mark: u64)
    requires { 2 * node + 1 < length marks.old }
    ensures set { mark_at marks.new node ≡ mark }
    ensures others { (other : ℕ) → other ≢ node → mark_at marks.new other ≡ mark_at marks.old other }
{
    marks[2 * node] = (mark % HALF) as u32;
    marks[2 * node + 1] = (mark / HALF) as u32;
}

// Clears the marks of the nodes before `to`.
pub(crate) fn clear_marks(marks: &mut [u32], to: usize)
    requires { 2 * to ≤ length marks.old }
    ensures { (node : ℕ) → node < to → mark_at marks.new node ≡ 0 }
{
    marks[..2 * to].fill(0);
}

pub(crate) fn has_bit(mark: u64, b: usize) -> bool
    requires { b < WIDTH }
    ensures { result ≡ has_bit mark b }
{
    (mark >> b) % 2 == 1
}
