ghost use Rattle.std.specs.Prelude.{◌≡◌, ℕ, ◌-◌, ◌<◌, ◌≤◌, length, All, slice_index};
ghost use Rattle.fault_graph.specs.inner.Marks.{AreMarks, mark_of};

use crate::minimising::MARKED;
use node_store::Graph;

// Marks the root, which costs something, and the children of each marked node that cost something and no more than it: all such
// children of an And node, and those of an Or node that make it true at its cost.
#[tactic(auto, using(crate::proofs::Rules::sizes_of_pieces))]
pub(crate) fn mark(graph: &Graph, values: &[u32], places: &mut [u32])
    requires values { length values.now ≡ length graph.now.nodes }
    requires room { length places.old ≡ length graph.now.nodes }
    requires costly { 0 < slice_index values.now (length graph.now.nodes - 1) }
    ensures { AreMarks graph.now.nodes values.now places.new 0 }
{
    let count = graph.len();
    places.fill(0);
    places[count as usize - 1] = MARKED;
    for at in (0..count).rev() {
        if places[at as usize] == MARKED {
            mark_children(places, graph.kids(at), values, values[at as usize]);
        }
    }
}

fn mark_children(places: &mut [u32], kids: &[u32], values: &[u32], cost: u32)
    requires room { length places.old ≡ length values.now }
    requires kids { All (λ k. k < length values.now) kids.now }
    ensures { (j : ℕ) → j < length places.old
        → slice_index places.new j ≡ mark_of kids.now values.now cost j (slice_index places.old j) }
{
    for k in kids {
        let value = values[*k as usize];
        if 0 < value && value <= cost {
            places[*k as usize] = MARKED;
        }
    }
}
