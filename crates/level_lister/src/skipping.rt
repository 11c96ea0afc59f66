//! Nodes that no state of a listed cost needs.
ghost use Rattle.std.specs.Prelude.{◌≡◌, ◌≢◌, ℕ, ◌+◌, ◌^◌, ◌<◌, ◌≤◌, [], true, false, length, All, slice_index};
ghost use Rattle.conditioner.specs.Models.{models};
ghost use Rattle.level_lister.specs.Listing.{IsFor};
ghost use Rattle.level_lister.specs.inner.Skips.{IsEnough, skip_of};

use crate::levels::Levels;
use minimiser::{Steps, least, put_outside_costs};
use node_store::Graph;
use std::sync::ledger::Ledger;

impl Levels {
    // Whether some state agrees with the evidence. If so, marks the nodes that the passes skip under this evidence and all that fixes more:
    // in each derivation through them the open faulty parts alone cost more than what is listed.
    pub(crate) fn put_skips<L: Ledger>(
        &self,
        graph: &Graph,
        evidence: &[u32],
        skips: &mut [u32],
        work: &mut [u32],
        steps: &mut Steps<L>,
    ) -> bool
        requires graph { IsFor graph.now self.now }
        requires long { length evidence.now ≡ graph.now.vars }
        requires evidence { All (λ w. w < 3) evidence.now }
        requires skips { length skips.old ≡ length graph.now.nodes }
        requires work { length graph.now.nodes ≤ length work.old }
        ensures none { result ≡ false → models graph.now evidence.now (length self.now.costs) ≡ [] }
        ensures some { result ≡ true → models graph.now evidence.now (length self.now.costs) ≢ [] }
        ensures enough { result ≡ true → IsEnough graph.now skips.new evidence.now self.now.costs self.now.top }
        ensures steps { steps.new ≡ steps.old + 1 }
    {
        let (values, _) = work.split_at_mut(graph.len() as usize);
        if least(graph, evidence, self.costs(), values, steps).is_none() {
            return false;
        }
        put_outside_costs(graph, values, skips);
        mark_dear(values, self.top(), skips);
        true
    }
}

// Turns each outside cost into a mark: 1 if it and the node's least cost exceed `top` together.
fn mark_dear(least: &[u32], top: u32, outside: &mut [u32])
    requires least { length least.now ≡ length outside.old }
    requires top { top < 2 ^ 31 }
    ensures { (k : ℕ) → k < length outside.old
        → slice_index outside.new k ≡ skip_of top (slice_index least.now k) (slice_index outside.old k) }
{
    for (k, cost) in outside.iter_mut().enumerate() {
        *cost = u32::from(cost.saturating_add(least[k]) > top);
    }
}
