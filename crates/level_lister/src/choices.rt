//! Parts that are free to be ok or faulty, since a child of a node does not mention them.
ghost use Rattle.std.specs.Prelude.{◌≡◌, ℕ, ◌+◌, ◌*◌, ◌<◌, ◌≤◌, Bool, true, not, ◌&&◌, ◌||◌, length, All, ◌==◌};
ghost use Rattle.state_rules.specs.Assignments.{Assignment};
ghost use Rattle.part_sets.specs.Numbers.{has_number, part_words};
ghost use Rattle.part_sets.specs.PartSets.{ArePartsOf};
ghost use Rattle.level_lister.specs.inner.CostSets.{has_shifted, IsCostSet};

use crate::sets::{add_shifted, shift};
use conditioner::known_of;
use part_sets::{PART_LIMIT, next_missing};

// Makes each part free that is below a node and not below its child: turns the set of the child's costs into that of the costs of all parts
// below the node.
pub(crate) fn widen(
    outer: &[u32],
    inner: &[u32],
    evidence: &[u32],
    costs: &[u32],
    set: &mut [u32],
    spare: &mut [u32],
)
    requires evidence { All (λ w. w < 3) evidence.now }
    requires parts { length costs.now ≤ length evidence.now }
    requires few { length costs.now ≤ PART_LIMIT }
    requires outer { length outer.now ≡ part_words (length costs.now) }
    requires inner { length inner.now ≡ part_words (length costs.now) }
    requires spare { length spare.old ≡ length set.old }
    ensures { (test : Assignment → Bool) (some more : ℕ → Bool)
        → ArePartsOf (length costs.now) some inner.now → ArePartsOf (length costs.now) more outer.now
        → ((v : ℕ) → some v ≡ true → more v ≡ true)
        → IsCostSet evidence.now costs.now test some set.old → IsCostSet evidence.now costs.now test more set.new }
{
    let mut part = next_missing(outer, inner, 0);
    while part < costs.len() {
        add_part(evidence[part], costs[part], set, spare);
        part = next_missing(outer, inner, part + 1);
    }
}

// Adds a part to a set of costs: with the part's cost if it can be faulty, and without it if it can be ok.
pub(crate) fn add_part(word: u32, cost: u32, set: &mut [u32], spare: &mut [u32])
    requires word { word < 3 }
    requires spare { length spare.old ≡ length set.old }
    ensures { (n : ℕ) → n < 32 * length set.old → has_number set.new n
        ≡ ((not (word == 2) && has_number set.old n) || (not (word == 1) && has_shifted set.old cost n)) }
{
    match known_of(word) {
        Some(true) => {}
        Some(false) => shift(set, cost as usize),
        None => {
            spare.copy_from_slice(set);
            add_shifted(set, spare, cost as usize);
        }
    }
}
