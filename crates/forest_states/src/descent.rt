ghost use Rattle.std.specs.Prelude.{◌≡◌, ◌<◌, ◌≤◌, ◌+◌, ◌^◌, ◌++◌, ℕ, List, [], ◌∷◌, true, false, length, map, drop, reverse, replicate, slice_set, Some, None, IfOk, OnOk, IfSome};
ghost use Rattle.elimination_forests.specs.Forests.{Forest, steps_of, is_forest_of, root, weigh, forest_sum, forks_on, has_way, leads_on};
ghost use Rattle.forest_states.specs.inner.Descents.{Stand, step_at, forks_of, row_in, forks_below, stands_below, or_first, stand_of, weight_of};

use crate::Memory;
use crate::marks::find_clauses;
use crate::places::{Leads, Spot, go_down, next_spot};
use clause_encoder::Cnf;
use elimination_forests::{Forks, Step, Weight};
use std::alloc::Global;

/// What is found along a forest.
#[derive(Debug, Drop)]
pub struct Descended {
    /// Where the lists of each place lead, in the order of the steps.
    pub forks: Vec<Forks>,
    pub measured: Measured,
}

/// What is measured along a forest.
#[derive(Clone, Copy, Debug, PartialEq, Eq)]
pub struct Measured {
    /// What the lists of all places count, and one for the root.
    pub sum: u32,
    /// Whether a list of the last place leads on, or there is no place.
    pub leads_on: bool,
}

/// Goes down a forest, and finds where the lists of each place lead.
///
/// The steps are those of a forest of the clauses, `weight` is what a list counts, and `top` is the limit. Returns none if the sum is above
/// the limit, and only then.
pub fn descend(
    alloc: Global,
    cnf: &Cnf,
    steps: &[Step],
    weight: Weight,
    top: u32,
) -> Result<Option<Descended>, Memory>
    requires { top < 2 ^ 31 }
    ensures forks { IfOk result (λ found. IfSome found (λ r. (forest : Forest) → steps.now ≡ steps_of forest → is_forest_of forest cnf.now ≡ true
        → r.forks.items ≡ forks_on forest (root cnf.now.clauses))) }
    ensures sum { IfOk result (λ found. IfSome found (λ r. (forest : Forest) → steps.now ≡ steps_of forest → is_forest_of forest cnf.now ≡ true
        → r.measured.sum ≡ forest_sum weight forest cnf.now.clauses)) }
    ensures leads_on { IfOk result (λ found. IfSome found (λ r. (forest : Forest) → steps.now ≡ steps_of forest → is_forest_of forest cnf.now ≡ true
        → r.measured.leads_on ≡ leads_on (forks_on forest (root cnf.now.clauses)))) }
    ensures within { IfOk result (λ found. IfSome found (λ r. r.measured.sum ≤ top)) }
    ensures above { result ≡ Ok None → (forest : Forest) → steps.now ≡ steps_of forest → is_forest_of forest cnf.now ≡ true
        → top < forest_sum weight forest cnf.now.clauses }
{
    go_along(alloc, cnf, steps, weight, top, true)
}

/// Computes the sum along a forest, and whether the last place leads on.
///
/// The arguments are those of `descend`. It keeps the states of two places at a time and of the pending places, and no forks.
pub fn measure_along(
    alloc: Global,
    cnf: &Cnf,
    steps: &[Step],
    weight: Weight,
    top: u32,
) -> Result<Option<Measured>, Memory>
    requires { top < 2 ^ 31 }
    ensures sum { IfOk result (λ found. IfSome found (λ r. (forest : Forest) → steps.now ≡ steps_of forest → is_forest_of forest cnf.now ≡ true
        → r.sum ≡ forest_sum weight forest cnf.now.clauses)) }
    ensures leads_on { IfOk result (λ found. IfSome found (λ r. (forest : Forest) → steps.now ≡ steps_of forest → is_forest_of forest cnf.now ≡ true
        → r.leads_on ≡ leads_on (forks_on forest (root cnf.now.clauses)))) }
    ensures within { IfOk result (λ found. IfSome found (λ r. r.sum ≤ top)) }
    ensures above { result ≡ Ok None → (forest : Forest) → steps.now ≡ steps_of forest → is_forest_of forest cnf.now ≡ true
        → top < forest_sum weight forest cnf.now.clauses }
{
    match go_along(alloc, cnf, steps, weight, top, false)? {
        Some(found) => Ok(Some(found.measured)),
        None => Ok(None),
    }
}

// Goes down a forest, and keeps the forks if `keep` is set.
fn go_along(
    alloc: Global,
    cnf: &Cnf,
    steps: &[Step],
    weight: Weight,
    top: u32,
    keep: bool,
) -> Result<Option<Descended>, Memory>
    requires { top < 2 ^ 31 }
    ensures forks { IfOk result (λ found. IfSome found (λ r. (forest : Forest) → steps.now ≡ steps_of forest → is_forest_of forest cnf.now ≡ true
        → keep ≡ true → r.forks.items ≡ forks_on forest (root cnf.now.clauses))) }
    ensures sum { IfOk result (λ found. IfSome found (λ r. (forest : Forest) → steps.now ≡ steps_of forest → is_forest_of forest cnf.now ≡ true
        → r.measured.sum ≡ forest_sum weight forest cnf.now.clauses)) }
    ensures leads_on { IfOk result (λ found. IfSome found (λ r. (forest : Forest) → steps.now ≡ steps_of forest → is_forest_of forest cnf.now ≡ true
        → r.measured.leads_on ≡ leads_on (forks_on forest (root cnf.now.clauses)))) }
    ensures within { IfOk result (λ found. IfSome found (λ r. r.measured.sum ≤ top)) }
    ensures above { result ≡ Ok None → (forest : Forest) → steps.now ≡ steps_of forest → is_forest_of forest cnf.now ≡ true
        → top < forest_sum weight forest cnf.now.clauses }
{
    if top == 0 {
        return Ok(None);
    }
    let of = find_clauses(alloc, cnf)?;
    let mut frontier = Frontier::new(alloc, of.len())?;
    let mut forks = Vec::new(alloc);
    let mut leads_on = true;
    for at in 0..steps.len() {
        let Some(found) = frontier.next_place(
            alloc,
            cnf,
            of.as_slice(),
            steps,
            at,
            weight,
            top,
            keep,
        )?
        else {
            return Ok(None);
        };
        leads_on = found.has_way;
        if keep {
            add_forks(alloc, &found, &mut forks)?;
        }
    }
    let measured = Measured {
        sum: frontier.sum,
        leads_on,
    };
    Ok(Some(Descended { forks, measured }))
}

fn add_forks(alloc: Global, found: &Leads, forks: &mut Vec<Forks>) -> Result<(), Memory>
    requires { (n : ℕ) → length (row_in found.now n) ≡ found.now.trees }
    ensures { OnOk result (forks.new.items ≡ forks.old.items ++ forks_of found.now ∷ []) }
{
    forks.push(found.forks(alloc)?)?;
    Ok(())
}

// The frontier of a way down: which variables are assigned, in which trees the others are, the pending places, and the sum.
#[derive(Drop)]
struct Frontier {
    seen: Vec<bool>,
    numbers: Vec<u32>,
    pending: Vec<Spot>,
    sum: u32,
}

impl Frontier {
    // Nothing is assigned yet.
    fn new(alloc: Global, size: usize) -> Result<Frontier, Memory>
        ensures seen { IfOk result (λ frontier. frontier.seen.items ≡ replicate size false) }
        ensures numbers { IfOk result (λ frontier. length frontier.numbers.items ≡ size) }
        ensures pending { IfOk result (λ frontier. frontier.pending.items ≡ []) }
        ensures sum { IfOk result (λ frontier. frontier.sum ≡ 1) }
    {
        Ok(Frontier {
            seen: vec![in alloc; false; size]?,
            numbers: vec![in alloc; 0; size]?,
            pending: Vec::new(alloc),
            sum: 1,
        })
    }

    // Returns where the next place leads, or none if the sum with it is above the limit. Finds forks only if they are kept.
    fn next_place(
        &mut self,
        alloc: Global,
        cnf: &Cnf,
        of: &[Vec<u32>],
        steps: &[Step],
        at: usize,
        weight: Weight,
        top: u32,
        keep: bool,
    ) -> Result<Option<Leads>, Memory>
        requires low { at < length steps.now }
        requires within { self.old.sum ≤ top }
        requires top { top < 2 ^ 31 }
        ensures within { IfOk result (λ found. IfSome found (λ _. self.new.sum ≤ top)) }
        ensures seen { IfOk result (λ found. IfSome found (λ _. self.new.seen.items ≡ slice_set self.old.seen.items (step_at steps.now at).var true)) }
        ensures numbers { IfOk result (λ found. IfSome found (λ _. length self.new.numbers.items ≡ length self.old.numbers.items)) }
        ensures whole { IfOk result (λ found. IfSome found (λ leads. (n : ℕ) → length (row_in leads n) ≡ leads.trees)) }
        ensures forks { IfOk result (λ found. IfSome found (λ leads. (s : Stand) (stands : List Stand) → s ∷ stands ≡ or_first (reverse (map stand_of self.old.pending.items))
            → keep ≡ true → forks_of leads ≡ forks_below cnf.now.clauses (map (λ v. v.items) of.now) self.old.seen.items self.old.numbers.items (step_at steps.now at) (drop (at + 1) steps.now) s)) }
        ensures way { IfOk result (λ found. IfSome found (λ leads. (s : Stand) (stands : List Stand) → s ∷ stands ≡ or_first (reverse (map stand_of self.old.pending.items))
            → leads.has_way ≡ has_way (forks_below cnf.now.clauses (map (λ v. v.items) of.now) self.old.seen.items self.old.numbers.items (step_at steps.now at) (drop (at + 1) steps.now) s))) }
        ensures sum { IfOk result (λ found. IfSome found (λ _. (s : Stand) (stands : List Stand) → s ∷ stands ≡ or_first (reverse (map stand_of self.old.pending.items))
            → self.new.sum ≡ self.old.sum + weight_of weight s)) }
        ensures pending { IfOk result (λ found. IfSome found (λ _. (s : Stand) (stands : List Stand) → s ∷ stands ≡ or_first (reverse (map stand_of self.old.pending.items))
            → reverse (map stand_of self.new.pending.items)
            ≡ stands_below cnf.now.clauses (map (λ v. v.items) of.now) self.old.seen.items self.old.numbers.items (step_at steps.now at) (drop (at + 1) steps.now) s ++ stands)) }
        ensures above { result ≡ Ok None → (s : Stand) (stands : List Stand) → s ∷ stands ≡ or_first (reverse (map stand_of self.old.pending.items))
            → top < self.old.sum + weight_of weight s }
    {
        let spot = next_spot(alloc, &mut self.pending)?;
        let Some(sum) = sum_with(&spot, weight, self.sum, top) else {
            return Ok(None);
        };
        self.sum = sum;
        let leads = go_down(
            alloc,
            cnf,
            of,
            &mut self.seen,
            &mut self.numbers,
            steps[at],
            &steps[at + 1..],
            &spot,
            &mut self.pending,
            keep,
        )?;
        Ok(Some(leads))
    }
}

// The sum with one more place, or none if it is above the limit.
fn sum_with(spot: &Spot, weight: Weight, sum: u32, top: u32) -> Option<u32>
    requires within { sum ≤ top }
    requires top { top < 2 ^ 31 }
    ensures sum { IfSome result (λ more. more ≡ sum + weight_of weight (stand_of spot.now)) }
    ensures within { IfSome result (λ more. more ≤ top) }
    ensures few { IfSome result (λ _. length spot.now.states.lists < 2 ^ 31) }
    ensures above { result ≡ None → top < sum + weight_of weight (stand_of spot.now) }
{
    let weight = weight_of_list(weight, spot.active.len());
    let most = (top - sum) as usize / weight;
    let count = spot.states.len();
    if count > most {
        return None;
    }
    Some(sum + (count * weight) as u32)
}

fn weight_of_list(weight: Weight, active: usize) -> usize
    ensures weight { result ≡ weigh weight active }
    ensures some { 1 ≤ result }
{
    match weight {
        Weight::Words => active / 64 + 1,
        Weight::Lists => 1,
    }
}
