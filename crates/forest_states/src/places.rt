ghost use Rattle.std.specs.Prelude.{◌≡◌, ◌<◌, ◌≤◌, ◌+◌, ◌^◌, ◌++◌, ℕ, [], ◌∷◌, true, false, length, map, reverse, slice_set, slice_index_or, option_map, Some, IfOk, OnOk, IfSome, ◌==◌, ◌&&◌, Bool, List};
ghost use Rattle.std.specs.List.{list_all, range_with_len, position_or_len};
ghost use Rattle.elimination_forests.specs.Branches.{different};
ghost use Rattle.elimination_forests.specs.Forests.{has_way};
ghost use Rattle.forest_states.specs.inner.BitLists.{is_same};
ghost use Rattle.forest_states.specs.inner.Masked.{IsShort};
ghost use Rattle.forest_states.specs.inner.Descents.{picked, successor, joined, lead, decided_states, decided_forks, parts_by, column_by, table_at, forks_of, row_at, row_of, row_in, stand_decided, stand_part, column_at, stands_below, forks_below, first_stand, or_first, stand_of};

use crate::bit_list::BitList;
use crate::marks::{clauses_with, mark, number_trees};
use crate::masks::Masks;
use crate::picks::Picks;
use crate::states::States;
use crate::table_finder::{find_picks, find_table};
use crate::transition_tables::TransitionTable;
use clause_encoder::Cnf;
use elimination_forests::{Forks, Step, Ways};
use std::alloc::{AllocError, Global};

/// A pending place: its active clauses, by rising numbers, and its states, which have a bit for each of these.
#[derive(Drop)]
pub(crate) struct Spot {
    pub(crate) active: Vec<u32>,
    pub(crate) states: States,
}

/// Where a state leads by each bit: the place of its successor among those of all states, or none if it is dead.
#[derive(Clone, Copy, Debug, PartialEq, Eq)]
pub(crate) struct Fork {
    pub(crate) zero: Option<u32>,
    pub(crate) one: Option<u32>,
}

/// Where the states of a place lead: by a bit to those of its base, and from there by a column into each tree on it.
///
/// There are no columns if the base is the place of its only tree.
#[derive(Drop)]
pub(crate) struct Leads {
    pub(crate) trees: u32,
    pub(crate) columns: Option<Vec<Vec<u32>>>,
    // empty if forks are not kept
    pub(crate) leads: Vec<Fork>,
    // whether a state leads on
    pub(crate) has_way: bool,
}

/// Finds where the states of a place lead, without the forks if these are not kept.
///
/// Marks the variable of the place, and adds the places right below to the pending ones.
#[tactic(auto, using(crate::proofs::Rules::go_down_steps))]
pub(crate) fn go_down(
    alloc: Global,
    cnf: &Cnf,
    of: &[Vec<u32>],
    seen: &mut Vec<bool>,
    numbers: &mut Vec<u32>,
    step: Step,
    rest: &[Step],
    spot: &Spot,
    pending: &mut Vec<Spot>,
    keep: bool,
) -> Result<Leads, AllocError>
    requires { length spot.now.states.lists < 2 ^ 31 }
    ensures whole { IfOk result (λ leads. (n : ℕ) → length (row_in leads n) ≡ leads.trees) }
    ensures forks { IfOk result (λ leads. keep ≡ true → forks_of leads
        ≡ forks_below cnf.now.clauses (map (λ v. v.items) of.now) seen.old.items numbers.old.items step rest.now (stand_of spot.now)) }
    ensures way { IfOk result (λ leads. leads.has_way
        ≡ has_way (forks_below cnf.now.clauses (map (λ v. v.items) of.now) seen.old.items numbers.old.items step rest.now (stand_of spot.now))) }
    ensures seen { OnOk result (seen.new.items ≡ slice_set seen.old.items step.var true) }
    ensures numbers { OnOk result (length numbers.new.items ≡ length numbers.old.items) }
    ensures pending { OnOk result (reverse (map stand_of pending.new.items)
        ≡ stands_below cnf.now.clauses (map (λ v. v.items) of.now) seen.old.items numbers.old.items step rest.now (stand_of spot.now)
        ++ reverse (map stand_of pending.old.items)) }
{
    let (leads, base) = go_by_bit(alloc, cnf, of, seen.as_slice(), step.var, spot, keep)?;
    let has_way = base.states.len() > 0;
    mark(seen, step.var);
    number_trees(numbers, step.trees, rest);
    let columns = go_below(
        alloc,
        cnf,
        seen.as_slice(),
        numbers.as_slice(),
        step.trees,
        base,
        pending,
    )?;
    Ok(Leads {
        trees: step.trees,
        columns,
        leads,
        has_way,
    })
}

// Finds where the states of a place lead by the bit of its variable, and the base below.
#[tactic(auto, using(crate::proofs::Rules::go_by_bit_steps))]
fn go_by_bit(
    alloc: Global,
    cnf: &Cnf,
    of: &[Vec<u32>],
    seen: &[bool],
    var: u32,
    spot: &Spot,
    keep: bool,
) -> Result<(Vec<Fork>, Spot), AllocError>
    requires { length spot.now.states.lists < 2 ^ 31 }
    ensures leads { IfOk result (λ r. keep ≡ true → r.0.items ≡ decided_forks
        (table_at cnf.now.clauses (map (λ v. v.items) of.now) seen.now var spot.now.active.items) spot.now.states.lists) }
    ensures few { IfOk result (λ r. length r.1.states.lists < 2 ^ 32) }
    ensures base { IfOk result (λ r. stand_of r.1
        ≡ stand_decided cnf.now.clauses (map (λ v. v.items) of.now) seen.now var (stand_of spot.now)) }
{
    let touched = clauses_with(of, var);
    let (table, active) = find_table(alloc, cnf, seen, var, touched, &spot.active)?;
    let masks = table.masks(alloc)?;
    let (leads, states) = decide(alloc, &table, &masks, active.len(), &spot.states, keep)?;
    Ok((leads, Spot { active, states }))
}

// Finds where the states of a base lead in each tree on it. If all goes to one tree, the base is the place of that tree.
fn go_below(
    alloc: Global,
    cnf: &Cnf,
    seen: &[bool],
    numbers: &[u32],
    trees: u32,
    base: Spot,
    pending: &mut Vec<Spot>,
) -> Result<Option<Vec<Vec<u32>>>, AllocError>
    requires few { length base.states.lists < 2 ^ 32 }
    requires once { different base.states.lists ≡ base.states.lists }
    ensures columns { IfOk result (λ columns. row_of (option_map (λ cs. map (λ v. v.items) cs.items) columns)
        ≡ row_at (map (λ j. column_at cnf.now.clauses trees seen.now numbers.now j (stand_of base)) (range_with_len 0 trees))) }
    ensures pending { OnOk result (reverse (map stand_of pending.new.items)
        ≡ map (λ j. stand_part cnf.now.clauses trees seen.now numbers.now j (stand_of base)) (range_with_len 0 trees)
        ++ reverse (map stand_of pending.old.items)) }
{
    if is_whole(trees, &base) {
        pending.push(base)?;
        return Ok(None);
    }
    let columns = go_apart(alloc, cnf, seen, numbers, trees, &base, pending)?;
    Ok(Some(columns))
}

// Whether one tree is on a base, so that each active clause goes to it, and so each bit of a state.
fn is_whole(trees: u32, base: &Spot) -> bool
    ensures { result ≡ true → ((trees == 1) && list_all (λ s. length s == length base.now.active.items) base.now.states.lists) ≡ true }
{
    trees == 1 && base.states.size() == base.active.len()
}

// Finds where the states of a base lead in each tree on it, and adds the places of the trees, the first tree's last.
fn go_apart(
    alloc: Global,
    cnf: &Cnf,
    seen: &[bool],
    numbers: &[u32],
    trees: u32,
    base: &Spot,
    pending: &mut Vec<Spot>,
) -> Result<Vec<Vec<u32>>, AllocError>
    requires { length base.now.states.lists < 2 ^ 32 }
    ensures columns { IfOk result (λ columns. map (λ v. v.items) columns.items
        ≡ map (λ j. column_at cnf.now.clauses trees seen.now numbers.now j (stand_of base.now)) (range_with_len 0 trees)) }
    ensures pending { OnOk result (reverse (map stand_of pending.new.items)
        ≡ map (λ j. stand_part cnf.now.clauses trees seen.now numbers.now j (stand_of base.now)) (range_with_len 0 trees)
        ++ reverse (map stand_of pending.old.items)) }
{
    let mut columns = Vec::with_capacity(alloc, trees as usize)?;
    for behind in 0..trees {
        let (column, spot) = go_to(alloc, cnf, trees, seen, numbers, trees - 1 - behind, base)?;
        columns.push(column)?;
        pending.push(spot)?;
    }
    columns.reverse();
    Ok(columns)
}

// Finds where the states of a base lead in a tree on it, and the place of the tree.
#[tactic(auto, using(crate::proofs::Rules::go_to_steps))]
fn go_to(
    alloc: Global,
    cnf: &Cnf,
    trees: u32,
    seen: &[bool],
    numbers: &[u32],
    tree: u32,
    base: &Spot,
) -> Result<(Vec<u32>, Spot), AllocError>
    requires { length base.now.states.lists < 2 ^ 32 }
    ensures column { IfOk result (λ r. r.0.items ≡ column_at cnf.now.clauses trees seen.now numbers.now tree (stand_of base.now)) }
    ensures spot { IfOk result (λ r. stand_of r.1 ≡ stand_part cnf.now.clauses trees seen.now numbers.now tree (stand_of base.now)) }
{
    let (picks, active) = find_picks(
        alloc,
        cnf,
        trees,
        seen,
        numbers,
        tree,
        base.active.as_slice(),
    )?;
    let (column, states) = part(alloc, &picks, active.len(), &base.states)?;
    Ok((column, Spot { active, states }))
}

// Finds the picked part of each state: its place among the parts, and the parts, which have `size` bits.
fn part(
    alloc: Global,
    picks: &Picks,
    size: usize,
    states: &States,
) -> Result<(Vec<u32>, States), AllocError>
    requires few { length states.now.lists < 2 ^ 32 }
    requires short { length picks.now < 2 ^ 63 }
    requires size { (state : List Bool) → length (picked picks.now state) ≡ size }
    ensures column { IfOk result (λ r. r.0.items ≡ column_by (picked picks.now) states.now.lists) }
    ensures states { IfOk result (λ r. r.1.lists ≡ parts_by (picked picks.now) states.now.lists) }
{
    let mut parts = States::new(alloc, size, 0)?;
    let mut column = Vec::with_capacity(alloc, states.len())?;
    for at in 0..states.len() {
        column.push(parts.add(picks.pick(alloc, size, &states.at(at))?)?)?;
    }
    Ok((column, parts))
}

// Finds where the states of a place lead by a bit, and their successors, which have `size` bits. `masks` is the table in words, if it is
// short.
#[tactic(auto, using(crate::proofs::Sizes::sized))]
fn decide(
    alloc: Global,
    table: &TransitionTable,
    masks: &Option<Masks>,
    size: usize,
    states: &States,
    keep: bool,
) -> Result<(Vec<Fork>, States), AllocError>
    requires masks { IfSome masks.now (λ masks. IsShort masks table.now) }
    requires few { length states.now.lists < 2 ^ 31 }
    requires short { length table.now < 2 ^ 63 }
    requires size { (bit : Bool) (state : List Bool) → IfSome (successor bit table.now state) (λ next. length next ≡ size) }
    ensures leads { IfOk result (λ r. keep ≡ true → r.0.items ≡ decided_forks table.now states.now.lists) }
    ensures few { IfOk result (λ r. length r.1.lists < 2 ^ 32) }
    ensures states { IfOk result (λ r. r.1.lists ≡ decided_states table.now states.now.lists) }
{
    let mut next = States::new(alloc, size, states.len())?;
    let mut leads = Vec::with_capacity(alloc, if keep { states.len() } else { 0 })?;
    for at in 0..states.len() {
        let (left_by_0, left_by_1) = table.successors(alloc, masks, &states.at(at))?;
        let zero = add(left_by_0, &mut next)?;
        let one = add(left_by_1, &mut next)?;
        if keep {
            leads.push(Fork { zero, one })?;
        }
    }
    Ok((leads, next))
}

// Adds a state, if there is one, to others if it is new, and returns its place.
fn add(state: Option<BitList>, states: &mut States) -> Result<Option<u32>, AllocError>
    requires few { length states.old.lists < 2 ^ 32 }
    requires size { IfSome state (λ s. length s ≡ states.old.size) }
    ensures few { OnOk result (length states.new.lists ≤ length states.old.lists + 1) }
    ensures size { OnOk result (states.new.size ≡ states.old.size) }
    ensures states { OnOk result (states.new.lists ≡ joined states.old.lists state) }
    ensures place { IfOk result (λ place. place ≡ lead states.old.lists state) }
{
    match state {
        Some(state) => Ok(Some(states.add(state)?)),
        None => Ok(None),
    }
}

impl Leads {
    #[tactic(auto, using(std::proofs::lemmas::List::take_all))]
    pub(crate) fn forks(&self, alloc: Global) -> Result<Forks, AllocError>
        requires { (n : ℕ) → length (row_in self.now n) ≡ self.now.trees }
        ensures { IfOk result (λ forks. forks ≡ forks_of self.now) }
    {
        let mut zero = Ways::new(alloc, self.trees);
        let mut one = Ways::new(alloc, self.trees);
        let mut row = Vec::with_capacity(alloc, self.trees as usize)?;
        for lead in self.leads.as_slice() {
            add_way(&mut zero, &self.columns, lead.zero, &mut row)?;
            add_way(&mut one, &self.columns, lead.one, &mut row)?;
        }
        Ok(Forks { zero, one })
    }
}

// Adds the way by which a state of the base leads into the trees. `row` is room for it.
fn add_way(
    ways: &mut Ways,
    columns: &Option<Vec<Vec<u32>>>,
    base: Option<u32>,
    row: &mut Vec<u32>,
) -> Result<(), AllocError>
    requires { (n : ℕ) → length (row_of (option_map (λ cs. map (λ v. v.items) cs.items) columns.now) n) ≡ ways.old.trees }
    ensures { OnOk result (ways.new ≡ record ways.old {
      ways = ways.old.ways ++ option_map (row_of (option_map (λ cs. map (λ v. v.items) cs.items) columns.now)) base ∷ [];
    }) }
{
    match base {
        Some(at) => {
            fill_row(columns, at, row)?;
            ways.push(Some(row.as_slice()))
        }
        None => ways.push(None),
    }
}

fn fill_row(columns: &Option<Vec<Vec<u32>>>, at: u32, row: &mut Vec<u32>) -> Result<(), AllocError>
    ensures { OnOk result (row.new.items ≡ row_of (option_map (λ cs. map (λ v. v.items) cs.items) columns.now) at) }
{
    row.clear();
    match columns {
        Some(columns) => add_items(columns.as_slice(), at, row),
        None => {
            row.push(at)?;
            Ok(())
        }
    }
}

fn add_items(columns: &[Vec<u32>], at: u32, row: &mut Vec<u32>) -> Result<(), AllocError>
    ensures { OnOk result (row.new.items ≡ row.old.items ++ row_at (map (λ v. v.items) columns.now) at) }
{
    for column in columns {
        row.push(item(column, at))?;
    }
    Ok(())
}

fn item(column: &Vec<u32>, at: u32) -> u32
    ensures { result ≡ slice_index_or column.now.items at at }
{
    if (at as usize) < column.len() {
        column[at as usize]
    } else {
        at
    }
}

/// Takes the last pending place, or creates that of a tree on the root.
pub(crate) fn next_spot(alloc: Global, pending: &mut Vec<Spot>) -> Result<Spot, AllocError>
    ensures { IfOk result (λ spot. stand_of spot ∷ reverse (map stand_of pending.new.items) ≡ or_first (reverse (map stand_of pending.old.items))) }
{
    match pending.pop() {
        Some(spot) => Ok(spot),
        None => begin(alloc),
    }
}

fn begin(alloc: Global) -> Result<Spot, AllocError>
    ensures { IfOk result (λ spot. stand_of spot ≡ first_stand) }
{
    let mut states = States::new(alloc, 0, 1)?;
    states.add(BitList::new(alloc, 0)?)?;
    Ok(Spot {
        active: Vec::new(alloc),
        states,
    })
}
