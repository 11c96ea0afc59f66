ghost use Rattle.std.specs.Prelude.{◌≡◌, ◌+◌, ◌-◌, ◌<◌, ◌≤◌, ◌++◌, ◌^◌, ℕ, [], ◌∷◌, true, false, IfOk, IfSome, OnSome, IsNone, length, take, nat_le, slice_index_or};
ghost use Rattle.std.specs.List.{list_all};
ghost use Rattle.state_rules.specs.Bits.{same_bit};
ghost use Rattle.state_rules.specs.Assignments.{Assignment, assignment};
ghost use Rattle.clause_search.specs.Searching.{false_weight, respects, priced, is_within, are_ordered};
ghost use Rattle.clause_search.specs.inner.Marks.{Agrees};

use crate::Memory;
use crate::literals::is_true;
use crate::marks::{is_marked, is_marked_true, marked_bit};
use crate::weighted::Weighted;
use flat_lists::FlatLists;
use std::alloc::Global;
use std::marker::Model;

// How many definitions are always there.
const FIXED: usize = 2;

/// The members and the limits of the defined variables.
#[derive(Drop)]
pub(crate) struct Definitions {
    // the members of the first two, and their limits
    fixed: Vec<Weighted>,
    most: u32,
    less: u32,
    members: FlatLists<Weighted>,
    limits: Vec<u32>,
}

impl Model for Definitions {
    ghost use Rattle.std.specs.Prelude.{◌≡◌, ◌∷◌, [], length};
    ghost use Rattle.clause_search.specs.inner.Defined.{Defined};

    ghost Value = { Defined };

    ghost view = { λ d. record { members = d.fixed.items ∷ d.fixed.items ∷ d.members; limits = d.most ∷ d.less ∷ d.limits.items } };

    ghost invariant = { λ d. length d.members ≡ length d.limits.items };
}

// The literals of the first variables, with their costs.
fn priced(alloc: Global, costs: &[u32]) -> Result<Vec<Weighted>, Memory>
    requires { length costs.now < 2 ^ 31 }
    ensures { IfOk result (λ members. members.items ≡ priced 1 costs.now) }
{
    let mut members = Vec::with_capacity(alloc, costs.len())?;
    for at in 0..costs.len() {
        members.push(Weighted {
            literal: at as i32 + 1,
            weight: costs[at],
        })?;
    }
    Ok(members)
}

impl Definitions {
    /// Takes memory for `count` definitions with `members` members in all, besides the first two.
    pub(crate) fn new(
        alloc: Global,
        costs: &[u32],
        count: usize,
        members: usize,
    ) -> Result<Definitions, Memory>
        requires { length costs.now < 2 ^ 31 }
        ensures rules { IfOk result (λ d. d ≡ record { members = priced 1 costs.now ∷ priced 1 costs.now ∷ []; limits = 0 ∷ 0 ∷ [] }) }
        ensures ordered { (vars : ℕ) → length costs.now ≤ vars → IfOk result (λ d. are_ordered (vars + 1) d.members ≡ true) }
    {
        Ok(Definitions {
            fixed: priced(alloc, costs)?,
            most: 0,
            less: 0,
            members: FlatLists::with_room(alloc, count, members)?,
            limits: Vec::with_capacity(alloc, count)?,
        })
    }

    /// Returns the number of definitions.
    pub(crate) fn len(&self) -> usize
        ensures many { result ≡ length self.now.members }
        ensures even { length self.now.limits ≡ length self.now.members }
    {
        FIXED + self.members.len()
    }

    /// Returns the members of a definition.
    pub(crate) fn members(&self, place: usize) -> &[Weighted]
        requires { place < length self.now.members }
        ensures { result.now ≡ slice_index_or self.now.members place [] }
    {
        if place < FIXED {
            self.fixed.as_slice()
        } else {
            self.members.list(place - FIXED)
        }
    }

    /// Returns the limit of a definition.
    pub(crate) fn limit(&self, place: usize) -> u32
        requires { place < length self.now.members }
        ensures { result ≡ slice_index_or self.now.limits place 0 }
    {
        match place {
            0 => self.most,
            1 => self.less,
            _ => self.limits[place - FIXED],
        }
    }

    /// Removes all definitions except the first two, which get these limits.
    pub(crate) fn restart(&mut self, most: u32, less: u32)
        ensures rules { self.new ≡ record { members = take 2 self.old.members; limits = most ∷ less ∷ [] } }
        ensures even { length self.new.members ≡ length self.new.limits }
    {
        self.members.clear();
        self.limits.clear();
        self.most = most;
        self.less = less;
    }

    /// Adds a definition if there is memory for it.
    #[tactic(auto, using(crate::proofs::Defined::defining))]
    pub(crate) fn define(&mut self, list: &[Weighted], limit: u32) -> bool
        ensures some { result ≡ true → self.new ≡ record { members = self.old.members ++ list.now ∷ []; limits = self.old.limits ++ limit ∷ [] } }
        ensures none { result ≡ false → self.new ≡ self.old }
        ensures even { length self.new.members ≡ length self.new.limits }
        ensures less { (a : Assignment) (v : ℕ) → respects a v self.new.members self.new.limits ≡ true → respects a v self.old.members self.old.limits ≡ true }
        ensures ordered { (v : ℕ) → are_ordered v self.old.members ≡ true → list_all (λ (w : Weighted). is_within (v + length self.old.members - 1) w.literal) list.now ≡ true → are_ordered v self.new.members ≡ true }
    {
        if !self.members.has_room(list.len()) || self.limits.capacity() <= self.limits.len() {
            return false;
        }
        if self.limits.push(limit).is_err() {
            return false;
        }
        match self.members.push(list) {
            Ok(()) => true,
            Err(_) => {
                let _ = self.limits.pop();
                false
            }
        }
    }

    /// Gives the variables after `vars` their bits by their definitions, as far as there is room for them.
    pub(crate) fn put_bits(&self, bits: &mut [bool], vars: u32) {
        for at in 0..self.len() {
            let bit = is_at_most(bits, self.members(at), self.limit(at));
            let place = (vars as usize).saturating_add(at);
            if place < bits.len() {
                bits[place] = bit;
            }
        }
    }

    /// Whether bits respect the definitions of the variables after `vars`.
    pub(crate) fn respects(&self, bits: &[bool], vars: u32) -> bool
        ensures { result ≡ respects (assignment bits.now) (vars + 1) self.now.members self.now.limits }
    {
        for at in 0..self.len() {
            let place = (vars as usize).saturating_add(at);
            let bit = place < bits.len() && bits[place];
            if bit != is_at_most(bits, self.members(at), self.limit(at)) {
                return false;
            }
        }
        true
    }
}

// Whether the false members weigh at most `limit`.
fn is_at_most(bits: &[bool], members: &[Weighted], limit: u32) -> bool
    ensures { result ≡ nat_le (false_weight (assignment bits.now) members.now) limit }
{
    let mut left = limit;
    for member in members {
        if is_true(bits, member.literal) {
            continue;
        }
        if left < member.weight {
            return false;
        }
        left -= member.weight;
    }
    true
}

/// Whether marks contradict the definition of a variable.
pub(crate) fn contradicts(marks: &[u8], variable: usize, members: &[Weighted], limit: u32) -> bool
    ensures { result ≡ true → (a : Assignment) → Agrees a marks.now → same_bit (a variable) (nat_le (false_weight a members.now) limit) ≡ false }
{
    match marked_bit(marks, variable) {
        Some(true) => is_exceeded(marks, members, limit),
        Some(false) => is_kept(marks, members, limit),
        None => false,
    }
}

// Whether the members that are marked as false weigh more than `limit`.
fn is_exceeded(marks: &[u8], members: &[Weighted], limit: u32) -> bool
    ensures { result ≡ true → (a : Assignment) → Agrees a marks.now → nat_le (false_weight a members.now) limit ≡ false }
{
    let mut left = limit;
    for member in members {
        if is_marked(marks, member.literal) {
            if left < member.weight {
                return true;
            }
            left -= member.weight;
        }
    }
    false
}

// Whether the members that are not marked as true weigh at most `limit`.
fn is_kept(marks: &[u8], members: &[Weighted], limit: u32) -> bool
    ensures { result ≡ true → (a : Assignment) → Agrees a marks.now → nat_le (false_weight a members.now) limit ≡ true }
{
    let mut left = limit;
    for member in members {
        if is_marked_true(marks, member.literal) {
            continue;
        }
        if left < member.weight {
            return false;
        }
        left -= member.weight;
    }
    true
}
