ghost use Rattle.std.specs.Prelude.{◌≡◌, ◌+◌, ◌≤◌, ◌<◌, ◌++◌, ◌^◌, [], ◌∷◌, true, false, IfOk, IfSome, OnSome, IsNone, length, take, slice_index_or};
ghost use Rattle.std.specs.List.{list_all};
ghost use Rattle.state_rules.specs.Assignments.{Assignment, assignment};
ghost use Rattle.clause_encoder.specs.Clauses.{is_true_clause, all_hold, is_clause_list};
ghost use Rattle.clause_search.specs.Searching.{Rules, all_true, respects, keeps, all_vars, first_rules, Refutes, is_within, are_ordered};
ghost use Rattle.clause_search.specs.inner.Facts.{IsAdded};
ghost use Rattle.clause_search.specs.inner.Marks.{Agrees};

use crate::Memory;
use crate::definitions::{Definitions, contradicts};
use crate::facts::{Fact, Facts, refute};
use crate::literals::all_hold;
use crate::marks::{is_marked, mark_false, mark_true, variable_of};
use crate::weighted::Weighted;
use clause_encoder::Cnf;
use flat_lists::FlatLists;
use std::alloc::Global;
use std::marker::Model;
use std::mem;

/// How much memory a search takes besides that of its clauses: for so many clauses that are learned, with so many literals in all, and for so
/// many definitions, with so many members in all.
#[derive(Debug, Clone, Copy)]
pub(crate) struct Room {
    pub(crate) clauses: usize,
    pub(crate) literals: usize,
    pub(crate) definitions: usize,
    pub(crate) members: usize,
}

/// The clauses and definitions that are given, and the clauses that follow from them. What it takes in, it checks.
#[derive(Drop)]
pub(crate) struct Kernel {
    vars: u32,
    facts: Facts,
    spare: FlatLists<i32>,
    definitions: Definitions,
    marks: Vec<u8>,
}

impl Model for Kernel {
    ghost use Rattle.clause_search.specs.Searching.{Rules};
    ghost use Rattle.clause_search.specs.inner.Facts.{Follow};

    ghost Value = { Rules };

    ghost view = { λ k. record { cnf = record { vars = k.vars; clauses = k.facts.given }; members = k.definitions.members; limits = k.definitions.limits } };

    ghost invariant = { λ k. Follow (record { cnf = record { vars = k.vars; clauses = k.facts.given }; members = k.definitions.members; limits = k.definitions.limits }) k.facts };
}

// A copy of clauses.
fn copied(alloc: Global, cnf: &Cnf) -> Result<FlatLists<i32>, Memory>
    ensures { IfOk result (λ lists. lists ≡ cnf.now.clauses) }
{
    let mut lists = FlatLists::new(alloc);
    for at in 0..cnf.len() {
        lists.push(cnf.clause(at))?;
    }
    Ok(lists)
}

impl Kernel {
    pub(crate) fn new(alloc: Global, cnf: &Cnf, costs: &[u32], room: Room) -> Result<Kernel, Memory>
        requires { length costs.now ≤ cnf.now.vars }
        ensures { IfOk result (λ kernel. kernel ≡ first_rules cnf.now costs.now) }
    {
        let vars = cnf.vars();
        let facts = Facts {
            given: copied(alloc, cnf)?,
            learned: FlatLists::with_room(alloc, room.clauses, room.literals)?,
        };
        let spare = FlatLists::with_room(alloc, room.clauses, room.literals)?;
        let definitions = Definitions::new(alloc, costs, room.definitions, room.members)?;
        let marks = vec![in alloc; 0u8; (vars as usize + 3).saturating_add(room.definitions)]?;
        Ok(Kernel {
            vars,
            facts,
            spare,
            definitions,
            marks,
        })
    }

    /// Returns the number of definitions.
    pub(crate) fn definitions(&self) -> usize
        ensures many { result ≡ length self.now.members }
        ensures valid { is_clause_list self.now.cnf ≡ true }
        ensures even { length self.now.limits ≡ length self.now.members }
        ensures ordered { are_ordered (self.now.cnf.vars + 1) self.now.members ≡ true }
    {
        self.definitions.len()
    }

    /// Returns the members of a definition.
    pub(crate) fn members(&self, place: usize) -> &[Weighted]
        requires { place < length self.now.members }
        ensures { result.now ≡ slice_index_or self.now.members place [] }
    {
        self.definitions.members(place)
    }

    /// Returns the limit of a definition.
    pub(crate) fn limit(&self, place: usize) -> u32
        requires { place < length self.now.members }
        ensures { result ≡ slice_index_or self.now.limits place 0 }
    {
        self.definitions.limit(place)
    }

    /// Adds a clause if it follows from others: with its literals false, each of these in turn forces a literal, and the last one is false.
    pub(crate) fn accept(&mut self, clause: &[i32], from: &[Fact]) -> Option<Fact>
        ensures { self.new ≡ self.old }
    {
        open_marks(&mut self.marks);
        falsify(&mut self.marks, clause);
        if !refute(&mut self.marks, &self.facts, from) {
            return None;
        }
        Some(Fact::Learned(add(&mut self.facts.learned, clause)?))
    }

    /// Adds a clause if it follows from a definition: with its literals false, the defined variable is true and its false members weigh too
    /// much, or it is false and they cannot.
    pub(crate) fn accept_bound(&mut self, place: u32, clause: &[i32]) -> Option<Fact>
        ensures { self.new ≡ self.old }
    {
        if !is_defined(&mut self.marks, self.vars, &self.definitions, place, clause) {
            return None;
        }
        Some(Fact::Learned(add(&mut self.facts.learned, clause)?))
    }

    /// Returns the variable that would be defined next.
    pub(crate) fn next_variable(&self) -> Option<u32>
        ensures { IfSome result (λ v. v ≡ all_vars self.now + 1) }
    {
        let count = u32::try_from(self.definitions.len()).ok()?;
        self.vars.checked_add(count)?.checked_add(1)
    }

    /// Defines one more variable. Returns none if there is no memory for it, or if a member has no variable before it.
    pub(crate) fn define(&mut self, members: &[Weighted], limit: u32) -> Option<u32>
        ensures some { OnSome result (self.new ≡ record self.old { members = self.old.members ++ members.now ∷ []; limits = self.old.limits ++ limit ∷ [] }) }
        ensures variable { IfSome result (λ v. v ≡ all_vars self.old + 1) }
        ensures none { IsNone result → self.new ≡ self.old }
    {
        let variable = self.next_variable()?;
        if are_within(variable - 1, members) && self.definitions.define(members, limit) {
            Some(variable)
        } else {
            None
        }
    }

    /// Removes what was learned, and all definitions except the first two, which get these limits.
    #[tactic(auto, using(crate::proofs::Defined::ordered_take))]
    pub(crate) fn restart(&mut self, most: u32, less: u32)
        ensures { self.new ≡ record self.old { members = take 2 self.old.members; limits = most ∷ less ∷ [] } }
    {
        self.facts.learned.clear();
        self.definitions.restart(most, less);
    }

    /// Gives the defined variables their bits.
    pub(crate) fn put_bits(&self, bits: &mut [bool]) {
        self.definitions.put_bits(bits, self.vars);
    }

    /// Whether bits keep the rules.
    pub(crate) fn is_model(&self, bits: &[bool]) -> bool
        ensures { result ≡ keeps self.now (assignment bits.now) }
    {
        all_hold(bits, &self.facts.given) && self.definitions.respects(bits, self.vars)
    }

    /// Whether clauses show that literals are not all true: with them true, each clause in turn forces a literal, and the last one is false.
    pub(crate) fn is_core(&mut self, core: &[i32], from: &[Fact]) -> bool
        ensures rules { self.new ≡ self.old }
        ensures sound { result ≡ true → Refutes self.old core.now }
    {
        open_marks(&mut self.marks);
        !assume(&mut self.marks, core) || refute(&mut self.marks, &self.facts, from)
    }

    /// Removes learned clauses, except those that are kept.
    pub(crate) fn retain(&mut self, kept: &[bool])
        ensures { self.new ≡ self.old }
    {
        copy_some(&mut self.spare, &self.facts.learned, kept);
        mem::swap(&mut self.spare, &mut self.facts.learned);
    }
}

// Whether all members have variables from 1 to `last`.
fn are_within(last: u32, members: &[Weighted]) -> bool
    ensures { result ≡ list_all (λ (w : Weighted). is_within last w.literal) members.now }
{
    for member in members {
        if !is_within(last, member.literal) {
            return false;
        }
    }
    true
}

fn is_within(last: u32, literal: i32) -> bool
    ensures { result ≡ is_within last literal }
{
    let variable = variable_of(literal);
    1 <= variable && variable <= last
}

// Whether a clause follows from a definition.
#[tactic(auto, using(crate::proofs::Defined::respects_at))]
fn is_defined(
    marks: &mut [u8],
    vars: u32,
    definitions: &Definitions,
    place: u32,
    clause: &[i32],
) -> bool
    ensures { result ≡ true → (a : Assignment) → respects a (vars + 1) definitions.now.members definitions.now.limits ≡ true → is_true_clause a clause.now ≡ true }
{
    let place = place as usize;
    if definitions.len() <= place {
        return false;
    }
    open_marks(marks);
    falsify(marks, clause);
    contradicts(
        marks,
        (vars as usize + 1).saturating_add(place),
        definitions.members(place),
        definitions.limit(place),
    )
}

// Copies the clauses that are kept.
fn copy_some(to: &mut FlatLists<i32>, from: &FlatLists<i32>, kept: &[bool])
    ensures { (a : Assignment) → all_hold a from.now ≡ true → all_hold a to.new ≡ true }
{
    to.clear();
    for at in 0..from.len() {
        if at < kept.len() && kept[at] {
            let _ = add(to, from.list(at));
        }
    }
}

// Marks literals as true, unless two of them contradict each other.
#[tactic(auto, using(crate::proofs::Clauses::true_at))]
fn assume(marks: &mut [u8], literals: &[i32]) -> bool
    ensures { (a : Assignment) → Agrees a marks.old → all_true a literals.now ≡ true → (Agrees a marks.new) × (result ≡ true) }
{
    for literal in literals {
        if is_marked(marks, *literal) {
            return false;
        }
        mark_true(marks, *literal);
    }
    true
}

// Adds a clause if there is memory for it, and returns its place.
fn add(clauses: &mut FlatLists<i32>, clause: &[i32]) -> Option<u32>
    ensures { IsAdded clauses.old clause.now clauses.new }
{
    let at = u32::try_from(clauses.len()).ok()?;
    if !clauses.has_room(clause.len()) {
        return None;
    }
    match clauses.push(clause) {
        Ok(()) => Some(at),
        Err(_) => None,
    }
}

fn open_marks(marks: &mut [u8])
    ensures { (a : Assignment) → Agrees a marks.new }
{
    for mark in marks.iter_mut() {
        *mark = 0;
    }
}

// Marks all literals of a clause as false.
#[tactic(auto, using(crate::proofs::Clauses::false_at))]
fn falsify(marks: &mut [u8], clause: &[i32])
    ensures { (a : Assignment) → Agrees a marks.old → is_true_clause a clause.now ≡ false → Agrees a marks.new }
{
    for literal in clause {
        mark_false(marks, *literal);
    }
}
