ghost use Rattle.std.specs.Prelude.{◌≡◌, ◌+◌, ◌≤◌, ◌<◌, ◌++◌, [], ◌∷◌, true, false, IfOk, IfSome, OnSome, IsNone, Some, length, take, slice_index_or};
ghost use Rattle.clause_encoder.specs.Clauses.{is_clause_list};
ghost use Rattle.state_rules.specs.Assignments.{Assignment};
ghost use Rattle.clause_search.specs.Searching.{Rules, IsModel, Refutes, all_true, all_vars, are_within, are_ordered, first_rules};

use crate::Memory;
use crate::exhaustion::try_all;
use crate::finder::{End, Finder};
use crate::kernel::{Kernel, Room};
use crate::literals::all_true;
use crate::weighted::Weighted;
use clause_encoder::Cnf;
use std::alloc::Global;
use std::marker::Model;

// How often a search begins anew before all values are tried.
const TURNS: u32 = 1_000_000;

/// What a search found: bits that keep the rules and make all assumptions true, or that there are none. Of a core it is known which of the
/// assumptions are enough for that.
#[derive(Debug, Clone, Copy)]
pub enum Answer {
    Model,
    Core,
    Conflict,
}

/// A search over the clauses of one list. All memory is taken when it is made.
#[derive(Drop)]
pub struct Search {
    kernel: Kernel,
    finder: Finder,
    model: Vec<bool>,
    core: Vec<i32>,
    // how often the search gave up
    stops: u64,
}

impl Model for Search {
    ghost use Rattle.std.specs.Prelude.{◌≤◌, length};
    ghost use Rattle.clause_search.specs.Searching.{Searched, all_vars};

    ghost Value = { Searched };

    ghost view = { λ s. record { rules = s.kernel; model = s.model.items; core = s.core.items } };

    ghost invariant = { λ s. all_vars s.kernel ≤ length s.model.items };
}

// The memory for a list of clauses.
fn room_for(cnf: &Cnf) -> Room {
    let clauses = (cnf.len() as usize).saturating_mul(16).clamp(4096, 32_768);
    Room {
        clauses,
        literals: clauses.saturating_mul(64),
        definitions: 1024,
        members: (cnf.vars() as usize)
            .saturating_mul(64)
            .clamp(4096, 262_144),
    }
}

impl Search {
    /// Makes a search over clauses whose first variables are parts, true if they are ok. Two variables are defined: each says whether the
    /// faulty parts cost at most its limit, which is 0 at first.
    pub fn new(alloc: Global, cnf: &Cnf, costs: &[u32]) -> Result<Search, Memory>
        requires { length costs.now ≤ cnf.now.vars }
        ensures { IfOk result (λ search. search.rules ≡ first_rules cnf.now costs.now) }
    {
        let room = room_for(cnf);
        let vars = cnf.vars() as usize + 2 + room.definitions.min(1 << 20);
        let kernel = Kernel::new(alloc, cnf, costs, room)?;
        Ok(Search {
            finder: Finder::new(alloc, cnf, kernel.members(0), room)?,
            kernel,
            model: vec![in alloc; false; vars]?,
            core: Vec::with_capacity(alloc, vars)?,
            stops: 0,
        })
    }

    /// Returns the number of defined variables.
    pub fn definitions(&self) -> usize
        ensures many { result ≡ length self.now.rules.members }
        ensures valid { is_clause_list self.now.rules.cnf ≡ true }
        ensures even { length self.now.rules.limits ≡ length self.now.rules.members }
        ensures ordered { are_ordered (self.now.rules.cnf.vars + 1) self.now.rules.members ≡ true }
    {
        self.kernel.definitions()
    }

    /// Returns the members of a defined variable; the first one has place 0.
    pub fn members(&self, place: usize) -> &[Weighted]
        requires { place < length self.now.rules.members }
        ensures { result.now ≡ slice_index_or self.now.rules.members place [] }
    {
        self.kernel.members(place)
    }

    /// Returns the limit of a defined variable.
    pub fn limit(&self, place: usize) -> u32
        requires { place < length self.now.rules.members }
        ensures { result ≡ slice_index_or self.now.rules.limits place 0 }
    {
        self.kernel.limit(place)
    }

    /// Defines one more variable, after all others: it is true exactly if its false members weigh at most the limit. Returns none if there is
    /// no memory left, or if a member has a variable that is not there.
    pub fn define(&mut self, members: &[Weighted], limit: u32) -> Option<u32>
        ensures some { OnSome result (self.new.rules ≡ record self.old.rules { members = self.old.rules.members ++ members.now ∷ []; limits = self.old.rules.limits ++ limit ∷ [] }) }
        ensures variable { IfSome result (λ v. v ≡ all_vars self.old.rules + 1) }
        ensures none { IsNone result → self.new.rules ≡ self.old.rules }
    {
        let variable = self.kernel.next_variable()?;
        if self.model.len() < variable as usize {
            return None;
        }
        let defined = self.kernel.define(members, limit)?;
        self.finder.define(members, limit);
        Some(defined)
    }

    /// Drops what was learned, and all defined variables except the first two, which get these limits.
    pub fn restart(&mut self, most: u32, less: u32)
        ensures { self.new.rules ≡ record self.old.rules { members = take 2 self.old.rules.members; limits = most ∷ less ∷ [] } }
    {
        self.kernel.restart(most, less);
        self.finder.restart(most, less);
    }

    /// Searches for bits that keep the rules and make all assumptions true.
    pub fn solve(&mut self, assumptions: &[i32]) -> Answer
        requires { are_within (all_vars self.old.rules) assumptions.now ≡ true }
        ensures rules { self.new.rules ≡ self.old.rules }
        ensures model { result ≡ Answer.Model → IsModel self.new.rules assumptions.now self.new.model }
        ensures conflict { result ≡ Answer.Conflict → Refutes self.new.rules assumptions.now }
        ensures assumed { result ≡ Answer.Core → Refutes self.new.rules assumptions.now }
        ensures core { result ≡ Answer.Core → Refutes self.new.rules self.new.core }
    {
        for _turn in 0..TURNS {
            match self.attempt(assumptions) {
                Some(answer) => return answer,
                None => self.begin_anew(),
            }
        }
        if try_all(&self.kernel, assumptions, &mut self.model) {
            Answer::Model
        } else {
            Answer::Conflict
        }
    }

    // Searches once. The search may give up, and what it finds is checked.
    fn attempt(&mut self, assumptions: &[i32]) -> Option<Answer>
        ensures rules { self.new.rules ≡ self.old.rules }
        ensures model { result ≡ Some Answer.Model → IsModel self.new.rules assumptions.now self.new.model }
        ensures conflict { result ≡ Some Answer.Conflict → Refutes self.new.rules assumptions.now }
        ensures assumed { result ≡ Some Answer.Core → Refutes self.new.rules assumptions.now }
        ensures core { result ≡ Some Answer.Core → Refutes self.new.rules self.new.core }
    {
        match self.finder.run(&mut self.kernel, assumptions) {
            End::Bits => {
                read_bits(&self.finder, &mut self.model);
                self.kernel.put_bits(&mut self.model);
                if self.kernel.is_model(&self.model) && all_true(&self.model, assumptions) {
                    return Some(Answer::Model);
                }
            }
            End::Refuted => {
                read_core(self.finder.core(), assumptions, &mut self.core);
                if self.kernel.is_core(&self.core, self.finder.causes()) {
                    return Some(Answer::Core);
                }
            }
            End::Stopped => {}
        }
        None
    }

    // Drops what was learned, and lets the search begin in another order.
    fn begin_anew(&mut self)
        ensures { self.new.rules ≡ self.old.rules }
    {
        self.stops = self.stops.saturating_add(1);
        self.kernel.retain(&[]);
        self.finder.begin_anew();
    }

    /// Returns how often the search gave up, and how many conflicts it met.
    pub fn counts(&self) -> (u64, u64) {
        (self.stops, self.finder.conflicts())
    }

    /// Returns the bits of the last model, variable 1 first.
    pub fn model(&self) -> &[bool]
        ensures bits { result.now ≡ self.now.model }
        ensures long { all_vars self.now.rules ≤ length self.now.model }
    {
        self.model.as_slice()
    }

    /// Returns the assumptions of the last core.
    pub fn core(&self) -> &[i32]
        ensures { result.now ≡ self.now.core }
    {
        self.core.as_slice()
    }
}

fn read_bits(finder: &Finder, bits: &mut [bool]) {
    for (at, bit) in bits.iter_mut().enumerate() {
        *bit = finder.bit(at);
    }
}

// The assumptions at these places.
#[tactic(auto, using(crate::proofs::Clauses::all_true_more))]
fn read_core(places: &[u32], assumptions: &[i32], core: &mut Vec<i32>)
    ensures { (a : Assignment) → all_true a assumptions.now ≡ true → all_true a core.new.items ≡ true }
{
    core.clear();
    for place in places {
        let place = *place as usize;
        if place < assumptions.len() && core.len() < core.capacity() {
            let _ = core.push(assumptions[place]);
        }
    }
}
