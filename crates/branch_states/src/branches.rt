ghost use Rattle.std.specs.Prelude.{◌≡◌, ◌<◌, ◌≤◌, ◌+◌, ◌-◌, ◌/◌, true, not, List, Bool, length, slice_index, IfOk};
ghost use Rattle.std.specs.Bool.{OnTrue};
ghost use Rattle.clause_encoder.specs.Clauses.{is_clause_list};
ghost use Rattle.elimination_forests.specs.Branches.{order, size, is_dead, branch, state_of, IsLiving};
ghost use Rattle.clause_encoder.specs.declared.limits.TheConstants.{CLAUSE_LIMIT};

use crate::Memory;
use crate::order::find_order;
use crate::stepping::{count_active, step_over};
use clause_encoder::{Clause, Cnf};
use indexmap::IndexSet;
use std::alloc::Global;
use std::marker::Model;

/// A clause list and a level of it: at level i the first i variables of the order are assigned.
#[derive(Drop)]
pub struct Branches {
    cnf: Cnf,
    variables: IndexSet<u32>,
    level: u32,
}

impl Model for Branches {
    ghost use Rattle.elimination_forests.specs.Branches.{Standing};
    ghost use Rattle.branch_states.specs.inner.Steps.{IsKept};

    ghost Value = { Standing };

    ghost view = { λ b. record { cnf = b.cnf; level = b.level } };

    ghost invariant = { λ b. IsKept b.cnf b.level b.variables.keys };
}

impl Branches {
    /// Finds the order of a clause list's variables, and begins at level 0.
    pub fn of(alloc: Global, cnf: &Cnf) -> Result<Branches, Memory>
        ensures start { IfOk result (λ b. b ≡ record { cnf = cnf.now; level = 0 }) }
        ensures valid { IfOk result (λ _. is_clause_list cnf.now ≡ true) }
    {
        let variables = find_order(alloc, cnf)?;
        Ok(Branches {
            cnf: copy_of(alloc, cnf)?,
            variables,
            level: 0,
        })
    }

    /// Returns the number of variables in the order.
    pub fn len(&self) -> u32
        ensures len { result ≡ length (order self.now.cnf.clauses) }
        ensures few { result ≤ self.now.cnf.vars }
        ensures valid { is_clause_list self.now.cnf ≡ true }
    {
        self.variables.len() as u32
    }

    /// Returns the present level.
    pub fn level(&self) -> u32
        ensures level { result ≡ self.now.level }
        ensures within { self.now.level ≤ length (order self.now.cnf.clauses) }
    {
        self.level
    }

    /// Returns the variable that is assigned next.
    pub fn var(&self) -> u32
        requires { self.now.level < length (order self.now.cnf.clauses) }
        ensures { result ≡ slice_index (order self.now.cnf.clauses) self.now.level }
    {
        self.variables.as_slice()[self.level as usize]
    }

    /// Returns the number of words of 64 bits in a state of the present level.
    pub fn words(&self) -> u32
        ensures words { result ≡ size self.now.cnf.clauses self.now.level }
        ensures few { result ≤ CLAUSE_LIMIT / 64 + 1 }
    {
        words_for(count_active(&self.cnf, &self.variables, self.level))
    }

    /// Returns that number for the next level.
    pub fn after(&self) -> u32
        requires { self.now.level < length (order self.now.cnf.clauses) }
        ensures words { result ≡ size self.now.cnf.clauses (self.now.level + 1) }
        ensures few { result ≤ CLAUSE_LIMIT / 64 + 1 }
    {
        words_for(count_active(&self.cnf, &self.variables, self.level + 1))
    }

    /// Goes to the next level.
    pub fn down(&mut self)
        requires { self.old.level < length (order self.old.cnf.clauses) }
        ensures { self.new ≡ record self.old { level = self.old.level + 1 } }
    {
        self.level += 1;
    }

    /// Goes back one level.
    pub fn up(&mut self)
        requires { 0 < self.old.level }
        ensures { self.new ≡ record self.old { level = self.old.level - 1 } }
    {
        self.level -= 1;
    }

    /// Writes to `next` the state of the list that is left when the next variable has this bit, or returns false if that list is dead.
    ///
    /// The clauses are those of `of`, and the state is that of a living list of the present level. If the list that is left is dead, `next`
    /// may be anything.
    pub fn step(&self, cnf: &Cnf, state: &[u64], bit: bool, next: &mut [u64]) -> bool
        requires cnf { cnf.now ≡ self.now.cnf }
        requires level { self.now.level < length (order self.now.cnf.clauses) }
        requires state { length state.now ≡ size self.now.cnf.clauses self.now.level }
        requires next { length next.old ≡ size self.now.cnf.clauses (self.now.level + 1) }
        ensures living { (list : List Bool) → IsLiving self.now.cnf.clauses self.now.level list
            → state.now ≡ state_of self.now.cnf.clauses self.now.level list
            → result ≡ not (is_dead self.now.cnf.clauses (self.now.level + 1)
            (branch self.now.cnf.clauses self.now.level list bit)) }
        ensures next { (list : List Bool) → IsLiving self.now.cnf.clauses self.now.level list
            → state.now ≡ state_of self.now.cnf.clauses self.now.level list
            → OnTrue result (next.new ≡ state_of self.now.cnf.clauses (self.now.level + 1)
            (branch self.now.cnf.clauses self.now.level list bit)) }
    {
        step_over(
            cnf,
            &self.variables,
            self.level,
            self.var(),
            bit,
            state,
            next,
        )
    }
}

fn copy_of(alloc: Global, cnf: &Cnf) -> Result<Cnf, Memory>
    ensures { IfOk result (λ copy. copy ≡ cnf.now) }
{
    let mut clauses = Vec::with_capacity(alloc, cnf.len() as usize)?;
    for at in 0..cnf.len() {
        clauses.push(Clause::new(alloc, cnf.clause(at))?)?;
    }
    Cnf::of(alloc, cnf.vars(), clauses)
}

fn words_for(bits: u32) -> u32
    requires { bits ≤ CLAUSE_LIMIT }
    ensures words { result ≡ bits / 64 + 1 }
    ensures few { result ≤ CLAUSE_LIMIT / 64 + 1 }
{
    bits / 64 + 1
}
