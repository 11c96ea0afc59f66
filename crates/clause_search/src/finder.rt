//! The search for bits that make clauses true.
//!
//! It decides literals one after the other, and propagates what each forces. A clause that comes out false shows a clause that it learns, which
//! sends it back to an earlier decision. Nothing of this is trusted: the kernel checks each clause with the causes that go with it, and the answers.
//!
//! Each assumption has a level of its own, and a new call keeps the levels of the assumptions that it has in common with the call before. Lists of
//! diagnoses ask thousands of questions that differ at the end, so this halves their time. Within a call no assumption is undone.
//! Definitions are counted as they stand, and a clause is made of them only where an analysis meets one as a reason: clauses for all
//! that they say would be far too many. Variables are decided by how lately a conflict used them, defined ones too: without these, hard cases take
//! four times as many conflicts. A variable gets the bit that it had last.
//!
//! Tried without gain, and left out: shorter learned clauses, restarts, scores for clauses, smaller cores, a heap of variables. If the
//! memory for clauses gets full, the older half goes.

ghost use Rattle.std.specs.Prelude.{◌≡◌};

use crate::Memory;
use crate::analysis::Analysis;
use crate::facts::Fact;
use crate::kernel::{Kernel, Room};
use crate::propagation::Propagation;
use crate::row::{NONE, code_of, positive, variable_in};
use crate::trail::{FALSE, TRUE};
use crate::weighted::Weighted;
use clause_encoder::Cnf;
use std::alloc::Global;

// The most steps of a run.
const STEPS: u64 = 1 << 40;

/// What a run of steps ends with.
#[derive(Debug, Clone, Copy)]
pub(crate) enum End {
    Bits,
    Refuted,
    Stopped,
}

/// The search: it proposes clauses to the kernel, and bits or literals as an answer.
#[derive(Drop)]
pub(crate) struct Finder {
    state: Propagation,
    analysis: Analysis,
    // how many literals of level 0 have a clause of their own
    settled: u32,
    // the clause that is empty, if there is one
    empty: u32,
    // which learned clauses are kept
    kept: Vec<bool>,
    conflicts: u64,
}

impl Finder {
    pub(crate) fn new(
        alloc: Global,
        cnf: &Cnf,
        costs: &[Weighted],
        room: Room,
    ) -> Result<Finder, Memory> {
        let mut state = Propagation::new(alloc, cnf, costs.len(), room)?;
        let all = (cnf.vars() as usize)
            .saturating_add(room.definitions)
            .saturating_add(2);
        state.define(costs, 0);
        state.define(costs, 0);
        state.watch_all();
        let empty = state.begin();
        Ok(Finder {
            state,
            analysis: Analysis::new(alloc, all)?,
            settled: 0,
            empty,
            kept: Vec::with_capacity(alloc, room.clauses)?,
            conflicts: 0,
        })
    }

    /// Adds a definition.
    pub(crate) fn define(&mut self, members: &[Weighted], limit: u32) {
        self.state.define(members, limit);
    }

    /// Drops what was learned, and all definitions except the first two, which get these limits.
    pub(crate) fn restart(&mut self, most: u32, less: u32) {
        self.empty = self.state.restart(most, less);
        self.settled = 0;
    }

    /// Searches for bits under which all assumptions are true.
    pub(crate) fn run(&mut self, kernel: &mut Kernel, assumptions: &[i32]) -> End
        ensures { kernel.new ≡ kernel.old }
    {
        let shared = self.state.trail.shared(assumptions);
        self.state.go_back(shared);
        for _step in 0..STEPS {
            if let Some(end) = self.step(kernel, assumptions) {
                return end;
            }
        }
        End::Stopped
    }

    /// Begins anew, since the kernel refused a step or an answer, and has forgotten what was learned. The order of the variables stays, so that the
    /// next run goes another way.
    pub(crate) fn begin_anew(&mut self) {
        self.empty = self.state.begin_anew();
        self.settled = 0;
    }

    // Propagates, and solves a conflict or decides a literal.
    fn step(&mut self, kernel: &mut Kernel, assumptions: &[i32]) -> Option<End>
        ensures { kernel.new ≡ kernel.old }
    {
        if self.empty != NONE {
            self.analysis.refute_all(&self.state.database, self.empty);
            return Some(End::Refuted);
        }
        if self.state.database.is_full() && !self.reduce(kernel) {
            return Some(End::Stopped);
        }
        let conflict = self.state.propagate();
        if conflict != NONE {
            return self.solve_conflict(kernel, conflict, assumptions.len());
        }
        if self.state.trail.level() == 0 && !self.settle(kernel) {
            return Some(End::Stopped);
        }
        let level = self.state.trail.level() as usize;
        if level < assumptions.len() {
            let code = code_of(assumptions[level]);
            if self.state.trail.value(code) == FALSE {
                return Some(self.refute(kernel, NONE, code));
            }
            self.state.begin_level(code);
        } else if !self.state.decide() {
            return Some(End::Bits);
        }
        None
    }

    fn solve_conflict(&mut self, kernel: &mut Kernel, conflict: u32, assumed: usize) -> Option<End>
        ensures { kernel.new ≡ kernel.old }
    {
        let clause = self
            .analysis
            .clause_of(kernel, &mut self.state, conflict, NONE);
        if clause == NONE {
            return Some(End::Stopped);
        }
        let level = self.state.trail.level();
        if level == 0 {
            if !self.close(kernel, clause) {
                return Some(End::Stopped);
            }
        } else if level as usize <= assumed {
            return Some(self.refute(kernel, clause, NONE));
        } else if !self.learn(kernel, clause, assumed) {
            return Some(End::Stopped);
        }
        None
    }

    // The assumptions are not all true, since a clause is false, or else one of them.
    fn refute(&mut self, kernel: &mut Kernel, conflict: u32, failed: u32) -> End
        ensures { kernel.new ≡ kernel.old }
    {
        if !self
            .analysis
            .explain(kernel, &mut self.state, conflict, failed)
        {
            return End::Stopped;
        }
        if conflict != NONE {
            // the next call would not see the conflict again, as this level is propagated
            let level = self.state.trail.level();
            self.state.go_back(level.saturating_sub(1));
        }
        End::Refuted
    }

    // Gives each new literal of level 0 a clause of its own.
    fn settle(&mut self, kernel: &mut Kernel) -> bool
        ensures { kernel.new ≡ kernel.old }
    {
        let is_done = self.analysis.settle(kernel, &mut self.state, self.settled);
        self.settled = self.state.trail.len();
        is_done
    }

    // Proposes the empty clause, since a clause is false at level 0.
    fn close(&mut self, kernel: &mut Kernel, conflict: u32) -> bool
        ensures { kernel.new ≡ kernel.old }
    {
        if !self.settle(kernel) {
            return false;
        }
        self.empty = self.analysis.close(kernel, &mut self.state, conflict, NONE);
        self.empty != NONE
    }

    // Learns a clause from a conflict, and goes back to where it forces a literal, but not below the levels of the assumptions.
    fn learn(&mut self, kernel: &mut Kernel, conflict: u32, assumed: usize) -> bool
        ensures { kernel.new ≡ kernel.old }
    {
        self.conflicts = self.conflicts.saturating_add(1);
        if !self.analysis.resolve(kernel, &mut self.state, conflict) {
            return false;
        }
        self.analysis.raise(&mut self.state.order);
        let back = self.analysis.level_behind(&self.state.trail);
        let clause = self.analysis.propose(kernel, &mut self.state, conflict);
        if clause == NONE {
            return false;
        }
        let is_unit = self.state.database.size(clause) == 1;
        let least = assumed.min(u32::MAX as usize) as u32;
        self.state
            .go_back(if is_unit { 0 } else { back.max(least) });
        self.state.watch(clause);
        self.state.trail.assign(self.analysis.first(), clause);
        true
    }

    // Drops learned clauses: those that were made of definitions, and the older half of the others if they take much. At level 0 none of them is a
    // reason.
    fn reduce(&mut self, kernel: &mut Kernel) -> bool
        ensures { kernel.new ≡ kernel.old }
    {
        self.state.go_back(0);
        if !self.settle(kernel) {
            return false;
        }
        self.state.database.reduce(&mut self.kept);
        kernel.retain(&self.kept);
        let database = &self.state.database;
        for clause in database.given()..database.len() {
            if database.size(clause) == 1 {
                let variable = variable_in(database.code(database.start(clause)));
                self.state.trail.put_reason(variable, clause);
            }
        }
        self.state.watch_all();
        true
    }

    /// The bit at a place: that of variable 1 is at 0.
    pub(crate) fn bit(&self, place: usize) -> bool {
        let variable = (place.min(u32::MAX as usize) as u32).wrapping_add(1);
        self.state.trail.value(positive(variable)) == TRUE
    }

    /// The places of the assumptions that are not all true.
    pub(crate) fn core(&self) -> &[u32] {
        self.analysis.core()
    }

    /// The clauses that show it, in order.
    pub(crate) fn causes(&self) -> &[Fact] {
        self.analysis.causes()
    }

    /// The number of conflicts so far.
    pub(crate) fn conflicts(&self) -> u64 {
        self.conflicts
    }
}
