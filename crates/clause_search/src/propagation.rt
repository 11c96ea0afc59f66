use crate::Memory;
use crate::counters::Counters;
use crate::database::Database;
use crate::kernel::Room;
use crate::order::Order;
use crate::row::{NONE, negated, positive, variable_in};
use crate::trail::{FALSE, OPEN, TRUE, Trail};
use crate::watches::Watches;
use crate::weighted::Weighted;
use clause_encoder::Cnf;
use std::alloc::Global;

/// What is true for now, and what clauses and definitions force.
#[derive(Drop)]
pub(crate) struct Propagation {
    pub(crate) database: Database,
    pub(crate) trail: Trail,
    pub(crate) counters: Counters,
    pub(crate) order: Order,
    watches: Watches,
}

impl Propagation {
    pub(crate) fn new(
        alloc: Global,
        cnf: &Cnf,
        parts: usize,
        room: Room,
    ) -> Result<Propagation, Memory> {
        let vars = cnf.vars();
        let definitions = room.definitions.saturating_add(2);
        let all = (vars as usize)
            .saturating_add(definitions)
            .min(u32::MAX as usize) as u32;
        let clauses = (cnf.len() as usize).saturating_add(room.clauses);
        let members = room.members.saturating_add(parts);
        Ok(Propagation {
            database: Database::new(alloc, cnf, room.clauses, room.literals)?,
            trail: Trail::new(alloc, all, vars, parts.min(u32::MAX as usize) as u32)?,
            counters: Counters::new(alloc, vars, definitions, members)?,
            order: Order::new(alloc, all, vars)?,
            watches: Watches::new(
                alloc,
                (all as usize).saturating_add(1).saturating_mul(2),
                clauses,
            )?,
        })
    }

    /// Begins with an empty trail: makes the literals of clauses with one literal true. Returns a clause that is false, or `NONE`.
    pub(crate) fn begin(&mut self) -> u32 {
        for clause in 0..self.database.len() {
            let size = self.database.size(clause);
            if 1 < size {
                continue;
            }
            let code = self.database.code(self.database.start(clause));
            if size == 0 || self.trail.value(code) == FALSE {
                return clause;
            }
            if self.trail.value(code) == OPEN {
                self.trail.assign(code, clause);
            }
        }
        NONE
    }

    /// Watches the first two literals of each clause.
    pub(crate) fn watch_all(&mut self) {
        self.watches.clear();
        for clause in 0..self.database.len() {
            self.watch(clause);
        }
    }

    pub(crate) fn watch(&mut self, clause: u32) {
        if self.database.size(clause) < 2 {
            return;
        }
        let start = self.database.start(clause);
        let one = self.database.code(start);
        let other = self.database.code(start.wrapping_add(1));
        let watch = clause.wrapping_mul(2);
        self.watches.add(watch, one, other);
        self.watches.add(watch.wrapping_add(1), other, one);
    }

    /// Adds a definition, whose variable is first tried as true.
    pub(crate) fn define(&mut self, members: &[Weighted], limit: u32) {
        self.counters.define(&self.trail, members, limit);
        let variable = self.counters.last();
        self.trail.put_phase(positive(variable));
        self.order.reopen(variable);
    }

    /// Makes true what clauses and definitions force. Returns a reason why that is not possible, or `NONE`.
    pub(crate) fn propagate(&mut self) -> u32 {
        for _turn in 0..u32::MAX {
            let Some(code) = self.trail.next() else {
                return NONE;
            };
            let mut conflict = self.counters.count(&mut self.trail, code);
            if conflict == NONE {
                conflict = self.visit(negated(code));
            }
            if conflict != NONE {
                return conflict;
            }
        }
        NONE
    }

    // Visits the clauses that watch a literal that is false.
    fn visit(&mut self, code: u32) -> u32 {
        let mut watch = self.watches.first(code);
        // the last watch that stays
        let mut before = NONE;
        for _turn in 0..u32::MAX {
            if watch == NONE {
                return NONE;
            }
            let seen = self.watches.at(watch);
            if self.trail.value(seen.blocker) == TRUE {
                before = watch;
                watch = seen.next;
                continue;
            }
            let clause = watch / 2;
            let start = self.database.start(clause);
            let other = self.database.code(start.wrapping_add(1 - watch % 2));
            let value = self.trail.value(other);
            if value == TRUE {
                self.watches.put_blocker(watch, other);
            } else if self.moves(watch, code) {
                self.watches.remove_after(before, code, seen.next);
                let own = self.database.code(start.wrapping_add(watch % 2));
                self.watches.add(watch, own, other);
                watch = seen.next;
                continue;
            } else if value == FALSE {
                return clause;
            } else {
                self.trail.assign(other, clause);
            }
            before = watch;
            watch = seen.next;
        }
        NONE
    }

    // Exchanges a watched literal for one that is not false, if there is one.
    fn moves(&mut self, watch: u32, code: u32) -> bool {
        let clause = watch / 2;
        let start = self.database.start(clause);
        let end = self.database.end(clause);
        for place in start.saturating_add(2)..end {
            let own = self.database.code(place);
            if self.trail.value(own) != FALSE {
                self.database.put_code(place, code);
                self.database.put_code(start.wrapping_add(watch % 2), own);
                return true;
            }
        }
        false
    }

    /// Begins a level by a variable that was used late. Returns whether there was one without a value.
    pub(crate) fn decide(&mut self) -> bool {
        for _turn in 0..u32::MAX {
            let variable = self.order.candidate();
            if variable == NONE {
                return false;
            }
            let code = self.trail.phase_of(variable);
            if variable <= self.counters.last() && self.trail.value(code) == OPEN {
                self.begin_level(code);
                return true;
            }
            self.order.pass();
        }
        false
    }

    /// Begins a level by a literal that is not false.
    pub(crate) fn begin_level(&mut self, code: u32) {
        self.trail.begin_level(code);
        if self.trail.value(code) == OPEN {
            self.trail.assign(code, NONE);
        }
    }

    /// Undoes all above a level.
    pub(crate) fn go_back(&mut self, level: u32) {
        let end = self.trail.end_of(level);
        self.undo_to(end);
        self.trail.end_levels(level);
    }

    // Keeps the first literals of the trail.
    fn undo_to(&mut self, count: u32) {
        for _turn in count..self.trail.len() {
            let Some(code) = self.trail.undo() else {
                break;
            };
            self.order.reopen(variable_in(code));
            if self.trail.len() < self.trail.done() {
                self.counters.weigh(code, true);
            }
        }
    }

    // Undoes all, also what always holds, and drops the clauses that were learned.
    fn clear(&mut self) {
        self.undo_to(0);
        self.trail.end_levels(0);
        if self.database.clear() {
            self.watch_all();
        }
    }

    /// Begins anew, without the clauses that were learned.
    pub(crate) fn begin_anew(&mut self) -> u32 {
        self.clear();
        self.begin()
    }

    /// Begins anew, without the clauses that were learned, and without all definitions but the first two, which get these limits.
    pub(crate) fn restart(&mut self, most: u32, less: u32) -> u32 {
        self.clear();
        self.counters.restart(most, less);
        self.begin()
    }
}
