use crate::Memory;
use crate::row::{Bytes, NONE, Row, code_of, negated, positive, variable_in};
use std::alloc::Global;

pub(crate) const OPEN: u8 = 0;

pub(crate) const TRUE: u8 = 1;

pub(crate) const FALSE: u8 = 2;

// The most levels for each variable: as there is one for each assumption, there may be more than variables.
const LEVELS: usize = 3;

/// Literals that are true, in the order in which they became so, at levels.
#[derive(Drop)]
pub(crate) struct Trail {
    // of each code
    values: Bytes,
    // of each variable: its level, its place in the trail, what forced it, and the code that was last true
    levels: Row,
    places: Row,
    reasons: Row,
    phases: Row,
    codes: Row,
    // of each level above 0: where it begins, and the code for which it was begun
    begins: Row,
    causes: Row,
    // how many literals are propagated
    done: u32,
}

impl Trail {
    /// The variables from 1 to `parts` and those after `vars` are first tried as true, and the others as false.
    pub(crate) fn new(alloc: Global, all: u32, vars: u32, parts: u32) -> Result<Trail, Memory> {
        let count = (all as usize).saturating_add(1);
        let mut phases = Row::filled(alloc, 0, count)?;
        for before in 0..all {
            let variable = before.wrapping_add(1);
            let code = positive(variable);
            let inner = parts < variable && variable <= vars;
            phases.put(variable, if inner { negated(code) } else { code });
        }
        Ok(Trail {
            values: Bytes::filled(alloc, OPEN, count.saturating_mul(2))?,
            levels: Row::filled(alloc, 0, count)?,
            places: Row::filled(alloc, 0, count)?,
            reasons: Row::filled(alloc, NONE, count)?,
            phases,
            codes: Row::with_room(alloc, count)?,
            begins: Row::with_room(alloc, count.saturating_mul(LEVELS))?,
            causes: Row::with_room(alloc, count.saturating_mul(LEVELS))?,
            done: 0,
        })
    }

    #[inline]
    pub(crate) fn value(&self, code: u32) -> u8 {
        self.values.at(code)
    }

    #[inline]
    pub(crate) fn level_of(&self, variable: u32) -> u32 {
        self.levels.at(variable)
    }

    #[inline]
    pub(crate) fn place_of(&self, variable: u32) -> u32 {
        self.places.at(variable)
    }

    #[inline]
    pub(crate) fn reason_of(&self, variable: u32) -> u32 {
        self.reasons.at(variable)
    }

    pub(crate) fn put_reason(&mut self, variable: u32, reason: u32) {
        self.reasons.put(variable, reason);
    }

    pub(crate) fn phase_of(&self, variable: u32) -> u32 {
        self.phases.at(variable)
    }

    pub(crate) fn put_phase(&mut self, code: u32) {
        self.phases.put(variable_in(code), code);
    }

    #[inline]
    pub(crate) fn level(&self) -> u32 {
        self.begins.len()
    }

    #[inline]
    pub(crate) fn len(&self) -> u32 {
        self.codes.len()
    }

    #[inline]
    pub(crate) fn code(&self, place: u32) -> u32 {
        self.codes.at(place)
    }

    /// Whether a literal is true, and propagated.
    pub(crate) fn is_done(&self, code: u32) -> bool {
        self.value(code) == TRUE && self.places.at(variable_in(code)) < self.done
    }

    /// How many of the first levels were begun for these assumptions.
    pub(crate) fn shared(&self, assumptions: &[i32]) -> u32 {
        let mut level = 0u32;
        for literal in assumptions {
            if self.level() <= level || self.causes.at(level) != code_of(*literal) {
                break;
            }
            level = level.wrapping_add(1);
        }
        level
    }

    /// Begins a level for a literal.
    pub(crate) fn begin_level(&mut self, code: u32) {
        self.begins.push(self.codes.len());
        self.causes.push(code);
    }

    /// Makes a literal true.
    #[inline]
    pub(crate) fn assign(&mut self, code: u32, reason: u32) {
        let variable = variable_in(code);
        self.values.put(code, TRUE);
        self.values.put(negated(code), FALSE);
        self.levels.put(variable, self.begins.len());
        self.places.put(variable, self.codes.len());
        self.reasons.put(variable, reason);
        self.codes.push(code);
    }

    /// The next literal to be propagated.
    #[inline]
    pub(crate) fn next(&mut self) -> Option<u32> {
        if self.done < self.codes.len() {
            let code = self.codes.at(self.done);
            self.done = self.done.wrapping_add(1);
            Some(code)
        } else {
            None
        }
    }

    /// How many literals are propagated.
    pub(crate) fn done(&self) -> u32 {
        self.done
    }

    /// Where the levels above another one begin.
    pub(crate) fn end_of(&self, level: u32) -> u32 {
        if level < self.level() {
            self.begins.at(level)
        } else {
            self.codes.len()
        }
    }

    /// Undoes the last literal.
    pub(crate) fn undo(&mut self) -> Option<u32> {
        let code = self.codes.pop()?;
        self.values.put(code, OPEN);
        self.values.put(negated(code), OPEN);
        self.phases.put(variable_in(code), code);
        Some(code)
    }

    /// Ends the levels above another one, whose literals are undone.
    pub(crate) fn end_levels(&mut self, level: u32) {
        self.begins.truncate(level);
        self.causes.truncate(level);
        self.done = self.done.min(self.codes.len());
    }
}
