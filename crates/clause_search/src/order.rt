use crate::Memory;
use crate::row::{NONE, Row};
use std::alloc::Global;

/// The variables in the order in which they were last used in a conflict. All variables used after `from` have values.
#[derive(Drop)]
pub(crate) struct Order {
    // the variable used next before, and next after
    before: Row,
    after: Row,
    moments: Row,
    latest: u32,
    from: u32,
    now: u32,
    // the first of the two variables that stay at the far end
    fixed: u32,
}

impl Order {
    /// The variables from `vars` down to 1 are the latest; those that may be defined follow.
    pub(crate) fn new(alloc: Global, all: u32, vars: u32) -> Result<Order, Memory> {
        let count = (all as usize).saturating_add(1);
        let mut order = Order {
            before: Row::filled(alloc, NONE, count)?,
            after: Row::filled(alloc, NONE, count)?,
            moments: Row::filled(alloc, 0, count)?,
            latest: NONE,
            from: NONE,
            now: 0,
            fixed: vars.wrapping_add(1),
        };
        for before in vars..all {
            order.put_last(before.wrapping_add(1));
        }
        for before in 0..vars {
            order.put_last(before.wrapping_add(1));
        }
        order.from = order.latest;
        Ok(order)
    }

    fn put_last(&mut self, variable: u32) {
        self.now = self.now.saturating_add(1);
        self.moments.put(variable, self.now);
        self.before.put(variable, self.latest);
        self.after.put(variable, NONE);
        if self.latest != NONE {
            self.after.put(self.latest, variable);
        }
        self.latest = variable;
    }

    pub(crate) fn moment_of(&self, variable: u32) -> u32 {
        self.moments.at(variable)
    }

    /// Notes that a variable is used, which has a value.
    pub(crate) fn raise(&mut self, variable: u32) {
        if variable == self.latest || variable.wrapping_sub(self.fixed) < 2 {
            return;
        }
        let before = self.before.at(variable);
        let after = self.after.at(variable);
        if before != NONE {
            self.after.put(before, after);
        }
        if after != NONE {
            self.before.put(after, before);
        }
        if self.from == variable {
            self.from = if before == NONE { after } else { before };
        }
        self.put_last(variable);
    }

    /// Notes that a variable is open again.
    #[inline]
    pub(crate) fn reopen(&mut self, variable: u32) {
        if self.from == NONE || self.moments.at(self.from) < self.moments.at(variable) {
            self.from = variable;
        }
    }

    /// The latest variable that may be open, or `NONE`.
    pub(crate) fn candidate(&self) -> u32 {
        self.from
    }

    /// Goes on to the variable used before.
    pub(crate) fn pass(&mut self) {
        self.from = self.before.at(self.from);
    }
}
