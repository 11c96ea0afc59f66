use crate::Memory;
use crate::row::{NONE, Row};
use std::alloc::Global;

/// Which clauses watch a literal: for each code a list of watches. The watch of the first literal of a clause has twice the clause's number,
/// and that of the second one more.
#[derive(Drop)]
pub(crate) struct Watches {
    heads: Row,
    watches: Vec<Watch>,
}

/// The next watch in the list, and another literal of the clause.
#[derive(Debug, Clone, Copy)]
pub(crate) struct Watch {
    pub(crate) next: u32,
    pub(crate) blocker: u32,
}

const NOTHING: Watch = Watch {
    next: NONE,
    blocker: 0,
};

impl Watches {
    pub(crate) fn new(alloc: Global, codes: usize, clauses: usize) -> Result<Watches, Memory> {
        Ok(Watches {
            heads: Row::filled(alloc, NONE, codes)?,
            watches: vec![in alloc; NOTHING; clauses.saturating_mul(2)]?,
        })
    }

    #[inline]
    pub(crate) fn first(&self, code: u32) -> u32 {
        self.heads.at(code)
    }

    #[inline]
    pub(crate) fn at(&self, watch: u32) -> Watch {
        if (watch as usize) < self.watches.len() {
            self.watches[watch as usize]
        } else {
            NOTHING
        }
    }

    #[inline]
    fn put(&mut self, watch: u32, value: Watch) {
        if (watch as usize) < self.watches.len() {
            self.watches[watch as usize] = value;
        }
    }

    /// Adds a watch to the list of a code.
    #[inline]
    pub(crate) fn add(&mut self, watch: u32, code: u32, blocker: u32) {
        let next = self.heads.at(code);
        self.put(watch, Watch { next, blocker });
        self.heads.put(code, watch);
    }

    #[inline]
    pub(crate) fn put_blocker(&mut self, watch: u32, blocker: u32) {
        let next = self.at(watch).next;
        self.put(watch, Watch { next, blocker });
    }

    /// Takes the watch after another one, or the first one after `NONE`, out of the list of a code; `next` is the one after it.
    #[inline]
    pub(crate) fn remove_after(&mut self, before: u32, code: u32, next: u32) {
        if before == NONE {
            self.heads.put(code, next);
        } else {
            let blocker = self.at(before).blocker;
            self.put(before, Watch { next, blocker });
        }
    }

    pub(crate) fn clear(&mut self) {
        self.heads.fill(NONE);
    }
}
