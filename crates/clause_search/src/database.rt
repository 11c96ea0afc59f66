use crate::Memory;
use crate::facts::Fact;
use crate::row::{NONE, Row, code_of};
use clause_encoder::Cnf;
use std::alloc::Global;

// How many clauses are learned before the older half goes, and how many more each time after that.
const FIRST_STRETCH: u32 = 2000;

const LONGER: u32 = 300;

/// The clauses of a search, as codes of literals, the given ones first. Of a clause the first two literals are watched.
#[derive(Drop)]
pub(crate) struct Database {
    // where each clause begins, and where the last one ends
    starts: Row,
    codes: Row,
    // of each clause: 1 if it was made of a definition, else 0
    made: Row,
    given: u32,
    // how many clauses and literals can be learned
    clauses: usize,
    literals: usize,
    // how many clauses were learned and not made, when the older half of them goes, and how many more there may be the next time
    learned: u32,
    limit: u32,
    stretch: u32,
}

impl Database {
    pub(crate) fn new(
        alloc: Global,
        cnf: &Cnf,
        clauses: usize,
        literals: usize,
    ) -> Result<Database, Memory> {
        let mut total = 0usize;
        for at in 0..cnf.len() {
            total = total.saturating_add(cnf.clause(at).len());
        }
        let count = (cnf.len() as usize).saturating_add(clauses);
        let mut database = Database {
            starts: Row::with_room(alloc, count.saturating_add(1))?,
            codes: Row::with_room(alloc, total.saturating_add(literals))?,
            made: Row::with_room(alloc, count)?,
            given: cnf.len(),
            clauses,
            literals,
            learned: 0,
            limit: FIRST_STRETCH,
            stretch: FIRST_STRETCH,
        };
        database.starts.push(0);
        for at in 0..cnf.len() {
            for literal in cnf.clause(at) {
                database.codes.push(code_of(*literal));
            }
            database.close(0);
        }
        Ok(database)
    }

    #[inline]
    pub(crate) fn len(&self) -> u32 {
        self.made.len()
    }

    pub(crate) fn given(&self) -> u32 {
        self.given
    }

    #[inline]
    pub(crate) fn start(&self, clause: u32) -> u32 {
        self.starts.at(clause)
    }

    #[inline]
    pub(crate) fn end(&self, clause: u32) -> u32 {
        self.starts.at(clause.wrapping_add(1))
    }

    #[inline]
    pub(crate) fn size(&self, clause: u32) -> u32 {
        self.end(clause).saturating_sub(self.start(clause))
    }

    #[inline]
    pub(crate) fn code(&self, place: u32) -> u32 {
        self.codes.at(place)
    }

    #[inline]
    pub(crate) fn put_code(&mut self, place: u32, code: u32) {
        self.codes.put(place, code);
    }

    /// What the kernel calls a clause: it has the learned ones in the same order.
    pub(crate) fn fact(&self, clause: u32) -> Fact {
        if clause < self.given {
            Fact::Given(clause)
        } else {
            Fact::Learned(clause - self.given)
        }
    }

    /// Whether learned clauses are to go: there are many, or less than a quarter of the memory is free.
    pub(crate) fn is_full(&self) -> bool {
        self.limit <= self.learned
            || self.made.room() <= self.clauses / 4
            || self.codes.room() <= self.literals / 4
    }

    /// Whether there is memory for another clause of so many literals.
    pub(crate) fn has_room(&self, literals: u32) -> bool {
        0 < self.made.room() && literals as usize <= self.codes.room()
    }

    /// Adds a clause for which there is memory, and returns its number.
    pub(crate) fn add(&mut self, codes: &Row, made: u32) -> u32 {
        let clause = self.len();
        for code in codes.as_slice() {
            self.codes.push(*code);
        }
        self.close(made);
        if made == 0 {
            self.learned = self.learned.saturating_add(1);
        }
        clause
    }

    // Makes a clause of the codes after the last one.
    fn close(&mut self, made: u32) {
        self.made.push(made);
        self.starts.push(self.codes.len());
    }

    // How many of the clauses that were learned, and not made, are to go: the older half, or none if they take little.
    fn surplus(&self) -> u32 {
        let mut literals = 0usize;
        for clause in self.given..self.len() {
            if self.made.at(clause) == 0 {
                literals = literals.saturating_add(self.size(clause) as usize);
            }
        }
        if self.limit <= self.learned
            || self.clauses / 2 < self.learned as usize
            || self.literals / 2 < literals
        {
            self.learned - self.learned / 2
        } else {
            0
        }
    }

    /// Drops learned clauses, but none of one literal. Tells which ones stay.
    pub(crate) fn reduce(&mut self, kept: &mut Vec<bool>) {
        let mut surplus = self.surplus();
        let mut count = self.given;
        let mut learned = 0u32;
        kept.clear();
        for clause in self.given..self.len() {
            let mut stays = self.size(clause) == 1;
            if !stays && self.made.at(clause) == 0 {
                stays = surplus == 0;
                surplus = surplus.saturating_sub(1);
            }
            if kept.len() < kept.capacity() {
                let _ = kept.push(stays);
            }
            if stays {
                self.move_down(clause, count);
                count = count.wrapping_add(1);
                learned = learned.saturating_add(1);
            }
        }
        self.keep(count);
        if learned < self.learned {
            self.stretch = self.stretch.saturating_add(LONGER);
            self.limit = learned.saturating_add(self.stretch);
        }
        self.learned = learned;
    }

    // Moves a clause down to the place after the `kept` clauses before it.
    fn move_down(&mut self, clause: u32, kept: u32) {
        let mut to = self.starts.at(kept);
        for from in self.start(clause)..self.end(clause) {
            self.codes.put(to, self.codes.at(from));
            to = to.wrapping_add(1);
        }
        self.made.put(kept, self.made.at(clause));
        self.starts.put(kept.wrapping_add(1), to);
    }

    /// Drops all learned clauses. Returns whether there were some.
    pub(crate) fn clear(&mut self) -> bool {
        let is_any = self.given < self.len();
        self.keep(self.given);
        self.learned = 0;
        self.limit = FIRST_STRETCH;
        self.stretch = FIRST_STRETCH;
        is_any
    }

    // Keeps so many clauses.
    fn keep(&mut self, count: u32) {
        let end = self.starts.at(count);
        self.codes.truncate(end);
        self.starts.truncate(count.saturating_add(1));
        self.made.truncate(count);
    }
}
