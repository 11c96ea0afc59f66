ghost use Rattle.std.specs.Prelude.{◌≡◌, ◌↔◌, ◌<◌, ◌≤◌, ◌++◌, [], ◌∷◌, replicate, length, IfOk, IfSome, IfNone, IsNone, Contains};
ghost use Rattle.std.specs.Borrow.{sem};
ghost use Rattle.scratch_pool.specs.Regions.{IsLast, IsSound, words_used, free_words, run_words, carved};

use crate::Memory;
use crate::parts::{part, zero};
use std::alloc::Global;
use std::marker::Model;

/// A region has fewer words than this.
pub const REGION_LIMIT: usize = 4_294_967_296;

/// The most runs that may be carved at one time.
pub const RUN_LIMIT: usize = 16;

/// Where a run begins, and how many words it has.
#[derive(Clone, Copy, Debug, PartialEq, Eq, Drop)]
pub struct Span {
    pub start: usize,
    pub len: usize,
}

/// A run of a region. It is not `Drop`, so that it has to be released.
pub struct Run {
    span: Span,
}

impl Model for Run {
    ghost use Rattle.scratch_pool.specs.declared.region.Span.{Span};

    ghost Value = { Span };

    ghost view = { λ r. r.span };
}

/// Words that are carved into runs. The last run is released first.
#[derive(Drop)]
pub struct Region {
    words: Vec<u32>,
    runs: Vec<Span>,
    used: usize,
}

impl Model for Region {
    ghost use Rattle.std.specs.Prelude.{◌≡◌, ◌≤◌, vec_len, vec_capacity};
    ghost use Rattle.scratch_pool.specs.declared.region.TheConstants.{RUN_LIMIT};
    ghost use Rattle.scratch_pool.specs.Regions.{Carved, words_used, AreStacked};

    ghost Value = { Carved };

    ghost view = { λ r. record { words = r.words.items; runs = r.runs.items } };

    ghost invariant = { λ r. (r.used ≡ words_used r.runs.items) × (r.used ≤ vec_len r.words)
        × AreStacked 0 r.runs.items × (RUN_LIMIT ≤ vec_capacity r.runs) };
}

impl Region {
    ghost use Rattle.scratch_pool.specs.Lending.{LendsRun};

    /// Returns a region of `words` words. None is carved.
    pub fn new(alloc: Global, words: usize) -> Result<Region, Memory>
        requires { words < REGION_LIMIT }
        ensures { IfOk result (λ region. region ≡ record { words = replicate words 0; runs = [] }) }
    {
        Ok(Region {
            words: vec![in alloc; 0; words]?,
            runs: Vec::with_capacity(alloc, RUN_LIMIT)?,
            used: 0,
        })
    }

    /// Returns how many words are in no run.
    pub fn free(&self) -> usize
        ensures { result ≡ free_words self.now }
    {
        self.words.len() - self.used
    }

    /// Carves a run of `n` words after the last one, all of them 0.
    pub fn carve(&mut self, n: usize) -> Option<Run>
        requires some { 1 ≤ n }
        requires few { length self.old.runs < RUN_LIMIT }
        ensures none { IsNone result ↔ (free_words self.old < n) }
        ensures kept { IfNone result (self.new ≡ self.old) }
        ensures run { IfSome result (λ run.
            (run ≡ record { start = words_used self.old.runs; len = n }) × (self.new ≡ carved self.old run)) }
        ensures zeros { IfSome result (λ run. run_words self.new run ≡ replicate n 0) }
        ensures others { (other : Span) → Contains self.old.runs other
            → run_words self.new other ≡ run_words self.old other }
        ensures sound { IsSound self.old }
    {
        let start = self.used;
        if self.words.len() - start < n {
            return None;
        }
        zero(&mut self.words, start, n);
        let span = Span { start, len: n };
        self.runs.push(span).unwrap();
        self.used = start + n;
        Some(Run { span })
    }

    /// Takes the last run back.
    pub fn release(&mut self, run: Run)
        requires last { IsLast self.old.runs run }
        ensures words { self.new.words ≡ self.old.words }
        ensures runs { self.old.runs ≡ self.new.runs ++ run ∷ [] }
    {
        let Run { span } = run;
        self.runs.truncate(self.runs.len() - 1);
        self.used = span.start;
    }

    /// Returns the words of a run.
    pub fn run(&self, run: &Run) -> &[u32]
        requires { Contains self.now.runs run.now }
        ensures { result.now ≡ run_words self.now run.now }
    {
        part(&self.words, run.span.start, run.span.len)
    }

    /// Returns the words of a run, for writing. All other runs stay as they are.
    pub fn run_mut(&mut self, run: &Run) -> &mut [u32]
        requires { Contains self.old.runs run.now }
        ensures value { result.now ≡ run_words self.old run.now }
        ensures sound { IsSound self.old }
        ensures* writes_back { sem 𝓛 (LendsRun self.entry run.now result) }
    {
        let words = &mut self.words;
        let start = run.span.start;
        words.slice_mut(start..start + run.span.len)
    }
}
