ghost use Rattle.std.specs.Prelude.{◌≡◌, ℕ, ◌^◌, ◌<◌, ◌≤◌, Bool, true, false, List, Option, Some, None, All, IfOk, IfSome, length, replicate, slice_index_or};
ghost use Rattle.std.specs.Option.{option_map};
ghost use Rattle.state_rules.specs.Ranking.{rest};
ghost use Rattle.conditioner.specs.Evidence.{bits_of};
ghost use Rattle.conditioner.specs.Models.{total_cost};
ghost use Rattle.diagnosis_lister.specs.Listing.{step_of};
ghost use Rattle.clause_answers.specs.Questions.{Question, models, least_under, diagnoses_under};
ghost use Rattle.clause_answers.specs.inner.Listed.{FindsNext, AreOk};

use crate::Memory;
use crate::finding::{first_state, next_state};
use crate::oracle::Oracle;
use crate::state_words::{read, write};
use clause_encoder::Cnf;
use diagnosis_lister::Step;
use minimiser::TOTAL_LIMIT;
use std::alloc::Global;
use std::marker::Model;

/// Answers questions about clauses over the health of parts, one case at a time, by a search that has no width. What it answers follows from
/// the clauses, the costs and the evidence alone. A state is a word for each part: 0 if it is ok, 1 if it is faulty.
///
/// All memory is taken when it is made. No bound on the time is known, as with every such search.
#[derive(Drop)]
pub struct CaseSearch {
    pub(crate) oracle: Oracle,
    // the least cost of the case, if it was asked
    pub(crate) least: Option<Option<u32>>,
    // the parts that are known to be ok in all bits in the oracle's range, and those of which that was tried
    pub(crate) oks: Vec<bool>,
    pub(crate) tried: Vec<bool>,
    pub(crate) literals: Vec<i32>,
}

impl Model for CaseSearch {
    ghost use Rattle.clause_answers.specs.Questions.{Question};
    ghost use Rattle.clause_answers.specs.inner.Cases.{IsKept};

    ghost Value = { Question };

    ghost view = { λ s. s.oracle.question };

    ghost invariant = { λ s. IsKept s.oracle s.oks.items s.tried.items s.literals.items s.least };
}

impl CaseSearch {
    /// Makes a search over clauses whose first variables are parts, true if they are ok, each with the cost of its failure. Nothing is known
    /// at first.
    #[tactic(auto, using(crate::proofs::Kept::few_parts))]
    pub fn new(alloc: Global, cnf: &Cnf, costs: &[u32]) -> Result<CaseSearch, Memory>
        requires parts { length costs.now ≤ cnf.now.vars }
        requires total { total_cost costs.now < TOTAL_LIMIT }
        ensures { IfOk result (λ search. search ≡ record { cnf = cnf.now; costs = costs.now; evidence = replicate cnf.now.vars 0 }) }
    {
        let parts = costs.len();
        let _vars = cnf.vars();
        let mut oracle = Oracle::new(alloc, cnf, costs)?;
        let mut oks = vec![in alloc; false; parts]?;
        let mut tried = vec![in alloc; false; parts]?;
        let literals = vec![in alloc; 0i32; parts]?;
        seek(&mut oracle, &mut oks, &mut tried, 0, 0);
        Ok(CaseSearch {
            oracle,
            least: None,
            oks,
            tried,
            literals,
        })
    }

    /// Takes up other evidence: a word for each variable, 0 if nothing is known, 1 if it is true, and 2 if it is false.
    pub fn take_up(&mut self, evidence: &[u32])
        requires long { length evidence.now ≡ self.old.cnf.vars }
        requires words { All (λ w. w < 3) evidence.now }
        ensures { self.new ≡ record self.old { evidence = evidence.now } }
    {
        self.oracle.take_up(evidence);
        self.least = None;
        self.oks.as_mut_slice().fill(false);
        self.tried.as_mut_slice().fill(false);
    }

    /// Returns the number of variables.
    pub fn vars(&self) -> usize
        ensures { result ≡ self.now.cnf.vars }
    {
        self.oracle.bits().len()
    }

    /// Returns the number of parts.
    pub fn parts(&self) -> usize
        ensures parts { result ≡ length self.now.costs }
        ensures within { length self.now.costs ≤ self.now.cnf.vars }
    {
        self.oracle.costs().len()
    }

    /// Returns the least cost of a state that agrees with the evidence, if there is one.
    #[tactic(auto, using(crate::proofs::Kept::least_steps))]
    pub fn least(&mut self) -> Option<u32>
        ensures least { result ≡ least_under self.old }
        ensures same { self.new ≡ self.old }
    {
        if let Some(least) = self.least {
            return least;
        }
        let _parts = self.oracle.costs();
        let least = self.oracle.minimum(&[]);
        self.least = Some(least);
        least
    }

    /// Finds the first state of a cost after a point, or the first of all. The state stays if there is none.
    pub(crate) fn find_next(&mut self, cost: u32, point: Option<&[u32]>, state: &mut [u32]) -> bool
        requires state { length state.old ≡ length self.old.costs }
        requires point { IfSome point (λ old. length old.now ≡ length self.old.costs) }
        ensures found { FindsNext self.old cost (option_map (λ old. bits_of old.now) point.entry) result (bits_of state.old) (bits_of state.new) }
        ensures words { All (λ s. s < 2) state.old → All (λ s. s < 2) state.new }
        ensures same { self.new ≡ self.old }
    {
        match point {
            None => self.find_first(cost, state),
            Some(point) => self.find_after(cost, point, state),
        }
    }

    // Finds the first state of a cost.
    #[tactic(auto, using(crate::proofs::Kept::first_steps))]
    fn find_first(&mut self, cost: u32, state: &mut [u32]) -> bool
        requires { length state.old ≡ length self.old.costs }
        ensures found { FindsNext self.old cost None result (bits_of state.old) (bits_of state.new) }
        ensures words { All (λ s. s < 2) state.old → All (λ s. s < 2) state.new }
        ensures same { self.new ≡ self.old }
    {
        aim(
            &mut self.oracle,
            self.least,
            &mut self.oks,
            &mut self.tried,
            cost,
        );
        if !first_state(
            &mut self.oracle,
            &mut self.oks,
            &mut self.tried,
            &mut self.literals,
        ) {
            return false;
        }
        write(state, &self.literals);
        true
    }

    // Finds the first state of a cost after a point.
    #[tactic(auto, using(crate::proofs::Kept::first_steps))]
    fn find_after(&mut self, cost: u32, point: &[u32], state: &mut [u32]) -> bool
        requires state { length state.old ≡ length self.old.costs }
        requires point { length point.now ≡ length self.old.costs }
        ensures found { FindsNext self.old cost (Some (bits_of point.now)) result (bits_of state.old) (bits_of state.new) }
        ensures words { All (λ s. s < 2) state.old → All (λ s. s < 2) state.new }
        ensures same { self.new ≡ self.old }
    {
        aim(
            &mut self.oracle,
            self.least,
            &mut self.oks,
            &mut self.tried,
            cost,
        );
        read(&mut self.literals, point);
        if !next_state(
            &mut self.oracle,
            &mut self.oks,
            &mut self.tried,
            &mut self.literals,
        ) {
            return false;
        }
        write(state, &self.literals);
        true
    }

    /// Returns the least cost. The state is then the first diagnosis, or as before if there is none.
    pub fn first(&mut self, state: &mut [u32]) -> Option<u32>
        requires state { length state.old ≡ length self.old.costs }
        ensures least { result ≡ least_under self.old }
        ensures first { bits_of state.new ≡ slice_index_or (diagnoses_under self.old) 0 (bits_of state.old) }
        ensures words { All (λ s. s < 2) state.old → All (λ s. s < 2) state.new }
        ensures same { self.new ≡ self.old }
    {
        let _parts = self.parts();
        let least = self.least();
        if let Some(cost) = least {
            let _found = self.find_next(cost, None, state);
        }
        least
    }

    /// Finds the first diagnosis after a point, which need not be one, or the first of all. The state is then that one, or as before if there is
    /// none.
    pub fn next(&mut self, point: Option<&[u32]>, state: &mut [u32]) -> Step
        requires state { length state.old ≡ length self.old.costs }
        requires point { IfSome point (λ old. length old.now ≡ length self.old.costs) }
        ensures step { result ≡ step_of (models self.old) (rest (diagnoses_under self.old) (option_map (λ old. bits_of old.now) point.entry)) }
        ensures next { bits_of state.new ≡ slice_index_or (rest (diagnoses_under self.old) (option_map (λ old. bits_of old.now) point.entry)) 0 (bits_of state.old) }
        ensures words { All (λ s. s < 2) state.old → All (λ s. s < 2) state.new }
        ensures same { self.new ≡ self.old }
    {
        let _parts = self.parts();
        match self.least() {
            None => Step::Inconsistent,
            Some(cost) => {
                if self.find_next(cost, point, state) {
                    Step::Found
                } else {
                    Step::End
                }
            }
        }
    }
}

/// Makes a cost alone the range. Marks of parts hold for a range.
#[tactic(auto, using(crate::proofs::Kept::aim_steps))]
pub(crate) fn aim(
    oracle: &mut Oracle,
    least: Option<Option<u32>>,
    oks: &mut [bool],
    tried: &mut [bool],
    cost: u32,
)
    requires oks { AreOk oracle.old.question oracle.old.low oracle.old.high oks.old }
    ensures oks { AreOk oracle.new.question oracle.new.low oracle.new.high oks.new }
    ensures low { oracle.new.low ≡ cost }
    ensures high { oracle.new.high ≡ cost }
    ensures question { oracle.new.question ≡ oracle.old.question }
{
    let (low, high) = oracle.range();
    if low == cost && high == cost {
        return;
    }
    if least == Some(Some(cost)) {
        // What this finds out about costs makes the questions fast.
        let _least = oracle.minimum(&[]);
    }
    seek(oracle, oks, tried, cost, cost);
}

/// Sets the range of costs.
#[tactic(auto, using(crate::proofs::Kept::aim_steps))]
pub(crate) fn seek(oracle: &mut Oracle, oks: &mut [bool], tried: &mut [bool], low: u32, high: u32)
    ensures oks { AreOk oracle.new.question oracle.new.low oracle.new.high oks.new }
    ensures range { oracle.new ≡ record oracle.old { low = low; high = high } }
{
    oks.fill(false);
    tried.fill(false);
    oracle.seek(low, high);
}
