//! An engine that searches.
ghost use Rattle.std.specs.Prelude.{◌≡◌, ◌+◌, ◌++◌, ◌<◌, ◌≤◌, drop, length, replicate, true, IfOk};
ghost use Rattle.text_rules.specs.Names.{names_rise};
ghost use Rattle.device_model.specs.declared.limits.TheConstants.{PART_LIMIT, WIRE_LIMIT};
ghost use Rattle.conditioner.specs.Models.{total_cost};
ghost use Rattle.minimiser.specs.declared.pass.TheConstants.{TOTAL_LIMIT};
ghost use Rattle.search_engine.specs.Searched.{about_of, clause_system};
ghost use Rattle.search_engine.specs.inner.Held.{of_step, of_level_step};

use crate::Memory;
use clause_answers::CaseSearch;
use clause_encoder::Cnf;
use conditioner::is_open;
use device_model::{Name, PART_LIMIT, WIRE_LIMIT};
use diag_edge::{Sink, WriteFailed};
use diagnosis_lister::Step;
use engines::{Engine, Listed, NextState};
use level_lister::LevelStep;
use minimiser::TOTAL_LIMIT;
use state_rules::Blame;
use std::alloc::Global;
use std::marker::Model;

/// Clauses, the names and costs that they are about, and a search for answers. All memory is taken when it is made. No bound on the time is
/// known, as with every such search.
pub struct SearchEngine {
    parts: Vec<Name>,
    wires: Vec<Name>,
    search: CaseSearch,
    // the greatest cost of listed states, if they are listed
    levels: Option<u32>,
    // the words of the case in question, one for each variable
    known: Vec<u32>,
}

// One call, so that the prover does not go through the engine at each place that drops one.
impl Drop for SearchEngine {
    fn drop(self) {
        let SearchEngine {
            parts: _,
            wires: _,
            search: _,
            levels: _,
            known: _,
        } = self;
    }
}

impl Model for SearchEngine {
    ghost use Rattle.search_engine.specs.Searched.{OnClauses};
    ghost use Rattle.search_engine.specs.inner.Held.{IsSearched, subject_of};

    ghost Value = { OnClauses };

    ghost view = { λ e. record { subject = subject_of e.parts.items e.wires.items e.search e.levels; known = e.known.items } };

    ghost invariant = { λ e. IsSearched (subject_of e.parts.items e.wires.items e.search e.levels) e.known.items e.search.evidence };
}

impl SearchEngine {
    /// Makes an engine over the names of parts and wires, the cost of each part's failure, and clauses whose variables are the parts, true
    /// if they are ok, then the wires, then inner ones. It offers states by rising cost up to a cost, if there is one. `Err` means that
    /// memory ran out.
    pub fn new(
        alloc: Global,
        parts: Vec<Name>,
        wires: Vec<Name>,
        costs: &[u32],
        cnf: &Cnf,
        levels: Option<u32>,
    ) -> Result<SearchEngine, Memory>
        requires parts_rise { names_rise parts.items ≡ true }
        requires wires_rise { names_rise wires.items ≡ true }
        requires few_parts { length parts.items ≤ PART_LIMIT }
        requires few_wires { length wires.items ≤ WIRE_LIMIT }
        requires costs { length costs.now ≡ length parts.items }
        requires total { total_cost costs.now < TOTAL_LIMIT }
        requires vars { length parts.items + length wires.items ≤ cnf.now.vars }
        ensures { IfOk result (λ engine. (about_of engine).system ≡ clause_system
            (record { parts = parts.items; wires = wires.items; costs = costs.now; cnf = cnf.now; levels = levels })) }
    {
        let known = zeros(alloc, cnf.vars() as usize)?;
        let search = CaseSearch::new(alloc, cnf, costs)?;
        Ok(SearchEngine {
            parts,
            wires,
            search,
            levels,
            known,
        })
    }
}

impl Engine for SearchEngine {
    ghost about = { about_of };

    #[tactic(auto, using(crate::proofs::Asked::is_offered))]
    fn parts(&self) -> &[Name] {
        &self.parts
    }

    #[tactic(auto, using(crate::proofs::Asked::is_offered))]
    fn wires(&self) -> &[Name] {
        &self.wires
    }

    fn lists(&self, listed: Listed) -> bool {
        match listed {
            Listed::Diagnoses => true,
            Listed::Levels => self.levels.is_some(),
        }
    }

    fn tells_least(&self) -> bool {
        false
    }

    fn take_up(&mut self, evidence: &[u32]) {
        put_front(&mut self.known, evidence);
        self.search.take_up(&self.known);
    }

    fn draws(&self) -> bool {
        false
    }

    fn is_seen(&self, wire: u32) -> bool {
        !is_open(self.known[self.parts.len() + wire as usize])
    }

    fn is_consistent(&mut self) -> bool {
        self.search.least().is_some()
    }

    fn first(&mut self, state: &mut [u32]) -> Option<u32> {
        state.fill(0);
        self.search.first(state)
    }

    #[tactic(auto, using(crate::proofs::Asked::level_asked))]
    fn next(&mut self, listed: Listed, point: Option<&[u32]>, state: &mut [u32]) -> NextState {
        state.fill(0);
        match listed {
            Listed::Diagnoses => next_of_step(self.search.next(point, state)),
            Listed::Levels => {
                let top = self.levels.unwrap();
                next_of_level_step(self.search.next_level(top, point, state))
            }
        }
    }

    fn probe(&mut self, wire: u32) -> (Option<u32>, Option<u32>) {
        self.search.probe(self.search.parts() as u32 + wire + 1)
    }

    fn probe_all(&mut self, numbers: &mut [u32]) -> bool {
        self.search.probe_all(numbers)
    }

    fn blame(&mut self, verdicts: &mut [Blame]) {
        self.search.blame(verdicts);
    }

    // A search has no graph.
    fn write_states<O: Sink>(&mut self, _out: &mut O) -> Result<(), WriteFailed> {
        Ok(())
    }

    fn write_diagnoses<O: Sink>(&mut self, _out: &mut O) -> Result<(), WriteFailed> {
        Ok(())
    }
}

fn zeros(alloc: Global, count: usize) -> Result<Vec<u32>, Memory>
    ensures { IfOk result (λ zeros. zeros.items ≡ replicate count 0) }
{
    vec![in alloc; 0; count]
}

// Writes words over the first ones.
fn put_front(words: &mut [u32], front: &[u32])
    requires { length front.now ≤ length words.old }
    ensures { words.new ≡ front.now ++ drop (length front.now) words.old }
{
    words[..front.len()].copy_from_slice(front);
}

// Converts what comes next of the diagnoses.
fn next_of_step(step: Step) -> NextState
    ensures { result ≡ of_step step }
{
    match step {
        Step::Found => NextState::Found(None),
        Step::End => NextState::End,
        Step::Inconsistent => NextState::Inconsistent,
    }
}

// Converts what comes next by rising cost.
fn next_of_level_step(step: LevelStep) -> NextState
    ensures { result ≡ of_level_step step }
{
    match step {
        LevelStep::Found(cost) => NextState::Found(Some(cost)),
        LevelStep::End => NextState::End,
        LevelStep::Inconsistent => NextState::Inconsistent,
    }
}
