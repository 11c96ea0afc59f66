//! An engine over a compiled graph.
ghost use Rattle.std.specs.Prelude.{◌≡◌, ◌+◌, ◌++◌, ◌*◌, ◌<◌, ◌≤◌, drop, length, ℕ, true, All, IfOk, IfSome, slice_get};
ghost use Rattle.std.specs.Option.{option_map};
ghost use Rattle.text_rules.specs.Names.{names_rise};
ghost use Rattle.device_model.specs.declared.limits.TheConstants.{PART_LIMIT, WIRE_LIMIT};
ghost use Rattle.conditioner.specs.Evidence.{bits_of};
ghost use Rattle.conditioner.specs.Models.{total_cost};
ghost use Rattle.minimiser.specs.declared.pass.TheConstants.{TOTAL_LIMIT};
ghost use Rattle.level_lister.specs.Listing.{point_if};
ghost use Rattle.graph_engine.specs.Served.{CanList, CanDraw, about_of};
ghost use Rattle.graph_engine.specs.inner.Held.{of_step, of_level_step};

use crate::Memory as NoMemory;
use crate::basis::Basis;
use crate::limits::{SERVED_NODES, SERVED_VARIABLES};
use crate::memory::Memory;
use conditioner::is_open;
use device_model::{Name, PART_LIMIT, WIRE_LIMIT};
use diag_edge::{Sink, WriteFailed};
use diagnosis_lister::Step;
use engines::{Engine, Listed, NextState};
use level_lister::LevelStep;
use minimiser::{Steps, TOTAL_LIMIT};
use node_store::Graph;
use probe_report::{probe, probe_all};
use projector::write_projected;
use smooth_nnf::write_least_with;
use state_rules::{Blame, Extras};
use std::alloc::Global;
use std::marker::{Brand, Model};
use std::sync::ledger::{Blank, Ledger};

/// A graph, the names and costs that it is about, and the memory in which answers are computed. All of it is taken when it is made.
pub struct GraphEngine {
    basis: Basis,
    memory: Memory,
}

// One call, so that the prover does not go through the engine at each place that drops one.
impl Drop for GraphEngine {
    fn drop(self) {
        let GraphEngine {
            basis: _,
            memory: _,
        } = self;
    }
}

impl Model for GraphEngine {
    ghost use Rattle.graph_engine.specs.Served.{OnGraph};
    ghost use Rattle.graph_engine.specs.inner.Held.{FitsTogether};

    ghost Value = { OnGraph };

    ghost view = { λ e. record { subject = e.basis; known = e.memory.known.items } };

    ghost invariant = { λ e. FitsTogether e.basis e.memory.known.items e.memory.values.items e.memory.state.items e.memory.room
        e.memory.minimised_graph };
}

impl GraphEngine {
    /// Makes an engine over the names of parts and wires, the cost of each part's failure, and a graph whose variables are the parts, the
    /// wires, and inner ones. It offers states by rising cost and the graph of the diagnoses if the extras say so. `Err` means that memory
    /// ran out.
    pub fn new(
        alloc: Global,
        parts: Vec<Name>,
        wires: Vec<Name>,
        costs: Vec<u32>,
        graph: Graph,
        extras: Extras,
    ) -> Result<GraphEngine, NoMemory>
        requires parts_rise { names_rise parts.items ≡ true }
        requires wires_rise { names_rise wires.items ≡ true }
        requires few_parts { length parts.items ≤ PART_LIMIT }
        requires few_wires { length wires.items ≤ WIRE_LIMIT }
        requires costs { length costs.items ≡ length parts.items }
        requires dear { All (λ c. 0 < c) costs.items }
        requires total { total_cost costs.items < TOTAL_LIMIT }
        requires vars { length parts.items + length wires.items ≤ graph.vars }
        requires few_vars { graph.vars ≤ SERVED_VARIABLES }
        requires few_nodes { length graph.nodes < SERVED_NODES }
        requires levels { IfSome extras.levels (CanList graph (length parts.items)) }
        requires least { extras.least ≡ true → CanDraw graph (length parts.items) }
        ensures { IfOk result (λ engine. engine.subject
            ≡ record { parts = parts.items; wires = wires.items; costs = costs.items; graph = graph; extras = extras }) }
    {
        // its contract says that the graph is valid
        let _vars = graph.vars();
        let basis = Basis::of(alloc, parts, wires, costs, graph, extras)?;
        let memory = Memory::new(alloc, &basis)?;
        Ok(GraphEngine { basis, memory })
    }
}

impl Engine for GraphEngine {
    ghost about = { about_of };

    #[tactic(auto, using(crate::proofs::Rules::offered))]
    fn parts(&self) -> &[Name] {
        self.basis.parts()
    }

    #[tactic(auto, using(crate::proofs::Rules::offered))]
    fn wires(&self) -> &[Name] {
        self.basis.wires()
    }

    fn lists(&self, listed: Listed) -> bool {
        self.basis.lists(listed)
    }

    fn tells_least(&self) -> bool {
        self.basis.tells_least()
    }

    fn draws(&self) -> bool {
        true
    }

    fn take_up(&mut self, evidence: &[u32]) {
        let _parts = self.basis.parts();
        put_front(&mut self.memory.known, evidence);
    }

    fn is_seen(&self, wire: u32) -> bool {
        !is_open(self.memory.known[self.basis.parts().len() + wire as usize])
    }

    fn is_consistent(&mut self) -> bool {
        self.has_states::<Brand>(Blank::new(1))
    }

    fn first(&mut self, state: &mut [u32]) -> Option<u32> {
        self.begin::<Brand>(state, Blank::new(1))
    }

    fn next(&mut self, listed: Listed, point: Option<&[u32]>, state: &mut [u32]) -> NextState {
        self.step::<Brand>(listed, point, state, Blank::new(1))
    }

    fn probe(&mut self, wire: u32) -> (Option<u32>, Option<u32>) {
        self.probe_one::<Brand>(wire, Blank::new(1))
    }

    fn probe_all(&mut self, numbers: &mut [u32]) -> bool {
        self.probe_each::<Brand>(numbers, Blank::new(1))
    }

    fn blame(&mut self, verdicts: &mut [Blame]) {
        self.judge::<Brand>(verdicts, Blank::new(1));
    }

    fn write_states<O: Sink>(&mut self, out: &mut O) -> Result<(), WriteFailed> {
        let parts = self.basis.parts().len() as u32;
        write_projected(self.basis.graph(), &self.memory.known, parts, out)
    }

    fn write_diagnoses<O: Sink>(&mut self, out: &mut O) -> Result<(), WriteFailed> {
        if !self.basis.tells_least() {
            return Ok(());
        }
        write_least_with(
            self.basis.graph(),
            self.basis.part_sets(),
            &self.memory.known,
            self.basis.costs(),
            &mut self.memory.room,
            out,
        )
    }
}

impl GraphEngine {
    ghost use Rattle.std.specs.Prelude.{Bool, Some, None, false, is_some};
    ghost use Rattle.state_rules.specs.Numbers.{probed};
    ghost use Rattle.engines.specs.Answers.{IsFirst, least_of, least_seen, diagnoses_of, later_states, next_after, is_listed, blame_of};

    // Whether some state agrees with the case.
    fn has_states<L: Ledger>(&mut self, blank: Blank) -> bool
        requires name { blank.name ≡ L.name }
        requires shares { blank.parts ≡ L.parts }
        requires some { 0 < blank.parts }
        ensures some { result ≡ is_some (least_of (about_of self.old)) }
        ensures same { about_of self.new ≡ about_of self.old }
    {
        self.memory.minimised_graph.prepare(
            self.basis.graph(),
            &self.memory.known,
            self.basis.costs(),
            &mut self.memory.values,
            &mut Steps::<L>::new(blank),
        )
    }

    // Returns the least cost. The state is then the first diagnosis.
    #[tactic(auto, using(crate::proofs::Rules::after_pass))]
    fn begin<L: Ledger>(&mut self, state: &mut [u32], blank: Blank) -> Option<u32>
        requires name { blank.name ≡ L.name }
        requires shares { blank.parts ≡ L.parts }
        requires some { 0 < blank.parts }
        requires long { length state.old ≡ length self.old.subject.parts }
        ensures least { result ≡ least_of (about_of self.old) }
        ensures first { IsFirst (bits_of state.new) (diagnoses_of (about_of self.old)) }
        ensures bits { All (λ s. s < 2) state.new }
        ensures same { about_of self.new ≡ about_of self.old }
    {
        state.fill(0);
        self.memory.minimised_graph.first(
            self.basis.graph(),
            &mut self.memory.known,
            self.basis.costs(),
            &mut self.memory.values,
            state,
            &mut Steps::<L>::new(blank),
        )
    }

    // Finds what comes next of a listing after a point, or first if there is none.
    fn step<L: Ledger>(
        &mut self,
        listed: Listed,
        point: Option<&[u32]>,
        state: &mut [u32],
        blank: Blank,
    ) -> NextState
        requires name { blank.name ≡ L.name }
        requires shares { blank.parts ≡ L.parts }
        requires some { 0 < blank.parts }
        requires long { length state.old ≡ length self.old.subject.parts }
        requires listed { is_listed (about_of self.old).system listed ≡ true }
        requires point { IfSome point (λ old. (length old.now ≡ length self.old.subject.parts) × All (λ s. s < 2) old.now) }
        ensures next { result ≡ next_after (about_of self.old).system listed (about_of self.old).known (option_map (λ old. bits_of old.now) point.entry) }
        ensures state { IsFirst (bits_of state.new)
            (later_states (about_of self.old).system listed (about_of self.old).known (option_map (λ old. bits_of old.now) point.entry)) }
        ensures bits { All (λ s. s < 2) state.new }
        ensures same { about_of self.new ≡ about_of self.old }
    {
        match listed {
            Listed::Levels => self.next_level::<L>(point, state, blank),
            Listed::Diagnoses => match point {
                None => self.first_step::<L>(state, blank),
                Some(old) => self.go_on::<L>(old, state, blank),
            },
        }
    }

    // Finds the first diagnosis.
    fn first_step<L: Ledger>(&mut self, state: &mut [u32], blank: Blank) -> NextState
        requires name { blank.name ≡ L.name }
        requires shares { blank.parts ≡ L.parts }
        requires some { 0 < blank.parts }
        requires long { length state.old ≡ length self.old.subject.parts }
        ensures next { result ≡ next_after (about_of self.old).system Listed.Diagnoses (about_of self.old).known None }
        ensures state { IsFirst (bits_of state.new)
            (later_states (about_of self.old).system Listed.Diagnoses (about_of self.old).known None) }
        ensures bits { All (λ s. s < 2) state.new }
        ensures same { about_of self.new ≡ about_of self.old }
    {
        match self.begin::<L>(state, blank) {
            Some(_) => NextState::Found(None),
            None => NextState::Inconsistent,
        }
    }

    // Finds the first diagnosis after a state.
    #[tactic(auto, using(crate::proofs::Rules::after_pass))]
    fn go_on<L: Ledger>(&mut self, old: &[u32], state: &mut [u32], blank: Blank) -> NextState
        requires name { blank.name ≡ L.name }
        requires shares { blank.parts ≡ L.parts }
        requires some { 0 < blank.parts }
        requires long { length state.old ≡ length self.old.subject.parts }
        requires old { length old.now ≡ length self.old.subject.parts }
        requires bits { All (λ s. s < 2) old.now }
        ensures next { result ≡ next_after (about_of self.old).system Listed.Diagnoses (about_of self.old).known (Some (bits_of old.now)) }
        ensures state { IsFirst (bits_of state.new)
            (later_states (about_of self.old).system Listed.Diagnoses (about_of self.old).known (Some (bits_of old.now))) }
        ensures bits { All (λ s. s < 2) state.new }
        ensures same { about_of self.new ≡ about_of self.old }
    {
        state.copy_from_slice(old);
        next_of_step(
            self.memory.minimised_graph.next(
                self.basis.graph(),
                &mut self.memory.known,
                self.basis.costs(),
                &mut self.memory.values,
                state,
                &mut Steps::<L>::new(blank),
            ),
        )
    }

    // Finds what comes next of the states by rising cost.
    #[tactic(auto, using(crate::proofs::Rules::lent_room))]
    fn next_level<L: Ledger>(
        &mut self,
        point: Option<&[u32]>,
        state: &mut [u32],
        blank: Blank,
    ) -> NextState
        requires name { blank.name ≡ L.name }
        requires shares { blank.parts ≡ L.parts }
        requires some { 0 < blank.parts }
        requires long { length state.old ≡ length self.old.subject.parts }
        requires listed { is_listed (about_of self.old).system Listed.Levels ≡ true }
        requires point { IfSome point (λ old. (length old.now ≡ length self.old.subject.parts) × All (λ s. s < 2) old.now) }
        ensures next { result ≡ next_after (about_of self.old).system Listed.Levels (about_of self.old).known (option_map (λ old. bits_of old.now) point.entry) }
        ensures state { IsFirst (bits_of state.new)
            (later_states (about_of self.old).system Listed.Levels (about_of self.old).known (option_map (λ old. bits_of old.now) point.entry)) }
        ensures bits { All (λ s. s < 2) state.new }
        ensures same { about_of self.new ≡ about_of self.old }
    {
        let pointed = start_at(state, point);
        let levels = self.basis.levels().unwrap();
        let run = self
            .memory
            .room
            .carve(self.basis.level_room(levels))
            .unwrap();
        let step = levels.next_in(
            self.basis.graph(),
            &mut self.memory.known,
            self.memory.room.run_mut(&run),
            state,
            pointed,
            &mut Steps::<L>::new(blank),
        );
        self.memory.room.release(run);
        next_of_level_step(step)
    }

    // Returns the least cost if a wire is 0, and if it is 1.
    #[tactic(auto, using(crate::proofs::Rules::after_pass))]
    fn probe_one<L: Ledger>(&mut self, wire: u32, blank: Blank) -> (Option<u32>, Option<u32>)
        requires name { blank.name ≡ L.name }
        requires shares { blank.parts ≡ L.parts }
        requires some { 0 < blank.parts }
        requires wire { wire < length self.old.subject.wires }
        ensures zero { result.0 ≡ least_seen (about_of self.old) wire false }
        ensures one { result.1 ≡ least_seen (about_of self.old) wire true }
        ensures same { about_of self.new ≡ about_of self.old }
    {
        probe(
            self.basis.graph(),
            &mut self.memory.known,
            self.basis.costs(),
            self.basis.parts().len() as u32 + wire + 1,
            &mut self.memory.values,
            &mut Steps::<L>::new(blank),
        )
    }

    // Whether some state agrees with the case. Computes the numbers of all wires.
    #[tactic(auto, using(crate::proofs::Rules::lent_room))]
    fn probe_each<L: Ledger>(&mut self, numbers: &mut [u32], blank: Blank) -> bool
        requires name { blank.name ≡ L.name }
        requires shares { blank.parts ≡ L.parts }
        requires some { 0 < blank.parts }
        requires long { length numbers.old ≡ 2 * length self.old.subject.wires }
        ensures some { result ≡ is_some (least_of (about_of self.old)) }
        ensures probed { (wire : ℕ) (bit : Bool) → wire < length self.old.subject.wires
            → probed numbers.new wire bit ≡ least_seen (about_of self.old) wire bit }
        ensures same { about_of self.new ≡ about_of self.old }
    {
        let run = self.memory.room.carve(self.basis.probes_room()).unwrap();
        let least = probe_all(
            self.basis.graph(),
            &self.memory.known,
            self.basis.costs(),
            self.memory.room.run_mut(&run),
            numbers,
            &mut Steps::<L>::new(blank),
        );
        self.memory.room.release(run);
        least.is_some()
    }

    // Finds for each part whether it is faulty in all diagnoses, in some or in none.
    #[tactic(auto, using(crate::proofs::Rules::after_pass))]
    fn judge<L: Ledger>(&mut self, verdicts: &mut [Blame], blank: Blank)
        requires name { blank.name ≡ L.name }
        requires shares { blank.parts ≡ L.parts }
        requires some { 0 < blank.parts }
        requires long { length verdicts.old ≡ length self.old.subject.parts }
        ensures blame { (part : ℕ) → part < length self.old.subject.parts
            → slice_get verdicts.new part ≡ Some (blame_of (about_of self.old) part) }
        ensures same { about_of self.new ≡ about_of self.old }
    {
        self.memory.state.fill(0);
        self.memory.minimised_graph.blame_all(
            self.basis.graph(),
            &mut self.memory.known,
            self.basis.costs(),
            &mut self.memory.values,
            &mut self.memory.state,
            verdicts,
            &mut Steps::<L>::new(blank),
        );
    }
}

// Writes words over the first ones.
fn put_front(words: &mut [u32], front: &[u32])
    requires { length front.now ≤ length words.old }
    ensures { words.new ≡ front.now ++ drop (length front.now) words.old }
{
    words[..front.len()].copy_from_slice(front);
}

// Makes a point the state. Returns whether there is one.
fn start_at(state: &mut [u32], point: Option<&[u32]>) -> bool
    requires { IfSome point (λ old. (length old.now ≡ length state.old) × All (λ s. s < 2) old.now) }
    ensures point { point_if result (bits_of state.new) ≡ option_map (λ old. bits_of old.now) point.entry }
    ensures bits { All (λ s. s < 2) state.new }
{
    match point {
        None => {
            state.fill(0);
            false
        }
        Some(old) => {
            state.copy_from_slice(old);
            true
        }
    }
}

// Converts what comes next of the diagnoses.
fn next_of_step(step: Step) -> NextState
    ensures { result ≡ of_step step }
{
    match step {
        Step::Found => NextState::Found(None),
        Step::End => NextState::End,
        Step::Inconsistent => NextState::Inconsistent,
    }
}

// Converts what comes next by rising cost.
fn next_of_level_step(step: LevelStep) -> NextState
    ensures { result ≡ of_level_step step }
{
    match step {
        LevelStep::Found(cost) => NextState::Found(Some(cost)),
        LevelStep::End => NextState::End,
        LevelStep::Inconsistent => NextState::Inconsistent,
    }
}
