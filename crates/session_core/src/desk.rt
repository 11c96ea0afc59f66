//! What is asked of the engine, and what was found last.
ghost use Rattle.std.specs.Prelude.{◌≡◌, ◌≤◌, ℕ, ◌<◌, Bool, true, false, [], Some, All, IfOk, IfSome, length, slice_get, slice_index_or, is_some};
ghost use Rattle.std.specs.Option.{option_map};
ghost use Rattle.std.specs.List.{list_all};
ghost use Rattle.text_rules.specs.Names.{is_among, names_rise};
ghost use Rattle.text_rules.specs.Tokens.{words};
ghost use Rattle.diag_edge.specs.Edge.{HasCause, Puts};
ghost use Rattle.device_model.specs.Devices.{place_of};
ghost use Rattle.device_model.specs.declared.limits.TheConstants.{PART_LIMIT};
ghost use Rattle.conditioner.specs.Evidence.{bits_of};
ghost use Rattle.session_rules.specs.Replies.{seen_at};
ghost use Rattle.state_rules.specs.Numbers.{probed};
ghost use Rattle.engines.specs.Answers.{is_listed, later_states, next_after, IsFirst};
ghost use Rattle.engines.specs.Offered.{IsOffered, IsEvidenceOf, case_in, states_text, diagnoses_text};
ghost use Rattle.session_core.specs.inner.Desks.{on_desk, names_of, state_of, least_asked, diagnoses_asked, least_seen, blame_asked};

use crate::found::Found;
use device_model::{Name, place_of};
use diag_edge::{Sink, WriteFailed};
use engines::{Engine, Listed, NextState};
use script_lang::{Noted, each_name};
use state_rules::{Blame, cost_of};
use std::alloc::{AllocError, Global};
use std::marker::Model;

/// An engine, and what was found last.
#[derive(Drop)]
pub(crate) struct Desk<E: Engine> {
    engine: E,
    found: Found,
}

impl<E: Engine> Model for Desk<E> {
    ghost use Rattle.session_core.specs.inner.Desks.{DeskOf, FitsTogether, on_desk};

    ghost Value = { DeskOf E };

    ghost view = { λ d. record {
      engine = d.engine;
      state = d.found.state.items;
      verdicts = d.found.verdicts.items;
      numbers = d.found.numbers.items;
    } };

    ghost invariant = { λ d. FitsTogether (on_desk E.about (record {
      engine = d.engine;
      state = d.found.state.items;
      verdicts = d.found.verdicts.items;
      numbers = d.found.numbers.items;
    })) };
}

impl<E: Engine> Desk<E> {
    /// Makes a desk over an engine. `Err` means that memory ran out.
    pub(crate) fn new(alloc: Global, engine: E) -> Result<Desk<E>, AllocError>
        ensures { IfOk result (λ desk. (on_desk E.about desk).system ≡ (E.about engine).system) }
    {
        let parts = engine.parts().len();
        let wires = engine.wires().len();
        let found = Found::new(alloc, parts, wires)?;
        Ok(Desk { engine, found })
    }

    pub(crate) fn parts(&self) -> &[Name]
        ensures names { result.now ≡ (on_desk E.about self.now).system.parts }
        ensures offered { IsOffered (on_desk E.about self.now).system }
    {
        self.engine.parts()
    }

    pub(crate) fn wires(&self) -> &[Name]
        ensures names { result.now ≡ (on_desk E.about self.now).system.wires }
        ensures offered { IsOffered (on_desk E.about self.now).system }
    {
        self.engine.wires()
    }

    pub(crate) fn wire_name(&self, wire: u32) -> &[u8]
        requires { wire < length (on_desk E.about self.now).system.wires }
        ensures { result.now ≡ slice_index_or (on_desk E.about self.now).system.wires wire [] }
    {
        self.engine.wires()[wire as usize].as_slice()
    }

    /// Returns the place of a wire, or of a part, or `None` exactly if none has the name.
    pub(crate) fn find(&self, what: Noted, name: &[u8]) -> Option<u32>
        ensures { result ≡ place_of name.now (names_of (on_desk E.about self.now).system what) }
    {
        match what {
            Noted::Wire => place_of(self.engine.wires(), name),
            Noted::Part => place_of(self.engine.parts(), name),
        }
    }

    /// Whether there is a listing.
    pub(crate) fn lists(&self, listed: Listed) -> bool
        ensures { result ≡ is_listed (on_desk E.about self.now).system listed }
    {
        self.engine.lists(listed)
    }

    /// Whether the graph of the diagnoses is written.
    pub(crate) fn tells_least(&self) -> bool
        ensures { result ≡ (on_desk E.about self.now).system.extras.least }
    {
        self.engine.tells_least()
    }

    /// Whether graphs are written.
    pub(crate) fn draws(&self) -> bool
        ensures { result ≡ (on_desk E.about self.now).system.graphs }
    {
        self.engine.draws()
    }

    /// Returns the state that was found last.
    pub(crate) fn state(&self) -> &[u32]
        ensures state { result.now ≡ (on_desk E.about self.now).state }
        ensures one_a_part { length (on_desk E.about self.now).state ≡ length (on_desk E.about self.now).system.parts }
        ensures bits { All (λ s. s < 2) (on_desk E.about self.now).state }
    {
        &self.found.state
    }

    /// Returns the verdicts that were found last.
    pub(crate) fn verdicts(&self) -> &[Blame]
        ensures verdicts { result.now ≡ (on_desk E.about self.now).verdicts }
        ensures one_a_part { length (on_desk E.about self.now).verdicts ≡ length (on_desk E.about self.now).system.parts }
    {
        &self.found.verdicts
    }

    /// Makes the case of this evidence the one in question.
    pub(crate) fn take_up(&mut self, evidence: &[u32])
        requires { IsEvidenceOf (on_desk E.about self.old).system evidence.now }
        ensures { (on_desk E.about self.new) ≡ record (on_desk E.about self.old) { known = case_in (on_desk E.about self.old).system evidence.now } }
    {
        self.engine.take_up(evidence);
    }

    /// Whether a wire is seen in the case.
    pub(crate) fn is_seen(&self, wire: u32) -> bool
        requires { wire < length (on_desk E.about self.now).system.wires }
        ensures { result ≡ is_some (seen_at (on_desk E.about self.now).known wire) }
    {
        self.engine.is_seen(wire)
    }

    /// Whether some state agrees with the case.
    pub(crate) fn is_consistent(&mut self) -> bool
        ensures some { result ≡ is_some (least_asked (on_desk E.about self.old)) }
        ensures same { (on_desk E.about self.new) ≡ (on_desk E.about self.old) }
    {
        self.engine.is_consistent()
    }

    /// Returns the least cost. The state is then the first diagnosis.
    pub(crate) fn first(&mut self) -> Option<u32>
        ensures least { result ≡ least_asked (on_desk E.about self.old) }
        ensures first { IsFirst (bits_of (on_desk E.about self.new).state) (diagnoses_asked (on_desk E.about self.old)) }
        ensures stays { (on_desk E.about self.new) ≡ record (on_desk E.about self.old) { state = (on_desk E.about self.new).state } }
    {
        self.engine.first(&mut self.found.state)
    }

    /// Finds what comes next of a listing after a point, or first if there is none. The state is then the one found.
    pub(crate) fn next(&mut self, listed: Listed, point: Option<&[u32]>) -> NextState
        requires listed { is_listed (on_desk E.about self.old).system listed ≡ true }
        requires point { IfSome point (λ old. (length old.now ≡ length (on_desk E.about self.old).system.parts) × All (λ s. s < 2) old.now) }
        ensures next { result ≡ next_after (on_desk E.about self.old).system listed (on_desk E.about self.old).known (option_map (λ old. bits_of old.now) point.entry) }
        ensures state { IsFirst (bits_of (on_desk E.about self.new).state)
            (later_states (on_desk E.about self.old).system listed (on_desk E.about self.old).known (option_map (λ old. bits_of old.now) point.entry)) }
        ensures stays { (on_desk E.about self.new) ≡ record (on_desk E.about self.old) { state = (on_desk E.about self.new).state } }
    {
        self.engine.next(listed, point, &mut self.found.state)
    }

    /// Finds for each part whether it is faulty in all diagnoses, in some or in none.
    pub(crate) fn blame(&mut self)
        ensures blame { (part : ℕ) → part < length (on_desk E.about self.old).system.parts
            → slice_get (on_desk E.about self.new).verdicts part ≡ Some (blame_asked (on_desk E.about self.old) part) }
        ensures long { length (on_desk E.about self.new).verdicts ≡ length (on_desk E.about self.new).system.parts }
        ensures stays { (on_desk E.about self.new) ≡ record (on_desk E.about self.old) { verdicts = (on_desk E.about self.new).verdicts } }
    {
        self.engine.blame(&mut self.found.verdicts);
    }

    /// Returns the least cost if a wire is 0, and if it is 1.
    pub(crate) fn probe(&mut self, wire: u32) -> (Option<u32>, Option<u32>)
        requires wire { wire < length (on_desk E.about self.old).system.wires }
        ensures zero { result.0 ≡ least_seen (on_desk E.about self.old) wire false }
        ensures one { result.1 ≡ least_seen (on_desk E.about self.old) wire true }
        ensures same { (on_desk E.about self.new) ≡ (on_desk E.about self.old) }
    {
        self.engine.probe(wire)
    }

    /// Whether some state agrees with the case. Computes the numbers of all wires.
    pub(crate) fn probe_all(&mut self) -> bool
        ensures some { result ≡ is_some (least_asked (on_desk E.about self.old)) }
        ensures probed { (wire : ℕ) (bit : Bool) → wire < length (on_desk E.about self.old).system.wires
            → probed (on_desk E.about self.new).numbers wire bit ≡ least_seen (on_desk E.about self.old) wire bit }
        ensures stays { (on_desk E.about self.new) ≡ record (on_desk E.about self.old) { numbers = (on_desk E.about self.new).numbers } }
    {
        self.engine.probe_all(&mut self.found.numbers)
    }

    /// Returns the least costs of a wire, from the numbers.
    pub(crate) fn probed(&self, wire: u32) -> (Option<u32>, Option<u32>)
        requires { wire < length (on_desk E.about self.now).system.wires }
        ensures zero { result.0 ≡ probed (on_desk E.about self.now).numbers wire false }
        ensures one { result.1 ≡ probed (on_desk E.about self.now).numbers wire true }
    {
        let zero = cost_of(&self.found.numbers, wire as usize, false);
        let one = cost_of(&self.found.numbers, wire as usize, true);
        (zero, one)
    }

    /// Writes the graph of the states that agree with the case.
    pub(crate) fn write_states<O: Sink>(&mut self, out: &mut O) -> Result<(), WriteFailed>
        requires drawn { (on_desk E.about self.old).system.graphs ≡ true }
        ensures text { Puts (O.got out.old) (O.got out.new) result (states_text (on_desk E.about self.old).system (on_desk E.about self.old).known) }
        ensures same { (on_desk E.about self.new) ≡ (on_desk E.about self.old) }
        ensures cause { HasCause (O.faults out.old) (O.faults out.new) result }
    {
        self.engine.write_states(out)
    }

    /// Writes the graph of the diagnoses.
    pub(crate) fn write_diagnoses<O: Sink>(&mut self, out: &mut O) -> Result<(), WriteFailed>
        requires told { (on_desk E.about self.old).system.extras.least ≡ true }
        ensures text { Puts (O.got out.old) (O.got out.new) result (diagnoses_text (on_desk E.about self.old).system (on_desk E.about self.old).known) }
        ensures same { (on_desk E.about self.new) ≡ (on_desk E.about self.old) }
        ensures cause { HasCause (O.faults out.old) (O.faults out.new) result }
    {
        self.engine.write_diagnoses(out)
    }

    /// Whether each name is a part's. If so, the state is then the one with these parts faulty.
    pub(crate) fn mark(&mut self, names: &[u8]) -> bool
        ensures named { result ≡ list_all (is_among (on_desk E.about self.old).system.parts) (words names.now) }
        ensures state { result ≡ true → bits_of (on_desk E.about self.new).state ≡ state_of (words names.now) (on_desk E.about self.old).system.parts }
        ensures stays { (on_desk E.about self.new) ≡ record (on_desk E.about self.old) { state = (on_desk E.about self.new).state } }
    {
        mark_named(self.engine.parts(), names, &mut self.found.state)
    }
}

// Whether each name is a part's. If so, the state is then the one with these parts faulty.
#[tactic(auto, using(crate::proofs::Rules::marked_parts))]
fn mark_named(parts: &[Name], names: &[u8], state: &mut [u32]) -> bool
    requires long { length state.old ≡ length parts.now }
    requires rise { names_rise parts.now ≡ true }
    requires few { length parts.now ≤ PART_LIMIT }
    ensures named { result ≡ list_all (is_among parts.now) (words names.now) }
    ensures state { result ≡ true → bits_of state.new ≡ state_of (words names.now) parts.now }
    ensures bits { All (λ s. s < 2) state.new }
{
    state.fill(0);
    for name in each_name(names) {
        match place_of(parts, name) {
            None => return false,
            Some(part) => state[part as usize] = 1,
        }
    }
    true
}
