//! What sessions ask.
ghost use Rattle.std.specs.Prelude.{◌≡◌, ◌*◌, ◌<◌, ℕ, Bool, true, false, length, All, IfSome, Some, is_some, slice_get};
ghost use Rattle.std.specs.Option.{option_map};
ghost use Rattle.diag_edge.specs.Edge.{HasCause, Puts};
ghost use Rattle.conditioner.specs.Evidence.{bits_of};
ghost use Rattle.session_rules.specs.Replies.{seen_at};
ghost use Rattle.state_rules.specs.Numbers.{probed};
ghost use Rattle.engines.specs.Answers.{About, least_of, diagnoses_of, is_listed, later_states, next_after, IsFirst, least_seen, blame_of};
ghost use Rattle.engines.specs.Offered.{IsOffered, IsEvidenceOf, case_in, states_text, diagnoses_text};

use crate::{Listed, NextState};
use device_model::Name;
use diag_edge::{Sink, WriteFailed};
use state_rules::Blame;

/// Answers questions about the cases of one system, one case at a time. What it answers follows from the system and the case alone. A state
/// is a word for each part: 0 if it is ok, 1 if it is faulty.
pub trait Engine: Drop {
    /// The system, which no call changes, and the case in question, which only `take_up` changes.
    ghost about: { Self → About };

    /// Returns the names of the parts. By its contract the system is one that sessions may be over.
    fn parts(&self) -> &[Name]
        ensures names { result.now ≡ (about self.now).system.parts }
        ensures offered { IsOffered (about self.now).system };

    /// Returns the names of the wires.
    fn wires(&self) -> &[Name]
        ensures names { result.now ≡ (about self.now).system.wires }
        ensures offered { IsOffered (about self.now).system };

    /// Whether there is a listing.
    fn lists(&self, listed: Listed) -> bool
        ensures { result ≡ is_listed (about self.now).system listed };

    /// Whether the graph of the diagnoses is written.
    fn tells_least(&self) -> bool
        ensures { result ≡ (about self.now).system.extras.least };

    /// Makes the case of this evidence the one in question.
    fn take_up(&mut self, evidence: &[u32])
        requires { IsEvidenceOf (about self.old).system evidence.now }
        ensures { about self.new ≡ record (about self.old) { known = case_in (about self.old).system evidence.now } };

    /// Whether graphs are written.
    fn draws(&self) -> bool
        ensures { result ≡ (about self.now).system.graphs };

    /// Whether a wire is seen in the case.
    fn is_seen(&self, wire: u32) -> bool
        requires { wire < length (about self.now).system.wires }
        ensures { result ≡ is_some (seen_at (about self.now).known wire) };

    /// Whether some state agrees with the case.
    fn is_consistent(&mut self) -> bool
        ensures some { result ≡ is_some (least_of (about self.old)) }
        ensures same { about self.new ≡ about self.old };

    /// Returns the least cost. The state is then the first diagnosis.
    fn first(&mut self, state: &mut [u32]) -> Option<u32>
        requires { length state.old ≡ length (about self.old).system.parts }
        ensures least { result ≡ least_of (about self.old) }
        ensures first { IsFirst (bits_of state.new) (diagnoses_of (about self.old)) }
        ensures bits { All (λ s. s < 2) state.new }
        ensures same { about self.new ≡ about self.old };

    /// Finds what comes next of a listing after a point, or first if there is none. The state is then the one found.
    fn next(&mut self, listed: Listed, point: Option<&[u32]>, state: &mut [u32]) -> NextState
        requires long { length state.old ≡ length (about self.old).system.parts }
        requires listed { is_listed (about self.old).system listed ≡ true }
        requires point { IfSome point (λ old. (length old.now ≡ length (about self.old).system.parts) × All (λ s. s < 2) old.now) }
        ensures next { result ≡ next_after (about self.old).system listed (about self.old).known (option_map (λ old. bits_of old.now) point.entry) }
        ensures state { IsFirst (bits_of state.new)
            (later_states (about self.old).system listed (about self.old).known (option_map (λ old. bits_of old.now) point.entry)) }
        ensures bits { All (λ s. s < 2) state.new }
        ensures same { about self.new ≡ about self.old };

    /// Returns the least cost if a wire is 0, and if it is 1.
    fn probe(&mut self, wire: u32) -> (Option<u32>, Option<u32>)
        requires { wire < length (about self.old).system.wires }
        ensures zero { result.0 ≡ least_seen (about self.old) wire false }
        ensures one { result.1 ≡ least_seen (about self.old) wire true }
        ensures same { about self.new ≡ about self.old };

    /// Whether some state agrees with the case. The numbers are then the least costs of all wires, first those at 0.
    fn probe_all(&mut self, numbers: &mut [u32]) -> bool
        requires { length numbers.old ≡ 2 * length (about self.old).system.wires }
        ensures some { result ≡ is_some (least_of (about self.old)) }
        ensures probed { (wire : ℕ) (bit : Bool) → wire < length (about self.old).system.wires
            → probed numbers.new wire bit ≡ least_seen (about self.old) wire bit }
        ensures same { about self.new ≡ about self.old };

    /// Finds for each part whether it is faulty in all diagnoses, in some or in none.
    fn blame(&mut self, verdicts: &mut [Blame])
        requires { length verdicts.old ≡ length (about self.old).system.parts }
        ensures blame { (part : ℕ) → part < length (about self.old).system.parts
            → slice_get verdicts.new part ≡ Some (blame_of (about self.old) part) }
        ensures same { about self.new ≡ about self.old };

    /// Writes the graph of the states that agree with the case, if graphs are written.
    fn write_states<O: Sink>(&mut self, out: &mut O) -> Result<(), WriteFailed>
        ensures text { (about self.old).system.graphs ≡ true → Puts (O.got out.old) (O.got out.new) result
            (states_text (about self.old).system (about self.old).known) }
        ensures cause { HasCause (O.faults out.old) (O.faults out.new) result }
        ensures same { about self.new ≡ about self.old };

    /// Writes the graph of the diagnoses, if it is written.
    fn write_diagnoses<O: Sink>(&mut self, out: &mut O) -> Result<(), WriteFailed>
        ensures text { (about self.old).system.extras.least ≡ true → Puts (O.got out.old) (O.got out.new) result
            (diagnoses_text (about self.old).system (about self.old).known) }
        ensures cause { HasCause (O.faults out.old) (O.faults out.new) result }
        ensures same { about self.new ≡ about self.old };
}
