ghost use Rattle.std.specs.Prelude.{◌≡◌, ℕ, ◌+◌, ◌<◌, ◌≤◌, length, All, slice_index, if◌then◌else◌, ◌%◌};
ghost use Rattle.conditioner.specs.Evidence.{bits_of};
ghost use Rattle.diagnosis_lister.specs.inner.OpenMarks.{mark_of, is_marked, marked_bits, AreMarks};
ghost use Rattle.diagnosis_lister.specs.inner.Fixing.{fixed_bits};

use conditioner::{is_false, is_open};

// The search fixes open parts in the evidence. So that they can be found again, 2 is added to the word of each in the state.

pub(crate) fn mark(evidence: &[u32], state: &mut [u32])
    requires long { length state.old ≤ length evidence.now }
    requires small { All (λ s. s < 2) state.old }
    ensures each { (k : ℕ) → k < length state.old
        → slice_index state.new k ≡ mark_of (slice_index evidence.now k) (slice_index state.old k) }
    ensures marks { AreMarks evidence.now state.new }
    ensures bits { marked_bits state.new ≡ bits_of state.old }
{
    for (part, mark) in state.iter_mut().enumerate() {
        if is_open(evidence[part]) {
            *mark += 2;
        }
    }
}

pub(crate) fn unmark(state: &mut [u32])
    ensures { (k : ℕ) → k < length state.old → slice_index state.new k ≡ slice_index state.old k % 2 }
{
    for mark in state.iter_mut() {
        *mark %= 2;
    }
}

// Writes what the evidence says of the parts to the state, and opens the parts that were open.
#[tactic(auto, using(crate::proofs::Rules::states_read))]
pub(crate) fn write_back(evidence: &mut [u32], state: &mut [u32])
    requires { length state.old ≤ length evidence.old }
    ensures evidence { (k : ℕ) → k < length state.old → slice_index evidence.new k
        ≡ (if is_marked (slice_index state.old k) then 0 else slice_index evidence.old k) }
    ensures others { (k : ℕ) → length state.old ≤ k → slice_index evidence.new k ≡ slice_index evidence.old k }
    ensures bits { bits_of state.new ≡ fixed_bits (length state.old) evidence.old }
    ensures small { All (λ s. s < 2) state.new }
{
    for (part, mark) in state.iter_mut().enumerate() {
        let faulty = is_false(evidence[part]);
        if *mark >= 2 {
            evidence[part] = 0;
        }
        *mark = u32::from(faulty);
    }
}
