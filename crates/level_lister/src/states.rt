//! States, and the evidence that fixes them.
ghost use Rattle.std.specs.Prelude.{◌≡◌, ◌+◌, ◌<◌, ◌≤◌, ◌++◌, drop, length, All};
ghost use Rattle.state_rules.specs.Ranking.{cost};
ghost use Rattle.conditioner.specs.Models.{total_cost};
ghost use Rattle.conditioner.specs.Evidence.{bits_of};
ghost use Rattle.diagnosis_lister.specs.inner.Fixing.{Agrees, Follows, fixed_bits};

use conditioner::{is_false, is_faulty, is_open, word_of_known};
use minimiser::TOTAL_LIMIT;

/// Returns the sum of the costs of the faulty parts of a state: a word for each part, 0 if it is ok, 1 if it is faulty.
#[tactic(auto, using(crate::proofs::StateCosts::cost_steps))]
pub fn state_cost(state: &[u32], costs: &[u32]) -> u32
    requires long { length state.now ≡ length costs.now }
    requires total { total_cost costs.now < TOTAL_LIMIT }
    ensures { result ≡ cost costs.now (bits_of state.now) }
{
    let mut total = 0;
    for (part, cost) in costs.iter().enumerate() {
        if is_faulty(state[part]) {
            total += *cost;
        }
    }
    total
}

// Fixes the open parts as in the state, up to the first part that is fixed otherwise. Returns the number of these parts, with that one.
pub(crate) fn follow(evidence: &mut [u32], state: &[u32]) -> usize
    requires long { length state.now ≤ length evidence.old }
    requires evidence { All (λ w. w < 3) evidence.old }
    ensures within { result ≤ length state.now }
    ensures evidence { All (λ w. w < 3) evidence.new }
    ensures follows { Follows (Agrees (length state.now) evidence.old) evidence.old (bits_of state.now) evidence.new result }
{
    for (part, faulty) in state.iter().enumerate() {
        let word = word_of_known(Some(!is_faulty(*faulty)));
        if is_open(evidence[part]) {
            evidence[part] = word;
        } else if evidence[part] != word {
            return part + 1;
        }
    }
    state.len()
}

// Writes into the state what the evidence says of the parts.
#[tactic(auto, using(crate::proofs::Rules::states_read))]
pub(crate) fn read_state(evidence: &[u32], state: &mut [u32])
    requires { length state.old ≤ length evidence.now }
    ensures bits { bits_of state.new ≡ fixed_bits (length state.old) evidence.now }
    ensures small { All (λ s. s < 2) state.new }
{
    for (part, faulty) in state.iter_mut().enumerate() {
        *faulty = u32::from(is_false(evidence[part]));
    }
}

// Saves the evidence on the parts.
pub(crate) fn keep(evidence: &[u32], saved: &mut [u32])
    requires { length saved.old ≤ length evidence.now }
    ensures { evidence.now ≡ saved.new ++ drop (length saved.old) evidence.now }
{
    let (parts, _) = evidence.split_at(saved.len());
    saved.copy_from_slice(parts);
}

// Restores the evidence on the parts.
pub(crate) fn put_back(evidence: &mut [u32], saved: &[u32])
    requires { length saved.now ≤ length evidence.old }
    ensures { evidence.new ≡ saved.now ++ drop (length saved.now) evidence.old }
{
    let (parts, _) = evidence.split_at_mut(saved.len());
    parts.copy_from_slice(saved);
}
