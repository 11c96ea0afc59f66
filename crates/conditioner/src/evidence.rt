ghost use Rattle.std.specs.Prelude.{◌≡◌, ◌≢◌, ℕ, ◌-◌, ◌<◌, ◌≤◌, ◌==◌, false, not, length, All, slice_index, slice_set};
ghost use Rattle.conditioner.specs.Evidence.{known_of, word_of, word_of_known, leaf_of};

use crate::leaves::Leaf;

/// Returns what a word says of its variable: nothing, true or false. A part that is true is ok.
pub fn known_of(word: u32) -> Option<bool>
    ensures { result ≡ known_of word }
{
    match word {
        0 => None,
        1 => Some(true),
        _ => Some(false),
    }
}

/// Returns the word for what is known of a variable.
pub fn word_of_known(known: Option<bool>) -> u32
    ensures { result ≡ word_of_known known }
{
    match known {
        None => 0,
        Some(true) => 1,
        Some(false) => 2,
    }
}

/// Whether a word says nothing of its variable.
pub fn is_open(word: u32) -> bool
    ensures { result ≡ (word == 0) }
{
    known_of(word).is_none()
}

/// Whether a word says that its variable is false: of a part, that it is faulty.
pub fn is_false(word: u32) -> bool
    ensures { result ≡ (word == word_of false) }
{
    word == word_of_known(Some(false))
}

/// Whether the word of a part in a state says that it is faulty: 0 says that it is ok.
pub fn is_faulty(word: u32) -> bool
    ensures { result ≡ not (word == 0) }
{
    word != 0
}

/// Fixes a variable to a bit.
pub fn fix(evidence: &mut [u32], var: u32, bit: bool)
    requires evidence { All (λ w. w < 3) evidence.old }
    requires var { (1 ≤ var) × (var ≤ length evidence.old) }
    ensures fixed { evidence.new ≡ slice_set evidence.old (var - 1) (word_of bit) }
    ensures evidence { All (λ w. w < 3) evidence.new }
{
    evidence[var as usize - 1] = word_of_known(Some(bit));
}

/// Makes a variable open.
pub fn loose(evidence: &mut [u32], var: u32)
    requires evidence { All (λ w. w < 3) evidence.old }
    requires var { (1 ≤ var) × (var ≤ length evidence.old) }
    ensures open { evidence.new ≡ slice_set evidence.old (var - 1) 0 }
    ensures evidence { All (λ w. w < 3) evidence.new }
{
    evidence[var as usize - 1] = word_of_known(None);
}

/// Returns the literal of a variable under the evidence.
pub fn leaf(evidence: &[u32], var: u32, positive: bool) -> Leaf
    requires evidence { All (λ w. w < 3) evidence.now }
    requires var { (1 ≤ var) × (var ≤ length evidence.now) }
    ensures { result ≡ leaf_of positive (known_of (slice_index evidence.now (var - 1))) }
{
    match known_of(evidence[var as usize - 1]) {
        None => Leaf::Open,
        Some(bit) if bit == positive => Leaf::True,
        Some(_) => Leaf::False,
    }
}

/// Fixes each open variable from place `from` to before place `to`, counted from 0, to true: a part to ok.
pub fn fix_ok(evidence: &mut [u32], from: usize, to: usize)
    requires evidence { All (λ w. w < 3) evidence.old }
    requires to { to ≤ length evidence.old }
    ensures evidence { All (λ w. w < 3) evidence.new }
    ensures fixed { (k : ℕ) → from ≤ k → k < to → slice_index evidence.old k ≡ 0 → slice_index evidence.new k ≡ 1 }
    ensures kept { (k : ℕ) → slice_index evidence.old k ≢ 0 → slice_index evidence.new k ≡ slice_index evidence.old k }
    ensures before { (k : ℕ) → k < from → slice_index evidence.new k ≡ slice_index evidence.old k }
    ensures behind { (k : ℕ) → to ≤ k → slice_index evidence.new k ≡ slice_index evidence.old k }
{
    for part in from..to {
        if is_open(evidence[part]) {
            evidence[part] = word_of_known(Some(true));
        }
    }
}
