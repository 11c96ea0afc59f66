//! The first state in a range of costs, and the next after a point.
ghost use Rattle.std.specs.Prelude.{◌≡◌, ℕ, ◌+◌, ◌^◌, ◌<◌, ◌≤◌, Bool, true, false, not, List, length};
ghost use Rattle.state_rules.specs.Bits.{bit_in, AlikeBelow};
ghost use Rattle.state_rules.specs.Ranking.{is_before};
ghost use Rattle.clause_encoder.specs.Clauses.{is_positive};
ghost use Rattle.diagnosis_lister.specs.inner.Fixing.{IsFirst};
ghost use Rattle.clause_answers.specs.inner.Asking.{Asked};
ghost use Rattle.clause_answers.specs.inner.Listed.{Meets, Shows, AreOk, AreOrdered, signs};

use crate::literals::literal_of;
use crate::oracle::Oracle;

// With so many questions in vain, it pays to find out which parts are faulty in no state of the range.
const PATIENCE: u32 = 64;

/// Whether some bits in the range begin as the first `n` literals say. If so, they are then in the oracle.
pub(crate) fn find(oracle: &mut Oracle, literals: &[i32], n: usize) -> bool
    requires within { n ≤ length literals.now }
    requires long { length literals.now ≡ length oracle.old.question.costs }
    requires ordered { AreOrdered literals.now n }
    ensures meets { result ≡ true → Meets oracle.old.question oracle.old.low oracle.old.high oracle.new.bits }
    ensures alike { result ≡ true → AlikeBelow n oracle.new.bits (signs literals.now) }
    ensures none { result ≡ false → (b : List Bool) → Meets oracle.old.question oracle.old.low oracle.old.high b
        → AlikeBelow n b (signs literals.now) → ⊥ }
    ensures kept { result ≡ false → oracle.new ≡ oracle.old }
    ensures same { oracle.new ≡ record oracle.old { bits = oracle.new.bits } }
{
    let _parts = oracle.costs();
    oracle.ask(&literals[..n])
}

/// Whether a part has this bit in some bits in the range. If so, they are then in the oracle.
pub(crate) fn find_part(oracle: &mut Oracle, part: usize, bit: bool) -> bool
    requires part { part < length oracle.old.question.costs }
    requires few { length oracle.old.question.costs < 2 ^ 31 }
    ensures meets { result ≡ true → Meets oracle.old.question oracle.old.low oracle.old.high oracle.new.bits }
    ensures has { result ≡ true → bit_in oracle.new.bits part ≡ bit }
    ensures none { result ≡ false → (b : List Bool) → Meets oracle.old.question oracle.old.low oracle.old.high b → bit_in b part ≡ not bit }
    ensures kept { result ≡ false → oracle.new ≡ oracle.old }
    ensures same { oracle.new ≡ record oracle.old { bits = oracle.new.bits } }
{
    let _parts = oracle.costs();
    oracle.ask(&[literal_of(part, bit)])
}

// Writes the literal of the part at a place.
pub(crate) fn put(literals: &mut [i32], place: usize, bit: bool)
    requires place { place < length literals.old }
    requires few { length literals.old < 2 ^ 31 }
    ensures front { AlikeBelow place (signs literals.new) (signs literals.old) }
    ensures bit { bit_in (signs literals.new) place ≡ bit }
    ensures ordered { AreOrdered literals.old place → AreOrdered literals.new (place + 1) }
{
    literals[place] = literal_of(place, bit);
}

pub(crate) fn is_positive(literal: i32) -> bool
    ensures { result ≡ is_positive literal }
{
    literal >= 0
}

// Fixes the part at a place to faulty, if some bits in the range begin so, and else to ok. Returns whether that was asked in vain.
fn fix(oracle: &mut Oracle, oks: &[bool], literals: &mut [i32], place: usize) -> bool
    requires place { place < length literals.old }
    requires long { length literals.old ≡ length oracle.old.question.costs }
    requires few { length literals.old < 2 ^ 31 }
    requires ordered { AreOrdered literals.old place }
    requires oks { AreOk oracle.old.question oracle.old.low oracle.old.high oks.now }
    requires oks_long { length oks.now ≡ length literals.old }
    requires meets { Meets oracle.old.question oracle.old.low oracle.old.high oracle.old.bits }
    requires alike { AlikeBelow place oracle.old.bits (signs literals.old) }
    ensures kept { AlikeBelow place (signs literals.new) (signs literals.old) }
    ensures ordered { AreOrdered literals.new (place + 1) }
    ensures meets { Meets oracle.old.question oracle.old.low oracle.old.high oracle.new.bits }
    ensures alike { AlikeBelow (place + 1) oracle.new.bits (signs literals.new) }
    ensures least { bit_in (signs literals.new) place ≡ true → (b : List Bool) → Meets oracle.old.question oracle.old.low oracle.old.high b
        → AlikeBelow place b (signs literals.old) → bit_in b place ≡ true }
    ensures same { oracle.new ≡ record oracle.old { bits = oracle.new.bits } }
{
    let _parts = oracle.costs();
    if !oracle.bits()[place] {
        put(literals, place, false);
        return false;
    }
    if oks[place] || oracle.is_ok(place as u32) {
        put(literals, place, true);
        return false;
    }
    put(literals, place, false);
    if find(oracle, literals, place + 1) {
        return false;
    }
    put(literals, place, true);
    true
}

// Finds out which of the parts from a place on are ok in all bits in the range, if that was not tried before.
fn sift(oracle: &mut Oracle, oks: &mut [bool], tried: &mut [bool], literals: &[i32], from: usize)
    requires from { from ≤ length literals.now }
    requires long { length literals.now ≡ length oracle.old.question.costs }
    requires few { length literals.now < 2 ^ 31 }
    requires ordered { AreOrdered literals.now from }
    requires oks { AreOk oracle.old.question oracle.old.low oracle.old.high oks.old }
    requires oks_long { length oks.old ≡ length literals.now }
    requires tried_long { length tried.old ≡ length literals.now }
    requires meets { Meets oracle.old.question oracle.old.low oracle.old.high oracle.old.bits }
    requires alike { AlikeBelow from oracle.old.bits (signs literals.now) }
    ensures oks { AreOk oracle.old.question oracle.old.low oracle.old.high oks.new }
    ensures meets { Meets oracle.old.question oracle.old.low oracle.old.high oracle.new.bits }
    ensures alike { AlikeBelow from oracle.new.bits (signs literals.now) }
    ensures same { oracle.new ≡ record oracle.old { bits = oracle.new.bits } }
{
    for part in from..oks.len() {
        if tried[part] || oracle.is_ok(part as u32) {
            continue;
        }
        if find_part(oracle, part, false) {
            note_faulty(tried, oracle.bits());
        } else {
            oks[part] = true;
        }
        tried[part] = true;
    }
    let _found = find(oracle, literals, from);
}

// Marks the parts that are faulty in some bits.
fn note_faulty(marks: &mut [bool], bits: &[bool]) {
    for (mark, bit) in marks.iter_mut().zip(bits) {
        *mark = *mark || !*bit;
    }
}

/// Fixes the parts from a place on as in the first state in the range that begins as the literals before say.
pub(crate) fn complete(
    oracle: &mut Oracle,
    oks: &mut [bool],
    tried: &mut [bool],
    literals: &mut [i32],
    from: usize,
)
    requires from { from ≤ length literals.old }
    requires long { length literals.old ≡ length oracle.old.question.costs }
    requires few { length literals.old < 2 ^ 31 }
    requires ordered { AreOrdered literals.old from }
    requires oks { AreOk oracle.old.question oracle.old.low oracle.old.high oks.old }
    requires oks_long { length oks.old ≡ length literals.old }
    requires tried_long { length tried.old ≡ length literals.old }
    requires meets { Meets oracle.old.question oracle.old.low oracle.old.high oracle.old.bits }
    requires alike { AlikeBelow from oracle.old.bits (signs literals.old) }
    ensures first { IsFirst (λ h. Shows oracle.old.question oracle.old.low oracle.old.high h × AlikeBelow from h (signs literals.old)) (signs literals.new) }
    ensures oks { AreOk oracle.old.question oracle.old.low oracle.old.high oks.new }
    ensures same { oracle.new ≡ record oracle.old { bits = oracle.new.bits } }
{
    let _parts = oracle.costs();
    let mut vain = 0u32;
    for place in from..literals.len() {
        if fix(oracle, oks, literals, place) {
            vain = vain.wrapping_add(1);
            if vain == PATIENCE {
                sift(oracle, oks, tried, literals, place + 1);
            }
        }
    }
}

/// Finds the first state in the range. Returns whether there is one; the literals then say it.
pub(crate) fn first_state(
    oracle: &mut Oracle,
    oks: &mut [bool],
    tried: &mut [bool],
    literals: &mut [i32],
) -> bool
    requires long { length literals.old ≡ length oracle.old.question.costs }
    requires few { length literals.old < 2 ^ 31 }
    requires oks { AreOk oracle.old.question oracle.old.low oracle.old.high oks.old }
    requires oks_long { length oks.old ≡ length literals.old }
    requires tried_long { length tried.old ≡ length literals.old }
    ensures first { result ≡ true → IsFirst (λ h. Shows oracle.old.question oracle.old.low oracle.old.high h) (signs literals.new) }
    ensures none { result ≡ false → (h : List Bool) → Shows oracle.old.question oracle.old.low oracle.old.high h → ⊥ }
    ensures oks { AreOk oracle.old.question oracle.old.low oracle.old.high oks.new }
    ensures same { oracle.new ≡ record oracle.old { bits = oracle.new.bits } }
{
    if !find(oracle, literals, 0) {
        return false;
    }
    complete(oracle, oks, tried, literals, 0);
    true
}

/// Finds the first state in the range that comes after the one that the literals say. Returns whether there is one; the literals then say it.
pub(crate) fn next_state(
    oracle: &mut Oracle,
    oks: &mut [bool],
    tried: &mut [bool],
    literals: &mut [i32],
) -> bool
    requires long { length literals.old ≡ length oracle.old.question.costs }
    requires few { length literals.old < 2 ^ 31 }
    requires ordered { AreOrdered literals.old (length literals.old) }
    requires oks { AreOk oracle.old.question oracle.old.low oracle.old.high oks.old }
    requires oks_long { length oks.old ≡ length literals.old }
    requires tried_long { length tried.old ≡ length literals.old }
    ensures first { result ≡ true → IsFirst (λ h. Shows oracle.old.question oracle.old.low oracle.old.high h × (is_before (signs literals.old) h ≡ true)) (signs literals.new) }
    ensures none { result ≡ false → (h : List Bool) → Shows oracle.old.question oracle.old.low oracle.old.high h → is_before (signs literals.old) h ≡ true → ⊥ }
    ensures oks { AreOk oracle.old.question oracle.old.low oracle.old.high oks.new }
    ensures same { oracle.new ≡ record oracle.old { bits = oracle.new.bits } }
{
    let _parts = oracle.costs();
    for place in (0..literals.len()).rev() {
        if !is_positive(literals[place]) {
            put(literals, place, true);
            if find(oracle, literals, place + 1) {
                complete(oracle, oks, tried, literals, place + 1);
                return true;
            }
        }
    }
    false
}
