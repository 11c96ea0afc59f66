ghost use Rattle.std.specs.Prelude.{◌≡◌, ℕ, ◌+◌, ◌/◌, ◌%◌, ◌<◌, ◌≤◌, Bool, true, false, not, if◌then◌else◌, List, Some, is_some, length, slice_index};
ghost use Rattle.state_rules.specs.Bits.{bit_in, same_bit};
ghost use Rattle.state_rules.specs.Numbers.{probed};
ghost use Rattle.clause_answers.specs.Questions.{Question, least_under, least_with};
ghost use Rattle.clause_answers.specs.inner.Asking.{Fits, cost_of};
ghost use Rattle.clause_answers.specs.inner.Reported.{IsRight, AreRight, AreOpen, AreKept};

use crate::case_search::CaseSearch;
use crate::literals::literal_of;
use crate::oracle::Oracle;

impl CaseSearch {
    /// Returns the least cost if a variable is false, and the least cost if it is true.
    pub fn probe(&mut self, var: u32) -> (Option<u32>, Option<u32>)
        requires { (1 ≤ var) × (var ≤ self.old.cnf.vars) }
        ensures zero { result.0 ≡ least_with self.old var false }
        ensures one { result.1 ≡ least_with self.old var true }
        ensures same { self.new ≡ self.old }
    {
        // What this finds out about costs makes the questions fast.
        let _least = self.oracle.minimum(&[]);
        let place = var as usize - 1;
        let zero = least_where(&mut self.oracle, place, false);
        let one = least_where(&mut self.oracle, place, true);
        (zero, one)
    }

    /// Computes for all wires at once what `probe` returns for one. Returns whether some state agrees with the evidence.
    ///
    /// The wires' variables follow the parts'. [`state_rules::cost_of`] reads the numbers, two for each wire.
    pub fn probe_all(&mut self, numbers: &mut [u32]) -> bool
        requires even { length numbers.old % 2 ≡ 0 }
        requires wires { length self.old.costs + length numbers.old / 2 ≤ self.old.cnf.vars }
        ensures some { result ≡ is_some (least_under self.old) }
        ensures probes { (wire : ℕ) (bit : Bool) → wire < length numbers.old / 2
            → probed numbers.new wire bit ≡ least_with self.old (length self.old.costs + wire + 1) bit }
        ensures same { self.new ≡ self.old }
    {
        let (zeros, ones) = numbers.split_at_mut(numbers.len() / 2);
        probe_wires(&mut self.oracle, zeros, ones)
    }
}

// Returns the least cost if the variable after `place` others has a bit. Bits of this cost are then in the oracle.
pub(crate) fn least_where(oracle: &mut Oracle, place: usize, bit: bool) -> Option<u32>
    requires { place < oracle.old.question.cnf.vars }
    ensures least { result ≡ least_with oracle.old.question (place + 1) bit }
    ensures found { (n : ℕ) → result ≡ Some n → Fits oracle.old.question oracle.new.bits × (cost_of oracle.old.question oracle.new.bits ≡ n) }
    ensures same { oracle.new ≡ record oracle.old { bits = oracle.new.bits } }
{
    let _parts = oracle.costs();
    let _valid = oracle.evidence();
    oracle.minimum(&[literal_of(place, bit)])
}

// Computes the numbers of the wires if they are 0, and if they are 1. Returns whether some state agrees.
fn probe_wires(oracle: &mut Oracle, zeros: &mut [u32], ones: &mut [u32]) -> bool
    requires wires { length oracle.old.question.costs + length zeros.old ≤ oracle.old.question.cnf.vars }
    requires ones { length ones.old ≡ length zeros.old }
    ensures some { result ≡ is_some (least_under oracle.old.question) }
    ensures zeros { AreRight oracle.old.question false zeros.new (length zeros.old) }
    ensures ones { AreRight oracle.old.question true ones.new (length zeros.old) }
    ensures same { oracle.new ≡ record oracle.old { bits = oracle.new.bits } }
{
    zeros.fill(u32::MAX);
    ones.fill(u32::MAX);
    let _parts = oracle.costs();
    let Some(least) = oracle.minimum(&[]) else {
        return false;
    };
    probe_list(oracle, least, false, zeros, ones);
    probe_list(oracle, least, true, ones, zeros);
    true
}

// Computes the numbers of the wires if they have a bit, where they are not known.
fn probe_list(oracle: &mut Oracle, least: u32, bit: bool, list: &mut [u32], other: &mut [u32])
    requires wires { length oracle.old.question.costs + length list.old ≤ oracle.old.question.cnf.vars }
    requires other { length other.old ≡ length list.old }
    requires least { (b : List Bool) → Fits oracle.old.question b → least ≤ cost_of oracle.old.question b }
    requires open { AreOpen oracle.old.question bit list.old }
    ensures right { AreRight oracle.old.question bit list.new (length list.old) }
    ensures others { AreKept oracle.old.question (not bit) other.old other.new }
    ensures same { oracle.new ≡ record oracle.old { bits = oracle.new.bits } }
{
    let _parts = oracle.costs();
    for wire in 0..list.len() {
        probe_wire(oracle, least, bit, list, other, wire);
    }
}

// Computes the number of one wire, if it is not known. Notes what a state of the least cost shows of the others.
fn probe_wire(
    oracle: &mut Oracle,
    least: u32,
    bit: bool,
    list: &mut [u32],
    other: &mut [u32],
    wire: usize,
)
    requires wire { wire < length list.old }
    requires wires { length oracle.old.question.costs + length list.old ≤ oracle.old.question.cnf.vars }
    requires other { length other.old ≡ length list.old }
    requires least { (b : List Bool) → Fits oracle.old.question b → least ≤ cost_of oracle.old.question b }
    requires open { AreOpen oracle.old.question bit list.old }
    ensures right { IsRight oracle.old.question (length oracle.old.question.costs + wire) bit (slice_index list.new wire) }
    ensures kept { AreKept oracle.old.question bit list.old list.new }
    ensures others { AreKept oracle.old.question (not bit) other.old other.new }
    ensures same { oracle.new ≡ record oracle.old { bits = oracle.new.bits } }
{
    if list[wire] != u32::MAX {
        return;
    }
    let parts = oracle.costs().len();
    let found = least_where(oracle, parts + wire, bit);
    list[wire] = found.unwrap_or(u32::MAX);
    if found == Some(least) {
        note(oracle.bits(), parts, least, bit, list, other);
    }
}

// Writes the least cost for what wires have in bits of this cost. The wires come after the parts.
fn note(bits: &[bool], parts: usize, least: u32, bit: bool, list: &mut [u32], other: &mut [u32])
    requires bits { parts + length list.old ≤ length bits.now }
    requires other { length other.old ≡ length list.old }
    ensures list { (i : ℕ) → i < length list.old → slice_index list.new i ≡ (if same_bit bit (bit_in bits.now (parts + i)) then least else slice_index list.old i) }
    ensures other { (i : ℕ) → i < length list.old → slice_index other.new i ≡ (if same_bit bit (bit_in bits.now (parts + i)) then slice_index other.old i else least) }
{
    for wire in 0..list.len() {
        if bits[parts + wire] == bit {
            list[wire] = least;
        } else {
            other[wire] = least;
        }
    }
}
