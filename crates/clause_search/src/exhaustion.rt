ghost use Rattle.std.specs.Prelude.{◌≡◌, ◌+◌, ◌≤◌, ◌^◌, ◌&&◌, ℕ, true, false, length, slice_index_or};
ghost use Rattle.state_rules.specs.Bits.{row_number};
ghost use Rattle.state_rules.specs.Assignments.{assignment};
ghost use Rattle.clause_search.specs.Searching.{keeps, all_true, all_vars, are_within, Refutes};

use crate::kernel::Kernel;
use crate::literals::all_true;

/// Finds bits that keep the rules and make all literals true, or else that there are none, by trying all. This is the last resort of a search.
#[tactic(auto, using(crate::proofs::Exhausted::trying))]
pub(crate) fn try_all(kernel: &Kernel, literals: &[i32], bits: &mut [bool]) -> bool
    requires within { are_within (all_vars kernel.now) literals.now ≡ true }
    requires long { all_vars kernel.now ≤ length bits.old }
    ensures kept { result ≡ true → keeps kernel.now (assignment bits.new) ≡ true }
    ensures assumed { result ≡ true → all_true (assignment bits.new) literals.now ≡ true }
    ensures none { result ≡ false → Refutes kernel.now literals.now }
{
    let _definitions = kernel.definitions();
    clear(bits);
    'tries: loop {
        if is_found(kernel, literals, bits) {
            return true;
        }
        if !advance(bits) {
            return false;
        }
    }
}

fn is_found(kernel: &Kernel, literals: &[i32], bits: &[bool]) -> bool
    ensures { result ≡ (keeps kernel.now (assignment bits.now) && all_true (assignment bits.now) literals.now) }
{
    kernel.is_model(bits) && all_true(bits, literals)
}

#[tactic(auto, using(crate::proofs::Exhausted::zero_bits))]
fn clear(bits: &mut [bool])
    ensures { row_number bits.new ≡ 0 }
{
    for bit in bits.iter_mut() {
        *bit = false;
    }
}

// Adds one to bits as a binary number whose lowest bit is the first, unless all are 1.
#[tactic(auto, using(crate::proofs::Exhausted::adding))]
fn advance(bits: &mut [bool]) -> bool
    ensures more { result ≡ true → row_number bits.new ≡ row_number bits.old + 1 }
    ensures last { result ≡ false → row_number bits.old + 1 ≡ 2 ^ length bits.old }
{
    for at in 0..bits.len() {
        if !bits[at] {
            bits[at] = true;
            return true;
        }
        bits[at] = false;
    }
    false
}
