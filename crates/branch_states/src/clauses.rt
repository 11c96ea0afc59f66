ghost use Rattle.std.specs.Prelude.{◌≡◌, ◌<◌, ◌*◌, ◌&&◌, ◌||◌, not, true, List, Bool, length, nat_lt};
ghost use Rattle.state_rules.specs.Bits.{bit_in};
ghost use Rattle.clause_encoder.specs.Clauses.{var_of};
ghost use Rattle.elimination_forests.specs.Branches.{place, words_of, is_true_by, has_true, is_touched, is_covered, is_active};

use crate::bits::bit_at;
use indexmap::IndexSet;

// The place of a variable in an order, or the order's length if it is not there.
#[tactic(auto, using(crate::proofs::FoundOrder::place_found))]
fn place(variables: &IndexSet<u32>, variable: u32) -> usize
    ensures { result ≡ place variables.now.keys variable }
{
    variables.get_index_of(&variable).unwrap_or(variables.len())
}

// Whether a literal's variable is assigned at a level.
fn has_bit(variables: &IndexSet<u32>, level: u32, literal: &i32) -> bool
    ensures { result ≡ nat_lt (place variables.now.keys (var_of literal.now)) level }
{
    place(variables, literal.unsigned_abs()) < level as usize
}

fn is_touched(variables: &IndexSet<u32>, level: u32, clause: &[i32]) -> bool
    ensures { result ≡ is_touched variables.now.keys level clause.now }
{
    for literal in clause {
        if has_bit(variables, level, literal) {
            return true;
        }
    }
    false
}

// Whether all variables of the clause are assigned at a level.
pub(crate) fn is_covered(variables: &IndexSet<u32>, level: u32, clause: &[i32]) -> bool
    ensures { result ≡ is_covered variables.now.keys level clause.now }
{
    for literal in clause {
        if !has_bit(variables, level, literal) {
            return false;
        }
    }
    true
}

// Whether some of them are assigned, and some are not.
pub(crate) fn is_active(variables: &IndexSet<u32>, level: u32, clause: &[i32]) -> bool
    ensures { result ≡ is_active variables.now.keys level clause.now }
{
    is_touched(variables, level, clause) && !is_covered(variables, level, clause)
}

fn is_true_by(literal: i32, variable: u32, bit: bool) -> bool
    ensures { result ≡ is_true_by variable bit literal }
{
    literal.unsigned_abs() == variable && (literal >= 0) == bit
}

// Whether this bit of the variable makes a literal of the clause true.
pub(crate) fn has_true(clause: &[i32], variable: u32, bit: bool) -> bool
    ensures { result ≡ has_true variable bit clause.now }
{
    clause
        .iter()
        .any(|literal| is_true_by(*literal, variable, bit))
}

// Whether the clause is in the list of a state of a level. If it is active, its bit is at this place.
pub(crate) fn is_in(
    variables: &IndexSet<u32>,
    level: u32,
    clause: &[i32],
    state: &[u64],
    at: usize,
) -> bool
    requires { is_active variables.now.keys level clause.now ≡ true → at < 64 * length state.now }
    ensures { (bits : List Bool) → state.now ≡ words_of (length state.now) bits
        → result ≡ (not (is_covered variables.now.keys level clause.now) && (not (is_touched variables.now.keys level clause.now) || bit_in bits at)) }
{
    !is_covered(variables, level, clause)
        && (!is_touched(variables, level, clause) || bit_at(state, at))
}
