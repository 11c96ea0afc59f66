ghost use Rattle.std.specs.Prelude.{◌≡◌, ◌^◌, ◌<◌, All, length};
ghost use Rattle.conditioner.specs.Evidence.{bits_of};
ghost use Rattle.clause_answers.specs.inner.Listed.{AreOrdered, signs};

use crate::finding::{is_positive, put};

/// Makes the literals say a state.
pub(crate) fn read(literals: &mut [i32], state: &[u32])
    requires long { length state.now ≡ length literals.old }
    requires few { length literals.old < 2 ^ 31 }
    ensures ordered { AreOrdered literals.new (length literals.old) }
    ensures said { signs literals.new ≡ bits_of state.now }
{
    for place in 0..state.len() {
        put(literals, place, state[place] == 0);
    }
}

/// Writes the state that literals say.
pub(crate) fn write(state: &mut [u32], literals: &[i32])
    requires { length state.old ≡ length literals.now }
    ensures said { bits_of state.new ≡ signs literals.now }
    ensures words { All (λ s. s < 2) state.new }
{
    for place in 0..literals.len() {
        state[place] = if is_positive(literals[place]) { 0 } else { 1 };
    }
}
