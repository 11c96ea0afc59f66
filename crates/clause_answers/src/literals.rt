ghost use Rattle.std.specs.Prelude.{◌≡◌, ℕ, ◌+◌, ◌^◌, ◌<◌, ◌≤◌, ◌++◌, [], ◌∷◌, true, Some, length, vec_len, vec_capacity};
ghost use Rattle.state_rules.specs.Bits.{same_bit};
ghost use Rattle.state_rules.specs.Assignments.{Assignment};
ghost use Rattle.clause_encoder.specs.Clauses.{var_of};
ghost use Rattle.clause_search.specs.Searching.{holds, all_true, are_within};
ghost use Rattle.clause_answers.specs.inner.Known.{AreTrue};

// The literal that the variable after `place` others has a bit.
pub(crate) fn literal_of(place: usize, bit: bool) -> i32
    requires { place + 1 < 2 ^ 31 }
    ensures holds { (a : Assignment) → holds a result ≡ same_bit bit (a (place + 1)) }
    ensures variable { var_of result ≡ place + 1 }
{
    let variable = place as i32 + 1;
    if bit { variable } else { -variable }
}

// Adds literals, for which there is room.
pub(crate) fn add_all(literals: &mut Vec<i32>, others: &[i32])
    requires { vec_len literals.old + length others.now ≤ vec_capacity literals.old }
    ensures items { literals.new.items ≡ literals.old.items ++ others.now }
    ensures len { vec_len literals.new ≡ vec_len literals.old + length others.now }
    ensures capacity { vec_capacity literals.old ≤ vec_capacity literals.new }
{
    let _ = literals.extend_from_slice(others);
}

// The number of variables before that of a literal which says that its variable is true.
pub(crate) fn place_of(literal: i32) -> Option<usize>
    ensures { (place : ℕ) → result ≡ Some place → (a : Assignment) → holds a literal ≡ a (place + 1) }
{
    if literal <= 0 {
        return None;
    }
    Some(literal as usize - 1)
}

// Adds the literals that variables with a weight are true, after so many other variables. It keeps room for some others.
#[tactic(auto, using(crate::proofs::KnownLiterals::weighted_steps))]
pub(crate) fn add_weighted(literals: &mut Vec<i32>, before: usize, weights: &[u32], spare: usize)
    requires few { before + length weights.now < 2 ^ 31 }
    requires room { length literals.old.items + spare ≤ vec_capacity literals.old }
    ensures room { length literals.new.items + spare ≤ vec_capacity literals.new }
    ensures only { (a : Assignment) → all_true a literals.new.items ≡ true → all_true a literals.old.items ≡ true }
    ensures enough { (a : Assignment) → all_true a literals.old.items ≡ true → AreTrue a before weights.now (length weights.now) → all_true a literals.new.items ≡ true }
    ensures within { (n : ℕ) → before + length weights.now ≤ n → are_within n literals.old.items ≡ true → are_within n literals.new.items ≡ true }
    ensures capacity { vec_capacity literals.new ≡ vec_capacity literals.old }
{
    for place in 0..weights.len() {
        if literals.len() + spare < literals.capacity() {
            add_if(literals, before + place, true, weights[place] != 0);
        }
    }
}

// Adds the literal that a variable has a bit, if it is wanted.
#[tactic(auto, using(crate::proofs::KnownLiterals::added_steps))]
pub(crate) fn add_if(literals: &mut Vec<i32>, place: usize, bit: bool, is_wanted: bool)
    requires few { place + 1 < 2 ^ 31 }
    requires room { length literals.old.items < vec_capacity literals.old }
    ensures len { length literals.new.items ≤ length literals.old.items + 1 }
    ensures only { (a : Assignment) → all_true a literals.new.items ≡ true → all_true a literals.old.items ≡ true }
    ensures bit { (a : Assignment) → all_true a literals.new.items ≡ true → is_wanted ≡ true → a (place + 1) ≡ bit }
    ensures enough { (a : Assignment) → all_true a literals.old.items ≡ true → (is_wanted ≡ true → a (place + 1) ≡ bit) → all_true a literals.new.items ≡ true }
    ensures within { (n : ℕ) → place + 1 ≤ n → are_within n literals.old.items ≡ true → are_within n literals.new.items ≡ true }
    ensures capacity { vec_capacity literals.new ≡ vec_capacity literals.old }
{
    if is_wanted {
        literals.push_reserved(literal_of(place, bit));
    }
}
