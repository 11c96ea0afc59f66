ghost use Rattle.std.specs.Prelude.{◌≡◌, ℕ, ◌+◌, ◌^◌, ◌<◌, ◌≤◌, ◌++◌, [], ◌∷◌, ◌&&◌, true, IfOk, length, replicate, All, vec_len, vec_capacity};
ghost use Rattle.state_rules.specs.Assignments.{Assignment};
ghost use Rattle.state_rules.specs.Cases.{agrees_at};
ghost use Rattle.conditioner.specs.Evidence.{known_of};
ghost use Rattle.clause_search.specs.Searching.{holds, all_true, are_within};
ghost use Rattle.clause_answers.specs.inner.Known.{Knows, IsRead};

use crate::Memory;
use crate::literals::{add_all, literal_of};
use conditioner::known_of;
use std::alloc::Global;
use std::marker::Model;

/// What is known of each variable, and the literals that say so.
#[derive(Drop)]
pub(crate) struct Evidence {
    words: Vec<u32>,
    literals: Vec<i32>,
}

impl Model for Evidence {
    ghost use Rattle.std.specs.Prelude.{ℕ, List, vec_capacity};
    ghost use Rattle.clause_answers.specs.inner.Known.{IsEvidence};

    ghost Value = { List ℕ };

    ghost view = { λ e. e.words.items };

    ghost invariant = { λ e. IsEvidence e.words.items e.literals.items (vec_capacity e.literals) };
}

impl Evidence {
    /// Nothing is known of so many variables.
    pub(crate) fn new(alloc: Global, vars: u32) -> Result<Evidence, Memory>
        requires { vars < 2 ^ 30 }
        ensures { IfOk result (λ evidence. evidence ≡ replicate vars 0) }
    {
        let vars = vars as usize;
        let words = vec![in alloc; 0u32; vars]?;
        let mut literals = Vec::with_capacity(alloc, vars)?;
        read(&mut literals, &words);
        Ok(Evidence { words, literals })
    }

    /// Takes up other evidence.
    pub(crate) fn take_up(&mut self, words: &[u32])
        requires long { length words.now ≡ length self.old }
        requires words { All (λ w. w < 3) words.now }
        ensures { self.new ≡ words.now }
    {
        self.words.as_mut_slice().copy_from_slice(words);
        read(&mut self.literals, words);
    }

    /// What is known of each variable.
    pub(crate) fn words(&self) -> &[u32]
        ensures value { result.now ≡ self.now }
        ensures words { All (λ w. w < 3) self.now }
        ensures few { length self.now < 2 ^ 30 }
    {
        self.words.as_slice()
    }

    /// The literals that say what is known.
    pub(crate) fn literals(&self) -> &[i32]
        ensures { IsRead self.now (length self.now) result.now }
    {
        self.literals.as_slice()
    }

    /// Whether it is known that a literal is true.
    pub(crate) fn knows(&self, literal: i32) -> bool
        ensures { result ≡ true → (a : Assignment) → Knows a self.now (length self.now) → holds a literal ≡ true }
    {
        let place = (literal.unsigned_abs() as usize).saturating_sub(1);
        if self.words.len() <= place {
            return false;
        }
        match known_of(self.words[place]) {
            Some(bit) => literal_of(place, bit) == literal,
            None => false,
        }
    }
}

// Reads the literals of evidence.
#[tactic(auto, using(crate::proofs::KnownLiterals::read_steps))]
fn read(literals: &mut Vec<i32>, words: &[u32])
    requires few { length words.now < 2 ^ 31 }
    requires room { length words.now ≤ vec_capacity literals.old }
    ensures read { IsRead words.now (length words.now) literals.new.items }
    ensures capacity { vec_capacity literals.new ≡ vec_capacity literals.old }
{
    literals.clear();
    for place in 0..words.len() {
        add_known(literals, place, words[place]);
    }
}

// Adds the literal that says what is known of a variable.
#[tactic(auto, using(crate::proofs::KnownLiterals::added_steps))]
fn add_known(literals: &mut Vec<i32>, place: usize, word: u32)
    requires small { place + 1 < 2 ^ 31 }
    requires room { vec_len literals.old < vec_capacity literals.old }
    ensures all { (a : Assignment) → all_true a literals.new.items ≡ (all_true a literals.old.items && agrees_at (known_of word) (a (place + 1))) }
    ensures len { length literals.new.items ≤ length literals.old.items + 1 }
    ensures within { are_within place literals.old.items ≡ true → are_within (place + 1) literals.new.items ≡ true }
    ensures capacity { vec_capacity literals.new ≡ vec_capacity literals.old }
{
    if let Some(bit) = known_of(word) {
        literals.push_reserved(literal_of(place, bit));
    }
}
