ghost use Rattle.std.specs.Prelude.{◌≡◌, true, IfSome};
ghost use Rattle.state_rules.specs.Assignments.{Assignment};
ghost use Rattle.clause_encoder.specs.Clauses.{is_true_clause, all_hold};
ghost use Rattle.clause_search.specs.inner.Marks.{Agrees};
ghost use Rattle.clause_search.specs.inner.Facts.{AreTrue};

use crate::marks::{Left, left_of, mark_true};
use flat_lists::FlatLists;

/// The place of a clause: among the given ones, or among those that were learned.
#[derive(Debug, Clone, Copy)]
pub(crate) enum Fact {
    Given(u32),
    Learned(u32),
}

/// The given clauses, and those that were learned.
#[derive(Drop)]
pub(crate) struct Facts {
    pub(crate) given: FlatLists<i32>,
    pub(crate) learned: FlatLists<i32>,
}

// The clause at a place, if there is one.
fn clause_at(clauses: &FlatLists<i32>, at: u32) -> Option<&[i32]>
    ensures { IfSome result (λ clause. (a : Assignment) → all_hold a clauses.now ≡ true → is_true_clause a clause.now ≡ true) }
{
    if (at as usize) < clauses.len() {
        Some(clauses.list(at as usize))
    } else {
        None
    }
}

impl Facts {
    fn clause(&self, fact: Fact) -> Option<&[i32]>
        ensures { IfSome result (λ clause. (a : Assignment) → AreTrue a self.now → is_true_clause a clause.now ≡ true) }
    {
        match fact {
            Fact::Given(at) => clause_at(&self.given, at),
            Fact::Learned(at) => clause_at(&self.learned, at),
        }
    }
}

/// Whether clauses contradict marks: each of them forces a literal, which is marked, and the last one is the contradiction.
pub(crate) fn refute(marks: &mut [u8], facts: &Facts, from: &[Fact]) -> bool
    ensures { result ≡ true → (a : Assignment) → AreTrue a facts.now → Agrees a marks.old → ⊥ }
{
    for fact in from {
        let Some(clause) = facts.clause(*fact) else {
            return false;
        };
        match left_of(marks, clause) {
            Left::Nothing => return true,
            Left::One(literal) => mark_true(marks, literal),
            Left::More => {}
        }
    }
    false
}
