ghost use Rattle.std.specs.Prelude.{◌≡◌, false, true, IfSome};
ghost use Rattle.state_rules.specs.Assignments.{Assignment};
ghost use Rattle.clause_encoder.specs.Clauses.{var_of, is_true_clause};
ghost use Rattle.clause_search.specs.Searching.{holds};
ghost use Rattle.clause_search.specs.inner.Marks.{false_mark, is_marked, Agrees, IsLeft};

const FALSE: u8 = 1;

const TRUE: u8 = 2;

/// What is left of a clause without the literals that are marked as false.
#[derive(Clone, Copy)]
pub(crate) enum Left {
    Nothing,
    One(i32),
    More,
}

pub(crate) fn variable_of(literal: i32) -> u32
    ensures { result ≡ var_of literal }
{
    literal.unsigned_abs()
}

// The mark of its variable if a literal is false.
fn false_mark(literal: i32) -> u8
    ensures { result ≡ false_mark literal }
{
    if literal < 0 { TRUE } else { FALSE }
}

/// Whether a literal is marked as false.
pub(crate) fn is_marked(marks: &[u8], literal: i32) -> bool
    ensures { result ≡ is_marked marks.now literal }
{
    let place = variable_of(literal) as usize;
    place < marks.len() && marks[place] == false_mark(literal)
}

/// The bit that marks give a variable, if they give it one.
#[tactic(auto, using(crate::proofs::Defined::marked_false, crate::proofs::Defined::marked_true))]
pub(crate) fn marked_bit(marks: &[u8], variable: usize) -> Option<bool>
    ensures { IfSome result (λ bit. (a : Assignment) → Agrees a marks.now → a variable ≡ bit) }
{
    if variable == 0 || marks.len() <= variable {
        return None;
    }
    match marks[variable] {
        FALSE => Some(false),
        TRUE => Some(true),
        _ => None,
    }
}

/// Whether a literal is marked as true.
pub(crate) fn is_marked_true(marks: &[u8], literal: i32) -> bool
    ensures { result ≡ true → (a : Assignment) → Agrees a marks.now → holds a literal ≡ true }
{
    match marked_bit(marks, variable_of(literal) as usize) {
        Some(bit) => bit == (0 <= literal),
        None => false,
    }
}

/// Marks a literal as false.
pub(crate) fn mark_false(marks: &mut [u8], literal: i32)
    ensures { (a : Assignment) → Agrees a marks.old → holds a literal ≡ false → Agrees a marks.new }
{
    let place = variable_of(literal) as usize;
    if place < marks.len() {
        marks[place] = false_mark(literal);
    }
}

/// Marks a literal as true.
pub(crate) fn mark_true(marks: &mut [u8], literal: i32)
    ensures { (a : Assignment) → Agrees a marks.old → holds a literal ≡ true → Agrees a marks.new }
{
    let place = variable_of(literal) as usize;
    if place < marks.len() {
        marks[place] = if literal < 0 { FALSE } else { TRUE };
    }
}

/// Returns what is left of a clause.
pub(crate) fn left_of(marks: &[u8], clause: &[i32]) -> Left
    ensures { (a : Assignment) → Agrees a marks.now → is_true_clause a clause.now ≡ true → IsLeft a result }
{
    let mut left = Left::Nothing;
    for literal in clause {
        if is_marked(marks, *literal) {
            continue;
        }
        match left {
            Left::Nothing => left = Left::One(*literal),
            _ => return Left::More,
        }
    }
    left
}
