ghost use Rattle.std.specs.Prelude.{◌≡◌, ◌+◌, ◌<◌, true, false, ◌^◌, ◌&&◌, ◌||◌, ◌++◌, [], ◌∷◌, not, length, replicate, IfOk, OnOk, IfSome};
ghost use Rattle.forest_states.specs.inner.TransitionTables.{true_at, plain, is_plain, spread};
ghost use Rattle.forest_states.specs.inner.Descents.{successor};
ghost use Rattle.forest_states.specs.inner.Masked.{IsShort};

use crate::bit_list::BitList;
use crate::bits::Bits;
use crate::masks::Masks;
use std::alloc::{AllocError, Global};
use std::marker::Model;

/// What the bit of a variable does to a clause.
#[derive(Clone, Copy, Debug)]
pub(crate) struct ClauseTransition {
    // none of its variables was assigned, so that it is left
    pub(crate) fresh: bool,
    pub(crate) true_at_0: bool,
    pub(crate) true_at_1: bool,
    // all of them are assigned now
    pub(crate) ends: bool,
}

/// What the bit does to a clause that it changes, after `run` clauses that stay as they are.
#[derive(Clone, Copy, Debug)]
pub(crate) struct Change {
    pub(crate) run: usize,
    pub(crate) transition: ClauseTransition,
}

/// The transition table of a place: what the bit of its variable does to the clauses in turn. Most stay as they are.
#[derive(Drop)]
pub(crate) struct TransitionTable {
    changes: Vec<Change>,
    rest: usize,
}

impl Model for TransitionTable {
    ghost use Rattle.std.specs.Prelude.{List};
    ghost use Rattle.forest_states.specs.declared.transition_tables.ClauseTransition.{ClauseTransition};
    ghost use Rattle.forest_states.specs.inner.TransitionTables.{spread};

    ghost Value = { List ClauseTransition };

    ghost view = { λ t. spread t.changes.items t.rest };
}

impl ClauseTransition {
    // Whether the clause stays as it is.
    fn is_plain(self) -> bool
        ensures { result ≡ is_plain self }
    {
        !(self.fresh || self.true_at_0 || self.true_at_1 || self.ends)
    }

    // Whether the clause is left after a bit, if `was` says whether it was left before.
    fn is_left(self, bit: bool, was: bool) -> bool
        ensures { result ≡ ((self.fresh || was) && not (true_at self bit)) }
    {
        let is_true = if bit { self.true_at_1 } else { self.true_at_0 };
        (self.fresh || was) && !is_true
    }
}

impl TransitionTable {
    /// Creates a table of no clauses, with room for `room` changes.
    pub(crate) fn new(alloc: Global, room: usize) -> Result<TransitionTable, AllocError>
        ensures { IfOk result (λ table. table ≡ []) }
    {
        Ok(TransitionTable {
            changes: Vec::with_capacity(alloc, room)?,
            rest: 0,
        })
    }

    /// Adds what happens to one more clause.
    #[tactic(auto, using(crate::proofs::Rules::table_steps))]
    pub(crate) fn push(&mut self, transition: ClauseTransition) -> Result<(), AllocError>
        requires { length self.old < 2 ^ 63 }
        ensures { OnOk result (self.new ≡ self.old ++ transition ∷ []) }
    {
        if transition.is_plain() {
            self.rest += 1;
            return Ok(());
        }
        self.changes.push(Change {
            run: self.rest,
            transition,
        })?;
        self.rest = 0;
        Ok(())
    }

    /// Adds `count` clauses that stay as they are.
    #[tactic(auto, using(crate::proofs::Rules::table_steps))]
    pub(crate) fn skip(&mut self, count: usize)
        requires { length self.old + count < 2 ^ 64 }
        ensures { self.new ≡ self.old ++ replicate count plain }
    {
        self.rest += count;
    }

    /// Returns the table in words, if the clauses are so few that what a bit leaves of a state is in one word.
    pub(crate) fn masks(&self, alloc: Global) -> Result<Option<Masks>, AllocError>
        ensures { IfOk result (λ found. IfSome found (λ masks. IsShort masks self.now)) }
    {
        find_masks(alloc, self.changes.as_slice(), self.rest)
    }

    /// Returns the successors of a state by the bits 0 and 1, unless they are dead.
    pub(crate) fn successors(
        &self,
        alloc: Global,
        masks: &Option<Masks>,
        state: &Bits<'_>,
    ) -> Result<(Option<BitList>, Option<BitList>), AllocError>
        requires fits { length self.now < 2 ^ 63 }
        requires short { IfSome masks.now (λ masks. IsShort masks self.now) }
        ensures zero { IfOk result (λ r. r.0 ≡ successor false self.now state.now) }
        ensures one { IfOk result (λ r. r.1 ≡ successor true self.now state.now) }
    {
        match masks {
            Some(masks) if state.len() <= 64 => masks.successors(alloc, state),
            _ => {
                let zero = successor(alloc, self.changes.as_slice(), self.rest, false, state)?;
                let one = successor(alloc, self.changes.as_slice(), self.rest, true, state)?;
                Ok((zero, one))
            }
        }
    }
}

// The table of changes, and of `rest` clauses after the last one, in words if there are few clauses.
#[tactic(auto, using(crate::proofs::Rules::find_masks_steps))]
fn find_masks(alloc: Global, changes: &[Change], rest: usize) -> Result<Option<Masks>, AllocError>
    ensures { IfOk result (λ found. IfSome found (λ masks. IsShort masks (spread changes.now rest))) }
{
    let mut masks = Masks::new(alloc);
    for change in changes {
        if change.run >= 63 - masks.len {
            return Ok(None);
        }
        masks.skip(change.run)?;
        masks.push(change.transition)?;
    }
    if rest >= 64 - masks.len {
        return Ok(None);
    }
    masks.skip(rest)?;
    Ok(Some(masks))
}

// The successor of a state by a bit, unless it is dead: by changes, and `rest` clauses after the last one.
#[tactic(auto, using(crate::proofs::Rules::successor_steps))]
fn successor(
    alloc: Global,
    changes: &[Change],
    rest: usize,
    bit: bool,
    state: &Bits<'_>,
) -> Result<Option<BitList>, AllocError>
    requires { length (spread changes.now rest) < 2 ^ 63 }
    ensures { IfOk result (λ left. left ≡ successor bit (spread changes.now rest) state.now) }
{
    let mut left = BitList::new(alloc, state.len())?;
    let mut next = 0;
    for change in changes {
        left.append(state, next, change.run)?;
        next += change.run;
        let is_left = change.transition.is_left(bit, state.at(next));
        next += usize::from(!change.transition.fresh);
        if !change.transition.ends {
            left.push(is_left)?;
        } else if is_left {
            return Ok(None);
        }
    }
    left.append(state, next, rest)?;
    Ok(Some(left))
}
