ghost use Rattle.std.specs.Prelude.{◌≡◌, ◌<◌, ◌≤◌, ◌+◌, ◌++◌, List, Bool, true, false, [], ◌∷◌, length, replicate, IfOk, OnOk};
ghost use Rattle.state_rules.specs.Bits.{row_number};
ghost use Rattle.forest_states.specs.declared.transition_tables.ClauseTransition.{ClauseTransition};
ghost use Rattle.forest_states.specs.inner.TransitionTables.{plain, in_one};
ghost use Rattle.forest_states.specs.inner.Descents.{successor, left_by};
ghost use Rattle.forest_states.specs.inner.Masked.{IsMasked, IsShort};

use crate::bit_list::BitList;
use crate::bits::Bits;
use crate::picks::Picks;
use crate::rows::{meets, with_bits, without};
use crate::transition_tables::ClauseTransition;
use std::alloc::{AllocError, Global};

/// A transition table of few clauses in words, by which a bit changes all clauses at once.
#[derive(Drop)]
pub(crate) struct Masks {
    // the clauses that begin
    pub(crate) fresh: Picks,
    // those that do not end
    pub(crate) kept: Picks,
    pub(crate) true_at_0: u64,
    pub(crate) true_at_1: u64,
    pub(crate) ends: u64,
    pub(crate) len: usize,
}

impl Masks {
    /// Returns a table of no clauses.
    pub(crate) fn new(alloc: Global) -> Masks
        ensures masked { IsMasked result [] }
        ensures none { result.len ≡ 0 }
    {
        Masks {
            fresh: Picks::new(alloc),
            kept: Picks::new(alloc),
            true_at_0: 0,
            true_at_1: 0,
            ends: 0,
            len: 0,
        }
    }

    /// Adds `count` clauses that stay as they are.
    #[tactic(auto, using(crate::proofs::Rules::masks_skip_steps))]
    pub(crate) fn skip(&mut self, count: usize) -> Result<(), AllocError>
        requires table { (table : List ClauseTransition) × IsMasked self.old table }
        requires few { self.old.len + count < 64 }
        ensures masked { OnOk result ((table : List ClauseTransition) → IsMasked self.old table → IsMasked self.new (table ++ replicate count plain)) }
        ensures len { OnOk result (self.new.len ≡ self.old.len + count) }
    {
        if count > 0 {
            self.fresh.push(false, count)?;
            self.kept.push(true, count)?;
            self.len += count;
        }
        Ok(())
    }

    /// Adds what happens to one more clause.
    pub(crate) fn push(&mut self, transition: ClauseTransition) -> Result<(), AllocError>
        requires table { (table : List ClauseTransition) × IsMasked self.old table }
        requires few { self.old.len + 1 < 64 }
        ensures masked { OnOk result ((table : List ClauseTransition) → IsMasked self.old table → IsMasked self.new (table ++ transition ∷ [])) }
        ensures len { OnOk result (self.new.len ≡ self.old.len + 1) }
    {
        self.fresh.push(transition.fresh, 1)?;
        self.kept.push(!transition.ends, 1)?;
        self.true_at_0 = with_bits(self.true_at_0, self.len, u64::from(transition.true_at_0));
        self.true_at_1 = with_bits(self.true_at_1, self.len, u64::from(transition.true_at_1));
        self.ends = with_bits(self.ends, self.len, u64::from(transition.ends));
        self.len += 1;
        Ok(())
    }

    /// Returns the successors of a state by the bits 0 and 1, unless they are dead.
    #[tactic(auto, using(crate::proofs::Rules::masks_successors_steps))]
    pub(crate) fn successors(
        &self,
        alloc: Global,
        state: &Bits<'_>,
    ) -> Result<(Option<BitList>, Option<BitList>), AllocError>
        requires table { (table : List ClauseTransition) × IsShort self.now table }
        requires short { length state.now ≤ 64 }
        ensures zero { IfOk result (λ r. (table : List ClauseTransition) → IsMasked self.now table → r.0 ≡ successor false table state.now) }
        ensures one { IfOk result (λ r. (table : List ClauseTransition) → IsMasked self.now table → r.1 ≡ successor true table state.now) }
    {
        let met = self.fresh.fill_row(state.read(0, 64));
        let zero = self.leave(alloc, met, self.true_at_0)?;
        let one = self.leave(alloc, met, self.true_at_1)?;
        Ok((zero, one))
    }

    // The clauses of a word that are left if some are true, or none if that is dead.
    #[tactic(auto, using(crate::proofs::Rules::masks_leave_steps))]
    fn leave(&self, alloc: Global, met: u64, are_true: u64) -> Result<Option<BitList>, AllocError>
        requires few { length self.now.kept < 64 }
        requires met { (bits : List Bool) × (met ≡ row_number bits) }
        requires are_true { (bits : List Bool) × (are_true ≡ row_number bits) }
        ensures { IfOk result (λ left. (bits true_bits ends : List Bool) → met ≡ row_number bits → are_true ≡ row_number true_bits → self.now.ends ≡ row_number ends
            → left ≡ left_by self.now.kept ends (in_one bits true_bits)) }
    {
        let left = without(met, are_true);
        if meets(left, self.ends) {
            return Ok(None);
        }
        let (word, len) = self.kept.pick_row(left);
        Ok(Some(BitList::of_word(alloc, word, len)?))
    }
}
