//! States by rising cost.
ghost use Rattle.std.specs.Prelude.{◌≡◌, ◌<◌, All, IfSome, Some, length, slice_index_or};
ghost use Rattle.std.specs.Option.{option_map};
ghost use Rattle.state_rules.specs.Ranking.{cost};
ghost use Rattle.conditioner.specs.Evidence.{bits_of};
ghost use Rattle.level_lister.specs.Listing.{level_step};
ghost use Rattle.clause_answers.specs.Questions.{models, least_under, later_levels};
ghost use Rattle.clause_answers.specs.inner.Listed.{Shows};
ghost use Rattle.clause_answers.specs.inner.Levels.{NextCost, FindsLevel, FindsSame, Later};

use crate::case_search::CaseSearch;
use level_lister::{LevelStep, state_cost};

impl CaseSearch {
    /// Finds the next state that costs at most `top`, by cost and then by order: the first of all, or the first after a point, which need not
    /// be listed. The state is then that one, or as before if there is none.
    pub fn next_level(&mut self, top: u32, point: Option<&[u32]>, state: &mut [u32]) -> LevelStep
        requires state { length state.old ≡ length self.old.costs }
        requires point { IfSome point (λ old. length old.now ≡ length self.old.costs) }
        ensures step { result ≡ level_step self.old.costs (models self.old) (later_levels self.old top (option_map (λ old. bits_of old.now) point.entry)) }
        ensures next { bits_of state.new ≡ slice_index_or (later_levels self.old top (option_map (λ old. bits_of old.now) point.entry)) 0 (bits_of state.old) }
        ensures words { All (λ s. s < 2) state.old → All (λ s. s < 2) state.new }
        ensures same { self.new ≡ self.old }
    {
        let _parts = self.parts();
        match self.least() {
            None => LevelStep::Inconsistent,
            Some(least) => match self.find_later(least, top, point, state) {
                None => LevelStep::End,
                Some(cost) => LevelStep::Found(cost),
            },
        }
    }

    // Finds the first state that costs at most `top` after a point, or the first of all, and returns its cost.
    fn find_later(
        &mut self,
        least: u32,
        top: u32,
        point: Option<&[u32]>,
        state: &mut [u32],
    ) -> Option<u32>
        requires least { least_under self.old ≡ Some least }
        requires state { length state.old ≡ length self.old.costs }
        requires point { IfSome point (λ old. length old.now ≡ length self.old.costs) }
        ensures found { FindsLevel self.old.costs (Later self.old top (option_map (λ old. bits_of old.now) point.entry)) result (bits_of state.old) (bits_of state.new) }
        ensures words { All (λ s. s < 2) state.old → All (λ s. s < 2) state.new }
        ensures same { self.new ≡ self.old }
    {
        let _parts = self.oracle.costs();
        match point {
            None => self.find_level(least, top, state),
            Some(point) => {
                let cost = state_cost(point, self.oracle.costs());
                if self.find_same(least, top, cost, point, state) {
                    return Some(cost);
                }
                self.find_level(least.max(cost + 1), top, state)
            }
        }
    }

    // Finds the first state after a point that has the point's cost.
    fn find_same(
        &mut self,
        least: u32,
        top: u32,
        level: u32,
        point: &[u32],
        state: &mut [u32],
    ) -> bool
        requires least { least_under self.old ≡ Some least }
        requires level { level ≡ cost self.old.costs (bits_of point.now) }
        requires state { length state.old ≡ length self.old.costs }
        requires point { length point.now ≡ length self.old.costs }
        ensures found { FindsSame self.old top (bits_of point.now) result (bits_of state.old) (bits_of state.new) }
        ensures words { All (λ s. s < 2) state.old → All (λ s. s < 2) state.new }
        ensures same { self.new ≡ self.old }
    {
        let _parts = self.parts();
        if level < least || top < level {
            return false;
        }
        self.find_next(level, Some(point), state)
    }

    // Finds the first state that costs from `from` to `top`, by cost and then by order, and returns its cost.
    fn find_level(&mut self, from: u32, top: u32, state: &mut [u32]) -> Option<u32>
        requires state { length state.old ≡ length self.old.costs }
        ensures found { FindsLevel self.old.costs (λ h. Shows self.old from top h) result (bits_of state.old) (bits_of state.new) }
        ensures words { All (λ s. s < 2) state.old → All (λ s. s < 2) state.new }
        ensures same { self.new ≡ self.old }
    {
        match self.next_cost(from, top) {
            None => None,
            Some(cost) => {
                let _found = self.find_next(cost, None, state);
                Some(cost)
            }
        }
    }

    // Returns the least cost from `from` to `top` of a state.
    fn next_cost(&mut self, from: u32, top: u32) -> Option<u32>
        ensures cost { NextCost self.old from top result }
        ensures same { self.new ≡ self.old }
    {
        let _parts = self.oracle.costs();
        if top < from {
            return None;
        }
        if self.least == Some(Some(from)) {
            return Some(from);
        }
        self.oracle.least_from(from, top, &[])
    }
}
