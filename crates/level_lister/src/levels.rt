ghost use Rattle.std.specs.Prelude.{◌≡◌, ℕ, [], ◌+◌, ◌*◌, ◌^◌, ◌<◌, ◌≤◌, length, IfOk, All, Some, slice_index_or};
ghost use Rattle.conditioner.specs.Models.{models, total_cost};
ghost use Rattle.conditioner.specs.Evidence.{bits_of};
ghost use Rattle.scratch_pool.specs.Regions.{free_words};
ghost use Rattle.level_lister.specs.Listing.{IsFor, cost_words, step_words, fast_words, point_if, later_levels, level_step};
ghost use Rattle.level_lister.specs.Passes.{AreEnough, most_passes, groups_per_pass};

use crate::Memory;
use crate::search::Search;
use crate::states::{keep, put_back, read_state};
use minimiser::{Steps, TOTAL_LIMIT};
use node_store::Graph;
use part_sets::{PART_LIMIT, PartSets};
use scratch_pool::Region;
use std::alloc::Global;
use std::marker::{Brand, Model};
use std::sync::ledger::{Blank, Ledger};

/// The greatest cost up to which the program lists states.
pub const TOP_LIMIT: u32 = 4_096_000;

/// The most bits that the parts below all nodes of a graph and their costs may take.
pub const BITS_LIMIT: u64 = 2_147_483_648;

/// What [`Levels::next`] finds.
#[derive(Clone, Copy, Debug, PartialEq, Eq)]
pub enum LevelStep {
    /// The next state has this cost.
    Found(u32),
    /// There are states, but no listed one is later.
    End,
    /// No state agrees with the evidence.
    Inconsistent,
}

/// A lister of the states of a graph by rising cost, up to a greatest one.
#[derive(Drop)]
pub struct Levels {
    costs: Vec<u32>,
    top: u32,
    sets: PartSets,
}

impl Model for Levels {
    ghost use Rattle.level_lister.specs.Listing.{Kept};

    ghost Value = { Kept };

    ghost view = { λ l. record { costs = l.costs.items; top = l.top; below = l.sets.below; lacking = l.sets.lacking } };
}

impl Levels {
    /// Makes the lister of the states that cost at most `top`, of a graph whose first variables are parts of these costs.
    pub fn new(alloc: Global, graph: &Graph, costs: &[u32], top: u32) -> Result<Levels, Memory>
        requires parts { length costs.now ≤ graph.now.vars }
        requires few { length costs.now ≤ PART_LIMIT }
        requires total { total_cost costs.now < TOTAL_LIMIT }
        requires bits { length graph.now.nodes * (length costs.now + 32 * cost_words top) ≤ BITS_LIMIT }

        ensures for_graph { IfOk result (λ levels. IsFor graph.now levels) }
        ensures costs { IfOk result (λ levels. levels.costs ≡ costs.now) }
        ensures top { IfOk result (λ levels. levels.top ≡ top) }
    {
        Ok(Levels {
            costs: costs.to_vec(alloc)?,
            top,
            sets: PartSets::new(alloc, graph, costs.len())?,
        })
    }

    // Returns the number of words of a set.
    pub(crate) fn size(&self) -> usize
        ensures { result ≡ cost_words self.now.top }
    {
        (self.top / 32) as usize + 1
    }

    pub(crate) fn top(&self) -> u32
        ensures { result ≡ self.now.top }
    {
        self.top
    }

    // Returns the number of groups of parts that one pass tells apart.
    pub(crate) fn groups_per_pass(&self) -> u32
        requires { self.now.top < 2 ^ 31 }
        ensures count { result ≡ groups_per_pass self.now.top }
        ensures some { 0 < result }
        ensures few { result ≤ 32 }
    {
        (32 / (self.top() + 1)).max(1)
    }

    pub(crate) fn costs(&self) -> &[u32]
        ensures { result.now ≡ self.now.costs }
    {
        &self.costs
    }

    pub(crate) fn below(&self) -> &[u32]
        ensures { result.now ≡ self.now.below }
    {
        self.sets.below()
    }

    pub(crate) fn lacking(&self) -> &[u32]
        ensures { result.now ≡ self.now.lacking }
    {
        self.sets.lacking()
    }

    /// Returns the sets of parts that are kept of the graph.
    pub fn sets(&self) -> &PartSets
        ensures below { result.now.below ≡ self.now.below }
        ensures lacking { result.now.lacking ≡ self.now.lacking }
    {
        &self.sets
    }

    /// Returns the number of words with which a step is fastest.
    pub fn room(&self, graph: &Graph) -> usize
        requires graph { IsFor graph.now self.now }
        ensures { result ≡ fast_words graph.now self.now }
    {
        let nodes = graph.len() as usize;
        self.costs.len() + nodes + (nodes + 2) * (2 * self.size())
    }

    /// Finds the next state that agrees with the evidence, by cost and then by order: the first of all, or the first after `state` if
    /// `pointed`. Such a point need not be listed. It works in the region, of which no run is out. With fewer words than `room` says, it is
    /// slower.
    ///
    /// The evidence is the same afterwards. If nothing is found, the state stays.
    pub fn next(
        &self,
        graph: &Graph,
        evidence: &mut [u32],
        region: &mut Region,
        state: &mut [u32],
        pointed: bool,
    ) -> LevelStep
        requires graph { IsFor graph.now self.now }
        requires long { length evidence.old ≡ graph.now.vars }
        requires evidence { All (λ w. w < 3) evidence.old }
        requires state { length state.old ≡ length self.now.costs }
        requires state_words { All (λ s. s < 2) state.old }
        requires idle { region.old.runs ≡ [] }
        requires room { step_words graph.now self.now ≤ free_words region.old }

        ensures step { result ≡ level_step self.now.costs (models graph.now evidence.old (length self.now.costs))
            (later_levels graph.now evidence.old self.now (point_if pointed (bits_of state.old))) }
        ensures next { bits_of state.new ≡ slice_index_or
            (later_levels graph.now evidence.old self.now (point_if pointed (bits_of state.old))) 0 (bits_of state.old) }
        ensures state { All (λ s. s < 2) state.new }
        ensures evidence { evidence.new ≡ evidence.old }
        ensures idle { region.new.runs ≡ [] }
        ensures free { length region.new.words ≡ length region.old.words }
    {
        let run = region.carve(self.room(graph).min(region.free())).unwrap();
        let step = self.next_alone::<Brand>(
            Blank::new(1),
            graph,
            evidence,
            region.run_mut(&run),
            state,
            pointed,
        );
        region.release(run);
        step
    }

    // Does the same in scratch.
    fn next_alone<L: Ledger>(
        &self,
        blank: Blank,
        graph: &Graph,
        evidence: &mut [u32],
        scratch: &mut [u32],
        state: &mut [u32],
        pointed: bool,
    ) -> LevelStep
        requires name { blank.name ≡ L.name }
        requires shares { blank.parts ≡ L.parts }
        requires some { 0 < blank.parts }
        requires graph { IsFor graph.now self.now }
        requires long { length evidence.old ≡ graph.now.vars }
        requires evidence { All (λ w. w < 3) evidence.old }
        requires state { length state.old ≡ length self.now.costs }
        requires state_words { All (λ s. s < 2) state.old }
        requires room { step_words graph.now self.now ≤ length scratch.old }
        ensures step { result ≡ level_step self.now.costs (models graph.now evidence.old (length self.now.costs))
            (later_levels graph.now evidence.old self.now (point_if pointed (bits_of state.old))) }
        ensures next { bits_of state.new ≡ slice_index_or
            (later_levels graph.now evidence.old self.now (point_if pointed (bits_of state.old))) 0 (bits_of state.old) }
        ensures state { All (λ s. s < 2) state.new }
        ensures evidence { evidence.new ≡ evidence.old }
    {
        self.next_in(
            graph,
            evidence,
            scratch,
            state,
            pointed,
            &mut Steps::<L>::new(blank),
        )
    }

    /// Finds what [`next`](Levels::next) finds, in words that are lent for it, whatever they hold. `steps` counts the passes over the
    /// graph, but not the one sweep from the root down. The code skips each node through which every derivation of the graph costs more in
    /// open parts than the greatest listed cost.
    #[tactic(auto, using(crate::proofs::Rules::ends))]
    pub fn next_in<L: Ledger>(
        &self,
        graph: &Graph,
        evidence: &mut [u32],
        scratch: &mut [u32],
        state: &mut [u32],
        pointed: bool,
        steps: &mut Steps<L>,
    ) -> LevelStep
        requires graph { IsFor graph.now self.now }
        requires long { length evidence.old ≡ graph.now.vars }
        requires evidence { All (λ w. w < 3) evidence.old }
        requires state { length state.old ≡ length self.now.costs }
        requires state_words { All (λ s. s < 2) state.old }
        requires room { step_words graph.now self.now ≤ length scratch.old }

        ensures step { result ≡ level_step self.now.costs (models graph.now evidence.old (length self.now.costs))
            (later_levels graph.now evidence.old self.now (point_if pointed (bits_of state.old))) }
        ensures next { bits_of state.new ≡ slice_index_or
            (later_levels graph.now evidence.old self.now (point_if pointed (bits_of state.old))) 0 (bits_of state.old) }
        ensures state { All (λ s. s < 2) state.new }
        ensures evidence { evidence.new ≡ evidence.old }

        // The most passes, if there is room for the fast way.
        ensures steps { fast_words graph.now self.now ≤ length scratch.old
            → (search : ℕ) → AreEnough (length self.now.costs) self.now.top search → steps.new ≤ steps.old
            + most_passes search (point_if pointed (bits_of state.old)) (bits_of state.new) }
    {
        let (saved, rest) = scratch.split_at_mut(self.costs().len());
        let (skips, work) = rest.split_at_mut(graph.len() as usize);
        if !self.put_skips(graph, evidence, skips, work, steps) {
            return LevelStep::Inconsistent;
        }
        let search = Search {
            levels: self,
            graph,
            skips,
        };
        keep(evidence, saved);
        match search.find(evidence, saved, work, state, pointed, steps) {
            None => LevelStep::End,
            Some(cost) => {
                read_state(evidence, state);
                put_back(evidence, saved);
                LevelStep::Found(cost)
            }
        }
    }
}
