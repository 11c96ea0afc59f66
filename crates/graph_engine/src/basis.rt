ghost use Rattle.std.specs.Prelude.{◌≡◌, ◌+◌, ◌*◌, ◌≤◌, ◌<◌, length, true, All, IfOk, IfSome, IsNone, Some, None, is_some};
ghost use Rattle.std.specs.Option.{option_map};
ghost use Rattle.text_rules.specs.Names.{names_rise};
ghost use Rattle.state_rules.specs.Graphs.{IsGraph};
ghost use Rattle.device_model.specs.declared.limits.TheConstants.{PART_LIMIT, WIRE_LIMIT};
ghost use Rattle.conditioner.specs.Models.{total_cost};
ghost use Rattle.minimiser.specs.declared.pass.TheConstants.{TOTAL_LIMIT};
ghost use Rattle.scratch_pool.specs.declared.region.TheConstants.{REGION_LIMIT};
ghost use Rattle.part_sets.specs.PartSets.{AreFor};
ghost use Rattle.level_lister.specs.Listing.{IsFor};
ghost use Rattle.graph_engine.specs.Served.{CanList, CanDraw};

use crate::limits::{SERVED_NODES, SERVED_VARIABLES};
use device_model::Name;
use engines::Listed;
use level_lister::Levels;
use node_store::Graph;
use part_sets::PartSets;
use scratch_pool::REGION_LIMIT;
use state_rules::Extras;
use std::alloc::{AllocError, Global};
use std::marker::Model;

/// The subject of the sessions, which no line changes: the names of parts and wires, the cost of each part's failure, a graph whose
/// variables are the parts, the wires, and inner ones, and the extras.
pub(crate) struct Basis {
    parts: Vec<Name>,
    wires: Vec<Name>,
    costs: Vec<u32>,
    graph: Graph,
    // the lister of states by rising cost, if they are listed
    levels: Option<Levels>,
    // the sets for drawing the graph of the diagnoses, if it is written and `levels` does not keep them
    sets: Option<PartSets>,
    least: bool,
}

// One call, so that the prover does not go through the basis at each place that drops one.
impl Drop for Basis {
    fn drop(self) {
        let Basis {
            parts: _,
            wires: _,
            costs: _,
            graph: _,
            levels: _,
            sets: _,
            least: _,
        } = self;
    }
}

impl Model for Basis {
    ghost use Rattle.session_rules.specs.GraphSystems.{Subject};
    ghost use Rattle.graph_engine.specs.inner.Bases.{IsBasis, ListsLevels, HasSets, basis_of};

    ghost Value = { Subject };

    ghost view = { λ g. basis_of g.parts.items g.wires.items g.costs.items g.graph g.levels g.least };

    ghost invariant = { λ g. let subject = basis_of g.parts.items g.wires.items g.costs.items g.graph g.levels g.least in
        IsBasis subject × (ListsLevels subject g.levels × HasSets subject g.levels g.sets) };
}

impl Basis {
    ghost use Rattle.engines.specs.Answers.{is_listed};
    ghost use Rattle.graph_engine.specs.Served.{served_system};
    ghost use Rattle.graph_engine.specs.inner.Bases.{IsBasis, AreEnough, level_room};

    /// Makes a basis of names, costs and a graph. `Err` means that memory ran out.
    pub(crate) fn of(
        alloc: Global,
        parts: Vec<Name>,
        wires: Vec<Name>,
        costs: Vec<u32>,
        graph: Graph,
        extras: Extras,
    ) -> Result<Basis, AllocError>
        requires parts_rise { names_rise parts.items ≡ true }
        requires wires_rise { names_rise wires.items ≡ true }
        requires few_parts { length parts.items ≤ PART_LIMIT }
        requires few_wires { length wires.items ≤ WIRE_LIMIT }
        requires costs { length costs.items ≡ length parts.items }
        requires dear { All (λ c. 0 < c) costs.items }
        requires total { total_cost costs.items < TOTAL_LIMIT }
        requires valid { IsGraph graph }
        requires vars { length parts.items + length wires.items ≤ graph.vars }
        requires few_vars { graph.vars ≤ SERVED_VARIABLES }
        requires few_nodes { length graph.nodes < SERVED_NODES }
        requires levels { IfSome extras.levels (CanList graph (length parts.items)) }
        requires least { extras.least ≡ true → CanDraw graph (length parts.items) }
        ensures { IfOk result (λ basis. basis
            ≡ record { parts = parts.items; wires = wires.items; costs = costs.items; graph = graph; extras = extras }) }
    {
        let levels = levels_of(alloc, &graph, &costs, extras.levels)?;
        let sets = sets_of(alloc, &graph, costs.len(), extras)?;
        Ok(Basis {
            parts,
            wires,
            costs,
            graph,
            levels,
            sets,
            least: extras.least,
        })
    }

    pub(crate) fn parts(&self) -> &[Name]
        ensures names { result.now ≡ self.now.parts }
        ensures basis { IsBasis self.now }
    {
        &self.parts
    }

    pub(crate) fn wires(&self) -> &[Name]
        ensures names { result.now ≡ self.now.wires }
        ensures basis { IsBasis self.now }
    {
        &self.wires
    }

    /// Returns the cost of each part's failure.
    pub(crate) fn costs(&self) -> &[u32]
        ensures { result.now ≡ self.now.costs }
    {
        &self.costs
    }

    pub(crate) fn graph(&self) -> &Graph
        ensures graph { result.now ≡ self.now.graph }
        ensures basis { IsBasis self.now }
    {
        &self.graph
    }

    /// Returns the lister of states by rising cost, if they are listed.
    pub(crate) fn levels(&self) -> Option<&Levels>
        ensures none { IsNone result → self.now.extras.levels ≡ None }
        ensures some { IfSome result (λ levels. (self.now.extras.levels ≡ Some levels.now.top)
            × IsFor self.now.graph levels.now × (levels.now.costs ≡ self.now.costs)) }
        ensures basis { IsBasis self.now }
    {
        self.levels.as_ref()
    }

    /// Returns the sets of parts for drawing the graph of the diagnoses.
    pub(crate) fn part_sets(&self) -> &PartSets
        requires told { self.now.extras.least ≡ true }
        ensures { AreFor self.now.graph (length self.now.costs) result.now }
    {
        match &self.levels {
            Some(levels) => levels.sets(),
            None => self.sets.as_ref().unwrap(),
        }
    }

    /// Whether there is a listing.
    pub(crate) fn lists(&self, listed: Listed) -> bool
        ensures { result ≡ is_listed (served_system self.now) listed }
    {
        match listed {
            Listed::Diagnoses => true,
            Listed::Levels => self.levels.is_some(),
        }
    }

    /// Whether the graph of the diagnoses is written.
    pub(crate) fn tells_least(&self) -> bool
        ensures { result ≡ self.now.extras.least }
    {
        self.least
    }

    /// Returns a number of words that is enough for each answer that takes some.
    pub(crate) fn most_room(&self) -> usize
        ensures enough { AreEnough self.now result }
        ensures few { result < REGION_LIMIT }
    {
        let levels = match self.levels() {
            None => 0,
            Some(levels) => self.level_room(levels),
        };
        self.probes_room().max(levels)
    }

    /// Returns the number of words for the probes of all wires.
    pub(crate) fn probes_room(&self) -> usize
        ensures room { result ≡ 4 * length self.now.graph.nodes }
        ensures some { 1 ≤ result }
        ensures few { result < REGION_LIMIT }
        ensures basis { IsBasis self.now }
    {
        4 * self.nodes()
    }

    /// Returns the number of words for a step by rising cost.
    #[tactic(auto, using(crate::proofs::Rules::products_within))]
    pub(crate) fn level_room(&self, levels: &Levels) -> usize
        requires told { self.now.extras.levels ≡ Some levels.now.top }
        requires for_graph { IsFor self.now.graph levels.now }
        requires costs { levels.now.costs ≡ self.now.costs }
        ensures room { result ≡ level_room self.now levels.now.top }
        ensures some { 1 ≤ result }
        ensures few { result < REGION_LIMIT }
        ensures basis { IsBasis self.now }
    {
        levels.room(self.graph())
    }

    pub(crate) fn vars(&self) -> usize
        ensures vars { result ≡ self.now.graph.vars }
        ensures basis { IsBasis self.now }
    {
        self.graph.vars() as usize
    }

    pub(crate) fn nodes(&self) -> usize
        ensures nodes { result ≡ length self.now.graph.nodes }
        ensures basis { IsBasis self.now }
    {
        self.graph.len() as usize
    }
}

// Makes the lister of states by rising cost, if they are listed.
fn levels_of(
    alloc: Global,
    graph: &Graph,
    costs: &[u32],
    top: Option<u32>,
) -> Result<Option<Levels>, AllocError>
    requires parts { length costs.now ≤ graph.now.vars }
    requires few { length costs.now ≤ PART_LIMIT }
    requires total { total_cost costs.now < TOTAL_LIMIT }
    requires top { IfSome top (CanList graph.now (length costs.now)) }
    ensures top { IfOk result (λ levels. option_map (λ kept. kept.top) levels ≡ top) }
    ensures listed { IfOk result (λ levels. IfSome levels
        (λ kept. IsFor graph.now kept × (kept.costs ≡ costs.now))) }
{
    match top {
        None => Ok(None),
        Some(top) => Ok(Some(Levels::new(alloc, graph, costs, top)?)),
    }
}

// Makes the sets of parts, if the graph of the diagnoses is written and the lister of states does not keep them.
fn sets_of(
    alloc: Global,
    graph: &Graph,
    parts: usize,
    extras: Extras,
) -> Result<Option<PartSets>, AllocError>
    requires few { parts ≤ PART_LIMIT }
    ensures some { IfOk result (λ sets. extras.levels ≡ None → extras.least ≡ true → is_some sets ≡ true) }
    ensures for_graph { IfOk result (λ sets. IfSome sets (AreFor graph.now parts)) }
{
    if extras.least && extras.levels.is_none() {
        return Ok(Some(PartSets::new(alloc, graph, parts)?));
    }
    Ok(None)
}
