//! Compiles the graph of a device, or of clauses.
ghost use Rattle.std.specs.Prelude.{◌≤◌, ℕ, Ok, IfOk, IfErr};
ghost use Rattle.text_rules.specs.Expected.{IsExpectedFault, Fulfils};
ghost use Rattle.branch_states.specs.Branches.{sum_of};
ghost use Rattle.elimination_forests.specs.declared.steps.Weight.TheVariants.{Lists};
ghost use Rattle.elimination_forests.specs.Forests.{forest_sum};
ghost use Rattle.tree_finder.specs.Narrowing.{IsFound};
ghost use Rattle.device_files.specs.Choices.{ByClauses, HasSum};
ghost use Rattle.device_files.specs.Weighing.{within};
ghost use Rattle.device_files.specs.Refusals.{refusal_output};
ghost use Rattle.diag_cli.specs.inner.Compiling.{IsGraphBy, FulfilsGraph};

use branch_states::{BUDGET_LIMIT, MeasureError};
use clause_encoder::Cnf;
use device_files::{Refusal, clauses_along, found_within};
use device_model::Device;
use dnnf_compiler::{compile_forest, compile_within};
use node_store::Graph;
use std::alloc::Global;
use tree_finder::Narrowed;

/// Compiles the graph of a device, if the sum of its clauses is within a budget.
#[tactic(auto, using(device_files::proofs::ForestChoices::has_sum))]
pub(crate) fn graph_within(
    alloc: Global,
    device: &Device,
    budget: u32,
    is_narrow: bool,
) -> Result<Graph, Refusal>
    requires { budget ≤ BUDGET_LIMIT }
    ensures { ByClauses is_narrow (λ clauses. FulfilsGraph device.now (within budget (clauses device.now)) result) }
{
    let (cnf, forest) = clauses_along(alloc, device, is_narrow)?;
    compiled_within(alloc, &cnf, &forest, budget)
}

/// Compiles the graph of clauses, if their sum is within a budget: by the order of names, or along the forest that was found for them.
pub(crate) fn compiled_within(
    alloc: Global,
    cnf: &Cnf,
    forest: &Option<Narrowed>,
    budget: u32,
) -> Result<Graph, Refusal>
    requires budget { budget ≤ BUDGET_LIMIT }
    requires sum { (sum : ℕ) × HasSum cnf.now forest.now sum }
    ensures list { (sum : ℕ) → HasSum cnf.now forest.now sum
        → Fulfils (λ _. record { list = cnf.now; sum = sum }) refusal_output (within budget (Ok (record { list = cnf.now; sum = sum }))) result }
    ensures within { (sum : ℕ) → HasSum cnf.now forest.now sum → IfOk result (λ graph. sum ≤ budget) }
    ensures graph { (sum : ℕ) → HasSum cnf.now forest.now sum → IfOk result (IsGraphBy (record { list = cnf.now; sum = sum })) }
{
    match forest {
        Some(found) => compiled_along(alloc, cnf, found, budget),
        None => compiled_by_names(alloc, cnf, budget),
    }
}

// Compiles along a forest that was found for the clauses.
#[tactic(auto, using(crate::proofs::GraphsBy::gives_graph))]
fn compiled_along(alloc: Global, cnf: &Cnf, found: &Narrowed, budget: u32) -> Result<Graph, Refusal>
    requires budget { budget ≤ BUDGET_LIMIT }
    requires found { IsFound cnf.now found.now }
    ensures within { (is : IsFound cnf.now found.now) → IfOk result (λ graph. forest_sum Lists is.forest cnf.now.clauses ≤ budget) }
    ensures graph { (is : IsFound cnf.now found.now)
        → IfOk result (IsGraphBy (record { list = cnf.now; sum = forest_sum Lists is.forest cnf.now.clauses })) }
    ensures fault { (is : IsFound cnf.now found.now) → IfErr result (λ refusal.
        IsExpectedFault (refusal_output refusal) (within budget (Ok (record { list = cnf.now; sum = forest_sum Lists is.forest cnf.now.clauses })))) }
{
    found_within(found, budget)?;
    match compile_forest(alloc, cnf, found.steps.as_slice(), budget) {
        Ok(compiled) => Ok(compiled.graph),
        Err(MeasureError::Above) => Err(Refusal::Sum { budget }),
        Err(MeasureError::Memory) => Err(Refusal::Memory),
    }
}

/// Compiles the graph of clauses by the order of names, if their sum is within a budget.
#[tactic(auto, using(crate::proofs::GraphsBy::gives_graph))]
pub(crate) fn compiled_by_names(alloc: Global, cnf: &Cnf, budget: u32) -> Result<Graph, Refusal>
    requires budget { budget ≤ BUDGET_LIMIT }
    ensures within { IfOk result (λ graph. sum_of cnf.now.clauses ≤ budget) }
    ensures graph { IfOk result (IsGraphBy (record { list = cnf.now; sum = sum_of cnf.now.clauses })) }
    ensures fault { IfErr result (λ refusal.
        IsExpectedFault (refusal_output refusal) (within budget (Ok (record { list = cnf.now; sum = sum_of cnf.now.clauses })))) }
{
    match compile_within(alloc, cnf, budget) {
        Ok(compiled) => Ok(compiled.graph),
        Err(MeasureError::Above) => Err(Refusal::Sum { budget }),
        Err(MeasureError::Memory) => Err(Refusal::Memory),
    }
}
