//! The bits that the extras (`--levels`, `--least`) take over the graph of clauses, and whether they are few.
ghost use Rattle.std.specs.Prelude.{◌≡◌, ◌^◌, ◌+◌, ◌*◌, ◌<◌, ◌≤◌, ℕ, true, Ok, Some, not, ◌&&◌, is_none, length, IfOk, IfErr, IfSome};
ghost use Rattle.text_rules.specs.Expected.{IsExpectedFault, Fulfils};
ghost use Rattle.state_rules.specs.Graphs.{edges};
ghost use Rattle.device_files.specs.Choices.{ByClauses, HasSum};
ghost use Rattle.device_files.specs.Output.{says};
ghost use Rattle.device_files.specs.Weighing.{within};
ghost use Rattle.device_files.specs.Refusals.{refusal_output};
ghost use Rattle.diag_cli.specs.Besides.{in_few_bits};
ghost use Rattle.diag_cli.specs.inner.Bits.{levels_bits, least_bits, bits_line};
ghost use Rattle.diag_cli.specs.Behaviours.{if_within};
ghost use Rattle.diag_cli.specs.inner.Compiling.{IsGraphBy};
ghost use Rattle.diag_cli.specs.inner.Forms.{AreWithinLimits};
ghost use Rattle.diag_cli.specs.inner.Serving.{IsServable, CanTell};

use crate::graphs::compiled_within;
use crate::words::ServeOptions;
use clause_encoder::Cnf;
use device_files::{Refusal, Status, above, clauses_along, sum_within};
use device_model::{Device, PART_LIMIT};
use dnnf_compiler::most_nodes;
use graph_engine::SERVED_BITS;
use level_lister::{TOP_LIMIT, level_bits};
use node_store::Graph;
use part_sets::part_words;
use session_core::Extras;
use std::alloc::Global;
use tree_finder::Narrowed;

// Lines are numbered in 32 bits.
const NODE_LINE_LIMIT: u64 = 1 << 32;

/// Compiles the graph of a device, if the sum of its clauses is within the budget and the extras take few bits.
#[tactic(auto, using(crate::proofs::ServedDevices::listed_sizes))]
pub(crate) fn graph_in_few_bits(
    alloc: Global,
    device: &Device,
    options: ServeOptions,
) -> Result<Graph, Refusal>
    requires { AreWithinLimits options }
    ensures within { ByClauses options.narrow (λ clauses.
        Fulfils (λ _. device.now) refusal_output (if_within options clauses (Ok device.now)) result) }
    ensures servable { IfOk result (IsServable device.now) }
    ensures told { IfOk result (λ graph. CanTell options.extras graph (length device.now.parts)) }
{
    // The contract of `parts` says that a device has few parts.
    let parts = device.parts().len() as u32;
    let (cnf, forest) = clauses_along(alloc, device, options.narrow)?;
    compile_in_few_bits(alloc, &cnf, &forest, parts, options)
}

/// Compiles the graph of clauses over `parts` parts, if their sum is within the budget and the extras take few bits.
pub(crate) fn compile_in_few_bits(
    alloc: Global,
    cnf: &Cnf,
    forest: &Option<Narrowed>,
    parts: u32,
    options: ServeOptions,
) -> Result<Graph, Refusal>
    requires options { AreWithinLimits options }
    requires sum { (sum : ℕ) × HasSum cnf.now forest.now sum }
    requires vars { cnf.now.vars < 2 ^ 20 }
    requires parts { parts ≤ PART_LIMIT }
    ensures list { (sum : ℕ) → HasSum cnf.now forest.now sum
        → Fulfils (λ _. record { list = cnf.now; sum = sum }) refusal_output
        (in_few_bits options.extras parts (within options.budget (Ok (record { list = cnf.now; sum = sum })))) result }
    ensures within { (sum : ℕ) → HasSum cnf.now forest.now sum → IfOk result (λ graph. sum ≤ options.budget) }
    ensures graph { (sum : ℕ) → HasSum cnf.now forest.now sum → IfOk result (IsGraphBy (record { list = cnf.now; sum = sum })) }
    ensures told { IfOk result (λ graph. CanTell options.extras graph parts) }
{
    check_bits(alloc, cnf, forest, parts, options)?;
    let graph = compiled_within(alloc, cnf, forest, options.budget)?;
    check_lines(&graph, parts, options.extras.least)?;
    Ok(graph)
}

// Refuses clauses if there are extras, and these take too many bits or the sum is above the budget.
fn check_bits(
    alloc: Global,
    cnf: &Cnf,
    forest: &Option<Narrowed>,
    parts: u32,
    options: ServeOptions,
) -> Result<(), Refusal>
    requires options { AreWithinLimits options }
    requires vars { cnf.now.vars < 2 ^ 20 }
    requires parts { parts ≤ PART_LIMIT }
    ensures few { (sum : ℕ) → HasSum cnf.now forest.now sum → IfOk result (λ _.
        in_few_bits options.extras parts (Ok (record { list = cnf.now; sum = sum })) ≡ Ok (record { list = cnf.now; sum = sum })) }
    ensures fault { (sum : ℕ) → HasSum cnf.now forest.now sum → IfErr result (λ refusal. IsExpectedFault (refusal_output refusal)
        (in_few_bits options.extras parts (within options.budget (Ok (record { list = cnf.now; sum = sum }))))) }
{
    let extras = options.extras;
    if tells_nothing(extras) {
        return Ok(());
    }
    let sum = sum_within(alloc, cnf, forest, options.budget)?;
    few_bits(levels_bits(sum, cnf.vars(), parts, extras.levels))?;
    few_bits(least_bits(sum, cnf.vars(), parts, extras.least))
}

// Refuses, as lack of memory, a graph of the diagnoses whose lines cannot be numbered, if it is offered: they do not fit into memory
// either.
fn check_lines(graph: &Graph, parts: u32, with_least: bool) -> Result<(), Refusal>
    requires { parts ≤ PART_LIMIT }
    ensures few { IfOk result (λ _. with_least ≡ true → length graph.now.nodes + edges graph.now.nodes + 2 * parts + 1 < 2 ^ 32) }
    ensures memory { IfErr result (λ refusal. refusal ≡ Refusal.Memory) }
{
    let others = u64::from(graph.len()) + 2 * u64::from(parts) + 1;
    if with_least && NODE_LINE_LIMIT <= others.saturating_add(graph.edges()) {
        return Err(Refusal::Memory);
    }
    Ok(())
}

// Whether there are no extras, so that no sum is needed.
fn tells_nothing(extras: Extras) -> bool
    ensures { result ≡ (is_none extras.levels && not extras.least) }
{
    extras.levels.is_none() && !extras.least
}

// Returns the bits of states by rising cost.
fn levels_bits(sum: u32, vars: u32, parts: u32, levels: Option<u32>) -> u64
    requires sum { sum ≤ 2 ^ 24 }
    requires vars { vars < 2 ^ 20 }
    requires parts { parts ≤ PART_LIMIT }
    requires top { IfSome levels (λ top. top ≤ TOP_LIMIT) }
    ensures { result ≡ levels_bits sum vars parts levels }
{
    match levels {
        None => 0,
        Some(top) => level_bits(u64::from(sum), vars, parts, top),
    }
}

// Returns the bits of the graph of the diagnoses.
fn least_bits(sum: u32, vars: u32, parts: u32, least: bool) -> u64
    requires sum { sum ≤ 2 ^ 24 }
    requires vars { vars < 2 ^ 20 }
    requires parts { parts ≤ PART_LIMIT }
    ensures { result ≡ least_bits sum vars parts least }
{
    if !least {
        return 0;
    }
    most_nodes(sum, vars) * (32 * (2 + part_words(parts as usize) as u64))
}

// Refuses too many bits.
fn few_bits(bits: u64) -> Result<(), Refusal>
    ensures few { IfOk result (λ _. bits ≤ SERVED_BITS) }
    ensures many { IfErr result (λ refusal. (refusal_output refusal ≡ Some (says (bits_line bits) Status.Refused)) × (SERVED_BITS < bits)) }
{
    if bits > SERVED_BITS {
        return Err(above("bits", bits, SERVED_BITS as usize));
    }
    Ok(())
}
