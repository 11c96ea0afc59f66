//! The services of netlists with flip-flops over several times.
ghost use Rattle.std.specs.Prelude.{◌≡◌, ◌<◌, ◌≤◌, [], length, All, Ok, IfOk};
ghost use Rattle.std.specs.List.{sum};
ghost use Rattle.text_rules.specs.Expected.{Fulfils};
ghost use Rattle.state_rules.specs.Ranking.{plain_costs};
ghost use Rattle.bench_reader.specs.SequentialNetlists.{sequential_netlist, HasShortNames};
ghost use Rattle.device_files.specs.Choices.{weighed_by, ByForest};
ghost use Rattle.device_files.specs.Describing.{netlist_line, or_line};
ghost use Rattle.device_files.specs.Refusals.{FulfilsOrRefuses, refusal_output};
ghost use Rattle.session_core.specs.Services.{shown_by};
ghost use Rattle.graph_engine.specs.Served.{about_of};
ghost use Rattle.diag_cli.specs.Behaviours.{served_frames, served_or_refused};
ghost use Rattle.diag_cli.specs.Frames.{sequential_in, if_unrolled};
ghost use Rattle.diag_cli.specs.inner.Forms.{AreWithinLimits};
ghost use Rattle.diag_cli.specs.inner.Serving.{Answers, IsFor};

use crate::besides::compile_in_few_bits;
use crate::refusing::not_unrolled;
use crate::words::ServeOptions;
use bench_reader::{Sequential, read_sequential};
use device_files::{Refusal, forest_of, netlist_refusal};
use device_model::PART_LIMIT;
use frame_unroller::{FRAME_LIMIT, Unrolled, unroll};
use graph_engine::{GraphEngine, over};
use session_core::Service;
use std::alloc::{AllocError, Global};
use text_rules::TEXT_LIMIT;

/// Reads the netlist of a text, which may have flip-flops.
pub(crate) fn sequential(alloc: Global, text: &[u8]) -> Result<Sequential, Refusal>
    requires { length text.now ≤ TEXT_LIMIT }
    ensures read { FulfilsOrRefuses (or_line netlist_line (sequential_netlist text.now)) result }
    ensures short { IfOk result (λ seq. HasShortNames seq.device) }
{
    match read_sequential(alloc, text) {
        Ok(seq) => Ok(seq),
        Err(error) => Err(netlist_refusal(error)),
    }
}

/// Returns the costs of `parts` parts, each 1.
pub(crate) fn plain_costs(alloc: Global, parts: usize) -> Result<Vec<u32>, AllocError>
    requires { parts ≤ PART_LIMIT }
    ensures costs { IfOk result (λ costs. costs.items ≡ plain_costs parts) }
    ensures dear { IfOk result (λ costs. All (λ c. 0 < c) costs.items) }
    ensures total { IfOk result (λ costs. sum costs.items ≤ parts) }
{
    vec![in alloc; 1u32; parts]
}

// Makes the service of a netlist over `frames` times, if the sum of its clauses is within the budget and the extras take few bits.
fn service_within(
    alloc: Global,
    seq: &Sequential,
    frames: u32,
    options: ServeOptions,
) -> Result<Service<GraphEngine>, Refusal>
    requires some_frames { 1 ≤ frames }
    requires few_frames { frames ≤ FRAME_LIMIT }
    requires short { HasShortNames seq.now.device }
    requires options { AreWithinLimits options }
    ensures service { IfOk result (λ service. Answers (served_frames frames options seq.now) options.sessions (shown_by about_of service)) }
    ensures within { ByForest (λ choose.
        Fulfils (λ _. seq.now) refusal_output (if_unrolled frames options (weighed_by options.narrow choose) (Ok seq.now)) result) }
{
    let made = match unroll(alloc, seq, frames) {
        Ok(made) => made,
        Err(error) => return Err(not_unrolled(error)),
    };
    let Unrolled { parts, wires, cnf } = made;
    let count = seq.device.parts().len();
    let forest = forest_of(alloc, &cnf, options.narrow)?;
    let graph = compile_in_few_bits(alloc, &cnf, &forest, count as u32, options)?;
    let costs = plain_costs(alloc, count)?;
    match over(
        alloc,
        parts.into_vec(),
        wires.into_vec(),
        costs,
        graph,
        options.sessions,
        options.extras,
    ) {
        Ok(service) => Ok(service),
        Err(_) => Err(Refusal::Memory),
    }
}

/// Makes the service of the netlist of a file over `frames` times, or returns the refusal.
#[tactic(auto, using(crate::proofs::Services::made_services))]
pub(crate) fn frame_service(
    alloc: Global,
    file: &[u8],
    frames: u32,
    options: ServeOptions,
) -> Result<Service<GraphEngine>, Refusal>
    requires some_frames { 1 ≤ frames }
    requires few_frames { frames ≤ FRAME_LIMIT }
    requires options { AreWithinLimits options }
    requires short { length file.now ≤ TEXT_LIMIT }
    ensures none_open { IfOk result (λ service. service.table ≡ []) }
    ensures behaviour { ByForest (λ choose. IsFor (shown_by about_of) (served_or_refused (served_frames frames options) options.sessions
        (if_unrolled frames options (weighed_by options.narrow choose) (sequential_in file.now))) result) }
{
    let seq = sequential(alloc, file)?;
    service_within(alloc, &seq, frames, options)
}
