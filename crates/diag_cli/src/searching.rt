//! Services by a search over clauses. They have no graph, so no sum of the clauses is too large.
ghost use Rattle.std.specs.Prelude.{◌≡◌, ◌+◌, ◌<◌, ◌≤◌, [], length, All, true, Ok, IfOk, IfErr};
ghost use Rattle.text_rules.specs.Expected.{Fulfils};
ghost use Rattle.text_rules.specs.Names.{names_rise};
ghost use Rattle.conditioner.specs.Models.{total_cost};
ghost use Rattle.bench_reader.specs.SequentialNetlists.{HasShortNames};
ghost use Rattle.device_files.specs.Describing.{described};
ghost use Rattle.device_files.specs.Refusals.{refusal_output};
ghost use Rattle.session_core.specs.Services.{shown_by};
ghost use Rattle.search_engine.specs.Searched.{about_of, clause_system};
ghost use Rattle.diag_cli.specs.Behaviours.{if_encoded, searched_device, searched_frames, served_or_refused};
ghost use Rattle.diag_cli.specs.Frames.{sequential_in, if_unrolls};
ghost use Rattle.diag_cli.specs.inner.Forms.{AreWithinLimits};
ghost use Rattle.diag_cli.specs.inner.Serving.{Answers, IsFor};

use crate::costs::names_and_costs;
use crate::framing::{plain_costs, sequential};
use crate::refusing::not_unrolled;
use crate::words::ServeOptions;
use bench_reader::Sequential;
use clause_encoder::Cnf;
use device_files::{Refusal, clauses_of, described};
use device_model::{Device, Name, PART_LIMIT, WIRE_LIMIT};
use frame_unroller::{FRAME_LIMIT, Unrolled, unroll};
use minimiser::TOTAL_LIMIT;
use search_engine::SearchEngine;
use session_core::Service;
use std::alloc::Global;
use text_rules::TEXT_LIMIT;

// Makes a service over clauses. All its memory is taken here.
fn search_over(
    alloc: Global,
    parts: Vec<Name>,
    wires: Vec<Name>,
    costs: &[u32],
    cnf: &Cnf,
    options: ServeOptions,
) -> Result<Service<SearchEngine>, Refusal>
    requires options { AreWithinLimits options }
    requires parts_rise { names_rise parts.items ≡ true }
    requires wires_rise { names_rise wires.items ≡ true }
    requires few_parts { length parts.items ≤ PART_LIMIT }
    requires few_wires { length wires.items ≤ WIRE_LIMIT }
    requires costs { length costs.now ≡ length parts.items }
    requires total { total_cost costs.now < TOTAL_LIMIT }
    requires vars { length parts.items + length wires.items ≤ cnf.now.vars }
    ensures shown { IfOk result (λ service. shown_by about_of service ≡ record {
      system = clause_system (record { parts = parts.items; wires = wires.items; costs = costs.now; cnf = cnf.now; levels = options.extras.levels });
      limit = options.sessions;
      table = [];
    }) }
    ensures memory { IfErr result (λ refusal. refusal ≡ Refusal.Memory) }
{
    let engine = match SearchEngine::new(alloc, parts, wires, costs, cnf, options.extras.levels) {
        Ok(engine) => engine,
        Err(_) => return Err(Refusal::Memory),
    };
    match Service::over(alloc, engine, options.sessions) {
        Ok(service) => Ok(service),
        Err(_) => Err(Refusal::Memory),
    }
}

// Makes the service of a device, if its clauses are not too many.
fn device_searched(
    alloc: Global,
    device: Device,
    options: ServeOptions,
) -> Result<Service<SearchEngine>, Refusal>
    requires { AreWithinLimits options }
    ensures service { IfOk result (λ service. Answers (searched_device options device) options.sessions (shown_by about_of service)) }
    ensures encoded { Fulfils (λ _. device) refusal_output (if_encoded (Ok device)) result }
{
    let cnf = clauses_of(alloc, &device)?;
    let (parts, wires, costs) = names_and_costs(alloc, device)?;
    search_over(alloc, parts, wires, &costs, &cnf, options)
}

/// Makes the service of the device of a file, or returns the refusal.
#[tactic(auto, using(crate::proofs::Services::made_services))]
pub(crate) fn device_search(
    alloc: Global,
    path: &str,
    file: &[u8],
    options: ServeOptions,
) -> Result<Service<SearchEngine>, Refusal>
    requires options { AreWithinLimits options }
    requires short { length file.now ≤ TEXT_LIMIT }
    ensures none_open { IfOk result (λ service. service.table ≡ []) }
    ensures behaviour { IsFor (shown_by about_of) (served_or_refused (searched_device options) options.sessions (if_encoded (described path.now file.now))) result }
{
    let device = described(alloc, path, file)?;
    device_searched(alloc, device, options)
}

// Makes the service of a netlist over `frames` times, if it can be unrolled.
fn frames_searched(
    alloc: Global,
    seq: &Sequential,
    frames: u32,
    options: ServeOptions,
) -> Result<Service<SearchEngine>, Refusal>
    requires some_frames { 1 ≤ frames }
    requires few_frames { frames ≤ FRAME_LIMIT }
    requires short { HasShortNames seq.now.device }
    requires options { AreWithinLimits options }
    ensures service { IfOk result (λ service. Answers (searched_frames frames options seq.now) options.sessions (shown_by about_of service)) }
    ensures unrolled { Fulfils (λ _. seq.now) refusal_output (if_unrolls frames (Ok seq.now)) result }
{
    let made = match unroll(alloc, seq, frames) {
        Ok(made) => made,
        Err(error) => return Err(not_unrolled(error)),
    };
    let Unrolled { parts, wires, cnf } = made;
    let count = seq.device.parts().len();
    let costs = plain_costs(alloc, count)?;
    search_over(
        alloc,
        parts.into_vec(),
        wires.into_vec(),
        &costs,
        &cnf,
        options,
    )
}

/// Makes the service of the netlist of a file over `frames` times, or returns the refusal.
#[tactic(auto, using(crate::proofs::Services::made_services))]
pub(crate) fn frame_search(
    alloc: Global,
    file: &[u8],
    frames: u32,
    options: ServeOptions,
) -> Result<Service<SearchEngine>, Refusal>
    requires some_frames { 1 ≤ frames }
    requires few_frames { frames ≤ FRAME_LIMIT }
    requires options { AreWithinLimits options }
    requires short { length file.now ≤ TEXT_LIMIT }
    ensures none_open { IfOk result (λ service. service.table ≡ []) }
    ensures behaviour { IsFor (shown_by about_of) (served_or_refused (searched_frames frames options) options.sessions (if_unrolls frames (sequential_in file.now))) result }
{
    let seq = sequential(alloc, file)?;
    frames_searched(alloc, &seq, frames, options)
}
