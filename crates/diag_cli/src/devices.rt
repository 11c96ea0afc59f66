//! The services of devices.
ghost use Rattle.std.specs.Prelude.{◌≡◌, ◌≤◌, [], Ok, length, IfOk, IfErr};
ghost use Rattle.text_rules.specs.Expected.{Fulfils};
ghost use Rattle.device_files.specs.Choices.{ByClauses};
ghost use Rattle.device_files.specs.Describing.{described};
ghost use Rattle.device_files.specs.Refusals.{refusal_output};
ghost use Rattle.session_core.specs.Services.{shown_by};
ghost use Rattle.graph_engine.specs.Served.{about_of};
ghost use Rattle.diag_cli.specs.Behaviours.{if_within, served_device, served_or_refused};
ghost use Rattle.diag_cli.specs.inner.Forms.{AreWithinLimits};
ghost use Rattle.diag_cli.specs.inner.Serving.{IsServable, Answers, IsFor, CanTell};

use crate::besides::graph_in_few_bits;
use crate::costs::names_and_costs;
use crate::words::ServeOptions;
use device_files::{Refusal, described};
use device_model::Device;
use graph_engine::{GraphEngine, over};
use node_store::Graph;
use session_core::Service;
use std::alloc::Global;
use text_rules::TEXT_LIMIT;

// Makes a service over a device and its graph. All its memory is taken here.
fn service_over(
    alloc: Global,
    device: Device,
    graph: Graph,
    options: ServeOptions,
) -> Result<Service<GraphEngine>, Refusal>
    requires options { AreWithinLimits options }
    requires graph { IsServable device graph }
    requires told { CanTell options.extras graph (length device.parts) }
    ensures service { IfOk result (λ service. Answers (served_device options device) options.sessions (shown_by about_of service)) }
    ensures memory { IfErr result (λ refusal. refusal ≡ Refusal.Memory) }
{
    let (parts, wires, costs) = names_and_costs(alloc, device)?;
    match over(
        alloc,
        parts,
        wires,
        costs,
        graph,
        options.sessions,
        options.extras,
    ) {
        Ok(service) => Ok(service),
        Err(_) => Err(Refusal::Memory),
    }
}

// Makes the service of a device, if the sum of its clauses is within the budget and the extras take few bits.
fn service_within(
    alloc: Global,
    device: Device,
    options: ServeOptions,
) -> Result<Service<GraphEngine>, Refusal>
    requires { AreWithinLimits options }
    ensures service { IfOk result (λ service. Answers (served_device options device) options.sessions (shown_by about_of service)) }
    ensures within { ByClauses options.narrow (λ clauses.
        Fulfils (λ _. device) refusal_output (if_within options clauses (Ok device)) result) }
{
    let graph = graph_in_few_bits(alloc, &device, options)?;
    service_over(alloc, device, graph, options)
}

/// Makes the service of the device of a file, or returns the refusal.
#[tactic(auto, using(crate::proofs::Services::made_services))]
pub(crate) fn device_service(
    alloc: Global,
    path: &str,
    file: &[u8],
    options: ServeOptions,
) -> Result<Service<GraphEngine>, Refusal>
    requires options { AreWithinLimits options }
    requires short { length file.now ≤ TEXT_LIMIT }
    ensures none_open { IfOk result (λ service. service.table ≡ []) }
    ensures behaviour { ByClauses options.narrow (λ clauses.
        IsFor (shown_by about_of) (served_or_refused (served_device options) options.sessions (if_within options clauses (described path.now file.now))) result) }
{
    let device = described(alloc, path, file)?;
    service_within(alloc, device, options)
}
