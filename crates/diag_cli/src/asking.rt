//! The services of graphs without a device.
ghost use Rattle.std.specs.Prelude.{◌≡◌, ◌≤◌, [], Ok, length, IfOk};
ghost use Rattle.std.specs.Option.{option_map};
ghost use Rattle.text_rules.specs.Expected.{Fulfils};
ghost use Rattle.nnf_ask.specs.Asking.{told, asked_subject, asked_system};
ghost use Rattle.session_rules.specs.GraphSystems.{system_of};
ghost use Rattle.session_core.specs.Services.{shown_by};
ghost use Rattle.graph_engine.specs.Served.{about_of};
ghost use Rattle.diag_cli.specs.Asking.{asked, asking_line};
ghost use Rattle.device_files.specs.Checking.{graph_in};
ghost use Rattle.diag_cli.specs.Behaviours.{served_or_refused};
ghost use Rattle.device_files.specs.Output.{says};
ghost use Rattle.device_files.specs.Refusals.{refusal_output};
ghost use Rattle.diag_cli.specs.inner.Serving.{Answers, IsFor};

use device_files::{Refusal, Status, above, graph_in};
use device_model::{PART_LIMIT, WIRE_LIMIT};
use graph_engine::{GraphEngine, over};
use nnf_ask::{AskError, ask_costs, ask_names};
use node_store::Graph;
use session_core::{Extras, SESSION_LIMIT, Service};
use std::alloc::Global;
use text_rules::TEXT_LIMIT;

// Returns the refusal that says why the variables of a graph get no names.
fn unnamed(error: AskError) -> Refusal
    ensures { refusal_output result ≡ option_map (λ fault. says (asking_line fault) Status.Refused) (told error) }
{
    match error {
        AskError::Health { health, vars } => above("health", health, vars as usize),
        AskError::Wires { count } => above("wires", count, WIRE_LIMIT),
        AskError::Memory => Refusal::Memory,
    }
}

// Makes a service over a graph with `health` parts and at most `sessions` open sessions. All its memory is taken here.
fn service_over(
    alloc: Global,
    graph: Graph,
    health: u32,
    sessions: u32,
) -> Result<Service<GraphEngine>, Refusal>
    requires health { health ≤ PART_LIMIT }
    requires some { 1 ≤ sessions }
    requires sessions { sessions ≤ SESSION_LIMIT }
    requires few { length graph.nodes ≤ TEXT_LIMIT }
    ensures asked { Fulfils (λ _. asked_subject health graph) refusal_output (asked health (Ok graph)) result }
    ensures ready { IfOk result (λ service. Answers (asked_system health graph) sessions (shown_by about_of service)) }
{
    let (parts, wires) = match ask_names(alloc, health, graph.vars()) {
        Ok(names) => names,
        Err(error) => return Err(unnamed(error)),
    };
    let costs = ask_costs(alloc, health)?;
    // `ask` has no extras.
    let extras = Extras {
        levels: None,
        least: false,
    };
    match over(alloc, parts, wires, costs, graph, sessions, extras) {
        Ok(service) => Ok(service),
        Err(_) => Err(Refusal::Memory),
    }
}

/// Makes the service of the graph of a file, whose first variables are `health` parts, or returns the refusal.
#[tactic(auto, using(crate::proofs::Services::made_services))]
pub(crate) fn graph_service(
    alloc: Global,
    file: &[u8],
    health: u32,
    sessions: u32,
) -> Result<Service<GraphEngine>, Refusal>
    requires short { length file.now ≤ TEXT_LIMIT }
    requires health { health ≤ PART_LIMIT }
    requires some { 1 ≤ sessions }
    requires sessions { sessions ≤ SESSION_LIMIT }
    ensures none_open { IfOk result (λ service. service.table ≡ []) }
    ensures behaviour { IsFor (shown_by about_of) (served_or_refused system_of sessions (asked health (graph_in file.now))) result }
{
    let graph = graph_in(alloc, file)?;
    service_over(alloc, graph, health, sessions)
}
