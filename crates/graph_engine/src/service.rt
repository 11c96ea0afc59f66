//! Sessions over a graph.
ghost use Rattle.std.specs.Prelude.{◌≡◌, ◌+◌, ◌<◌, ◌≤◌, [], length, true, All, IfOk, IfSome};
ghost use Rattle.text_rules.specs.Names.{names_rise};
ghost use Rattle.device_model.specs.declared.limits.TheConstants.{PART_LIMIT, WIRE_LIMIT};
ghost use Rattle.conditioner.specs.Models.{total_cost};
ghost use Rattle.minimiser.specs.declared.pass.TheConstants.{TOTAL_LIMIT};
ghost use Rattle.session_core.specs.Services.{shown_by};
ghost use Rattle.graph_engine.specs.Served.{CanList, CanDraw, served_system, about_of};

use crate::engine::GraphEngine;
use crate::limits::{SERVED_NODES, SERVED_VARIABLES};
use device_model::{Name, PART_LIMIT, WIRE_LIMIT};
use minimiser::TOTAL_LIMIT;
use node_store::Graph;
use session_core::{Memory, SESSION_LIMIT, Service};
use state_rules::Extras;
use std::alloc::Global;

/// Makes a service over the names of parts and wires, the cost of each part's failure, and a graph whose variables are the parts, the wires,
/// and inner ones. No session is open, and at most `sessions` may be, from 1 to `SESSION_LIMIT`. It offers states by rising cost and the
/// graph of the diagnoses if the extras say so. `Err` means that memory ran out.
pub fn over(
    alloc: Global,
    parts: Vec<Name>,
    wires: Vec<Name>,
    costs: Vec<u32>,
    graph: Graph,
    sessions: u32,
    extras: Extras,
) -> Result<Service<GraphEngine>, Memory>
    requires parts_rise { names_rise parts.items ≡ true }
    requires wires_rise { names_rise wires.items ≡ true }
    requires few_parts { length parts.items ≤ PART_LIMIT }
    requires few_wires { length wires.items ≤ WIRE_LIMIT }
    requires costs { length costs.items ≡ length parts.items }
    requires dear { All (λ c. 0 < c) costs.items }
    requires total { total_cost costs.items < TOTAL_LIMIT }
    requires vars { length parts.items + length wires.items ≤ graph.vars }
    requires few_vars { graph.vars ≤ SERVED_VARIABLES }
    requires few_nodes { length graph.nodes < SERVED_NODES }
    requires some { 1 ≤ sessions }
    requires sessions { sessions ≤ SESSION_LIMIT }
    requires levels { IfSome extras.levels (CanList graph (length parts.items)) }
    requires least { extras.least ≡ true → CanDraw graph (length parts.items) }
    ensures { IfOk result (λ service. shown_by about_of service
        ≡ record {
          system = served_system (record { parts = parts.items; wires = wires.items; costs = costs.items; graph = graph; extras = extras });
          limit = sessions;
          table = [];
        }) }
{
    let engine = GraphEngine::new(alloc, parts, wires, costs, graph, extras)?;
    Service::over(alloc, engine, sessions)
}
