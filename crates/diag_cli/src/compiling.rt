ghost use Rattle.std.specs.Prelude.{◌≡◌, ◌-◌, ◌^◌, ◌<◌, ◌≤◌, length};
ghost use Rattle.diag_edge.specs.Edge.{RoseExactly};
ghost use Rattle.device_files.specs.Describing.{described};
ghost use Rattle.device_files.specs.Choices.{ByClauses};
ghost use Rattle.diag_cli.specs.Behaviours.{graph_by};
ghost use Rattle.device_files.specs.Weighing.{output_within};
ghost use Rattle.device_files.specs.Output.{FulfilsOutputUnlessMemory};

use crate::graphs::graph_within;
use branch_states::BUDGET_LIMIT;
use device_files::{Status, described, tell};
use diag_edge::Sink;
use nnf_text::write_nnf;
use std::alloc::Global;
use text_rules::TEXT_LIMIT;

/// Writes the graph of the device of a file, or why there is none. Returns the status.
pub(crate) fn compile_file<O: Sink>(
    alloc: Global,
    path: &str,
    file: &[u8],
    budget: u32,
    is_narrow: bool,
    out: &mut O,
) -> Status
    requires budget { budget ≤ BUDGET_LIMIT }
    requires short { length file.now ≤ TEXT_LIMIT }
    requires faults { O.faults out.old < 2 ^ 64 - 1 }
    ensures write_fault { RoseExactly (O.faults out.old) (O.faults out.new) (result ≡ Status.WriteFailed) }
    ensures said { ByClauses is_narrow (λ clauses.
        FulfilsOutputUnlessMemory (output_within budget clauses graph_by (described path.now file.now)) result (O.got out.old) (O.got out.new)) }
{
    let device = match described(alloc, path, file) {
        Ok(device) => device,
        Err(refusal) => return tell(out, refusal),
    };
    let graph = match graph_within(alloc, &device, budget, is_narrow) {
        Ok(graph) => graph,
        Err(refusal) => return tell(out, refusal),
    };
    match write_nnf(&graph, graph.vars(), out) {
        Ok(()) => Status::Done,
        Err(_) => Status::WriteFailed,
    }
}
