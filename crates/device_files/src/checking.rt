ghost use Rattle.std.specs.Prelude.{◌≡◌, ◌≤◌, length, Some, IfOk};
ghost use Rattle.std.specs.Option.{option_map};
ghost use Rattle.diag_edge.specs.ErrorLines.{fault_line};
ghost use Rattle.nnf_text.specs.Refusals.{told};
ghost use Rattle.device_files.specs.Output.{says};
ghost use Rattle.device_files.specs.Checking.{graph_fault_line, graph_in};
ghost use Rattle.device_files.specs.Refusals.{FulfilsOrRefuses, refusal_output};

use crate::refusal::Refusal;
use crate::status::Status;
use nnf_text::{NnfError, read_nnf};
use node_store::Graph;
use std::alloc::Global;
use text_rules::TEXT_LIMIT;

// The refusal of a faulty line.
fn at_line(line: u32, number: u32, name: &'static str) -> Refusal
    ensures { refusal_output result ≡ Some (says (fault_line line number name.now) Status.Refused) }
{
    Refusal::Fault { line, number, name }
}

// The refusal that says why a text gives no decomposable graph.
fn refused(error: NnfError) -> Refusal
    ensures { refusal_output result ≡ option_map (λ refusal. says (graph_fault_line refusal) Status.Refused) (told error) }
{
    match error {
        NnfError::Header => Refusal::Header,
        NnfError::Line { line } => at_line(line, 2, "line"),
        NnfError::Child { line } => at_line(line, 3, "child"),
        NnfError::Variable { line } => at_line(line, 4, "variable"),
        NnfError::Counts { said, found } => Refusal::Counts { said, found },
        NnfError::TooLarge { bits } => Refusal::Bits { bits },
        NnfError::Shared { node, var } => Refusal::Shared {
            node,
            variable: var,
        },
        NnfError::Memory => Refusal::Memory,
    }
}

/// Reads the decomposable graph that the text of a file writes. An error says why there is none.
pub fn graph_in(alloc: Global, file: &[u8]) -> Result<Graph, Refusal>
    requires { length file.now ≤ TEXT_LIMIT }
    ensures graph { FulfilsOrRefuses (graph_in file.now) result }
    ensures few { IfOk result (λ graph. length graph.nodes ≤ TEXT_LIMIT) }
{
    match read_nnf(alloc, file) {
        Ok((graph, _)) => Ok(graph),
        Err(error) => Err(refused(error)),
    }
}
