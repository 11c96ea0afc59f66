ghost use Rattle.std.specs.Prelude.{◌≡◌, ◌≢◌, ◌≤◌, ◌+◌, [], length, Some, Ok, Err, IfOk, IfSome, MatchOption, MatchResult};
ghost use Rattle.text_rules.specs.Expected.{Fulfils};
ghost use Rattle.text_rules.specs.TextLines.{all_lines};
ghost use Rattle.nnf_text.specs.GraphTexts.{NoHeader, parsed_below, parsed_lines, read_graph};
ghost use Rattle.nnf_text.specs.Refusals.{told};
ghost use Rattle.nnf_text.specs.inner.Reading.{said_by, filled_from, nodes_behind, if_counted};

use crate::checking::graph_of;
use crate::error::NnfError;
use crate::header::{Header, header_of};
use crate::node_lines::{is_filled, read_line};
use node_store::{Graph, Nodes};
use std::alloc::Global;
use text_rules::{Lines, TEXT_LIMIT, Tokens};

// Reads the header, and returns the number of its line too.
fn first_header(lines: &mut Lines<'_>) -> Option<(Header, u32)>
    requires { length (all_lines lines.old) ≤ TEXT_LIMIT }
    ensures header { let read = parsed_lines (filled_from 1 (all_lines lines.old)) in
        MatchOption result (read ≡ Err NoHeader)
        (λ first. read ≡ parsed_below (filled_from (first.1 + 1) (all_lines lines.new)) (Some (said_by first.0))) }
    ensures above { IfSome result (λ first. first.1 + length (all_lines lines.new) ≤ TEXT_LIMIT) }
{
    let mut number = 0;
    while let Some(line) = lines.next() {
        number += 1;
        if is_filled(line) {
            let header = header_of(Tokens::words(line))?;
            return Some((header, number));
        }
    }
    None
}

// Reads the nodes of the lines after the first `above`.
fn nodes_in(alloc: Global, vars: u32, above: u32, lines: Lines<'_>) -> Result<Nodes, NnfError>
    requires { above + length (all_lines lines) ≤ TEXT_LIMIT }
    ensures { Fulfils (λ nodes. record { nodes = nodes; vars = vars }) told
        (nodes_behind vars [] (filled_from (above + 1) (all_lines lines.entry))) result }
{
    let mut nodes = Nodes::new(alloc);
    let mut kids = Vec::new(alloc);
    let mut number = above;
    for line in lines {
        number += 1;
        read_line(&mut nodes, &mut kids, vars, number, line)?;
    }
    Ok(nodes)
}

// Checks that there are as many nodes and edges as the header says.
fn check_counts(header: &Header, nodes: &Nodes) -> Result<(), NnfError>
    ensures { Fulfils (λ _. record { nodes = nodes.now; vars = header.now.vars }) told
        (if_counted (said_by header.now) nodes.now) result }
{
    check_count(u64::from(header.nodes), nodes.len() as u64)?;
    check_count(header.edges, nodes.edges() as u64)
}

// Checks that two numbers are equal.
fn check_count(said: u64, found: u64) -> Result<(), NnfError>
    ensures { MatchResult result (λ _. said ≡ found)
        (λ e. (e ≡ NnfError.Counts said found) × (said ≢ found)) }
{
    if said == found {
        Ok(())
    } else {
        Err(NnfError::Counts { said, found })
    }
}

/// Reads a graph and its number of variables from a text of at most 16,777,216 bytes.
///
/// The nodes of the graph are those of the text, one to one. Memory may run out at any time; any other error is the first
/// reason why the text gives no graph, or why its graph is not decomposable.
pub fn read_nnf(alloc: Global, text: &[u8]) -> Result<(Graph, u32), NnfError>
    requires { length text.now ≤ TEXT_LIMIT }
    ensures read { Fulfils (λ read. read.0) told (read_graph text.now) result }
    ensures vars { IfOk result (λ read. read.1 ≡ read.0.vars) }
    ensures few { IfOk result (λ read. length read.0.nodes ≤ length text.now) }
{
    let mut lines = Lines::new(text);
    let Some((header, above)) = first_header(&mut lines) else {
        return Err(NnfError::Header);
    };
    let nodes = nodes_in(alloc, header.vars, above, lines)?;
    check_counts(&header, &nodes)?;
    let graph = graph_of(alloc, header.vars, nodes)?;
    Ok((graph, header.vars))
}
