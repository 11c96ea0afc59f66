ghost use Rattle.std.specs.Prelude.{◌≡◌, ◌+◌, ◌*◌, ◌^◌, ◌<◌, ◌≤◌, [], length, All, IfSome, true};
ghost use Rattle.text_rules.specs.Tokens.{is_neat};
ghost use Rattle.state_rules.specs.Graphs.{IsGraph, edges};
ghost use Rattle.diag_edge.specs.Edge.{HasCause, Puts};
ghost use Rattle.nnf_text.specs.GraphTexts.{parsed};
ghost use Rattle.nnf_text.specs.WrittenGraphs.{graph_text};
ghost use Rattle.nnf_text.specs.StateGraphs.{IsSmoothGraphOfStates};
ghost use Rattle.conditioner.specs.Models.{diagnoses_under, total_cost};
ghost use Rattle.minimiser.specs.declared.pass.TheConstants.{TOTAL_LIMIT};
ghost use Rattle.scratch_pool.specs.Regions.{free_words};
ghost use Rattle.part_sets.specs.Numbers.{part_words};
ghost use Rattle.part_sets.specs.PartSets.{ArePartsBelow, AreLacking, AreFor};
ghost use Rattle.smooth_nnf.specs.Layouts.{all_lines, least_text};
ghost use Rattle.smooth_nnf.specs.inner.Drawings.{shown};
ghost use Rattle.smooth_nnf.specs.Sizes.{drawing_words, least_words};

use crate::drawing::Drawing;
use crate::edges::edge_count;
use crate::lines::{add_last, add_literals, add_nodes};
use crate::places::place_lines;
use diag_edge::{Sink, WriteFailed};
use minimiser::{Steps, TOTAL_LIMIT, put_least_costs};
use nnf_text::{GraphText, add_header};
use node_store::Graph;
use part_sets::{PART_LIMIT, PartSets, part_words, put_nodes};
use scratch_pool::Region;
use std::marker::Brand;
use std::sync::ledger::{Blank, Ledger};

// A graph under evidence, and the costs of its parts.
#[derive(Clone, Copy)]
struct Asked<'a> {
    graph: &'a Graph,
    evidence: &'a [u32],
    costs: &'a [u32],
    ghost long: { length evidence.now ≡ graph.now.vars },
    ghost small: { All (λ w. w < 3) evidence.now },
    ghost parts: { length costs.now ≤ graph.now.vars },
    ghost dear: { All (λ c. 0 < c) costs.now },
    ghost total: { total_cost costs.now < TOTAL_LIMIT },
    ghost few: { length graph.now.nodes + edges graph.now.nodes + 2 * length costs.now + 1 < 2 ^ 32 },
}

/// Writes the graph of the diagnoses that a graph allows under evidence, one word a variable: 0 if it is open, 1 if true, 2 if false. The
/// parts are the first variables, and each costs more than 0.
///
/// The text is smooth and decomposable. It has at most a line for each node of the graph and each of its edges, two for each part, and one
/// more. The region lends 2 words for each node, and a set of parts for each. No memory is taken. Fails if a write fails.
#[tactic(auto, using(crate::proofs::Rules::written_text))]
pub fn write_least<O: Sink>(
    graph: &Graph,
    evidence: &[u32],
    costs: &[u32],
    region: &mut Region,
    out: &mut O,
) -> Result<(), WriteFailed>
    requires evidence { length evidence.now ≡ graph.now.vars }
    requires small { All (λ w. w < 3) evidence.now }
    requires parts { length costs.now ≤ graph.now.vars }
    requires dear { All (λ c. 0 < c) costs.now }
    requires total { total_cost costs.now < TOTAL_LIMIT }
    requires few { length graph.now.nodes + edges graph.now.nodes + 2 * length costs.now + 1 < 2 ^ 32 }
    requires idle { region.old.runs ≡ [] }
    requires few_parts { length costs.now ≤ PART_LIMIT }
    requires room { least_words (length graph.now.nodes) (length costs.now) ≤ free_words region.old }

    ensures bytes { Puts (O.got out.old) (O.got out.new) result
        (least_text graph.now evidence.now costs.now) }
    ensures cause { HasCause (O.faults out.old) (O.faults out.new) result }
    ensures idle { region.new.runs ≡ [] }
    ensures free { length region.new.words ≡ length region.old.words }

    // The text has no blank line. It is read as a smooth and decomposable graph over the parts that is true for the diagnoses alone.
    ensures neat { is_neat (least_text graph.now evidence.now costs.now) ≡ true }
    ensures diagnoses { IsSmoothGraphOfStates (length costs.now) (diagnoses_under graph.now evidence.now costs.now)
        (parsed (least_text graph.now evidence.now costs.now)) }
{
    let asked = Asked {
        graph,
        evidence,
        costs,
    };
    let size = 2 + part_words(costs.len());
    let run = region.carve(graph.len() as usize * size).unwrap();
    let written = write_fresh::<O, Brand>(Blank::new(1), &asked, region.run_mut(&run), out);
    region.release(run);
    written
}

/// Writes what [`write_least`] writes, from kept sets of the parts below the nodes. The region lends 2 words for each node.
#[tactic(auto, using(crate::proofs::Rules::written_text))]
pub fn write_least_with<O: Sink>(
    graph: &Graph,
    sets: &PartSets,
    evidence: &[u32],
    costs: &[u32],
    region: &mut Region,
    out: &mut O,
) -> Result<(), WriteFailed>
    requires evidence { length evidence.now ≡ graph.now.vars }
    requires small { All (λ w. w < 3) evidence.now }
    requires parts { length costs.now ≤ graph.now.vars }
    requires dear { All (λ c. 0 < c) costs.now }
    requires total { total_cost costs.now < TOTAL_LIMIT }
    requires few { length graph.now.nodes + edges graph.now.nodes + 2 * length costs.now + 1 < 2 ^ 32 }
    requires idle { region.old.runs ≡ [] }
    requires sets { AreFor graph.now (length costs.now) sets.now }
    requires room { drawing_words (length graph.now.nodes) ≤ free_words region.old }

    ensures bytes { Puts (O.got out.old) (O.got out.new) result
        (least_text graph.now evidence.now costs.now) }
    ensures cause { HasCause (O.faults out.old) (O.faults out.new) result }
    ensures idle { region.new.runs ≡ [] }
    ensures free { length region.new.words ≡ length region.old.words }

    // The text has no blank line. It is read as a smooth and decomposable graph over the parts that is true for the diagnoses alone.
    ensures neat { is_neat (least_text graph.now evidence.now costs.now) ≡ true }
    ensures diagnoses { IsSmoothGraphOfStates (length costs.now) (diagnoses_under graph.now evidence.now costs.now)
        (parsed (least_text graph.now evidence.now costs.now)) }
{
    let asked = Asked {
        graph,
        evidence,
        costs,
    };
    let run = region.carve(graph.len() as usize * 2).unwrap();
    let written = write_in::<O, Brand>(
        Blank::new(1),
        &asked,
        sets.below(),
        Some(sets.lacking()),
        region.run_mut(&run),
        out,
    );
    region.release(run);
    written
}

// Computes the sets, and writes the text.
fn write_fresh<O: Sink, L: Ledger>(
    blank: Blank,
    asked: &Asked<'_>,
    scratch: &mut [u32],
    out: &mut O,
) -> Result<(), WriteFailed>
    requires name { blank.name ≡ L.name }
    requires shares { blank.parts ≡ L.parts }
    requires some { 0 < blank.parts }
    requires few_parts { length asked.now.costs.now ≤ PART_LIMIT }
    requires room { length scratch.old ≡ least_words (length asked.now.graph.now.nodes) (length asked.now.costs.now) }
    ensures bytes { Puts (O.got out.old) (O.got out.new) result
        (least_text asked.now.graph.now asked.now.evidence.now asked.now.costs.now) }
    ensures cause { HasCause (O.faults out.old) (O.faults out.new) result }
    ensures valid { IsGraph asked.now.graph.now }
{
    let graph = asked.graph;
    let parts = asked.costs.len();
    let (below, scratch) = scratch.split_at_mut(graph.len() as usize * part_words(parts));
    put_nodes(graph, parts, below);
    write_in::<O, L>(blank, asked, below, None, scratch, out)
}

// Writes the text, in scratch.
#[tactic(auto, using(crate::proofs::Rules::layout_sizes))]
fn write_in<O: Sink, L: Ledger>(
    blank: Blank,
    asked: &Asked<'_>,
    below: &[u32],
    lacking: Option<&[u32]>,
    scratch: &mut [u32],
    out: &mut O,
) -> Result<(), WriteFailed>
    requires name { blank.name ≡ L.name }
    requires shares { blank.parts ≡ L.parts }
    requires some { 0 < blank.parts }
    requires wide { length asked.now.graph.now.nodes * part_words (length asked.now.costs.now) ≤ length below.now }
    requires below { ArePartsBelow asked.now.graph.now (length asked.now.costs.now) below.now (length asked.now.graph.now.nodes) }
    requires lacking { IfSome lacking (λ words. AreLacking asked.now.graph.now (length asked.now.costs.now) words.now) }
    requires room { length scratch.old ≡ drawing_words (length asked.now.graph.now.nodes) }
    ensures bytes { Puts (O.got out.old) (O.got out.new) result
        (least_text asked.now.graph.now asked.now.evidence.now asked.now.costs.now) }
    ensures cause { HasCause (O.faults out.old) (O.faults out.new) result }
    ensures valid { IsGraph asked.now.graph.now }
{
    let Asked {
        graph,
        evidence,
        costs,
    } = *asked;
    let parts = costs.len() as u32;
    let nodes = graph.len() as usize;
    let (values, lines) = scratch.split_at_mut(nodes);
    put_least_costs(
        &graph.view(),
        evidence,
        costs,
        values,
        &mut Steps::<L>::new(blank),
    );
    let count = place_lines(graph, parts, values, lines);
    let drawing = Drawing {
        graph,
        evidence,
        parts,
        values,
        lines,
        below,
        lacking,
    };
    put_lines(&drawing, count + 1, out)
}

#[tactic(auto, using(crate::proofs::Rules::joined_texts))]
fn put_lines<O: Sink>(drawing: &Drawing<'_>, count: u32, out: &mut O) -> Result<(), WriteFailed>
    requires count { count ≡ length (all_lines (shown drawing.now)) }
    requires edges { edges (all_lines (shown drawing.now)) < 2 ^ 64 }
    ensures bytes { Puts (O.got out.old) (O.got out.new) result
        (graph_text (record { nodes = all_lines (shown drawing.now); vars = drawing.now.parts })) }
    ensures cause { HasCause (O.faults out.old) (O.faults out.new) result }
{
    let mut text = GraphText::new();
    add_header(&mut text, out, count, edge_count(drawing), drawing.parts());
    add_literals(&mut text, out, drawing.parts());
    add_nodes(&mut text, out, drawing);
    add_last(&mut text, out, drawing);
    text.finish(out)
}
