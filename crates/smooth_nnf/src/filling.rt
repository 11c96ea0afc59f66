//! Lines with parts filled in.
ghost use Rattle.std.specs.Prelude.{◌≡◌, ℕ, ◌<◌, ◌≤◌, true, length};
ghost use Rattle.std.specs.List.{flat_map, range_with_len};
ghost use Rattle.text_rules.specs.Tokens.{spaced};
ghost use Rattle.state_rules.specs.Bits.{has_bit};
ghost use Rattle.nnf_text.specs.Extending.{Extends};
ghost use Rattle.nnf_text.specs.WrittenGraphs.{node_words};
ghost use Rattle.part_sets.specs.Numbers.{part_words};
ghost use Rattle.smooth_nnf.specs.Layouts.{fillers};
ghost use Rattle.smooth_nnf.specs.inner.Sets.{part_at};
ghost use Rattle.smooth_nnf.specs.inner.Drawings.{IsNodeOf, IsUnder, missing_in, filled_line};
ghost use Rattle.smooth_nnf.specs.inner.Texts.{numbers_text, bit_text, word_text};

use crate::drawing::Drawing;
use diag_edge::Sink;
use nnf_text::{GraphText, add_node};
use state_rules::NodeKind;

// Adds the line of a node with the missing parts filled in.
#[tactic(auto, using(crate::proofs::Rules::filled_lines))]
pub(crate) fn add_filled<O: Sink>(
    text: &mut GraphText,
    out: &mut O,
    drawing: &Drawing<'_>,
    over: Option<u32>,
    node: u32,
)
    requires node { node < length drawing.now.graph.nodes }
    requires over { IsNodeOf drawing.now over }
    requires under { IsUnder drawing.now over node }
    ensures { Extends (O.shown out.old) (O.shown out.new) text.old text.new
        (spaced (node_words (filled_line drawing.now over node))) }
{
    let line = drawing.line(node);
    if drawing.lacks_none(over) {
        add_node(text, out, NodeKind::And, &[line]);
        return;
    }
    let count = drawing.missing_count(over, node) + 1;
    text.add(out, b"A");
    text.add_count(out, count);
    text.add_count(out, line);
    add_fillers(text, out, drawing, over, node);
    text.add(out, b"\n");
}

// Adds the lines that fill in what is missing below a node, each after a space.
#[tactic(auto, using(nnf_text::proofs::Extended::extending, crate::proofs::Rules::added_fillers))]
fn add_fillers<O: Sink>(
    text: &mut GraphText,
    out: &mut O,
    drawing: &Drawing<'_>,
    over: Option<u32>,
    node: u32,
)
    requires node { node < length drawing.now.graph.nodes }
    requires over { IsNodeOf drawing.now over }
    ensures { Extends (O.shown out.old) (O.shown out.new) text.old text.new
        (numbers_text (fillers drawing.now.evidence drawing.now.parts (missing_in drawing.now over node))) }
{
    for word in 0..drawing.width() {
        add_word_fillers(text, out, drawing, over, node, word);
    }
}

// The same for one word.
#[tactic(auto, using(nnf_text::proofs::Extended::extending, crate::proofs::Rules::added_fillers))]
fn add_word_fillers<O: Sink>(
    text: &mut GraphText,
    out: &mut O,
    drawing: &Drawing<'_>,
    over: Option<u32>,
    node: u32,
    word: usize,
)
    requires node { node < length drawing.now.graph.nodes }
    requires over { IsNodeOf drawing.now over }
    requires word { word < part_words drawing.now.parts }
    ensures { Extends (O.shown out.old) (O.shown out.new) text.old text.new
        (word_text drawing.now node over word) }
{
    let bits = drawing.missing_word(over, node, word);
    if bits == 0 {
        return;
    }
    add_bits(text, out, drawing, word, bits);
}

// Adds the lines that fill in the parts of a word's bits, each after a space.
#[tactic(auto, using(nnf_text::proofs::Extended::extending))]
fn add_bits<O: Sink>(
    text: &mut GraphText,
    out: &mut O,
    drawing: &Drawing<'_>,
    word: usize,
    bits: u32,
)
    requires { (b : ℕ) → b < 32 → has_bit bits b ≡ true → part_at word b ≤ drawing.now.parts }
    ensures { Extends (O.shown out.old) (O.shown out.new) text.old text.new
        (flat_map (bit_text drawing.now.evidence word bits) (range_with_len 0 32)) }
{
    for b in 0..32 {
        add_bit(text, out, drawing, word, bits, b);
    }
}

// Adds the line that fills in the part of one bit, if the word has it.
#[tactic(auto, using(nnf_text::proofs::Extended::extending))]
fn add_bit<O: Sink>(
    text: &mut GraphText,
    out: &mut O,
    drawing: &Drawing<'_>,
    word: usize,
    bits: u32,
    b: u32,
)
    requires bit { b < 32 }
    requires part { has_bit bits b ≡ true → part_at word b ≤ drawing.now.parts }
    ensures { Extends (O.shown out.old) (O.shown out.new) text.old text.new
        (bit_text drawing.now.evidence word bits b) }
{
    if (bits >> b) & 1 != 1 {
        return;
    }
    text.add_count(out, drawing.filler(word, b));
}
