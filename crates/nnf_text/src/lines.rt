ghost use Rattle.std.specs.Prelude.{◌++◌, ◌∷◌, [], length, codes, decimal};
ghost use Rattle.std.specs.List.{flat_map};
ghost use Rattle.text_rules.specs.Tokens.{spaced};
ghost use Rattle.nnf_text.specs.Extending.{Extends};
ghost use Rattle.nnf_text.specs.WrittenGraphs.{kind_words};

use crate::GraphText;
use diag_edge::Sink;
use itoa::Integer;
use state_rules::NodeKind;

/// Adds the line of the numbers of nodes, edges and variables.
pub fn add_header<O: Sink>(text: &mut GraphText, out: &mut O, nodes: u32, edges: u64, vars: u32)
    ensures { Extends (O.shown out.old) (O.shown out.new) text.old text.new
        (spaced (codes "nnf" ∷ decimal nodes ∷ decimal edges ∷ decimal vars ∷ [])) }
{
    text.add(out, b"nnf");
    add_listed(text, out, &[u64::from(nodes), edges, u64::from(vars)]);
}

/// Adds the line of a node.
#[tactic(auto, using(crate::proofs::Rules::node_lines))]
pub fn add_node<O: Sink>(text: &mut GraphText, out: &mut O, kind: NodeKind, kids: &[u32])
    ensures { Extends (O.shown out.old) (O.shown out.new) text.old text.new
        (spaced (kind_words kind kids.now)) }
{
    match kind {
        NodeKind::Literal {
            var,
            positive: true,
        } => add_literal(text, out, b"L ", var),
        NodeKind::Literal {
            var,
            positive: false,
        } => add_literal(text, out, b"L -", var),
        NodeKind::And => add_children(text, out, b"A", kids),
        NodeKind::Or => add_children(text, out, b"O 0", kids),
    }
}

// Adds a line: a word, and a number.
#[tactic(auto, using(crate::proofs::Extended::extending))]
fn add_literal<O: Sink>(text: &mut GraphText, out: &mut O, word: &[u8], number: u32)
    ensures { Extends (O.shown out.old) (O.shown out.new) text.old text.new
        (word.now ++ (decimal number ++ 10 ∷ [])) }
{
    text.add(out, word);
    text.add_number(out, number);
    text.add(out, b"\n");
}

// Adds a line: a word, the number of children, and each child.
#[tactic(auto, using(crate::proofs::Extended::extending))]
fn add_children<O: Sink>(text: &mut GraphText, out: &mut O, word: &[u8], kids: &[u32])
    ensures { Extends (O.shown out.old) (O.shown out.new) text.old text.new
        (word.now ++ ((32 ∷ decimal (length kids.now))
        ++ (flat_map (λ child. 32 ∷ decimal child) kids.now ++ 10 ∷ []))) }
{
    text.add(out, word);
    text.add_count(out, kids.len() as u64);
    add_listed(text, out, kids);
}

// Adds numbers, each after a space, and a line feed.
#[tactic(auto, using(crate::proofs::Extended::extending))]
fn add_listed<O: Sink, I: Integer>(text: &mut GraphText, out: &mut O, numbers: &[I])
    ensures { Extends (O.shown out.old) (O.shown out.new) text.old text.new
        (flat_map (λ n. 32 ∷ I.text n) numbers.now ++ 10 ∷ []) }
{
    for number in numbers {
        text.add_count(out, *number);
    }
    text.add(out, b"\n");
}
