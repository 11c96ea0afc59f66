ghost use Rattle.std.specs.Prelude.{◌≡◌, ◌∷◌, [], ◌<◌, ◌≤◌, ◌+◌, ◌^◌, nat_lt, length, codes, IfOk, OnOk};
ghost use Rattle.std.specs.List.{list_all};
ghost use Rattle.std.specs.Option.{option_map};
ghost use Rattle.text_rules.specs.Expected.{Fulfils};
ghost use Rattle.text_rules.specs.Tokens.{words, tokens_left, is_filled};
ghost use Rattle.nnf_text.specs.GraphTexts.{small_number, literal_with, literal_of, node_of, variable_fits};
ghost use Rattle.nnf_text.specs.Refusals.{told};
ghost use Rattle.nnf_text.specs.inner.Reading.{node_with, childless, filled_from, nodes_behind};

use crate::error::NnfError;
use crate::numbers::{over_children, small_number};
use node_store::Nodes;
use state_rules::NodeKind;
use std::alloc::AllocError;
use text_rules::Tokens;

// Reads a literal from its digits.
fn literal_with(positive: bool, digits: &[u8]) -> Option<NodeKind>
    ensures { option_map childless result ≡ literal_with positive (small_number digits.now) }
{
    let var = small_number(digits)?;
    Some(NodeKind::Literal { var, positive })
}

// Reads a literal from its word, which has a minus sign if it is negated.
fn literal_of(word: &[u8]) -> Option<NodeKind>
    ensures { option_map childless result ≡ literal_of word.now }
{
    match word {
        [b'-', digits @ ..] => literal_with(false, digits),
        _ => literal_with(true, word),
    }
}

// Reads the literal after `L`.
fn read_literal(mut words: Tokens<'_>) -> Option<NodeKind>
    ensures { option_map childless result ≡ node_of (codes "L" ∷ tokens_left words.entry) }
{
    let word = words.next()?;
    if words.next().is_some() {
        return None;
    }
    literal_of(word)
}

// Reads the Or node after `O`; its children become `kids`.
fn read_or(kids: &mut Vec<u32>, mut words: Tokens<'_>) -> Result<Option<NodeKind>, AllocError>
    ensures { IfOk result (λ kind. option_map (node_with kids.new.items) kind
        ≡ node_of (codes "O" ∷ tokens_left words.entry)) }
{
    let Some(first) = words.next() else {
        return Ok(None);
    };
    match small_number(first) {
        None => Ok(None),
        Some(_) => over_children(NodeKind::Or, kids, words),
    }
}

// Reads a node, if the words have one of the forms; its children become `kids`.
fn node_of(kids: &mut Vec<u32>, mut words: Tokens<'_>) -> Result<Option<NodeKind>, AllocError>
    ensures { IfOk result (λ kind. option_map (node_with kids.new.items) kind
        ≡ node_of (tokens_left words.entry)) }
{
    match words.next() {
        Some(b"L") => {
            kids.clear();
            Ok(read_literal(words))
        }
        Some(b"A") => over_children(NodeKind::And, kids, words),
        Some(b"O") => read_or(kids, words),
        _ => Ok(None),
    }
}

// Whether all children are nodes before this one.
fn are_earlier(own: u32, kids: &[u32]) -> bool
    ensures { result ≡ list_all (λ child. nat_lt child own) kids.now }
{
    kids.iter().all(|child| *child < own)
}

// Whether the variable of a literal is in range.
fn variable_fits(vars: u32, kind: NodeKind) -> bool
    ensures { result ≡ variable_fits vars kind }
{
    match kind {
        NodeKind::Literal { var, .. } => 1 <= var && var <= vars,
        NodeKind::And | NodeKind::Or => true,
    }
}

// Adds the node of a line's words. Its children are gathered in `kids`.
fn read_node(
    nodes: &mut Nodes,
    kids: &mut Vec<u32>,
    vars: u32,
    line: u32,
    words: Tokens<'_>,
) -> Result<(), NnfError>
    requires { length nodes.old < 2 ^ 32 }
    ensures read { Fulfils (λ _. record { nodes = nodes.new; vars = vars }) told
        (nodes_behind vars nodes.old ((line, tokens_left words.entry) ∷ [])) result }
    ensures few { OnOk result (length nodes.new ≤ length nodes.old + 1) }
{
    let Some(what) = node_of(kids, words)? else {
        return Err(NnfError::Line { line });
    };
    if !are_earlier(nodes.len() as u32, kids) {
        return Err(NnfError::Child { line });
    }
    if !variable_fits(vars, what) {
        return Err(NnfError::Variable { line });
    }
    nodes.push(what, kids)?;
    Ok(())
}

// Whether a line is not blank.
pub(crate) fn is_filled(line: &[u8]) -> bool
    ensures { result ≡ is_filled (words line.now) }
{
    Tokens::words(line).next().is_some()
}

// Reads a line: adds a node, or nothing if it is blank.
pub(crate) fn read_line(
    nodes: &mut Nodes,
    kids: &mut Vec<u32>,
    vars: u32,
    number: u32,
    line: &[u8],
) -> Result<(), NnfError>
    requires { length nodes.old < 2 ^ 32 }
    ensures read { Fulfils (λ _. record { nodes = nodes.new; vars = vars }) told
        (nodes_behind vars nodes.old (filled_from number (line.now ∷ []))) result }
    ensures few { OnOk result (length nodes.new ≤ length nodes.old + 1) }
{
    if !is_filled(line) {
        return Ok(());
    }
    read_node(nodes, kids, vars, number, Tokens::words(line))
}
