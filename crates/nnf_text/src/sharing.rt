ghost use Rattle.std.specs.Prelude.{◌≡◌, ◌==◌, ◌≤◌, ◌<◌, ℕ, length, slice_index, All, true, IfOk, OnOk};
ghost use Rattle.std.specs.List.{range_with_len};
ghost use Rattle.std.specs.List.Sorted.{IsStrictlyIncreasing};
ghost use Rattle.state_rules.specs.Graphs.{kind_fits, nodes_fit};
ghost use Rattle.state_rules.specs.Bits.{has_bit};
ghost use Rattle.nnf_text.specs.inner.Sharing.{IsJoined, IsWord, AreVariables, AddsVariable, FirstOf, earlier};

use node_store::Nodes;
use state_rules::NodeKind;
use std::alloc::{AllocError, Global};
use text_rules::TEXT_LIMIT;

/// The number of variables that have a bit in a word.
const WIDTH: usize = 64;

// Finds the first And node whose children share a variable, and the least such variable.
//
// Each pass over the nodes handles the next 64 of the variables that literals have, so there are few passes even if the
// variables are great.
pub(crate) fn first_shared(
    alloc: Global,
    vars: u32,
    nodes: &Nodes,
) -> Result<Option<(u32, u32)>, AllocError>
    requires fit { nodes_fit vars 0 nodes.now ≡ true }
    requires few { length nodes.now ≤ TEXT_LIMIT }
    ensures { IfOk result (FirstOf nodes.now (range_with_len 1 vars)) }
{
    let variables = variables_of(alloc, nodes)?;
    let mut column = vec![in alloc; 0; nodes.len()]?;
    let mut first = None;
    for pass in 0..variables.len().div_ceil(WIDTH) {
        let start = WIDTH * pass;
        let end = (start + WIDTH).min(variables.len());
        first = earlier(first, mark(nodes, &variables[start..end], &mut column));
    }
    Ok(first)
}

// Returns the variables of literals, in order and each once.
fn variables_of(alloc: Global, nodes: &Nodes) -> Result<Vec<u32>, AllocError>
    ensures { IfOk result (λ variables. AreVariables nodes.now variables.items) }
{
    let mut variables = Vec::new(alloc);
    for node in 0..nodes.len() {
        push_variable(&mut variables, nodes.what(node))?;
    }
    variables.sort_unstable();
    variables.dedup();
    Ok(variables)
}

// Adds the variable of a literal.
fn push_variable(variables: &mut Vec<u32>, what: NodeKind) -> Result<(), AllocError>
    ensures { OnOk result (AddsVariable variables.old.items what variables.new.items) }
{
    match what {
        NodeKind::Literal { var, .. } => Ok(variables.push(var)?),
        NodeKind::And | NodeKind::Or => Ok(()),
    }
}

// Returns the one with the lower node; the first one if the nodes are equal.
fn earlier(first: Option<(u32, u32)>, second: Option<(u32, u32)>) -> Option<(u32, u32)>
    ensures { result ≡ earlier first second }
{
    match (first, second) {
        (Some(a), Some(b)) => Some(if b.0 < a.0 { b } else { a }),
        (Some(a), None) => Some(a),
        (None, other) => other,
    }
}

// Gives each node the word of the variables that it mentions, up to the first And node whose children share one.
fn mark(nodes: &Nodes, variables: &[u32], column: &mut [u64]) -> Option<(u32, u32)>
    requires long { length column.old ≡ length nodes.now }
    requires fit { (vars : ℕ) × (nodes_fit vars 0 nodes.now ≡ true) }
    requires few { length nodes.now ≤ TEXT_LIMIT }
    requires rise { IsStrictlyIncreasing variables.now }
    requires short { length variables.now ≤ WIDTH }
    ensures { FirstOf nodes.now variables.now result }
{
    for i in 0..nodes.len() {
        let (word, twice) = word_of(nodes.what(i), nodes.kids(i), variables, column);
        column[i] = word;
        if twice != 0 {
            return Some((i as u32, variables[twice.trailing_zeros() as usize]));
        }
    }
    None
}

// Returns the variables that a node mentions, and those that children of an And node share.
fn word_of(what: NodeKind, kids: &[u32], variables: &[u32], column: &[u64]) -> (u64, u64)
    requires kids { All (λ child. child < length column.now) kids.now }
    requires fits { (vars : ℕ) × (kind_fits vars what kids.now ≡ true) }
    requires rise { IsStrictlyIncreasing variables.now }
    requires short { length variables.now ≤ WIDTH }
    ensures { IsWord column.now what kids.now variables.now result.0 result.1 }
{
    match what {
        NodeKind::Literal { var, .. } => (literal_word(var, variables), 0),
        NodeKind::And => joined(column, kids),
        NodeKind::Or => (joined(column, kids).0, 0),
    }
}

// Returns the bit of a variable, or 0 if it has none.
fn literal_word(var: u32, variables: &[u32]) -> u64
    requires some { 0 < var }
    requires rise { IsStrictlyIncreasing variables.now }
    requires short { length variables.now ≤ WIDTH }
    ensures { (b : ℕ) → b < 64 → has_bit result b ≡ (var == slice_index variables.now b) }
{
    match variables.binary_search(&var) {
        Ok(place) => 1 << place,
        Err(_) => 0,
    }
}

// Returns the bits that the word of any child has, and those that two have.
#[tactic(auto, using(crate::proofs::Bits::both_more))]
fn joined(column: &[u64], kids: &[u32]) -> (u64, u64)
    requires { All (λ child. child < length column.now) kids.now }
    ensures { IsJoined column.now kids.now result.0 result.1 }
{
    let mut any = 0;
    let mut twice = 0;
    for child in kids {
        let word = column[*child as usize];
        twice |= any & word;
        any |= word;
    }
    (any, twice)
}
