ghost use Rattle.std.specs.Prelude.{◌≡◌};
ghost use Rattle.std.specs.Option.{option_map};
ghost use Rattle.text_rules.specs.Tokens.{tokens_left};
ghost use Rattle.nnf_text.specs.GraphTexts.{header_of, header_from};
ghost use Rattle.nnf_text.specs.inner.Reading.{said_by};

use crate::numbers::{great_number, small_number};
use text_rules::Tokens;

/// The numbers in the first line that is not blank.
#[derive(Clone, Copy, Debug, PartialEq, Eq)]
pub(crate) struct Header {
    pub(crate) nodes: u32,
    pub(crate) edges: u64,
    pub(crate) vars: u32,
}

// Makes a header of three numbers, if all are there and there is a node.
fn header_from(nodes: Option<u32>, edges: Option<u64>, vars: Option<u32>) -> Option<Header>
    ensures { option_map said_by result ≡ header_from nodes edges vars }
{
    let nodes = nodes?;
    let edges = edges?;
    let vars = vars?;
    (nodes > 0).then_some(Header { nodes, edges, vars })
}

// Reads `nnf NODES EDGES VARIABLES`.
pub(crate) fn header_of(mut words: Tokens<'_>) -> Option<Header>
    ensures { option_map said_by result ≡ header_of (tokens_left words.entry) }
{
    let word = words.next()?;
    let nodes = words.next()?;
    let edges = words.next()?;
    let vars = words.next()?;
    if words.next().is_some() || word != b"nnf".as_slice() {
        return None;
    }
    header_from(small_number(nodes), great_number(edges), small_number(vars))
}
