ghost use Rattle.std.specs.Prelude.{◌≡◌, Some, None, IfOk, if◌then◌else◌};
ghost use Rattle.std.specs.Option.{option_map};
ghost use Rattle.text_rules.specs.Tokens.{tokens_left};
ghost use Rattle.nnf_text.specs.GraphTexts.{small_number, great_number, numbers, counted};
ghost use Rattle.nnf_text.specs.inner.Reading.{node_with};

use state_rules::NodeKind;
use std::alloc::AllocError;
use text_rules::{Tokens, number};

/// The most digits of a number that must fit 32 bits.
const SMALL_DIGITS: usize = 10;

/// The greatest number that fits 32 bits.
const SMALL_LIMIT: u64 = 4_294_967_295;

/// The most digits of a number that must fit 64 bits.
const GREAT_DIGITS: usize = 20;

// Reads a number, if it fits 32 bits.
pub(crate) fn small_number(word: &[u8]) -> Option<u32>
    ensures { result ≡ small_number word.now }
{
    let number = number(SMALL_DIGITS, 0, SMALL_LIMIT, word)?;
    Some(number as u32)
}

// Reads a number, if it fits 64 bits.
pub(crate) fn great_number(word: &[u8]) -> Option<u64>
    ensures { result ≡ great_number word.now }
{
    number(GREAT_DIGITS, 0, u64::MAX, word)
}

// Sets `kids` to the numbers up to the first word that is none; returns whether all words are numbers.
fn read_numbers(kids: &mut Vec<u32>, words: Tokens<'_>) -> Result<bool, AllocError>
    ensures { IfOk result (λ all. numbers (tokens_left words.entry)
        ≡ (if all then Some kids.new.items else None)) }
{
    kids.clear();
    for word in words {
        match small_number(word) {
            Some(number) => kids.push(number)?,
            None => return Ok(false),
        }
    }
    Ok(true)
}

// Returns `what` if the words are the number of children, then each child; these become `kids`.
pub(crate) fn over_children(
    what: NodeKind,
    kids: &mut Vec<u32>,
    mut words: Tokens<'_>,
) -> Result<Option<NodeKind>, AllocError>
    ensures { IfOk result (λ kind. option_map (node_with kids.new.items) kind
        ≡ counted what (numbers (tokens_left words.entry))) }
{
    let Some(first) = words.next() else {
        return Ok(None);
    };
    let Some(count) = small_number(first) else {
        return Ok(None);
    };
    if !read_numbers(kids, words)? {
        return Ok(None);
    }
    Ok((kids.len() == count as usize).then_some(what))
}
