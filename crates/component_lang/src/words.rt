ghost use Rattle.std.specs.Prelude.{◌≡◌, ◌≤◌, length};
ghost use Rattle.std.specs.Option.{option_map};
ghost use Rattle.text_rules.specs.Expected.{Fulfils};
ghost use Rattle.text_rules.specs.Names.{same_name};
ghost use Rattle.text_rules.specs.Tokens.{tokens_left};
ghost use Rattle.component_lang.specs.Designs.{is_plain_name};
ghost use Rattle.component_lang.specs.inner.LineFaults.{fault_told};
ghost use Rattle.component_lang.specs.inner.NameSets.{names_in};
ghost use Rattle.component_lang.specs.inner.Words.{with_name, with_names, places_among};

use crate::fault::LangFault;
use crate::line_error::LineError;
use indexmap::IndexSet;
use std::alloc::Global;
use text_rules::{TEXT_LIMIT, Tokens, is_short_name};

/// Whether a word is a name: 1 to 64 name bytes without a dot.
pub fn is_plain_name(word: &[u8]) -> bool
    ensures { result ≡ is_plain_name word.now }
{
    is_short_name(word) && !word.contains(&b'.')
}

/// Whether a word is this keyword.
pub fn spells(word: &[u8], keyword: &[u8]) -> bool
    ensures { result ≡ same_name word.now keyword.now }
{
    word == keyword
}

/// Adds a name to the end of a list, unless it is there already; returns whether it is new.
pub fn add_name<'a>(names: &mut IndexSet<&'a [u8]>, word: &'a [u8]) -> Result<bool, LineError>
    ensures { Fulfils (λ is_new. (names_in names.new, is_new)) fault_told (with_name (names_in names.old) word.now) result }
{
    if !is_plain_name(word) {
        return Err(LineError::Fault(LangFault::Name));
    }
    Ok(names.insert(word)?)
}

/// Adds the names left in a line to the end of a list. None of them may be there already or occur twice.
#[tactic(auto, using(crate::proofs::Rules::first_name))]
pub fn add_names<'a>(names: &mut IndexSet<&'a [u8]>, words: Tokens<'a>) -> Result<(), LineError>
    ensures { Fulfils (λ _. names_in names.new) fault_told (with_names (names_in names.old) (tokens_left words.entry)) result }
{
    let mut are_new = true;
    for word in words {
        are_new &= add_name(names, word)?;
    }
    if are_new {
        Ok(())
    } else {
        Err(LineError::Fault(LangFault::Twice))
    }
}

/// Finds the places in `names` of the names left in a line, if each is there.
pub fn places_of<'a>(
    alloc: Global,
    names: &IndexSet<&'a [u8]>,
    words: Tokens<'a>,
) -> Result<Option<Vec<u32>>, LineError>
    requires { length names.now.keys ≤ TEXT_LIMIT }
    ensures { Fulfils (option_map (λ v. v.items)) fault_told
        (places_among (tokens_left words.entry) (names_in names.now) (tokens_left words.entry)) result }
{
    let mut places = Vec::new(alloc);
    let mut are_known = true;
    for word in words {
        if !is_plain_name(word) {
            return Err(LineError::Fault(LangFault::Name));
        }
        if let Some(place) = names.get_index_of(&word) {
            places.push(place as u32)?;
        } else {
            are_known = false;
        }
    }
    Ok(are_known.then_some(places))
}
