ghost use Rattle.std.specs.Prelude.{◌≡◌, ℕ, Bool, List};
ghost use Rattle.std.specs.List.{list_all};
ghost use Rattle.text_rules.specs.Names.{Name};
ghost use Rattle.text_rules.specs.Tokens.{words};
ghost use Rattle.script_lang.specs.Script.{Ask, is_script_name, on_count, on_name, on_names, on_session, on_value};
ghost use Rattle.script_lang.specs.inner.Found.{asked_by};
ghost use Rattle.script_lang.specs.Script as script;

use crate::cutting::{at_equals, one_word, split_word, two_words};
use crate::limits::COUNT_LIMIT;
use crate::refusal::LineRefusal;
use device_model::NAME_LIMIT;
use text_rules::{Tokens, is_name, is_short_name, plain_number};

fn is_script_name(word: &[u8]) -> bool
    ensures { result ≡ is_script_name word.now }
{
    is_name(NAME_LIMIT, word)
}

// Reads a session alone. Here and below, what is asked of it does not matter.
pub fn session_in(text: &[u8]) -> Result<&[u8], LineRefusal>
    ensures { (request : script.Request)
        → asked_by (λ session. Ask session.now request) result ≡ on_session request (words text.now) }
{
    match one_word(text) {
        Some(session) if is_short_name(session) => Ok(session),
        Some(_) => Err(LineRefusal::BadName),
        None => Err(LineRefusal::BadWords),
    }
}

// Reads a session and a name.
pub fn name_in(text: &[u8]) -> Result<(&[u8], &[u8]), LineRefusal>
    ensures { (request : Name → script.Request)
        → asked_by (λ found. Ask found.0.now (request found.1.now)) result
        ≡ on_name request (words text.now) }
{
    match two_words(text) {
        Some((session, name)) if is_short_name(session) && is_script_name(name) => {
            Ok((session, name))
        }
        Some(_) => Err(LineRefusal::BadName),
        None => Err(LineRefusal::BadWords),
    }
}

// Reads a session, and a name with one of two values.
pub fn value_in<'a>(
    text: &'a [u8],
    one: &[u8],
    other: &[u8],
) -> Result<(&'a [u8], &'a [u8], bool), LineRefusal>
    ensures { (request : Name → Bool → script.Request)
        → asked_by (λ found. Ask found.0.now (request found.1.now found.2)) result
        ≡ on_value one.now other.now request (words text.now) }
{
    let (session, pair) = two_words(text).ok_or(LineRefusal::BadWords)?;
    let (name, value) = at_equals(pair).ok_or(LineRefusal::BadWords)?;
    if !is_short_name(session) || !is_script_name(name) {
        return Err(LineRefusal::BadName);
    }
    if value == one {
        Ok((session, name, true))
    } else if value == other {
        Ok((session, name, false))
    } else {
        Err(LineRefusal::BadValue)
    }
}

// Reads a session and a count from 1 to a million.
pub fn count_in(text: &[u8]) -> Result<(&[u8], u32), LineRefusal>
    ensures { (request : ℕ → script.Request)
        → asked_by (λ found. Ask found.0.now (request found.1)) result
        ≡ on_count request (words text.now) }
{
    let (session, count) = two_words(text).ok_or(LineRefusal::BadWords)?;
    if !is_short_name(session) {
        return Err(LineRefusal::BadName);
    }
    match plain_number(7, 1, COUNT_LIMIT, count) {
        Some(count) => Ok((session, count as u32)),
        None => Err(LineRefusal::BadValue),
    }
}

fn are_script_names(text: &[u8]) -> bool
    ensures { result ≡ list_all is_script_name (words text.now) }
{
    Tokens::words(text).all(is_script_name)
}

// Reads a session. Returns it with the text of the names after it.
pub fn names_in(text: &[u8]) -> Result<(&[u8], &[u8]), LineRefusal>
    ensures { (request : List Name → script.Request)
        → asked_by (λ found. Ask found.0.now (request (words found.1.now))) result
        ≡ on_names request (words text.now) }
{
    let (session, names) = split_word(text).ok_or(LineRefusal::BadWords)?;
    if is_short_name(session) && are_script_names(names) {
        Ok((session, names))
    } else {
        Err(LineRefusal::BadName)
    }
}
