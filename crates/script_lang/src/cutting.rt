ghost use Rattle.std.specs.Prelude.{◌≡◌, [], ◌∷◌, MatchOption};
ghost use Rattle.std.specs.Option.{option_copied, option_map};
ghost use Rattle.text_rules.specs.Tokens.{words};
ghost use Rattle.script_lang.specs.inner.Found.{only_word, only_two_words};
ghost use Rattle.script_lang.specs.Script.{at_equals};

use text_rules::is_blank;

// Returns the first word of a text, and the text after it.
pub fn split_word(text: &[u8]) -> Option<(&[u8], &[u8])>
    ensures { MatchOption result (words text.now ≡ [])
        (λ found. words text.now ≡ found.0.now ∷ words found.1.now) }
{
    let start = text.iter().position(|byte| !is_blank(*byte))?;
    let text = &text[start..];
    let end = text
        .iter()
        .position(|byte| is_blank(*byte))
        .unwrap_or(text.len());
    Some(text.split_at(end))
}

// Returns the word of a text of one word.
pub fn one_word(text: &[u8]) -> Option<&[u8]>
    ensures { option_copied result ≡ only_word (words text.now) }
{
    let (word, rest) = split_word(text)?;
    match split_word(rest) {
        None => Some(word),
        Some(_) => None,
    }
}

// Returns the words of a text of two words.
pub fn two_words(text: &[u8]) -> Option<(&[u8], &[u8])>
    ensures { option_map (λ found. (found.0.now, found.1.now)) result
        ≡ only_two_words (words text.now) }
{
    let (first, rest) = split_word(text)?;
    let second = one_word(rest)?;
    Some((first, second))
}

// Returns what is before the first equals sign, and what is after it.
pub fn at_equals(word: &[u8]) -> Option<(&[u8], &[u8])>
    ensures { option_map (λ found. (found.0.now, found.1.now)) result ≡ at_equals word.now }
{
    let place = word.iter().position(|byte| *byte == b'=')?;
    Some((&word[..place], &word[place + 1..]))
}
