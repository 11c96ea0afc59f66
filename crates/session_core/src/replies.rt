//! The lines of replies. A short one is one call of the sink.
ghost use Rattle.std.specs.Prelude.{◌≡◌, [], ◌∷◌, ◌++◌, length, map, codes};
ghost use Rattle.std.specs.List.{flat_map};
ghost use Rattle.text_rules.specs.Tokens.{spaced};
ghost use Rattle.diag_edge.specs.Adding.{Adds};
ghost use Rattle.diag_edge.specs.Edge.{HasCause, Puts};
ghost use Rattle.conditioner.specs.Evidence.{bits_of};
ghost use Rattle.session_rules.specs.Refusals.{refusal_row, error_words};
ghost use Rattle.script_lang.specs.Refusals as line_refusals;
ghost use Rattle.session_rules.specs.Replies.{faulty_names, count_text};
ghost use Rattle.session_core.specs.inner.Texts.{blame_text, spaced_before, min_text, next_text};

use conditioner::is_faulty;
use device_model::Name;
use diag_edge::{Chunk, Sink, WriteFailed, put_line};
use engines::NextState;
use itoa::Buffer;
use script_lang::LineRefusal;
use session_rules::Refusal;
use state_rules::Blame;

pub(crate) fn put_line_refusal<O: Sink>(
    out: &mut O,
    refusal: LineRefusal,
) -> Result<(), WriteFailed>
    ensures text { Puts (O.got out.old) (O.got out.new) result
        (spaced (error_words (line_refusals.refusal_row refusal))) }
    ensures cause { HasCause (O.faults out.old) (O.faults out.new) result }
{
    put_line(
        out,
        &[
            b"error",
            Buffer::new().format(refusal.number()).as_bytes(),
            refusal.text().as_bytes(),
        ],
    )
}

// Writes why a request to a session is refused.
pub(crate) fn put_refusal<O: Sink>(
    out: &mut O,
    session: &[u8],
    refusal: Refusal,
) -> Result<(), WriteFailed>
    ensures text { Puts (O.got out.old) (O.got out.new) result
        (spaced (session.now ∷ error_words (refusal_row refusal))) }
    ensures cause { HasCause (O.faults out.old) (O.faults out.new) result }
{
    put_line(
        out,
        &[
            session,
            b"error",
            Buffer::new().format(refusal.number()).as_bytes(),
            text_of(refusal),
        ],
    )
}

fn text_of<'a>(refusal: Refusal) -> &'a [u8]
    ensures { result.now ≡ (refusal_row refusal).1 }
{
    refusal.text().as_bytes()
}

// Writes the line of `min`: the least cost and the names of the faulty parts, or that no state agrees.
#[tactic(auto, using(diag_edge::proofs::Added::adds_on))]
pub(crate) fn put_min<O: Sink>(
    out: &mut O,
    session: &[u8],
    parts: &[Name],
    fewest: Option<u32>,
    state: &[u32],
) -> Result<(), WriteFailed>
    requires { length state.now ≡ length parts.now }
    ensures text { Puts (O.got out.old) (O.got out.new) result
        (spaced (min_text session.now parts.now fewest (bits_of state.now))) }
    ensures cause { HasCause (O.faults out.old) (O.faults out.new) result }
{
    match fewest {
        None => put_line(out, &[session, b"inconsistent"]),
        Some(fewest) => put_faulty(
            out,
            session,
            &[b"min", Buffer::new().format(fewest).as_bytes()],
            parts,
            state,
        ),
    }
}

// Writes what comes next of a listing: the names of a state's faulty parts, after its cost if that is shown; or that there is none.
#[tactic(auto, using(diag_edge::proofs::Added::adds_on))]
pub(crate) fn put_next<O: Sink>(
    out: &mut O,
    session: &[u8],
    parts: &[Name],
    next: NextState,
    state: &[u32],
) -> Result<(), WriteFailed>
    requires { length state.now ≡ length parts.now }
    ensures text { Puts (O.got out.old) (O.got out.new) result
        (spaced (next_text session.now parts.now next (bits_of state.now))) }
    ensures cause { HasCause (O.faults out.old) (O.faults out.new) result }
{
    match next {
        NextState::Inconsistent => put_line(out, &[session, b"inconsistent"]),
        NextState::End => put_line(out, &[session, b"end"]),
        NextState::Found(cost) => match cost {
            None => put_faulty(out, session, &[b"diag"], parts, state),
            Some(cost) => {
                let mut digits = Buffer::new();
                let cost = digits.format(cost).as_bytes();
                put_faulty(out, session, &[b"level", cost], parts, state)
            }
        },
    }
}

/// Writes a line of a first word (such as a session's name), more words, and the names of the faulty parts: those whose word of the state
/// is not 0.
pub fn put_faulty<O: Sink>(
    out: &mut O,
    session: &[u8],
    words: &[&[u8]],
    parts: &[Name],
    state: &[u32],
) -> Result<(), WriteFailed>
    requires { length state.now ≡ length parts.now }
    ensures text { Puts (O.got out.old) (O.got out.new) result
        (spaced (session.now ∷ (map (λ word. word.now) words.now ++ faulty_names parts.now (bits_of state.now)))) }
    ensures cause { HasCause (O.faults out.old) (O.faults out.new) result }
{
    let mut chunk = Chunk::new();
    add_front(&mut chunk, out, session, words)?;
    add_back(&mut chunk, out, parts, state)?;
    chunk.put(out)
}

// Adds that line up to the names of parts.
#[tactic(auto, using(diag_edge::proofs::Added::adds_on))]
fn add_front<O: Sink>(
    chunk: &mut Chunk,
    out: &mut O,
    session: &[u8],
    words: &[&[u8]],
) -> Result<(), WriteFailed>
    ensures bytes { Adds (O.got out.old) (O.got out.new) chunk.old chunk.new result
        (session.now ++ flat_map (λ word. 32 ∷ word.now) words.now) }
    ensures cause { HasCause (O.faults out.old) (O.faults out.new) result }
{
    chunk.add(out, session)?;
    chunk.add_words(out, words)
}

// Adds the rest of that line.
#[tactic(auto, using(diag_edge::proofs::Added::adds_on))]
fn add_back<O: Sink>(
    chunk: &mut Chunk,
    out: &mut O,
    parts: &[Name],
    state: &[u32],
) -> Result<(), WriteFailed>
    requires { length state.now ≡ length parts.now }
    ensures bytes { Adds (O.got out.old) (O.got out.new) chunk.old chunk.new result
        (spaced_before (faulty_names parts.now (bits_of state.now)) ++ 10 ∷ []) }
    ensures cause { HasCause (O.faults out.old) (O.faults out.new) result }
{
    add_faulty(chunk, out, parts, state)?;
    chunk.add(out, b"\n")
}

// Adds the names of the faulty parts, each after a space.
fn add_faulty<O: Sink>(
    chunk: &mut Chunk,
    out: &mut O,
    parts: &[Name],
    state: &[u32],
) -> Result<(), WriteFailed>
    requires { length state.now ≡ length parts.now }
    ensures bytes { Adds (O.got out.old) (O.got out.new) chunk.old chunk.new result
        (spaced_before (faulty_names parts.now (bits_of state.now))) }
    ensures cause { HasCause (O.faults out.old) (O.faults out.new) result }
{
    for (i, part) in parts.iter().enumerate() {
        if is_faulty(state[i]) {
            chunk.add_word(out, part.as_slice())?;
        }
    }
    Ok(())
}

// Writes the line of `probe`: the least cost if a wire is 0, and if it is 1.
pub(crate) fn put_probe<O: Sink>(
    out: &mut O,
    session: &[u8],
    name: &[u8],
    zero: Option<u32>,
    one: Option<u32>,
) -> Result<(), WriteFailed>
    ensures text { Puts (O.got out.old) (O.got out.new) result
        (spaced (session.now ∷ codes "probe" ∷ name.now ∷ count_text zero ∷ count_text one ∷ [])) }
    ensures cause { HasCause (O.faults out.old) (O.faults out.new) result }
{
    let mut of_zero = Buffer::new();
    let mut of_one = Buffer::new();
    put_line(
        out,
        &[
            session,
            b"probe",
            name,
            count_text(zero, &mut of_zero),
            count_text(one, &mut of_one),
        ],
    )
}

// Returns a cost as text, or a dash for none.
fn count_text(count: Option<u32>, buffer: &mut Buffer) -> &[u8]
    ensures { result.now ≡ count_text count }
{
    match count {
        Some(count) => buffer.format(count).as_bytes(),
        None => b"-",
    }
}

// Writes the line of a part under `blame`.
pub(crate) fn put_blame<O: Sink>(
    out: &mut O,
    session: &[u8],
    name: &[u8],
    blame: Blame,
) -> Result<(), WriteFailed>
    ensures text { Puts (O.got out.old) (O.got out.new) result
        (spaced (session.now ∷ codes "blame" ∷ name.now ∷ blame_text blame ∷ [])) }
    ensures cause { HasCause (O.faults out.old) (O.faults out.new) result }
{
    put_line(out, &[session, b"blame", name, blame_word(blame)])
}

fn blame_word<'a>(blame: Blame) -> &'a [u8]
    ensures { result.now ≡ blame_text blame }
{
    match blame {
        Blame::Always => b"always",
        Blame::Sometimes => b"sometimes",
        Blame::Never => b"never",
        Blame::Inconsistent => b"inconsistent",
    }
}
