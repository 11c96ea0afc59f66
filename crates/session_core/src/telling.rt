//! The replies to `min`, `probe`, `probes` and `blame`.
ghost use Rattle.std.specs.Prelude.{◌≡◌, ◌<◌, ◌++◌, ◌∷◌, [], map};
ghost use Rattle.diag_edge.specs.Edge.{HasCause};
ghost use Rattle.script_lang.specs.Script.{question_of, Probe};
ghost use Rattle.session_rules.specs.Items.{line};
ghost use Rattle.session_rules.specs.Replies.{end_line, min_line, blame_lines, if_any, told};
ghost use Rattle.session_rules.specs.Spelling.{Replies};
ghost use Rattle.session_core.specs.inner.Desks.{asked_case, least_asked, diagnoses_asked};
ghost use Rattle.session_core.specs.inner.Telling.{verdict_lines};
ghost use Rattle.session_core.specs.inner.Desks.{on_desk};

use crate::desk::Desk;
use crate::probing::tell_probes;
use crate::replies::{put_blame, put_min, put_probe, put_refusal};
use diag_edge::{Sink, WriteFailed, put_line};
use engines::Engine;
use script_lang::{Noted, Question};
use session_rules::Refusal;

/// Answers a question about the case on a desk.
pub(crate) fn tell<E: Engine, O: Sink>(
    desk: &mut Desk<E>,
    session: &[u8],
    question: Question<'_>,
    out: &mut O,
) -> Result<(), WriteFailed>
    ensures reply { Replies (O.got out.old) (O.got out.new) result
        (map line (told (on_desk E.about desk.old).system session.now (asked_case (on_desk E.about desk.old)) (question_of question.entry))) }
    ensures system { (on_desk E.about desk.new).system ≡ (on_desk E.about desk.old).system }
    ensures cause { HasCause (O.faults out.old) (O.faults out.new) result }
{
    match question {
        Question::Min => tell_minimum(desk, session, out),
        Question::Probe { wire } => tell_probe(desk, session, wire, out),
        Question::Probes => tell_probes(desk, session, out),
        Question::Blame => tell_blame(desk, session, out),
    }
}

// Writes the least cost and the first diagnosis.
fn tell_minimum<E: Engine, O: Sink>(
    desk: &mut Desk<E>,
    session: &[u8],
    out: &mut O,
) -> Result<(), WriteFailed>
    ensures reply { Replies (O.got out.old) (O.got out.new) result
        (line (min_line (on_desk E.about desk.old).system session.now (least_asked (on_desk E.about desk.old)) (diagnoses_asked (on_desk E.about desk.old))) ∷ []) }
    ensures system { (on_desk E.about desk.new).system ≡ (on_desk E.about desk.old).system }
    ensures cause { HasCause (O.faults out.old) (O.faults out.new) result }
{
    let fewest = desk.first();
    put_min(out, session, desk.parts(), fewest, desk.state())
}

// Writes the least costs of the named wire, if it exists and some state agrees.
#[tactic(auto, using(crate::proofs::Rules::written_lines))]
fn tell_probe<E: Engine, O: Sink>(
    desk: &mut Desk<E>,
    session: &[u8],
    name: &[u8],
    out: &mut O,
) -> Result<(), WriteFailed>
    ensures reply { Replies (O.got out.old) (O.got out.new) result
        (map line (told (on_desk E.about desk.old).system session.now (asked_case (on_desk E.about desk.old)) (Probe name.now))) }
    ensures system { (on_desk E.about desk.new).system ≡ (on_desk E.about desk.old).system }
    ensures cause { HasCause (O.faults out.old) (O.faults out.new) result }
{
    let Some(wire) = desk.find(Noted::Wire, name) else {
        return put_refusal(out, session, Refusal::NoWire);
    };
    if !desk.is_consistent() {
        return put_line(out, &[session, b"inconsistent"]);
    }
    let (zero, one) = desk.probe(wire);
    put_probe(out, session, name, zero, one)
}

// Writes for each part whether it is faulty in all diagnoses, in some or in none, if there is one.
fn tell_blame<E: Engine, O: Sink>(
    desk: &mut Desk<E>,
    session: &[u8],
    out: &mut O,
) -> Result<(), WriteFailed>
    ensures reply { let ds = diagnoses_asked (on_desk E.about desk.old) in
        Replies (O.got out.old) (O.got out.new) result
        (map line (if_any session.now ds (blame_lines session.now ds 0 (on_desk E.about desk.old).system.parts ++ end_line session.now ∷ []))) }
    ensures system { (on_desk E.about desk.new).system ≡ (on_desk E.about desk.old).system }
    ensures cause { HasCause (O.faults out.old) (O.faults out.new) result }
{
    if !desk.is_consistent() {
        return put_line(out, &[session, b"inconsistent"]);
    }
    desk.blame();
    put_blames(desk, session, out)?;
    put_line(out, &[session, b"end"])
}

// Writes a line for each part, with its verdict.
fn put_blames<E: Engine, O: Sink>(
    desk: &Desk<E>,
    session: &[u8],
    out: &mut O,
) -> Result<(), WriteFailed>
    ensures reply { Replies (O.got out.old) (O.got out.new) result
        (map line (verdict_lines session.now (on_desk E.about desk.now).system.parts (on_desk E.about desk.now).verdicts)) }
    ensures cause { HasCause (O.faults out.old) (O.faults out.new) result }
{
    let parts = desk.parts();
    let verdicts = desk.verdicts();
    for (part, name) in parts.iter().enumerate() {
        put_blame(out, session, name.as_slice(), verdicts[part])?;
    }
    Ok(())
}
