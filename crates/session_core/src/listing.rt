//! Requests that move the point of a session.
ghost use Rattle.std.specs.Prelude.{◌≡◌, ◌<◌, length, true};
ghost use Rattle.text_rules.specs.Names.{Name};
ghost use Rattle.text_rules.specs.Tokens.{words};
ghost use Rattle.diag_edge.specs.Edge.{HasCause};
ghost use Rattle.conditioner.specs.Evidence.{bits_of};
ghost use Rattle.script_lang.specs.Script.{After};
ghost use Rattle.session_rules.specs.Sessions.{Entry};
ghost use Rattle.session_rules.specs.Carrying.{CarriesOut};
ghost use Rattle.session_table.specs.Tables.{StandsAt};
ghost use Rattle.session_core.specs.Services.{ChangesTable};
ghost use Rattle.engines.specs.Answers.{is_listed};
ghost use Rattle.session_core.specs.inner.Holding.{HoldsTogether, shown_of};
ghost use Rattle.session_core.specs.inner.Obeying.{Obeys, IsOpen, PointMoves, MovesOn, found_moves, list_request};
ghost use Rattle.session_core.specs.inner.Desks.{on_desk};
ghost use Rattle.session_core.specs.Services.{shown_by};

use crate::desk::Desk;
use crate::replies::{put_next, put_refusal};
use crate::sessions::{OpenSession, Sessions};
use diag_edge::{Sink, WriteFailed, put_line};
use engines::{Engine, Listed, NextState};
use session_rules::Refusal;
use session_table::OpenSessions;

// Finds what comes next of a listing of the session at a place, and moves its point there. The state is then on the desk.
#[tactic(auto, using(crate::proofs::Rules::listed_moves))]
fn find<E: Engine>(
    desk: &mut Desk<E>,
    opened: &mut OpenSessions,
    listed: Listed,
    place: usize,
) -> NextState
    requires together { HoldsTogether (on_desk E.about desk.old).system opened.old }
    requires place { place < length opened.old.table }
    requires listed { is_listed (on_desk E.about desk.old).system listed ≡ true }
    ensures moves { (session : Name) (entry : Entry) → StandsAt opened.old.table place session entry
        → PointMoves (on_desk E.about desk.old).system listed opened.old.table opened.new.table place session entry result (bits_of (on_desk E.about desk.new).state) }
    ensures system { (on_desk E.about desk.new).system ≡ (on_desk E.about desk.old).system }
    ensures stays { opened.new ≡ record opened.old { table = opened.new.table } }
    ensures still { place < length opened.new.table }
{
    desk.take_up(opened.evidence(place));
    let next = desk.next(listed, opened.point(place));
    if !next.is_found() {
        return next;
    }
    opened.set_point(place, desk.state());
    next
}

// Writes what comes next of a session's listing. Returns whether it is a state. The point moves before the reply.
#[tactic(auto, using(crate::proofs::ShownService::holds_more))]
fn move_on<E: Engine, O: Sink>(
    desk: &mut Desk<E>,
    opened: &mut OpenSessions,
    listed: Listed,
    session: OpenSession<'_>,
    out: &mut O,
) -> Result<bool, WriteFailed>
    requires together { HoldsTogether (on_desk E.about desk.old).system opened.old }
    requires place { session.place < length opened.old.table }
    requires listed { is_listed (on_desk E.about desk.old).system listed ≡ true }
    ensures moves { (entry : Entry) → StandsAt opened.old.table session.entry.place session.entry.name.now entry
        → MovesOn (shown_of (on_desk E.about desk.old).system opened.old) (shown_of (on_desk E.about desk.new).system opened.new) listed session.entry.place session.entry.name.now entry
        (O.got out.old) (O.got out.new) result }
    ensures together { HoldsTogether (on_desk E.about desk.new).system opened.new }
    ensures stays { ChangesTable (shown_of (on_desk E.about desk.old).system opened.old) (shown_of (on_desk E.about desk.new).system opened.new) }
    ensures still { session.entry.place < length opened.new.table }
    ensures cause { HasCause (O.faults out.old) (O.faults out.new) result }
{
    let next = find(desk, opened, listed, session.place);
    put_next(out, session.name, desk.parts(), next, desk.state())?;
    Ok(next.is_found())
}

// Writes what comes next of a session's listing, at most `count` times.
#[tactic(auto, using(crate::proofs::Rules::listed_moves))]
fn move_so_far<E: Engine, O: Sink>(
    desk: &mut Desk<E>,
    opened: &mut OpenSessions,
    listed: Listed,
    session: OpenSession<'_>,
    count: u32,
    out: &mut O,
) -> Result<(), WriteFailed>
    requires together { HoldsTogether (on_desk E.about desk.old).system opened.old }
    requires place { session.place < length opened.old.table }
    requires listed { is_listed (on_desk E.about desk.old).system listed ≡ true }
    ensures moves { (entry : Entry) → StandsAt opened.old.table session.entry.place session.entry.name.now entry
        → CarriesOut opened.old.table opened.new.table (found_moves (shown_of (on_desk E.about desk.old).system opened.old) listed session.entry.name.now entry count)
        (O.got out.old) (O.got out.new) result }
    ensures together { HoldsTogether (on_desk E.about desk.new).system opened.new }
    ensures stays { ChangesTable (shown_of (on_desk E.about desk.old).system opened.old) (shown_of (on_desk E.about desk.new).system opened.new) }
    ensures cause { HasCause (O.faults out.old) (O.faults out.new) result }
{
    for _ in 0..count {
        if !move_on(desk, opened, listed, session, out)? {
            return Ok(());
        }
    }
    Ok(())
}

impl<E: Engine> Sessions<E> {
    // Writes what comes next of a session's listing, at most `count` times.
    pub(crate) fn list<O: Sink>(
        &mut self,
        listed: Listed,
        session: OpenSession<'_>,
        count: u32,
        out: &mut O,
    ) -> Result<(), WriteFailed>
        requires { IsOpen (shown_by E.about self.old).table session }
        ensures obeys { Obeys (shown_by E.about self.old) (shown_by E.about self.new) session.entry.name.now (list_request listed count) (O.got out.old) (O.got out.new) result }
        ensures cause { HasCause (O.faults out.old) (O.faults out.new) result }
    {
        if !self.desk.lists(listed) {
            return put_refusal(out, session.name, Refusal::NoLevels);
        }
        move_so_far(&mut self.desk, &mut self.open, listed, session, count, out)
    }

    // Sets the session's point to the state whose faulty parts are the named ones.
    pub(crate) fn after<O: Sink>(
        &mut self,
        session: OpenSession<'_>,
        names: &[u8],
        out: &mut O,
    ) -> Result<(), WriteFailed>
        requires { IsOpen (shown_by E.about self.old).table session }
        ensures obeys { Obeys (shown_by E.about self.old) (shown_by E.about self.new) session.entry.name.now (After (words names.now))
            (O.got out.old) (O.got out.new) result }
        ensures cause { HasCause (O.faults out.old) (O.faults out.new) result }
    {
        if !self.desk.mark(names) {
            return put_refusal(out, session.name, Refusal::NoPart);
        }
        self.open.set_point(session.place, self.desk.state());
        put_line(out, &[session.name, b"ok"])
    }
}
