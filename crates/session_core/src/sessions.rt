ghost use Rattle.std.specs.Prelude.{◌≡◌, ◌≤◌, [], None, length, true, IfOk};
ghost use Rattle.text_rules.specs.Names.{is_short_name};
ghost use Rattle.diag_edge.specs.Edge.{HasCause};
ghost use Rattle.script_lang.specs.Script.{asked, Start, Stop, Note};
ghost use Rattle.session_rules.specs.Carrying.{CarriesOut};
ghost use Rattle.session_rules.specs.Sessions.{entry_of};
ghost use Rattle.session_core.specs.Services.{moves_of, ChangesTable};
ghost use Rattle.session_core.specs.inner.Obeying.{Obeys, IsOpen, no_such};
ghost use Rattle.session_core.specs.Services.{shown_by};

use crate::desk::Desk;
use crate::replies::{put_line_refusal, put_refusal};
use diag_edge::{Sink, WriteFailed, put_line};
use engines::{Engine, Listed};
use script_lang::{AskedLine, Noted, Request, parse_line};
use session_rules::Refusal;
use session_table::OpenSessions;
use std::marker::Model;

/// An open session: its name, and its place among the open ones.
#[derive(Clone, Copy, Debug)]
pub(crate) struct OpenSession<'a> {
    pub(crate) name: &'a [u8],
    pub(crate) place: usize,
}

/// The sessions over an engine.
pub(crate) struct Sessions<E: Engine> {
    pub(crate) desk: Desk<E>,
    pub(crate) open: OpenSessions,
}

impl<E: Engine> Model for Sessions<E> {
    ghost use Rattle.session_core.specs.Services.{Held};
    ghost use Rattle.session_core.specs.inner.Holding.{HoldsTogether};

    ghost Value = { Held E };

    ghost view = { λ s. record { engine = s.desk.engine; limit = s.open.limit; table = s.open.table } };

    ghost invariant = { λ s. HoldsTogether (E.about s.desk.engine).system s.open };
}

impl<E: Engine> Sessions<E> {
    /// Answers one line. If a write fails, the line is carried out up to the reply that met the failure, with what this says.
    #[tactic(auto, using(crate::proofs::Rules::nothing_written))]
    pub(crate) fn line<O: Sink>(&mut self, line: &[u8], out: &mut O) -> Result<(), WriteFailed>
        ensures carried { CarriesOut (shown_by E.about self.old).table (shown_by E.about self.new).table
            (moves_of (shown_by E.about self.old) (shown_by E.about self.old).table line.now)
            (O.got out.old) (O.got out.new) result }
        ensures stays { ChangesTable (shown_by E.about self.old) (shown_by E.about self.new) }
        ensures cause { HasCause (O.faults out.old) (O.faults out.new) result }
    {
        match parse_line(line).asked() {
            AskedLine::Nothing => Ok(()),
            AskedLine::Refused(refusal) => put_line_refusal(out, refusal),
            AskedLine::Of { session, request } => self.ask(session, request, out),
        }
    }

    // Carries out a request, unless its session must be open and is not. Sessions are looked up here alone.
    #[tactic(auto, using(crate::proofs::Rules::open_sessions))]
    fn ask<O: Sink>(
        &mut self,
        name: &[u8],
        request: Request<'_>,
        out: &mut O,
    ) -> Result<(), WriteFailed>
        requires { is_short_name name.now ≡ true }
        ensures obeys { Obeys (shown_by E.about self.old) (shown_by E.about self.new) name.now (asked request.entry) (O.got out.old) (O.got out.new) result }
        ensures cause { HasCause (O.faults out.old) (O.faults out.new) result }
    {
        match self.open.find(name) {
            Some(place) => self.ask_open(OpenSession { name, place }, request, out),
            None => match request {
                Request::Start => self.start(name, out),
                _ => put_refusal(out, name, Refusal::NoSession),
            },
        }
    }

    // Opens a session that is not open, unless as many are open as are allowed.
    #[tactic(auto, using(crate::proofs::Rules::open_sessions))]
    fn start<O: Sink>(&mut self, name: &[u8], out: &mut O) -> Result<(), WriteFailed>
        requires short { is_short_name name.now ≡ true }
        requires closed { entry_of name.now (shown_by E.about self.old).table ≡ None }
        ensures obeys { Obeys (shown_by E.about self.old) (shown_by E.about self.new) name.now Start (O.got out.old) (O.got out.new) result }
        ensures cause { HasCause (O.faults out.old) (O.faults out.new) result }
    {
        if self.open.is_full() {
            return put_refusal(out, name, Refusal::Full);
        }
        self.open.start(name);
        put_line(out, &[name, b"open"])
    }

    // Carries out a request to an open session.
    fn ask_open<O: Sink>(
        &mut self,
        session: OpenSession<'_>,
        request: Request<'_>,
        out: &mut O,
    ) -> Result<(), WriteFailed>
        requires { IsOpen (shown_by E.about self.old).table session }
        ensures obeys { Obeys (shown_by E.about self.old) (shown_by E.about self.new) session.entry.name.now (asked request.entry)
            (O.got out.old) (O.got out.new) result }
        ensures cause { HasCause (O.faults out.old) (O.faults out.new) result }
    {
        match request {
            Request::Start => put_refusal(out, session.name, Refusal::OpenAlready),
            Request::Stop => self.stop(session, out),
            Request::Note { what, name, known } => self.note(session, what, name, known, out),
            Request::Tell(question) => self.ask_case(session, question, out),
            Request::Next => self.list(Listed::Diagnoses, session, 1, out),
            Request::List { count } => self.list(Listed::Diagnoses, session, count, out),
            Request::After { names } => self.after(session, names, out),
            Request::Dnnf => self.ask_graph(session, out),
            Request::Level => self.list(Listed::Levels, session, 1, out),
            Request::Levels { count } => self.list(Listed::Levels, session, count, out),
            Request::LeastNnf => self.ask_least(session, out),
        }
    }

    #[tactic(auto, using(crate::proofs::Rules::open_sessions))]
    fn stop<O: Sink>(&mut self, session: OpenSession<'_>, out: &mut O) -> Result<(), WriteFailed>
        requires { IsOpen (shown_by E.about self.old).table session }
        ensures obeys { Obeys (shown_by E.about self.old) (shown_by E.about self.new) session.entry.name.now Stop (O.got out.old) (O.got out.new) result }
        ensures cause { HasCause (O.faults out.old) (O.faults out.new) result }
    {
        self.open.stop(session.place);
        put_line(out, &[session.name, b"closed"])
    }

    // Notes what is known of a wire or a part, or that nothing is any more.
    #[tactic(auto, using(crate::proofs::Rules::open_sessions))]
    fn note<O: Sink>(
        &mut self,
        session: OpenSession<'_>,
        what: Noted,
        name: &[u8],
        known: Option<bool>,
        out: &mut O,
    ) -> Result<(), WriteFailed>
        requires { IsOpen (shown_by E.about self.old).table session }
        ensures obeys { Obeys (shown_by E.about self.old) (shown_by E.about self.new) session.entry.name.now (Note what name.now known)
            (O.got out.old) (O.got out.new) result }
        ensures cause { HasCause (O.faults out.old) (O.faults out.new) result }
    {
        match self.desk.find(what, name) {
            None => put_refusal(out, session.name, no_such(what)),
            Some(at) => {
                self.open.note(session.place, what, at, known);
                put_line(out, &[session.name, b"ok"])
            }
        }
    }
}

// Returns the refusal to note something of a wire, or a part, that does not exist.
fn no_such(what: Noted) -> Refusal
    ensures { result ≡ no_such what }
{
    match what {
        Noted::Wire => Refusal::NoWire,
        Noted::Part => Refusal::NoPart,
    }
}
