//! Carries out requests that change no session.
ghost use Rattle.std.specs.Prelude.{◌≡◌, ◌∷◌, [], codes, true};
ghost use Rattle.diag_edge.specs.Edge.{HasCause};
ghost use Rattle.script_lang.specs.Script.{question_of, Tell, Dnnf, LeastNnf};
ghost use Rattle.session_rules.specs.Items.{Plain, line};
ghost use Rattle.session_rules.specs.Spelling.{Replies};
ghost use Rattle.engines.specs.Offered.{states_text, diagnoses_text};
ghost use Rattle.session_core.specs.inner.Obeying.{Obeys, IsOpen};
ghost use Rattle.session_core.specs.inner.Desks.{on_desk};
ghost use Rattle.session_core.specs.Services.{shown_by};

use crate::desk::Desk;
use crate::replies::put_refusal;
use crate::sessions::{OpenSession, Sessions};
use crate::telling::tell;
use diag_edge::{Sink, WriteFailed, put_line};
use engines::Engine;
use script_lang::Question;
use session_rules::Refusal;

impl<E: Engine> Sessions<E> {
    // Answers a question about a session's case.
    #[tactic(auto, using(crate::proofs::Rules::open_sessions))]
    pub(crate) fn ask_case<O: Sink>(
        &mut self,
        session: OpenSession<'_>,
        question: Question<'_>,
        out: &mut O,
    ) -> Result<(), WriteFailed>
        requires { IsOpen (shown_by E.about self.old).table session }
        ensures obeys { Obeys (shown_by E.about self.old) (shown_by E.about self.new) session.entry.name.now (Tell (question_of question.entry))
            (O.got out.old) (O.got out.new) result }
        ensures cause { HasCause (O.faults out.old) (O.faults out.new) result }
    {
        self.desk.take_up(self.open.evidence(session.place));
        tell(&mut self.desk, session.name, question, out)
    }

    // Writes the graph of the states that agree with a session's case.
    #[tactic(auto, using(crate::proofs::Rules::open_sessions))]
    pub(crate) fn ask_graph<O: Sink>(
        &mut self,
        session: OpenSession<'_>,
        out: &mut O,
    ) -> Result<(), WriteFailed>
        requires { IsOpen (shown_by E.about self.old).table session }
        ensures obeys { Obeys (shown_by E.about self.old) (shown_by E.about self.new) session.entry.name.now Dnnf (O.got out.old) (O.got out.new) result }
        ensures cause { HasCause (O.faults out.old) (O.faults out.new) result }
    {
        if !self.desk.draws() {
            return put_refusal(out, session.name, Refusal::NoGraph);
        }
        self.desk.take_up(self.open.evidence(session.place));
        tell_graph(&mut self.desk, session.name, out)
    }

    // Writes the graph of a session's diagnoses.
    #[tactic(auto, using(crate::proofs::Rules::open_sessions))]
    pub(crate) fn ask_least<O: Sink>(
        &mut self,
        session: OpenSession<'_>,
        out: &mut O,
    ) -> Result<(), WriteFailed>
        requires { IsOpen (shown_by E.about self.old).table session }
        ensures obeys { Obeys (shown_by E.about self.old) (shown_by E.about self.new) session.entry.name.now LeastNnf (O.got out.old) (O.got out.new) result }
        ensures cause { HasCause (O.faults out.old) (O.faults out.new) result }
    {
        if !self.desk.tells_least() {
            return put_refusal(out, session.name, Refusal::NoLeast);
        }
        self.desk.take_up(self.open.evidence(session.place));
        tell_least(&mut self.desk, session.name, out)
    }
}

// Writes the graph of the states that agree with the desk's case.
fn tell_graph<E: Engine, O: Sink>(
    desk: &mut Desk<E>,
    session: &[u8],
    out: &mut O,
) -> Result<(), WriteFailed>
    requires drawn { (on_desk E.about desk.old).system.graphs ≡ true }
    ensures reply { Replies (O.got out.old) (O.got out.new) result
        (line (session.now ∷ codes "dnnf" ∷ []) ∷ Plain (states_text (on_desk E.about desk.old).system (on_desk E.about desk.old).known) ∷ []) }
    ensures same { (on_desk E.about desk.new) ≡ (on_desk E.about desk.old) }
    ensures cause { HasCause (O.faults out.old) (O.faults out.new) result }
{
    put_line(out, &[session, b"dnnf"])?;
    desk.write_states(out)
}

// Writes the graph of the diagnoses of the desk's case.
fn tell_least<E: Engine, O: Sink>(
    desk: &mut Desk<E>,
    session: &[u8],
    out: &mut O,
) -> Result<(), WriteFailed>
    requires told { (on_desk E.about desk.old).system.extras.least ≡ true }
    ensures reply { Replies (O.got out.old) (O.got out.new) result
        (line (session.now ∷ codes "leastnnf" ∷ []) ∷ Plain (diagnoses_text (on_desk E.about desk.old).system (on_desk E.about desk.old).known) ∷ []) }
    ensures same { (on_desk E.about desk.new) ≡ (on_desk E.about desk.old) }
    ensures cause { HasCause (O.faults out.old) (O.faults out.new) result }
{
    put_line(out, &[session, b"leastnnf"])?;
    desk.write_diagnoses(out)
}
