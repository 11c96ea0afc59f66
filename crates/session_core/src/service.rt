ghost use Rattle.std.specs.Prelude.{◌≡◌, ◌≤◌, [], length, IfOk};
ghost use Rattle.diag_edge.specs.Edge.{HasCause};
ghost use Rattle.script_lang.specs.Script.{line_of};
ghost use Rattle.session_rules.specs.Carrying.{CarriesOut};
ghost use Rattle.session_core.specs.Services.{shown_by, moves_of, ChangesTable, IsRefused, IsSound};

use crate::Memory;
use crate::desk::Desk;
use crate::limits::SESSION_LIMIT;
use crate::line_buffer::LineBuffer;
use crate::sessions::Sessions;
use diag_edge::{Sink, WriteFailed};
use engines::Engine;
use session_table::OpenSessions;
use std::alloc::Global;
use std::marker::Model;

/// Sessions over an engine, and the line that is being read. The code takes all memory in [`Service::over`]. It is not `Drop`:
/// [`Service::finish`] consumes it.
pub struct Service<E: Engine> {
    pub(crate) sessions: Sessions<E>,
    pub(crate) gathered: LineBuffer,
}

impl<E: Engine> Model for Service<E> {
    ghost use Rattle.session_core.specs.Services.{Held};

    ghost Value = { Held E };

    ghost view = { λ s. s.sessions };
}

impl<E: Engine> Service<E> {
    /// Makes a service over an engine. No session is open, and at most `sessions` may be, from 1 to `SESSION_LIMIT`. `Err` means that memory
    /// ran out.
    #[tactic(auto, using(crate::proofs::Rules::refused_lines))]
    pub fn over(alloc: Global, engine: E, sessions: u32) -> Result<Service<E>, Memory>
        requires some { 1 ≤ sessions }
        requires sessions { sessions ≤ SESSION_LIMIT }
        ensures { IfOk result (λ service. shown_by E.about service
            ≡ record { system = (E.about engine).system; limit = sessions; table = [] }) }
    {
        let gathered = LineBuffer::new(alloc)?;
        let parts = engine.parts().len() as u32;
        let wires = engine.wires().len() as u32;
        let desk = Desk::new(alloc, engine)?;
        let open = OpenSessions::new(alloc, parts, wires, parts + wires, sessions)?;
        let sessions = Sessions { desk, open };
        Ok(Service { sessions, gathered })
    }

    /// Consumes the service with all its sessions.
    pub fn finish(self) {
        let Service {
            sessions,
            gathered: _,
        } = self;
        let Sessions { desk: _, open } = sessions;
        open.finish();
    }

    /// Returns the number of parts. Its contract also says what holds of every service.
    pub fn parts(&self) -> usize
        ensures parts { result ≡ length (shown_by E.about self.now).system.parts }
        ensures sound { IsSound (shown_by E.about self.now) }
    {
        self.sessions.open.parts() as usize
    }

    /// Returns the number of wires.
    pub fn wires(&self) -> usize
        ensures { result ≡ length (shown_by E.about self.now).system.wires }
    {
        self.sessions.desk.wires().len()
    }

    /// Carries out one line, without its line feed, and writes its replies. `Err` means that a write failed: the line was carried out up to
    /// one of its replies, with what this one says. The replies before it were written, and of this one nothing, a part or all.
    #[tactic(auto, using(crate::proofs::Rules::refused_lines))]
    pub fn line<O: Sink>(&mut self, line: &[u8], out: &mut O) -> Result<(), WriteFailed>
        ensures carried { CarriesOut (shown_by E.about self.old).table (shown_by E.about self.new).table
            (moves_of (shown_by E.about self.old) (shown_by E.about self.old).table line.now)
            (O.got out.old) (O.got out.new) result }
        ensures stays { ChangesTable (shown_by E.about self.old) (shown_by E.about self.new) }
        // A refused line leaves every session as it was, even if the refusal was not written.
        ensures refused { IsRefused (shown_by E.about self.old) (line_of line.now) → (shown_by E.about self.new) ≡ (shown_by E.about self.old) }
        ensures cause { HasCause (O.faults out.old) (O.faults out.new) result }
    {
        self.sessions.line(line, out)
    }
}
