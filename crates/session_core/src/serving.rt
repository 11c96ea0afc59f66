ghost use Rattle.std.specs.Prelude.{◌≡◌, ◌+◌, ◌-◌, ◌^◌, ◌<◌, ◌≤◌, ℕ, List, [], ◌∷◌, length, OnOk, OnErr};
ghost use Rattle.std.specs.Io.KnownBytes.{Consumes, IsAtEnd};
ghost use Rattle.text_rules.specs.TextLines.{last_line};
ghost use Rattle.diag_edge.specs.Edge.{HasCause, RoseExactly};
ghost use Rattle.session_rules.specs.Moves.{script_moves};
ghost use Rattle.session_rules.specs.Carrying.{BreaksOff, CarriesOut};
ghost use Rattle.session_core.specs.Services.{shown_by, moves_of, ChangesTable};
ghost use Rattle.session_core.specs.Serving.{Served};
ghost use Rattle.session_core.specs.inner.Gathering.{Fed, ended_from};

use crate::line_buffer::LineBuffer;
use crate::service::Service;
use crate::sessions::Sessions;
use diag_edge::{Sink, Source, WriteFailed};
use engines::Engine;

/// The most bytes of a script in one read.
pub const READ_LIMIT: usize = 4096;

/// How a script ended.
#[derive(Clone, Copy, Debug, PartialEq, Eq)]
pub enum ServeEnd {
    /// The script ended, and every line was answered.
    Done,
    /// A read failed. The lines with a line feed were answered.
    ReadFault,
    /// A write failed. The lines were carried out up to one reply. The replies before it were written, and of this one nothing, a part or
    /// all. No read was tried afterwards.
    WriteFault,
    /// As many bytes as the limit were taken, without an end. The lines with a line feed were answered.
    Limit,
}

// Takes one byte of the script. A line feed ends a line, which is answered.
#[tactic(auto, using(crate::proofs::Rules::fed_bytes))]
fn take_byte<E: Engine, O: Sink>(
    sessions: &mut Sessions<E>,
    gathered: &mut LineBuffer,
    byte: u8,
    out: &mut O,
) -> Result<(), WriteFailed>
    ensures ok { OnOk result (Fed (moves_of (shown_by E.about sessions.old))
        (shown_by E.about sessions.old).table (shown_by E.about sessions.new).table gathered.old gathered.new (byte ∷ [])
        (O.got out.old) (O.got out.new)) }
    ensures err { OnErr result (BreaksOff (shown_by E.about sessions.new).table
        (script_moves (moves_of (shown_by E.about sessions.old)) (shown_by E.about sessions.old).table
        (ended_from gathered.old (byte ∷ [])))
        (O.got out.old) (O.got out.new)) }
    ensures stays { ChangesTable (shown_by E.about sessions.old) (shown_by E.about sessions.new) }
    ensures cause { HasCause (O.faults out.old) (O.faults out.new) result }
{
    if byte == b'\n' {
        sessions.line(gathered.as_slice(), out)?;
        gathered.clear();
    } else {
        gathered.push(byte);
    }
    Ok(())
}

// Answers the lines that end in a piece of the script, and keeps what comes after the last.
fn feed<E: Engine, O: Sink>(
    sessions: &mut Sessions<E>,
    gathered: &mut LineBuffer,
    piece: &[u8],
    out: &mut O,
) -> Result<(), WriteFailed>
    ensures ok { OnOk result (Fed (moves_of (shown_by E.about sessions.old))
        (shown_by E.about sessions.old).table (shown_by E.about sessions.new).table gathered.old gathered.new piece.now
        (O.got out.old) (O.got out.new)) }
    ensures err { OnErr result (BreaksOff (shown_by E.about sessions.new).table
        (script_moves (moves_of (shown_by E.about sessions.old)) (shown_by E.about sessions.old).table
        (ended_from gathered.old piece.now))
        (O.got out.old) (O.got out.new)) }
    ensures stays { ChangesTable (shown_by E.about sessions.old) (shown_by E.about sessions.new) }
    ensures cause { HasCause (O.faults out.old) (O.faults out.new) result }
{
    for byte in piece {
        take_byte(sessions, gathered, *byte, out)?;
    }
    Ok(())
}

// Answers a last line without a line feed, if there is one.
#[tactic(auto, using(crate::proofs::Rules::fed_bytes))]
fn finish<E: Engine, O: Sink>(
    sessions: &mut Sessions<E>,
    gathered: &LineBuffer,
    out: &mut O,
) -> Result<(), WriteFailed>
    ensures carried { CarriesOut (shown_by E.about sessions.old).table (shown_by E.about sessions.new).table
        (script_moves (moves_of (shown_by E.about sessions.old)) (shown_by E.about sessions.old).table
        (last_line gathered.now))
        (O.got out.old) (O.got out.new) result }
    ensures stays { ChangesTable (shown_by E.about sessions.old) (shown_by E.about sessions.new) }
    ensures cause { HasCause (O.faults out.old) (O.faults out.new) result }
{
    if gathered.as_slice().is_empty() {
        return Ok(());
    }
    sessions.line(gathered.as_slice(), out)
}

impl<E: Engine> Service<E> {
    /// Answers a script, at most `limit` bytes of it. The code answers each line as soon as its line feed is read. Each call begins with no
    /// unfinished line, and with the sessions as the last call left them, however it ended.
    pub fn serve<I: Source, O: Sink>(&mut self, input: &mut I, out: &mut O, limit: u64) -> ServeEnd
        requires limit { limit ≤ 2 ^ 40 }
        requires taken { I.taken input.old < 2 ^ 62 }
        requires reads { I.faults input.old < 2 ^ 64 - 1 }
        requires writes { O.faults out.old < 2 ^ 64 - 1 }

        ensures write_fault { RoseExactly (O.faults out.old) (O.faults out.new)
            (result ≡ ServeEnd.WriteFault) }
        ensures read_fault { RoseExactly (I.faults input.old) (I.faults input.new)
            (result ≡ ServeEnd.ReadFault) }

        // The bytes that were taken, and what was done with them.
        ensures served { (bytes : List ℕ) × (I.taken input.new ≡ I.taken input.old + length bytes)
            × Consumes (I.left input.old) (I.left input.new) bytes
            × Served result (moves_of (shown_by E.about self.old))
            (shown_by E.about self.old).table (shown_by E.about self.new).table bytes limit (IsAtEnd (I.left input.new))
            (O.got out.old) (O.got out.new) }
        ensures stays { ChangesTable (shown_by E.about self.old) (shown_by E.about self.new) }
    {
        self.gathered.clear();
        let mut piece = [0u8; READ_LIMIT];
        let mut taken = 0u64;
        while taken < limit {
            let room = (limit - taken).min(READ_LIMIT as u64) as usize;
            let count = match input.read(&mut piece[..room]) {
                Ok(count) => count,
                Err(_) => return ServeEnd::ReadFault,
            };
            if count == 0 {
                return match finish(&mut self.sessions, &self.gathered, out) {
                    Ok(()) => ServeEnd::Done,
                    Err(_) => ServeEnd::WriteFault,
                };
            }
            match feed(&mut self.sessions, &mut self.gathered, &piece[..count], out) {
                Ok(()) => {}
                Err(_) => return ServeEnd::WriteFault,
            }
            taken += count as u64;
        }
        ServeEnd::Limit
    }
}
