//! The answer about all wires at once.
ghost use Rattle.std.specs.Prelude.{◌≡◌, ◌<◌, [], length, map, slice_index_or};
ghost use Rattle.diag_edge.specs.Edge.{HasCause};
ghost use Rattle.session_rules.specs.Items.{line};
ghost use Rattle.session_rules.specs.Replies.{probe_lines};
ghost use Rattle.session_rules.specs.Spelling.{Replies};
ghost use Rattle.session_core.specs.inner.Desks.{asked_case};
ghost use Rattle.session_core.specs.inner.Telling.{probes_told, unseen_line, AreProbed};
ghost use Rattle.session_core.specs.inner.Desks.{on_desk};

use crate::desk::Desk;
use crate::replies::put_probe;
use diag_edge::{Sink, WriteFailed, put_line};
use engines::Engine;

// Writes the least costs of each wire that is not seen, if some state agrees.
#[tactic(auto, using(crate::proofs::Rules::written_lines))]
pub(crate) fn tell_probes<E: Engine, O: Sink>(
    desk: &mut Desk<E>,
    session: &[u8],
    out: &mut O,
) -> Result<(), WriteFailed>
    ensures reply { Replies (O.got out.old) (O.got out.new) result
        (map line (probes_told (on_desk E.about desk.old).system session.now (asked_case (on_desk E.about desk.old)))) }
    ensures system { (on_desk E.about desk.new).system ≡ (on_desk E.about desk.old).system }
    ensures cause { HasCause (O.faults out.old) (O.faults out.new) result }
{
    if !desk.probe_all() {
        return put_line(out, &[session, b"inconsistent"]);
    }
    put_probes(desk, session, out)?;
    put_line(out, &[session, b"end"])
}

// Writes a line for each wire that is not seen.
#[tactic(auto, using(crate::proofs::Rules::written_lines))]
fn put_probes<E: Engine, O: Sink>(
    desk: &Desk<E>,
    session: &[u8],
    out: &mut O,
) -> Result<(), WriteFailed>
    requires { AreProbed (on_desk E.about desk.now) }
    ensures reply { let system = (on_desk E.about desk.now).system in
        Replies (O.got out.old) (O.got out.new) result
        (map line (probe_lines system session.now (asked_case (on_desk E.about desk.now)) 0 system.wires)) }
    ensures cause { HasCause (O.faults out.old) (O.faults out.new) result }
{
    let wires = desk.wires().len() as u32;
    for wire in 0..wires {
        put_unseen(desk, session, wire, out)?;
    }
    Ok(())
}

// Writes the line of one wire, unless it is seen.
#[tactic(auto, using(crate::proofs::Rules::written_lines))]
fn put_unseen<E: Engine, O: Sink>(
    desk: &Desk<E>,
    session: &[u8],
    wire: u32,
    out: &mut O,
) -> Result<(), WriteFailed>
    requires numbers { AreProbed (on_desk E.about desk.now) }
    requires wire { wire < length (on_desk E.about desk.now).system.wires }
    ensures reply { let system = (on_desk E.about desk.now).system in Replies (O.got out.old) (O.got out.new) result
        (map line (unseen_line system session.now (asked_case (on_desk E.about desk.now)) (slice_index_or system.wires wire []) wire)) }
    ensures cause { HasCause (O.faults out.old) (O.faults out.new) result }
{
    if desk.is_seen(wire) {
        return Ok(());
    }
    let (zero, one) = desk.probed(wire);
    put_probe(out, session, desk.wire_name(wire), zero, one)
}
