//! Answers a script with a service.
ghost use Rattle.std.specs.Prelude.{◌≡◌, ◌≢◌, ◌+◌, ◌-◌, ◌^◌, ◌<◌, [], ◌∷◌, codes, decimal, IfOk};
ghost use Rattle.text_rules.specs.Tokens.{spaced};
ghost use Rattle.diag_edge.specs.Edge.{HasCause, Puts, RoseExactly};
ghost use Rattle.session_core.specs.Services.{shown_by};
ghost use Rattle.diag_cli.specs.Behaviours.{Behaviour};
ghost use Rattle.diag_cli.specs.Fulfilled.{IsServed};
ghost use Rattle.diag_cli.specs.inner.Serving.{answers_by, IsFor, FulfilsBehaviourUnlessMemory};

use crate::saying::{say_read_fault, say_too_long};
use device_files::{Refusal, Status, tell};
use diag_edge::{Sink, Source, WriteFailed, put_line};
use engines::Engine;
use itoa::Buffer;
use session_core::{ServeEnd, Service};

/// A script with this many bytes is cut.
pub const SCRIPT_LIMIT: u64 = 1_099_511_627_776;

// Writes the line `ready` with the numbers of parts and wires.
fn put_ready<O: Sink>(out: &mut O, parts: u64, wires: u64) -> Result<(), WriteFailed>
    ensures text { Puts (O.got out.old) (O.got out.new) result
        (spaced (codes "ready" ∷ decimal parts ∷ decimal wires ∷ [])) }
    ensures cause { HasCause (O.faults out.old) (O.faults out.new) result }
{
    put_line(
        out,
        &[
            b"ready",
            Buffer::new().format(parts).as_bytes(),
            Buffer::new().format(wires).as_bytes(),
        ],
    )
}

// Answers the script with a service without open sessions.
fn answer<E: Engine, I: Source, O: Sink>(
    service: &mut Service<E>,
    input: &mut I,
    out: &mut O,
) -> Status
    requires none_open { service.old.table ≡ [] }
    requires taken { I.taken input.old < 2 ^ 62 }
    requires reads { I.faults input.old < 2 ^ 64 - 1 }
    requires writes { O.faults out.old < 2 ^ 64 - 1 }
    ensures write_fault { RoseExactly (O.faults out.old) (O.faults out.new) (result ≡ Status.WriteFailed) }
    ensures served { IsServed (answers_by (shown_by E.about service.old))
        (I.shown input.old) (I.shown input.new) (O.shown out.old) (O.shown out.new) result }
{
    match put_ready(out, service.parts() as u64, service.wires() as u64) {
        Ok(()) => {}
        Err(_) => return Status::WriteFailed,
    }
    match service.serve(input, out, SCRIPT_LIMIT) {
        ServeEnd::Done => Status::Done,
        ServeEnd::WriteFault => Status::WriteFailed,
        ServeEnd::ReadFault => say_read_fault(out),
        ServeEnd::Limit => say_too_long(out, b"script", SCRIPT_LIMIT, Status::CutShort),
    }
}

/// Answers the script with the service that was made, or prints its refusal. Returns the status.
pub(crate) fn answer_by<E: Engine, I: Source, O: Sink>(
    made: Result<Service<E>, Refusal>,
    input: &mut I,
    out: &mut O,
) -> Status
    requires none_open { IfOk made (λ service. service.table ≡ []) }
    requires taken { I.taken input.old < 2 ^ 62 }
    requires reads { I.faults input.old < 2 ^ 64 - 1 }
    requires writes { O.faults out.old < 2 ^ 64 - 1 }
    ensures write_fault { RoseExactly (O.faults out.old) (O.faults out.new) (result ≡ Status.WriteFailed) }
    ensures follows { (behaviour : Behaviour) → IsFor (shown_by E.about) behaviour made
        → FulfilsBehaviourUnlessMemory behaviour (I.shown input.old) (I.shown input.new) (O.shown out.old) (O.shown out.new) result }
{
    match made {
        Ok(mut service) => {
            let status = answer(&mut service, input, out);
            service.finish();
            status
        }
        Err(refusal) => tell(out, refusal),
    }
}
