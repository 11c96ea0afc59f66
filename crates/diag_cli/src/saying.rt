ghost use Rattle.std.specs.Prelude.{◌≡◌, ◌≢◌, ◌⊎◌, ℕ, ◌-◌, ◌^◌, ◌<◌, codes};
ghost use Rattle.diag_edge.specs.Edge.{RoseExactly};
ghost use Rattle.device_files.specs.Output.{FulfilsOutput, says, too_long_line};
ghost use Rattle.diag_cli.specs.Behaviours.{read_error, not_loaded};

use device_files::{Refusal, Status, tell};
use diag_edge::{LoadError, Sink, WriteFailed, put_line};
use itoa::Buffer;
use text_rules::TEXT_LIMIT;

/// Writes a text. Returns the status, or `WriteFailed` if the write failed.
#[tactic(auto, using(device_files::proofs::FailedWrites::gives_line))]
pub fn say<O: Sink>(out: &mut O, text: &[u8], status: Status) -> Status
    requires faults { O.faults out.old < 2 ^ 64 - 1 }
    requires status { status ≢ Status.WriteFailed }
    ensures write_fault { RoseExactly (O.faults out.old) (O.faults out.new) (result ≡ Status.WriteFailed) }
    ensures either { (result ≡ status) ⊎ (result ≡ Status.WriteFailed) }
    ensures said { FulfilsOutput (says text.now status) result (O.got out.old) (O.got out.new) }
{
    match out.put(text) {
        Ok(()) => status,
        Err(_) => Status::WriteFailed,
    }
}

/// Prints that a read failed. Returns `ReadFailed`, or `WriteFailed`.
pub(crate) fn say_read_fault<O: Sink>(out: &mut O) -> Status
    requires faults { O.faults out.old < 2 ^ 64 - 1 }
    ensures write_fault { RoseExactly (O.faults out.old) (O.faults out.new) (result ≡ Status.WriteFailed) }
    ensures either { (result ≡ Status.ReadFailed) ⊎ (result ≡ Status.WriteFailed) }
    ensures said { FulfilsOutput (says read_error Status.ReadFailed) result (O.got out.old) (O.got out.new) }
{
    say(out, b"error: read\n", Status::ReadFailed)
}

/// Prints that the words of the command line have no form. Returns `Usage`, or `WriteFailed`.
pub fn say_usage<O: Sink>(out: &mut O) -> Status
    requires faults { O.faults out.old < 2 ^ 64 - 1 }
    ensures write_fault { RoseExactly (O.faults out.old) (O.faults out.new) (result ≡ Status.WriteFailed) }
    ensures either { (result ≡ Status.Usage) ⊎ (result ≡ Status.WriteFailed) }
    ensures said { FulfilsOutput (says (codes "error: usage\n") Status.Usage) result (O.got out.old) (O.got out.new) }
{
    say(out, b"error: usage\n", Status::Usage)
}

/// Prints that something has more bytes than allowed. Returns the status, or `WriteFailed` if the write failed.
#[tactic(auto, using(device_files::proofs::FailedWrites::gives_line))]
pub(crate) fn say_too_long<O: Sink>(out: &mut O, what: &[u8], limit: u64, status: Status) -> Status
    requires faults { O.faults out.old < 2 ^ 64 - 1 }
    requires status { status ≢ Status.WriteFailed }
    ensures write_fault { RoseExactly (O.faults out.old) (O.faults out.new) (result ≡ Status.WriteFailed) }
    ensures either { (result ≡ status) ⊎ (result ≡ Status.WriteFailed) }
    ensures said { FulfilsOutput (says (too_long_line what.now limit) status) result
        (O.got out.old) (O.got out.new) }
{
    match put_line(
        out,
        &[
            b"error:",
            what,
            b"above",
            Buffer::new().format(limit).as_bytes(),
            b"bytes",
        ],
    ) {
        Ok(()) => status,
        Err(WriteFailed) => Status::WriteFailed,
    }
}

/// Prints why a file, which may have `TEXT_LIMIT` bytes, was not read: it has more, a read failed, or memory ran out. Returns the status,
/// or `WriteFailed` if the write failed.
pub fn say_load_error<O: Sink>(out: &mut O, error: LoadError) -> Status
    requires limit { (limit : ℕ) → error ≡ LoadError.Long limit → limit ≡ TEXT_LIMIT }
    requires faults { O.faults out.old < 2 ^ 64 - 1 }
    ensures write_fault { RoseExactly (O.faults out.old) (O.faults out.new) (result ≡ Status.WriteFailed) }
    ensures said { FulfilsOutput (not_loaded error) result (O.got out.old) (O.got out.new) }
{
    match error {
        LoadError::Failed => say_read_fault(out),
        LoadError::Long { limit: _ } => say_too_long(
            out,
            b"file",
            TEXT_LIMIT as u64,
            Status::Refused,
        ),
        LoadError::Memory => tell(out, Refusal::Memory),
    }
}
