ghost use Rattle.std.specs.Prelude.{◌≡◌, ◌≢◌, ◌-◌, ◌^◌, ◌<◌, Some};
ghost use Rattle.diag_edge.specs.Edge.{HasCause, RoseExactly, Puts};
ghost use Rattle.diag_edge.specs.ErrorLines.{above_line};
ghost use Rattle.nnf_text.specs.GraphTexts.{Counts, TooLarge, Shared};
ghost use Rattle.device_files.specs.declared.refusal.Refusal.TheVariants.{Memory};
ghost use Rattle.device_files.specs.Checking.{graph_fault_line};
ghost use Rattle.device_files.specs.Weighing.{sum_line};
ghost use Rattle.device_files.specs.Output.{FulfilsOutput, says};
ghost use Rattle.device_files.specs.Refusals.{refusal_line, refusal_status, refusal_output, or_memory};

use crate::status::Status;
use diag_edge::{Sink, WriteFailed, put_above, put_fault, put_line};
use itoa::Buffer;
use nnf_text::BITS_LIMIT;
use std::alloc::AllocError;

/// Why a file does not give what the words ask for.
#[derive(Clone, Copy, Debug, PartialEq, Eq)]
pub enum Refusal {
    /// The text has a fault: its line, its number and its name.
    Fault {
        line: u32,
        number: u32,
        name: &'static str,
    },
    /// A graph's text has no header.
    Header,
    /// The header has a wrong number of nodes, or else of edges.
    Counts {
        said: u64,
        found: u64,
    },
    /// Nodes times variables of a graph are above the limit.
    Bits {
        bits: u64,
    },
    /// Two children of an And node share a variable.
    Shared {
        node: u32,
        variable: u32,
    },
    /// A count is above its limit.
    Above {
        what: &'static str,
        count: u64,
        limit: u64,
    },
    /// The sum of the clauses is above the budget.
    Sum {
        budget: u32,
    },
    /// Memory ran out.
    Memory,
}

impl From<AllocError> for Refusal {
    ghost from_gives = { λ _ refusal. refusal ≡ Memory };

    fn from(_: AllocError) -> Self {
        Refusal::Memory
    }
}

impl Refusal {
    fn status(self) -> Status
        ensures { result ≡ refusal_status self }
    {
        match self {
            Refusal::Sum { budget: _ } => Status::AboveBudget,
            Refusal::Memory => Status::NoMemory,
            _ => Status::Refused,
        }
    }
}

/// Returns the refusal of a count above its limit.
pub fn above(what: &'static str, count: u64, limit: usize) -> Refusal
    ensures { refusal_output result ≡ Some (says (above_line what.now count limit) Status.Refused) }
{
    Refusal::Above {
        what,
        count,
        limit: limit as u64,
    }
}

fn put_counts<O: Sink>(out: &mut O, said: u64, found: u64) -> Result<(), WriteFailed>
    ensures text { Puts (O.got out.old) (O.got out.new) result (graph_fault_line (Counts said found)) }
    ensures cause { HasCause (O.faults out.old) (O.faults out.new) result }
{
    put_line(
        out,
        &[
            b"error: fault 5 counts",
            Buffer::new().format(said).as_bytes(),
            Buffer::new().format(found).as_bytes(),
        ],
    )
}

fn put_bits<O: Sink>(out: &mut O, bits: u64) -> Result<(), WriteFailed>
    ensures text { Puts (O.got out.old) (O.got out.new) result (graph_fault_line (TooLarge bits)) }
    ensures cause { HasCause (O.faults out.old) (O.faults out.new) result }
{
    put_line(
        out,
        &[
            b"error: fault 6 bits",
            Buffer::new().format(bits).as_bytes(),
            b"above",
            Buffer::new().format(BITS_LIMIT).as_bytes(),
        ],
    )
}

fn put_shared<O: Sink>(out: &mut O, node: u32, variable: u32) -> Result<(), WriteFailed>
    ensures text { Puts (O.got out.old) (O.got out.new) result (graph_fault_line (Shared node variable)) }
    ensures cause { HasCause (O.faults out.old) (O.faults out.new) result }
{
    put_line(
        out,
        &[
            b"error: fault 7 shared node",
            Buffer::new().format(node).as_bytes(),
            b"variable",
            Buffer::new().format(variable).as_bytes(),
        ],
    )
}

fn put_sum<O: Sink>(out: &mut O, budget: u32) -> Result<(), WriteFailed>
    ensures text { Puts (O.got out.old) (O.got out.new) result (sum_line budget) }
    ensures cause { HasCause (O.faults out.old) (O.faults out.new) result }
{
    put_line(
        out,
        &[b"error: sum above", Buffer::new().format(budget).as_bytes()],
    )
}

fn put_refusal<O: Sink>(out: &mut O, refusal: Refusal) -> Result<(), WriteFailed>
    ensures text { Puts (O.got out.old) (O.got out.new) result (refusal_line refusal) }
    ensures cause { HasCause (O.faults out.old) (O.faults out.new) result }
{
    match refusal {
        Refusal::Fault { line, number, name } => put_fault(out, line, number, name.as_bytes()),
        Refusal::Header => out.put(b"error: fault 1 header\n"),
        Refusal::Counts { said, found } => put_counts(out, said, found),
        Refusal::Bits { bits } => put_bits(out, bits),
        Refusal::Shared { node, variable } => put_shared(out, node, variable),
        Refusal::Above { what, count, limit } => put_above(out, what.as_bytes(), count, limit),
        Refusal::Sum { budget } => put_sum(out, budget),
        Refusal::Memory => out.put(b"error: memory\n"),
    }
}

/// Writes a refusal and returns its status, or `WriteFailed` if the write failed.
#[tactic(auto, using(crate::proofs::FailedWrites::gives_refusal))]
pub fn tell<O: Sink>(out: &mut O, refusal: Refusal) -> Status
    requires faults { O.faults out.old < 2 ^ 64 - 1 }
    ensures write_fault { RoseExactly (O.faults out.old) (O.faults out.new) (result ≡ Status.WriteFailed) }
    ensures not_usage { result ≢ Status.Usage }
    ensures not_read { result ≢ Status.ReadFailed }
    ensures not_cut { result ≢ Status.CutShort }
    ensures said { FulfilsOutput (or_memory (refusal_output refusal)) result (O.got out.old) (O.got out.new) }
{
    match put_refusal(out, refusal) {
        Ok(()) => refusal.status(),
        Err(_) => Status::WriteFailed,
    }
}
