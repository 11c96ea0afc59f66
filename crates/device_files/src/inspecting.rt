//! What is printed about a file alone, without a script.
ghost use Rattle.std.specs.Prelude.{◌≡◌, ◌≢◌, ◌⊎◌, ◌-◌, ◌^◌, ◌<◌, ◌≤◌, [], ◌∷◌, map, length};
ghost use Rattle.diag_edge.specs.Edge.{HasCause, RoseExactly};
ghost use Rattle.session_rules.specs.Spelling.{Replies};
ghost use Rattle.device_files.specs.Inspecting.{inspection_named, count_line, planned, decomposable_output, inspected};
ghost use Rattle.device_files.specs.Choices.{ByForest};
ghost use Rattle.device_files.specs.Output.{FulfilsOutput, FulfilsOutputUnlessMemory};

use crate::checking::graph_in;
use crate::describing::described;
use crate::paths::{is_device_path, is_graph_path};
use crate::refusal::tell;
use crate::status::Status;
use crate::weighing::clauses_within;
use branch_states::BUDGET_LIMIT;
use clause_encoder::Cnf;
use device_model::Device;
use diag_edge::{Sink, WriteFailed, put_line};
use itoa::Buffer;
use node_store::Graph;
use std::alloc::Global;
use text_rules::TEXT_LIMIT;

/// What is printed about a file alone.
#[derive(Clone, Copy, Debug)]
pub enum Inspection {
    /// `plan`: the size of a device, and the sum that the budget limits.
    Plan { narrow: bool },
    /// `check`: whether the text of a graph is decomposable, and its size.
    Check,
}

/// A number, and what it counts.
#[derive(Clone, Copy, Debug)]
pub struct Count<'a> {
    /// The word for that, as it is written.
    pub what: &'a [u8],
    /// The number, which is written in decimal digits.
    pub number: u64,
}

impl Inspection {
    /// Returns the inspection that a word names, if it is for files with the ending of this path. `narrow` asks `plan` to use a forest;
    /// `check` ignores it.
    pub fn named(word: &str, path: &str, narrow: bool) -> Option<Inspection>
        ensures { result ≡ inspection_named word.now path.now narrow }
    {
        match word {
            "plan" if is_device_path(path) => Some(Inspection::Plan { narrow }),
            "check" if is_graph_path(path) => Some(Inspection::Check),
            _ => None,
        }
    }
}

/// Writes a line of a word and a number. An error says that a write failed.
#[tactic(auto, using(crate::proofs::FailedWrites::line_replies))]
pub fn put_count<O: Sink>(out: &mut O, what: &[u8], count: u64) -> Result<(), WriteFailed>
    ensures text { Replies (O.got out.old) (O.got out.new) result (count_line what.now count ∷ []) }
    ensures cause { HasCause (O.faults out.old) (O.faults out.new) result }
{
    put_line(out, &[what, Buffer::new().format(count).as_bytes()])
}

/// Writes a line for each count, in their order. An error says that a write failed, and that a beginning of these lines was written.
pub fn put_counts<O: Sink>(out: &mut O, counts: &[Count<'_>]) -> Result<(), WriteFailed>
    ensures text { Replies (O.got out.old) (O.got out.new) result (map (λ count. count_line count.what.now count.number) counts.now) }
    ensures cause { HasCause (O.faults out.old) (O.faults out.new) result }
{
    let [first, rest @ ..] = counts else {
        return Ok(());
    };
    put_count(out, first.what, first.number)?;
    put_counts(out, rest)
}

// Writes the sizes of a device, of its clauses and their sum, and returns `Done`, or `WriteFailed`.
#[tactic(auto, using(crate::proofs::FailedWrites::gives_items))]
fn tell_sizes<O: Sink>(out: &mut O, device: &Device, cnf: &Cnf, sum: u32) -> Status
    requires faults { O.faults out.old < 2 ^ 64 - 1 }
    ensures write_fault { RoseExactly (O.faults out.old) (O.faults out.new) (result ≡ Status.WriteFailed) }
    ensures either { (result ≡ Status.Done) ⊎ (result ≡ Status.WriteFailed) }
    ensures said { FulfilsOutput (planned device.now (record { list = cnf.now; sum = sum })) result (O.got out.old) (O.got out.new) }
{
    let counts = [
        Count {
            what: b"parts",
            number: device.parts().len() as u64,
        },
        Count {
            what: b"wires",
            number: device.wires().len() as u64,
        },
        Count {
            what: b"clauses",
            number: u64::from(cnf.len()),
        },
        Count {
            what: b"sum",
            number: u64::from(sum),
        },
    ];
    match put_counts(out, &counts) {
        Ok(()) => Status::Done,
        Err(_) => Status::WriteFailed,
    }
}

// Writes the sizes of a decomposable graph and returns `Done`, or `WriteFailed`.
#[tactic(auto, using(crate::proofs::FailedWrites::gives_line))]
fn tell_graph<O: Sink>(out: &mut O, graph: &Graph) -> Status
    requires faults { O.faults out.old < 2 ^ 64 - 1 }
    ensures write_fault { RoseExactly (O.faults out.old) (O.faults out.new) (result ≡ Status.WriteFailed) }
    ensures either { (result ≡ Status.Done) ⊎ (result ≡ Status.WriteFailed) }
    ensures said { FulfilsOutput (decomposable_output graph.now) result (O.got out.old) (O.got out.new) }
{
    match put_line(
        out,
        &[
            b"decomposable",
            Buffer::new().format(graph.len()).as_bytes(),
            Buffer::new().format(graph.edges()).as_bytes(),
            Buffer::new().format(graph.vars()).as_bytes(),
        ],
    ) {
        Ok(()) => Status::Done,
        Err(_) => Status::WriteFailed,
    }
}

// Writes how large the device of a file is, or why that cannot be found, and returns the status.
fn plan_file<O: Sink>(alloc: Global, path: &str, file: &[u8], narrow: bool, out: &mut O) -> Status
    requires short { length file.now ≤ TEXT_LIMIT }
    requires faults { O.faults out.old < 2 ^ 64 - 1 }
    ensures write_fault { RoseExactly (O.faults out.old) (O.faults out.new) (result ≡ Status.WriteFailed) }
    ensures not_usage { result ≢ Status.Usage }
    ensures not_read { result ≢ Status.ReadFailed }
    ensures not_cut { result ≢ Status.CutShort }
    ensures said { ByForest (λ choose.
        FulfilsOutputUnlessMemory (inspected choose path.now (Inspection.Plan narrow) file.now) result (O.got out.old) (O.got out.new)) }
{
    let device = match described(alloc, path, file) {
        Ok(device) => device,
        Err(refusal) => return tell(out, refusal),
    };
    match clauses_within(alloc, &device, BUDGET_LIMIT, narrow) {
        Ok((cnf, sum)) => tell_sizes(out, &device, &cnf, sum),
        Err(refusal) => tell(out, refusal),
    }
}

// Writes whether the text of a file is a decomposable graph, and returns the status.
fn check_file<O: Sink>(alloc: Global, path: &str, file: &[u8], out: &mut O) -> Status
    requires short { length file.now ≤ TEXT_LIMIT }
    requires faults { O.faults out.old < 2 ^ 64 - 1 }
    ensures write_fault { RoseExactly (O.faults out.old) (O.faults out.new) (result ≡ Status.WriteFailed) }
    ensures not_usage { result ≢ Status.Usage }
    ensures not_read { result ≢ Status.ReadFailed }
    ensures not_cut { result ≢ Status.CutShort }
    ensures said { ByForest (λ choose.
        FulfilsOutputUnlessMemory (inspected choose path.now Inspection.Check file.now) result (O.got out.old) (O.got out.new)) }
{
    match graph_in(alloc, file) {
        Ok(graph) => tell_graph(out, &graph),
        Err(refusal) => tell(out, refusal),
    }
}

/// Writes what an inspection of a file, of at most `TEXT_LIMIT` bytes, gives, and returns `Done`; or writes why it gives nothing, and
/// returns `Refused`, `AboveBudget` or `NoMemory`. Returns `WriteFailed` if a write failed.
pub fn inspect_file<O: Sink>(
    alloc: Global,
    path: &str,
    file: &[u8],
    inspection: Inspection,
    out: &mut O,
) -> Status
    requires short { length file.now ≤ TEXT_LIMIT }
    requires faults { O.faults out.old < 2 ^ 64 - 1 }
    ensures write_fault { RoseExactly (O.faults out.old) (O.faults out.new) (result ≡ Status.WriteFailed) }
    ensures not_usage { result ≢ Status.Usage }
    ensures not_read { result ≢ Status.ReadFailed }
    ensures not_cut { result ≢ Status.CutShort }
    ensures said { ByForest (λ choose.
        FulfilsOutputUnlessMemory (inspected choose path.now inspection file.now) result (O.got out.old) (O.got out.new)) }
{
    match inspection {
        Inspection::Plan { narrow } => plan_file(alloc, path, file, narrow, out),
        Inspection::Check => check_file(alloc, path, file, out),
    }
}
