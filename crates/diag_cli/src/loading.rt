//! Makes an adder in memory, and lists the diagnoses of its readings.
ghost use Rattle.std.specs.Prelude.{◌≡◌, ◌⊎◌, [], ◌∷◌, ◌-◌, ◌^◌, ◌<◌, ◌≤◌, Ok, length, IfOk};
ghost use Rattle.bench_reader.specs.Netlists.{netlist};
ghost use Rattle.diag_edge.specs.Edge.{HasCause, RoseExactly};
ghost use Rattle.conditioner.specs.Evidence.{bits_of};
ghost use Rattle.adder_load.specs.Adders.{adder_text};
ghost use Rattle.session_rules.specs.Spelling.{Replies};
ghost use Rattle.device_files.specs.Describing.{or_line, netlist_line};
ghost use Rattle.diag_cli.specs.Loads.{names_line, summary_of, loaded};
ghost use Rattle.device_files.specs.Output.{FulfilsOutput, FulfilsOutputUnlessMemory};
ghost use Rattle.device_files.specs.Refusals.{FulfilsOrRefuses};
ghost use Rattle.diag_cli.specs.inner.Loading.{IsInStep, Loads, listed_items, inconsistent_items, found_items, summary_items, summary_output};

use crate::graphs::compiled_by_names;
use crate::summing::{Summary, summary_by};
use crate::words::DEFAULT_BUDGET;
use adder_load::{Found, PLACE_LIMIT, adder_text};
use device_files::{
    Count, Refusal, Status, clauses_of, netlist_device, put_count, put_counts, tell,
};
use device_model::{Device, Name};
use diag_edge::{Sink, WriteFailed, put_line};
use session_core::put_faulty;
use std::alloc::Global;
use std::marker::Brand;
use std::sync::ledger::Blank;

/// The most diagnoses that are listed.
pub const LISTED_LIMIT: u32 = 20;

fn adder_device(alloc: Global, places: u32) -> Result<Device, Refusal>
    requires { places ≤ PLACE_LIMIT }
    ensures { FulfilsOrRefuses (or_line netlist_line (netlist (adder_text places))) result }
{
    let text = adder_text(alloc, places)?;
    netlist_device(alloc, &text)
}

// Makes the summary of an adder, if the sum of its device is within the budget.
fn summary_within(alloc: Global, device: Device, places: u32) -> Result<Summary, Refusal>
    requires { places ≤ PLACE_LIMIT }
    ensures summary { Loads (summary_of places (Ok device)) result }
    ensures in_step { IfOk result IsInStep }
{
    let cnf = clauses_of(alloc, &device)?;
    let graph = compiled_by_names(alloc, &cnf, DEFAULT_BUDGET)?;
    let clauses = u64::from(cnf.len());
    Ok(summary_by::<Brand>(alloc, Blank::new(1), device, &graph, clauses, places)?)
}

// Makes the summary of the adder of `places` places.
fn summary_at(alloc: Global, places: u32) -> Result<Summary, Refusal>
    requires { places ≤ PLACE_LIMIT }
    ensures summary { Loads (loaded places) result }
    ensures in_step { IfOk result IsInStep }
{
    let device = adder_device(alloc, places)?;
    summary_within(alloc, device, places)
}

// Writes a line of a word and the names of the faulty parts.
#[tactic(auto, using(device_files::proofs::FailedWrites::line_replies))]
fn put_names<O: Sink>(
    out: &mut O,
    what: &[u8],
    parts: &[Name],
    state: &[u32],
) -> Result<(), WriteFailed>
    requires { length state.now ≡ length parts.now }
    ensures text { Replies (O.got out.old) (O.got out.new) result (names_line what.now parts.now (bits_of state.now) ∷ []) }
    ensures cause { HasCause (O.faults out.old) (O.faults out.new) result }
{
    put_faulty(out, what, &[], parts, state)
}

// Writes the lines of some diagnoses.
fn put_listed<O: Sink>(
    out: &mut O,
    parts: &[Name],
    found: Found,
    first: &[u32],
    last: &[u32],
) -> Result<(), WriteFailed>
    requires first { length first.now ≡ length parts.now }
    requires last { length last.now ≡ length parts.now }
    ensures text { Replies (O.got out.old) (O.got out.new) result (listed_items parts.now found first.now last.now) }
    ensures cause { HasCause (O.faults out.old) (O.faults out.new) result }
{
    put_count(out, b"minimum", u64::from(found.fewest))?;
    put_names(out, b"first", parts, first)?;
    put_count(out, b"listed", u64::from(found.listed))?;
    put_names(out, b"last", parts, last)
}

// Writes that no state agrees with the readings.
#[tactic(auto, using(device_files::proofs::FailedWrites::line_replies))]
fn put_inconsistent<O: Sink>(out: &mut O) -> Result<(), WriteFailed>
    ensures text { Replies (O.got out.old) (O.got out.new) result inconsistent_items }
    ensures cause { HasCause (O.faults out.old) (O.faults out.new) result }
{
    put_line(out, &[b"inconsistent"])
}

// Writes the lines after the sizes.
fn put_found<O: Sink>(out: &mut O, summary: &Summary) -> Result<(), WriteFailed>
    requires { IsInStep summary.now }
    ensures text { Replies (O.got out.old) (O.got out.new) result (found_items summary.now) }
    ensures cause { HasCause (O.faults out.old) (O.faults out.new) result }
{
    match summary.found {
        None => put_inconsistent(out),
        Some(found) => put_listed(out, &summary.parts, found, &summary.first, &summary.last),
    }
}

fn put_summary<O: Sink>(out: &mut O, summary: &Summary) -> Result<(), WriteFailed>
    requires { IsInStep summary.now }
    ensures text { Replies (O.got out.old) (O.got out.new) result (summary_items summary.now) }
    ensures cause { HasCause (O.faults out.old) (O.faults out.new) result }
{
    put_counts(
        out,
        &[
            Count {
                what: b"parts",
                number: summary.parts.len() as u64,
            },
            Count {
                what: b"wires",
                number: summary.wires,
            },
            Count {
                what: b"clauses",
                number: summary.clauses,
            },
        ],
    )?;
    put_found(out, summary)
}

// Prints a summary. Returns `Done`, or `WriteFailed`.
#[tactic(auto, using(device_files::proofs::FailedWrites::gives_items))]
fn tell_summary<O: Sink>(out: &mut O, summary: &Summary) -> Status
    requires in_step { IsInStep summary.now }
    requires faults { O.faults out.old < 2 ^ 64 - 1 }
    ensures write_fault { RoseExactly (O.faults out.old) (O.faults out.new) (result ≡ Status.WriteFailed) }
    ensures either { (result ≡ Status.Done) ⊎ (result ≡ Status.WriteFailed) }
    ensures said { FulfilsOutput (summary_output summary.now) result (O.got out.old) (O.got out.new) }
{
    match put_summary(out, summary) {
        Ok(()) => Status::Done,
        Err(_) => Status::WriteFailed,
    }
}

/// Prints the diagnoses of the adder of `places` places, or why they cannot be found. Returns the status.
#[tactic(auto, using(crate::proofs::LoadedAdders::tells_load))]
pub(crate) fn load_adder<O: Sink>(alloc: Global, places: u32, out: &mut O) -> Status
    requires places { places ≤ PLACE_LIMIT }
    requires faults { O.faults out.old < 2 ^ 64 - 1 }
    ensures write_fault { RoseExactly (O.faults out.old) (O.faults out.new) (result ≡ Status.WriteFailed) }
    ensures said { FulfilsOutputUnlessMemory (loaded places) result (O.got out.old) (O.got out.new) }
{
    match summary_at(alloc, places) {
        Ok(summary) => tell_summary(out, &summary),
        Err(refusal) => tell(out, refusal),
    }
}
