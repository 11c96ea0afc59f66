ghost use Rattle.std.specs.Prelude.{◌≡◌, ◌-◌, ◌^◌, ◌<◌, ◌≤◌, ℕ, List, length};
ghost use Rattle.diag_edge.specs.Edge.{RoseExactly};
ghost use Rattle.device_files.specs.Choices.{ByForest};
ghost use Rattle.diag_cli.specs.Behaviours.{behaviour_by};
ghost use Rattle.diag_cli.specs.declared.words.Command.TheVariants.{Serve, ServeFrames};
ghost use Rattle.diag_cli.specs.inner.Forms.{AreWithinLimits, IsCommandWithin};
ghost use Rattle.diag_cli.specs.inner.Serving.{FulfilsBehaviourUnlessMemory};

use crate::asking::graph_service;
use crate::compiling::compile_file;
use crate::devices::device_service;
use crate::framing::frame_service;
use crate::searching::{device_search, frame_search};
use crate::serving::answer_by;
use crate::words::{Command, ServeOptions};
use device_files::{Status, inspect_file};
use diag_edge::{Sink, Source};
use frame_unroller::FRAME_LIMIT;
use std::alloc::Global;
use text_rules::TEXT_LIMIT;

// Answers the script over the device of a file, by a search or by a graph.
fn serve_device<I: Source, O: Sink>(
    alloc: Global,
    path: &str,
    options: ServeOptions,
    file: &[u8],
    input: &mut I,
    out: &mut O,
) -> Status
    requires limits { AreWithinLimits options }
    requires short { length file.now ≤ TEXT_LIMIT }
    requires taken { I.taken input.old < 2 ^ 62 }
    requires reads { I.faults input.old < 2 ^ 64 - 1 }
    requires writes { O.faults out.old < 2 ^ 64 - 1 }
    ensures write_fault { RoseExactly (O.faults out.old) (O.faults out.new) (result ≡ Status.WriteFailed) }
    ensures follows { ByForest (λ choose. FulfilsBehaviourUnlessMemory (behaviour_by choose path.now (Serve options) file.now)
        (I.shown input.old) (I.shown input.new) (O.shown out.old) (O.shown out.new) result) }
{
    if options.search {
        return answer_by(device_search(alloc, path, file, options), input, out);
    }
    answer_by(device_service(alloc, path, file, options), input, out)
}

// Answers the script over the netlist of a file over `frames` times, by a search or by a graph.
fn serve_frames<I: Source, O: Sink>(
    alloc: Global,
    frames: u32,
    options: ServeOptions,
    file: &[u8],
    input: &mut I,
    out: &mut O,
) -> Status
    requires some_frames { 1 ≤ frames }
    requires few_frames { frames ≤ FRAME_LIMIT }
    requires limits { AreWithinLimits options }
    requires short { length file.now ≤ TEXT_LIMIT }
    requires taken { I.taken input.old < 2 ^ 62 }
    requires reads { I.faults input.old < 2 ^ 64 - 1 }
    requires writes { O.faults out.old < 2 ^ 64 - 1 }
    ensures write_fault { RoseExactly (O.faults out.old) (O.faults out.new) (result ≡ Status.WriteFailed) }
    ensures follows { (path : List ℕ) → ByForest (λ choose. FulfilsBehaviourUnlessMemory (behaviour_by choose path (ServeFrames frames options) file.now)
        (I.shown input.old) (I.shown input.new) (O.shown out.old) (O.shown out.new) result) }
{
    if options.search {
        return answer_by(frame_search(alloc, file, frames, options), input, out);
    }
    answer_by(frame_service(alloc, file, frames, options), input, out)
}

/// Carries out a command over a file.
pub(crate) fn run_file<I: Source, O: Sink>(
    alloc: Global,
    path: &str,
    command: Command,
    file: &[u8],
    input: &mut I,
    out: &mut O,
) -> Status
    requires limits { IsCommandWithin command }
    requires short { length file.now ≤ TEXT_LIMIT }
    requires taken { I.taken input.old < 2 ^ 62 }
    requires reads { I.faults input.old < 2 ^ 64 - 1 }
    requires writes { O.faults out.old < 2 ^ 64 - 1 }
    ensures write_fault { RoseExactly (O.faults out.old) (O.faults out.new) (result ≡ Status.WriteFailed) }
    ensures follows { ByForest (λ choose. FulfilsBehaviourUnlessMemory (behaviour_by choose path.now command file.now)
        (I.shown input.old) (I.shown input.new) (O.shown out.old) (O.shown out.new) result) }
{
    match command {
        Command::Serve { options } => serve_device(alloc, path, options, file, input, out),
        Command::ServeFrames { frames, options } => {
            serve_frames(alloc, frames, options, file, input, out)
        }
        Command::Ask { health, sessions } => {
            answer_by(graph_service(alloc, file, health, sessions), input, out)
        }
        Command::Inspect { inspection } => inspect_file(alloc, path, file, inspection, out),
        Command::Compile { budget, narrow } => {
            compile_file(alloc, path, file, budget, narrow, out)
        }
    }
}
