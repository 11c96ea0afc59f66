ghost use Rattle.std.specs.Prelude.{◌≡◌, ◌≤◌, length};
ghost use Rattle.std.specs.Option.{option_map};
ghost use Rattle.bench_reader.specs.Netlists.{netlist};
ghost use Rattle.bench_reader.specs.Faults.{told};
ghost use Rattle.component_lang.specs.Reading.{design};
ghost use Rattle.flattener.specs.Flat.{flattened};
ghost use Rattle.device_files.specs.Describing.{netlist_line, design_line, flatten_line, or_line, described};
ghost use Rattle.device_files.specs.Output.{says, result_and_then};
ghost use Rattle.device_files.specs.Refusals.{FulfilsOrRefuses, refusal_output};

use crate::paths::is_design_path;
use crate::refusal::{Refusal, above};
use crate::status::Status;
use bench_reader::{BenchError, read_bench};
use component_lang::{Design, LangError, read_lang};
use device_model::{Device, NAME_LIMIT, PART_LIMIT, WIRE_LIMIT};
use flattener::{FlattenError, INSTANCE_LIMIT, flatten};
use std::alloc::Global;
use text_rules::TEXT_LIMIT;

/// Returns the refusal of a netlist that has a fault, or for which memory ran out.
pub fn netlist_refusal(error: BenchError) -> Refusal
    ensures { refusal_output result ≡ option_map (λ fault. says (netlist_line fault) Status.Refused) (told error) }
{
    match error {
        BenchError::Bad { line, what } => Refusal::Fault {
            line,
            number: what.number(),
            name: what.name(),
        },
        BenchError::Memory => Refusal::Memory,
    }
}

/// Reads the device that the text of a netlist describes. An error says why there is none.
pub fn netlist_device(alloc: Global, text: &[u8]) -> Result<Device, Refusal>
    requires { length text.now ≤ TEXT_LIMIT }
    ensures { FulfilsOrRefuses (or_line netlist_line (netlist text.now)) result }
{
    match read_bench(alloc, text) {
        Ok(device) => Ok(device),
        Err(error) => Err(netlist_refusal(error)),
    }
}

fn flattened_device(alloc: Global, design: &Design) -> Result<Device, Refusal>
    ensures { FulfilsOrRefuses (or_line flatten_line (flattened design.now)) result }
{
    match flatten(alloc, design) {
        Ok(device) => Ok(device),
        Err(FlattenError::TooManyParts { count }) => Err(above("parts", count, PART_LIMIT)),
        Err(FlattenError::TooManyWires { count }) => Err(above("wires", count, WIRE_LIMIT)),
        Err(FlattenError::TooManyBlocks { count }) => Err(above("blocks", count, INSTANCE_LIMIT)),
        Err(FlattenError::PathTooLong { length }) => Err(above("path", length, NAME_LIMIT)),
        Err(FlattenError::Memory) => Err(Refusal::Memory),
    }
}

fn design_device(alloc: Global, text: &[u8]) -> Result<Device, Refusal>
    requires { length text.now ≤ TEXT_LIMIT }
    ensures { FulfilsOrRefuses (result_and_then (λ made. or_line flatten_line (flattened made)) (or_line design_line (design text.now))) result }
{
    match read_lang(alloc, text) {
        Ok(design) => flattened_device(alloc, &design),
        Err(LangError::Bad { line, what }) => Err(Refusal::Fault {
            line,
            number: what.number(),
            name: what.name(),
        }),
        Err(LangError::Memory) => Err(Refusal::Memory),
    }
}

/// Reads the device that a text describes: a design if the path of its file ends in `.dev`, otherwise a netlist. An error says why there is
/// none.
pub fn described(alloc: Global, path: &str, text: &[u8]) -> Result<Device, Refusal>
    requires { length text.now ≤ TEXT_LIMIT }
    ensures { FulfilsOrRefuses (described path.now text.now) result }
{
    if is_design_path(path) {
        design_device(alloc, text)
    } else {
        netlist_device(alloc, text)
    }
}
