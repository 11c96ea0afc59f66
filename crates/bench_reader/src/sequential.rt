ghost use Rattle.std.specs.Prelude.{◌≡◌, ◌≤◌, ◌||◌, length, map, IfOk, OnOk};
ghost use Rattle.text_rules.specs.Expected.{Fulfils};
ghost use Rattle.text_rules.specs.Names.{Name as Bytes, is_among};
ghost use Rattle.device_model.specs.Devices.{part_names};
ghost use Rattle.bench_reader.specs.Faults.{told};
ghost use Rattle.bench_reader.specs.SequentialNetlists.{flip_flop, flip_flops, places_where, sequential_netlist, HasShortNames};
ghost use Rattle.bench_reader.specs.inner.Lines.{meaning, with_number};
ghost use Rattle.bench_reader.specs.inner.FlipFlops.{is_kept};

use crate::fault::BenchError;
use crate::kinds::{FlipFlops, NamedKind};
use crate::netlist::{device_of, statements_in};
use crate::statement::{NumberedStatement, Statement};
use device_model::{Component, Device, PART_LIMIT, Wires};
use indexmap::IndexSet;
use std::alloc::{AllocError, Global};
use text_rules::TEXT_LIMIT;

/// A netlist with flip-flops. The output of each at a time is its input at the time before.
#[derive(Drop)]
pub struct Sequential {
    /// Its parts are the gates and the flip-flops, which are buffers.
    pub device: Device,
    /// The places of the parts that are flip-flops, in rising order.
    pub delayed: Wires,
}

// Adds the output of a flip-flop to the set.
fn keep<'a>(outputs: &mut IndexSet<&'a [u8]>, statement: &Statement<'a>) -> Result<(), AllocError>
    ensures { OnOk result ((name : Bytes) → is_kept outputs.new name
        ≡ (is_kept outputs.old name || is_among (flip_flop (meaning statement.now)) name)) }
{
    if let Statement::Gate { output, kind, .. } = *statement {
        if let NamedKind::Sequential = kind {
            outputs.insert(output)?;
        }
    }
    Ok(())
}

fn flip_flops<'a>(
    alloc: Global,
    statements: &[NumberedStatement<'a>],
) -> Result<IndexSet<&'a [u8]>, AllocError>
    ensures { IfOk result (λ outputs. (name : Bytes)
        → is_kept outputs name ≡ is_among (flip_flops (map with_number statements.now)) name) }
{
    let mut outputs = IndexSet::new(alloc);
    for numbered in statements {
        keep(&mut outputs, &numbered.statement)?;
    }
    Ok(outputs)
}

// Returns the places of the parts whose name is in the set.
fn places_of<'a>(
    alloc: Global,
    outputs: &IndexSet<&'a [u8]>,
    parts: &'a [Component],
) -> Result<Wires, AllocError>
    requires { length parts.now ≤ PART_LIMIT }
    ensures { IfOk result (λ places. places ≡ places_where (is_kept outputs.now) (part_names parts.now)) }
{
    let mut places = Vec::new(alloc);
    for (place, part) in parts.iter().enumerate() {
        if outputs.contains(&part.name.as_slice()) {
            places.push(place as u32)?;
        }
    }
    Ok(Wires::of(places))
}

fn delayed_in<'a>(
    alloc: Global,
    parts: &'a [Component],
    statements: &[NumberedStatement<'a>],
) -> Result<Wires, AllocError>
    requires { length parts.now ≤ PART_LIMIT }
    ensures { IfOk result (λ delayed. delayed
        ≡ places_where (is_among (flip_flops (map with_number statements.now))) (part_names parts.now)) }
{
    let outputs = flip_flops(alloc, statements)?;
    places_of(alloc, &outputs, parts)
}

/// Reads the netlist of a text of at most 16,777,216 bytes, which may have flip-flops.
///
/// The device has a part for each gate and each flip-flop, and a wire for each of them and for each signal from outside. Memory
/// may run out at any time; any other error is the fault of the text.
#[tactic(auto, using(crate::proofs::Rules::statements_read))]
pub fn read_sequential(alloc: Global, text: &[u8]) -> Result<Sequential, BenchError>
    requires { length text.now ≤ TEXT_LIMIT }
    ensures read { Fulfils (λ seq. seq) told (sequential_netlist text.now) result }
    ensures short { IfOk result (λ seq. HasShortNames seq.device) }
{
    let statements = statements_in(alloc, FlipFlops::Taken, text)?;
    let device = device_of(alloc, &statements)?;
    let delayed = delayed_in(alloc, device.parts(), &statements)?;
    Ok(Sequential { device, delayed })
}
