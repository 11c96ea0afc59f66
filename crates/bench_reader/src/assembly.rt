ghost use Rattle.std.specs.Prelude.{◌≡◌, ◌∷◌, ◌++◌, ◌≤◌, [], map, length, IfOk, Ok, true};
ghost use Rattle.std.specs.Map.{keys_of};
ghost use Rattle.std.specs.List.{flat_map, list_all};
ghost use Rattle.std.specs.Option.{option_to_list};
ghost use Rattle.text_rules.specs.Expected.{Fulfils};
ghost use Rattle.text_rules.specs.Names.{is_short_name};
ghost use Rattle.device_model.specs.Building.{place_in, joined};
ghost use Rattle.bench_reader.specs.Faults.{told};
ghost use Rattle.bench_reader.specs.Netlists.{part_of, device_of};
ghost use Rattle.bench_reader.specs.inner.Lines.{input_names, meaning, unnumbered};
ghost use Rattle.bench_reader.specs.inner.Steps.{signals_in, is_faultless, AreFaultless};

use crate::fault::BenchError;
use crate::signals::Signals;
use crate::statement::{Inputs, NumberedStatement, Statement, has_no_mark};
use device_model::{BuildError, Component, Device, Name, WIRE_LIMIT, Wires};
use std::alloc::{AllocError, Global};

// Returns the place of a driven signal's wire.
#[tactic(auto, using(crate::proofs::Rules::signals_in_order))]
fn place_of(signals: &Signals<'_>, signal: &[u8]) -> u32
    requires { length signals.now.entries ≤ WIRE_LIMIT }
    ensures { result ≡ place_in (keys_of (signals_in signals.now)) signal.now }
{
    signals.get_index_of(&signal).unwrap_or(signals.len()) as u32
}

// Returns the places of a gate's inputs, then of its output.
fn ports_of(
    alloc: Global,
    signals: &Signals<'_>,
    inputs: Inputs<'_>,
    output: &[u8],
) -> Result<Wires, AllocError>
    requires { length signals.now.entries ≤ WIRE_LIMIT }
    ensures { IfOk result (λ ports. ports ≡ map (place_in (keys_of (signals_in signals.now)))
        (input_names inputs.entry ++ output.now ∷ [])) }
{
    let mut ports = Vec::new(alloc);
    for token in inputs.tokens() {
        if has_no_mark(token) {
            ports.push(place_of(signals, token))?;
        }
    }
    ports.push(place_of(signals, output))?;
    Ok(Wires::of(ports))
}

// Makes the part of a gate or of a flip-flop.
fn part_of(
    alloc: Global,
    signals: &Signals<'_>,
    statement: &Statement<'_>,
) -> Result<Option<Component>, AllocError>
    requires few { length signals.now.entries ≤ WIRE_LIMIT }
    requires faultless { is_faultless (meaning statement.now) ≡ true }
    ensures { IfOk result (λ part. option_to_list part
        ≡ map (joined (keys_of (signals_in signals.now))) (part_of (meaning statement.now))) }
{
    let Statement::Gate {
        output,
        kind,
        inputs,
    } = *statement
    else {
        return Ok(None);
    };
    let Some(kind) = kind.part_gate() else {
        return Ok(None);
    };
    let name = Name::new(alloc, output)?;
    let ports = ports_of(alloc, signals, inputs, output)?;
    Ok(Some(Component { name, kind, ports }))
}

fn parts_of(
    alloc: Global,
    signals: &Signals<'_>,
    statements: &[NumberedStatement<'_>],
) -> Result<Vec<Component>, AllocError>
    requires few { length signals.now.entries ≤ WIRE_LIMIT }
    requires faultless { list_all is_faultless (map unnumbered statements.now) ≡ true }
    ensures { IfOk result (λ parts. parts.items
        ≡ map (joined (keys_of (signals_in signals.now))) (flat_map part_of (map unnumbered statements.now))) }
{
    let mut parts = Vec::new(alloc);
    for numbered in statements {
        if let Some(part) = part_of(alloc, signals, &numbered.statement)? {
            parts.push(part)?;
        }
    }
    Ok(parts)
}

#[tactic(auto, using(crate::proofs::Rules::signals_in_order))]
fn wires_of(alloc: Global, signals: &Signals<'_>) -> Result<Vec<Name>, AllocError>
    requires { list_all is_short_name (keys_of (signals_in signals.now)) ≡ true }
    ensures { IfOk result (λ wires. wires.items ≡ keys_of (signals_in signals.now)) }
{
    let mut wires = Vec::with_capacity(alloc, signals.len())?;
    for signal in signals.keys() {
        wires.push(Name::new(alloc, signal)?)?;
    }
    Ok(wires)
}

/// Builds the device of statements without a fault and their driven signals. The only error is lack of memory.
#[tactic(auto, using(crate::proofs::Rules::device_of_parts))]
pub fn assemble(
    alloc: Global,
    signals: &Signals<'_>,
    statements: &[NumberedStatement<'_>],
) -> Result<Device, BenchError>
    requires { AreFaultless (map unnumbered statements.now) (keys_of (signals_in signals.now)) }
    ensures { Fulfils (λ device. device) told (Ok (device_of (map unnumbered statements.now))) result }
{
    let parts = parts_of(alloc, signals, statements)?;
    let wires = wires_of(alloc, signals)?;
    match Device::build(alloc, parts, wires, Vec::new(alloc)) {
        Ok(device) => Ok(device),
        Err(error) => match error {
            BuildError::Memory => Err(BenchError::Memory),
            // The statements have no fault, so their parts and wires have none.
            _ => unreachable!(),
        },
    }
}
