ghost use Rattle.std.specs.Prelude.{◌≡◌, ◌≤◌, map, length, true};
ghost use Rattle.std.specs.Map.{keys_of};
ghost use Rattle.std.specs.List.{list_all};
ghost use Rattle.text_rules.specs.Expected.{Fulfils};
ghost use Rattle.bench_reader.specs.Faults.{told};
ghost use Rattle.bench_reader.specs.Netlists.{readings, netlist};
ghost use Rattle.bench_reader.specs.inner.Lines.{unnumbered, with_number};
ghost use Rattle.bench_reader.specs.inner.Steps.{statements_or_fault, device_or_fault, signals_in, is_faultless, is_too_large};

use crate::assembly::assemble;
use crate::fault::{BenchError, BenchFault};
use crate::kinds::FlipFlops;
use crate::signals::{Signals, first_undriven, signals_of};
use crate::statement::{NumberedStatement, gate_count, read_line};
use device_model::{Device, PART_LIMIT, WIRE_LIMIT};
use std::alloc::Global;
use text_rules::{Lines, TEXT_LIMIT};

// Reads the statements of the lines; the error is the first fault of a single line.
#[tactic(auto, using(crate::proofs::Rules::lines_counted))]
pub(crate) fn statements_in<'a>(
    alloc: Global,
    flip_flops: FlipFlops,
    text: &'a [u8],
) -> Result<Vec<NumberedStatement<'a>>, BenchError>
    requires { length text.now ≤ TEXT_LIMIT }
    ensures { Fulfils (λ v. map with_number v.items) told (statements_or_fault (readings flip_flops text.now)) result }
{
    let mut statements = Vec::new(alloc);
    let mut number = 0u32;
    for line in Lines::new(text) {
        number += 1;
        match read_line(flip_flops, line) {
            Ok(None) => {}
            Ok(Some(statement)) => statements.push(NumberedStatement {
                line: number,
                statement,
            })?,
            Err(what) => return Err(BenchError::Bad { line: number, what }),
        }
    }
    Ok(statements)
}

fn is_too_large(signals: &Signals<'_>, statements: &[NumberedStatement<'_>]) -> bool
    ensures { result ≡ is_too_large (map unnumbered statements.now) (keys_of (signals_in signals.now)) }
{
    gate_count(statements) > PART_LIMIT || signals.len() > WIRE_LIMIT
}

// Builds the device of statements that have no fault by themselves; the error is their first fault together.
#[tactic(auto, using(crate::proofs::Rules::faults_together))]
pub(crate) fn device_of(
    alloc: Global,
    statements: &[NumberedStatement<'_>],
) -> Result<Device, BenchError>
    requires { list_all is_faultless (map unnumbered statements.now) ≡ true }
    ensures { Fulfils (λ device. device) told (device_or_fault (map with_number statements.now)) result }
{
    let signals = signals_of(alloc, statements)?;
    if let Some(line) = first_undriven(&signals, statements) {
        return Err(BenchError::Bad {
            line,
            what: BenchFault::Undriven,
        });
    }
    if is_too_large(&signals, statements) {
        return Err(BenchError::Bad {
            line: 0,
            what: BenchFault::TooMany,
        });
    }
    assemble(alloc, &signals, statements)
}

/// Reads the netlist of a text of at most 16,777,216 bytes.
///
/// The device has a part for each gate, and a wire for each gate and for each signal from outside. Memory may run out at
/// any time; any other error is the fault of the text.
#[tactic(auto, using(crate::proofs::Rules::statements_read))]
pub fn read_bench(alloc: Global, text: &[u8]) -> Result<Device, BenchError>
    requires { length text.now ≤ TEXT_LIMIT }
    ensures { Fulfils (λ device. device) told (netlist text.now) result }
{
    let statements = statements_in(alloc, FlipFlops::Refused, text)?;
    device_of(alloc, &statements)
}
