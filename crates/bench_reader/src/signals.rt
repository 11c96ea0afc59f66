ghost use Rattle.std.specs.Prelude.{◌≡◌, [], map};
ghost use Rattle.std.specs.Map.{keys_of};
ghost use Rattle.std.specs.List.{list_all};
ghost use Rattle.text_rules.specs.Expected.{Fulfils};
ghost use Rattle.text_rules.specs.Names.{is_among};
ghost use Rattle.bench_reader.specs.Faults.{told};
ghost use Rattle.bench_reader.specs.Signals.{used};
ghost use Rattle.bench_reader.specs.inner.Lines.{input_names, meaning, with_number};
ghost use Rattle.bench_reader.specs.inner.Steps.{signals_in, driven_more, signals_from, first_undriven};

use crate::fault::{BenchError, BenchFault};
use crate::statement::{Inputs, NumberedStatement, Statement, has_no_mark};
use indexmap::IndexMap;
use std::alloc::Global;

/// What drives a signal.
#[derive(Clone, Copy, Debug, PartialEq, Eq)]
pub enum Driver {
    Outside,
    Gate,
}

/// The driven signals, in the order in which the text first drives them. A signal has the place of its wire.
pub type Signals<'a> = IndexMap<&'a [u8], Driver>;

// A gate may drive only a signal that is not driven above. An `INPUT` may repeat, but no gate above may drive it.
fn drive<'a>(signals: &mut Signals<'a>, numbered: &NumberedStatement<'a>) -> Result<(), BenchError>
    ensures { Fulfils (λ _. signals_in signals.new) told (driven_more (signals_in signals.old) (with_number numbered.now)) result }
{
    let again = BenchError::Bad {
        line: numbered.line,
        what: BenchFault::DrivenTwice,
    };
    match numbered.statement {
        Statement::Gate { output, .. } => match signals.insert(output, Driver::Gate)? {
            None => Ok(()),
            Some(_) => Err(again),
        },
        Statement::Input(signal) => match signals.insert(signal, Driver::Outside)? {
            Some(Driver::Gate) => Err(again),
            Some(Driver::Outside) => Ok(()),
            None => Ok(()),
        },
        Statement::Output(_) => Ok(()),
    }
}

/// Returns all driven signals, or the first line that drives one again.
pub fn signals_of<'a>(
    alloc: Global,
    statements: &[NumberedStatement<'a>],
) -> Result<Signals<'a>, BenchError>
    ensures { Fulfils signals_in told (signals_from [] (map with_number statements.now)) result }
{
    let mut signals = IndexMap::new(alloc);
    for numbered in statements {
        drive(&mut signals, numbered)?;
    }
    Ok(signals)
}

fn is_driven(signals: &Signals<'_>, signal: &[u8]) -> bool
    ensures { result ≡ is_among (keys_of (signals_in signals.now)) signal.now }
{
    signals.contains_key(&signal)
}

fn are_driven(signals: &Signals<'_>, inputs: Inputs<'_>) -> bool
    ensures { result ≡ list_all (is_among (keys_of (signals_in signals.now))) (input_names inputs.entry) }
{
    for token in inputs.tokens() {
        if has_no_mark(token) && !is_driven(signals, token) {
            return false;
        }
    }
    true
}

// Whether each signal that a statement uses is driven.
fn has_driven(signals: &Signals<'_>, statement: &Statement<'_>) -> bool
    ensures { result ≡ list_all (is_among (keys_of (signals_in signals.now))) (used (meaning statement.now)) }
{
    match *statement {
        Statement::Input(_) => true,
        Statement::Output(signal) => is_driven(signals, signal),
        Statement::Gate { inputs, .. } => are_driven(signals, inputs),
    }
}

/// Finds the first line that uses a signal which no line drives.
pub fn first_undriven(signals: &Signals<'_>, statements: &[NumberedStatement<'_>]) -> Option<u32>
    ensures { result ≡ first_undriven (keys_of (signals_in signals.now)) (map with_number statements.now) }
{
    for numbered in statements {
        if !has_driven(signals, &numbered.statement) {
            return Some(numbered.line);
        }
    }
    None
}
