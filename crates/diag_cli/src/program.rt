ghost use Rattle.std.specs.Prelude.{◌≡◌, ◌-◌, ◌^◌, ◌<◌, map, string_bytes, Some, IfSome};
ghost use Rattle.diag_cli.specs.Words.{form_of, named_file, Over};
ghost use Rattle.device_files.specs.Choices.{ByForest};
ghost use Rattle.device_files.specs.Statuses.{number_of};
ghost use Rattle.device_files.specs.declared.status.Status.{Status};
ghost use Rattle.diag_cli.specs.Runs.{IsRun};
ghost use Rattle.diag_cli.specs.inner.Forms.{IsCommandWithin};

use crate::loading::load_adder;
use crate::run::run_file;
use crate::saying::{say_load_error, say_usage};
use crate::words::{Command, Form, form_of};
use device_files::Status;
use diag_edge::{Shelf, Sink, Source, load};
use std::alloc::Global;
use text_rules::TEXT_LIMIT;

// Reads a file, and carries out a command over it.
fn run_over<H: Shelf, I: Source, O: Sink>(
    alloc: Global,
    path: &str,
    command: Command,
    shelf: &mut H,
    input: &mut I,
    out: &mut O,
) -> Status
    requires may { H.may shelf.old path.now }
    requires limits { IsCommandWithin command }
    requires shelf_taken { H.taken shelf.old < 2 ^ 62 }
    requires input_taken { I.taken input.old < 2 ^ 62 }
    requires shelf_faults { H.faults shelf.old < 2 ^ 64 - 1 }
    requires input_faults { I.faults input.old < 2 ^ 64 - 1 }
    requires out_faults { O.faults out.old < 2 ^ 64 - 1 }
    ensures { ByForest (λ choose. IsRun choose (Some (Over path.now command)) (H.held shelf.old)
        (H.shown shelf.old) (H.shown shelf.new) (I.shown input.old) (I.shown input.new) (O.shown out.old) (O.shown out.new) result) }
{
    match load(alloc, shelf, path, TEXT_LIMIT) {
        Ok(file) => run_file(alloc, path, command, &file, input, out),
        Err(error) => say_load_error(out, error),
    }
}

/// Does all that the program does: reads the file that the words name, if any, does what they ask for, and returns the number with which
/// the process ends.
///
/// `words` are those after the program's name. `IsRun` says what holds of each run, by some choice of forests if the words ask for one. The
/// law `runs_have_details` says what follows from it.
pub fn diag<H: Shelf, I: Source, O: Sink>(
    alloc: Global,
    words: &[String],
    shelf: &mut H,
    input: &mut I,
    out: &mut O,
) -> u8
    requires may { IfSome (named_file (form_of (map string_bytes words.now))) (λ name. H.may shelf.old name) }
    requires shelf_taken { H.taken shelf.old < 2 ^ 62 }
    requires input_taken { I.taken input.old < 2 ^ 62 }
    requires shelf_faults { H.faults shelf.old < 2 ^ 64 - 1 }
    requires input_faults { I.faults input.old < 2 ^ 64 - 1 }
    requires out_faults { O.faults out.old < 2 ^ 64 - 1 }
    ensures { ByForest (λ choose. (status : Status) × (number_of status ≡ result)
        × IsRun choose (form_of (map string_bytes words.now)) (H.held shelf.old)
        (H.shown shelf.old) (H.shown shelf.new) (I.shown input.old) (I.shown input.new) (O.shown out.old) (O.shown out.new) status) }
{
    match form_of(words) {
        None => say_usage(out).number(),
        Some(Form::Load { places }) => load_adder(alloc, places, out).number(),
        Some(Form::Over { path, command }) => {
            run_over(alloc, path, command, shelf, input, out).number()
        }
    }
}
