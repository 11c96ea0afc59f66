//! The call of the program. It returns only the status, since the tests compare what is written.
ghost use Rattle.std.specs.Prelude.{◌-◌, ◌^◌, ◌<◌, map, string_bytes, IfSome};
ghost use Rattle.diag_cli.specs.Words.{form_of, named_file};

use diag_cli::diag;
use diag_edge::{Shelf, Sink, Source};
use std::alloc::Global;

/// Returns the status of a run over any ends.
pub fn status_of<H: Shelf, I: Source, O: Sink>(
    alloc: Global,
    words: &[String],
    shelf: &mut H,
    input: &mut I,
    out: &mut O,
) -> u8
    requires may { IfSome (named_file (form_of (map string_bytes words.now))) (λ name. H.may shelf.old name) }
    requires shelf_taken { H.taken shelf.old < 2 ^ 62 }
    requires input_taken { I.taken input.old < 2 ^ 62 }
    requires shelf_faults { H.faults shelf.old < 2 ^ 64 - 1 }
    requires input_faults { I.faults input.old < 2 ^ 64 - 1 }
    requires out_faults { O.faults out.old < 2 ^ 64 - 1 }
{
    diag(alloc, words, shelf, input, out)
}
