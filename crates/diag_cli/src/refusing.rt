//! The refusal of a netlist that is not unrolled. It has its own file, since the prover is slow with it among many imports.
ghost use Rattle.std.specs.Prelude.{◌≡◌};
ghost use Rattle.device_files.specs.Refusals.{refusal_output};
ghost use Rattle.diag_cli.specs.inner.Serving.{frames_refusal};

use clause_encoder::CLAUSE_LIMIT;
use device_files::{Refusal, above};
use device_model::{PART_LIMIT, WIRE_LIMIT};
use frame_unroller::UnrollError;

/// Returns the refusal of a netlist that is not unrolled.
pub(crate) fn not_unrolled(error: UnrollError) -> Refusal
    ensures { refusal_output result ≡ frames_refusal error }
{
    match error {
        UnrollError::TooManyParts { count } => above("parts", count, PART_LIMIT),
        UnrollError::TooManyWires { count } => above("wires", count, WIRE_LIMIT),
        UnrollError::TooManyClauses { count } => above("clauses", count, CLAUSE_LIMIT as usize),
        UnrollError::Memory => Refusal::Memory,
    }
}
