//! Copies tables. It is a file of its own because the prover is slow with many imports.
ghost use Rattle.std.specs.Prelude.{◌≡◌, IfOk};

use device_model::Table;
use std::alloc::{AllocError, Global};

/// Copies the tables.
pub(crate) fn tables_of(alloc: Global, tables: &[Table]) -> Result<Vec<Table>, AllocError>
    ensures { IfOk result (λ copies. copies.items ≡ tables.now) }
{
    Vec::from_slice(alloc, tables)
}
