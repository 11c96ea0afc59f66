//! What was found last. The memory is taken in a file of few imports, since the prover goes through all that is dropped when memory runs out.
ghost use Rattle.std.specs.Prelude.{◌≡◌, ◌*◌, ◌≤◌, ◌<◌, length, replicate, All, IfOk};
ghost use Rattle.device_model.specs.declared.limits.TheConstants.{WIRE_LIMIT};

use state_rules::Blame;
use std::alloc::{AllocError, Global};

/// A state, a verdict for each part, and two numbers for each wire.
#[derive(Drop)]
pub(crate) struct Found {
    pub(crate) state: Vec<u32>,
    pub(crate) verdicts: Vec<Blame>,
    pub(crate) numbers: Vec<u32>,
}

impl Found {
    /// Takes memory for what may be found of these parts and wires.
    pub(crate) fn new(alloc: Global, parts: usize, wires: usize) -> Result<Found, AllocError>
        requires wires { wires ≤ WIRE_LIMIT }
        ensures state { IfOk result (λ found. length found.state.items ≡ parts) }
        ensures bits { IfOk result (λ found. All (λ s. s < 2) found.state.items) }
        ensures verdicts { IfOk result (λ found. length found.verdicts.items ≡ parts) }
        ensures numbers { IfOk result (λ found. length found.numbers.items ≡ 2 * wires) }
    {
        Ok(Found {
            state: zeros(alloc, parts)?,
            verdicts: vec![in alloc; Blame::Never; parts]?,
            numbers: zeros(alloc, 2 * wires)?,
        })
    }
}

fn zeros(alloc: Global, count: usize) -> Result<Vec<u32>, AllocError>
    ensures { IfOk result (λ zeros. zeros.items ≡ replicate count 0) }
{
    vec![in alloc; 0; count]
}
