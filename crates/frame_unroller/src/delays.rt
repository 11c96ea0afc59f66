ghost use Rattle.std.specs.Prelude.{◌≡◌, ◌≤◌, length, IfOk};
ghost use Rattle.frame_unroller.specs.declared.unrolling.TheConstants.{FRAME_LIMIT};
ghost use Rattle.frame_unroller.specs.Unrolling.{copies};
ghost use Rattle.frame_unroller.specs.inner.Delays.{AreDelays};

use bench_reader::Sequential;
use std::alloc::{AllocError, Global};

/// Returns for each part whether it is delayed.
pub(crate) fn delays_of(alloc: Global, seq: &Sequential) -> Result<Vec<bool>, AllocError>
    ensures { IfOk result (λ delays. AreDelays seq.now delays.items) }
{
    let mut delays = vec![in alloc; false; seq.device.parts().len()]?;
    for place in seq.delayed.as_slice() {
        if (*place as usize) < delays.len() {
            delays[*place as usize] = true;
        }
    }
    Ok(delays)
}

/// Counts the copies in `frames` frames: one for each part and each time, except a delayed part at the first.
#[tactic(auto, using(crate::proofs::Rules::copies_counted))]
pub(crate) fn copy_count(seq: &Sequential, delays: &[bool], frames: u32) -> u64
    requires some { 1 ≤ frames }
    requires few { frames ≤ FRAME_LIMIT }
    requires delays { AreDelays seq.now delays.now }
    ensures { result ≡ length (copies seq.now frames) }
{
    // The contract of `parts` says that they are few.
    let parts = seq.device.parts().len() as u64;
    let mut first = 0;
    for delayed in delays {
        if !*delayed {
            first += 1;
        }
    }
    first + u64::from(frames - 1) * parts
}
