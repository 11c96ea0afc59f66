ghost use Rattle.std.specs.Prelude.{◌≡◌, ◌≤◌};
ghost use Rattle.clause_encoder.specs.Encoding.{raw_count};
ghost use Rattle.frame_unroller.specs.declared.unrolling.TheConstants.{FRAME_LIMIT};
ghost use Rattle.frame_unroller.specs.Unrolling.{frame_device};
ghost use Rattle.frame_unroller.specs.inner.Delays.{AreDelays};

use bench_reader::Sequential;
use clause_encoder::part_count;

/// Counts the clauses of the copies for `frames` frames, before any is left out: those of each part at each time, except of
/// delayed parts at the first.
pub(crate) fn clause_count(seq: &Sequential, delays: &[bool], frames: u32) -> u64
    requires some { 1 ≤ frames }
    requires few { frames ≤ FRAME_LIMIT }
    requires delays { AreDelays seq.now delays.now }
    ensures { result ≡ raw_count (frame_device seq.now frames) }
{
    let mut first = 0;
    let mut later = 0;
    for (place, part) in seq.device.parts().iter().enumerate() {
        let ports = part.ports.as_slice().len();
        let clauses = part_count(seq.device.tables(), part.kind, ports);
        later += clauses;
        if !delays[place] {
            first += clauses;
        }
    }
    first + u64::from(frames - 1) * later
}
