ghost use Rattle.std.specs.Prelude.{◌≡◌, ◌^◌, ◌<◌, ◌≤◌};
ghost use Rattle.level_lister.specs.Bits.{level_bits};

use crate::levels::TOP_LIMIT;
use part_sets::PART_LIMIT;

/// Returns the most bits that the sets of a graph take if it is compiled from clauses of this sum over `vars` variables: for each node the
/// parts below it, and its costs up to `top`.
pub fn level_bits(sum: u64, vars: u32, parts: u32, top: u32) -> u64
    requires sum { sum ≤ 2 ^ 24 }
    requires vars { vars < 2 ^ 20 }
    requires parts { parts ≤ PART_LIMIT }
    requires top { top ≤ TOP_LIMIT }
    ensures { result ≡ level_bits sum vars parts top }
{
    let nodes = 3 * sum + 2 * u64::from(vars) + 2;
    let size = u64::from(top / 32) + 1;
    nodes * (u64::from(parts) + 32 * size)
}
