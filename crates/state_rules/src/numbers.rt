//! Least costs as words.
ghost use Rattle.std.specs.Prelude.{◌≡◌, ◌<◌, ◌/◌, ◌%◌, length};
ghost use Rattle.state_rules.specs.Numbers.{probed};

/// The word that means no cost.
pub const NO_COST: u32 = u32::MAX;

/// Returns the least cost if a wire has a bit, from the numbers of all wires; none if no state is left.
pub fn cost_of(numbers: &[u32], wire: usize, bit: bool) -> Option<u32>
    requires even { length numbers.now % 2 ≡ 0 }
    requires wire { wire < length numbers.now / 2 }
    ensures { result ≡ probed numbers.now wire bit }
{
    let number = if bit {
        numbers[numbers.len() / 2 + wire]
    } else {
        numbers[wire]
    };
    if number == NO_COST {
        None
    } else {
        Some(number)
    }
}
