ghost use Rattle.std.specs.Prelude.{◌≡◌, ◌+◌, ◌<◌, ◌≤◌, length, true, All, IfOk};
ghost use Rattle.text_rules.specs.Expected.{Fulfils};
ghost use Rattle.text_rules.specs.Names.{names_rise};
ghost use Rattle.state_rules.specs.Ranking.{plain_costs};
ghost use Rattle.conditioner.specs.Models.{total_cost};
ghost use Rattle.nnf_ask.specs.Asking.{five_digits, variable_names, asked_names, told};
ghost use Rattle.nnf_ask.specs.declared.names.AskError.TheVariants as fault;

use crate::Memory;
use device_model::{Name, PART_LIMIT, WIRE_LIMIT};
use std::alloc::Global;

/// Why the variables of a graph have no names.
#[derive(Clone, Copy, Debug, PartialEq, Eq)]
pub enum AskError {
    /// The `health` parts are more than the `vars` variables.
    Health { health: u64, vars: u64 },
    /// More than 16,384 variables are left for wires: `count`.
    Wires { count: u64 },
    /// Memory ran out.
    Memory,
}

impl From<Memory> for AskError {
    ghost from_gives = { λ _ e. e ≡ fault.Memory };

    fn from(_: Memory) -> Self {
        AskError::Memory
    }
}

/// Returns the names of a graph's variables, first `health` parts and then wires: their numbers in five digits.
///
/// Memory may run out. Any other error is the first in the order of `AskError` that applies.
pub fn ask_names(alloc: Global, health: u32, vars: u32) -> Result<(Vec<Name>, Vec<Name>), AskError>
    requires few { health ≤ PART_LIMIT }
    ensures names { Fulfils (λ names. (names.0.items, names.1.items)) told (asked_names health vars) result }
    ensures parts_rise { IfOk result (λ names. names_rise names.0.items ≡ true) }
    ensures wires_rise { IfOk result (λ names. names_rise names.1.items ≡ true) }
    ensures parts { IfOk result (λ names. length names.0.items ≡ health) }
    ensures few_wires { IfOk result (λ names. length names.1.items ≤ WIRE_LIMIT) }
    ensures all { IfOk result (λ names. length names.0.items + length names.1.items ≡ vars) }
{
    if health > vars {
        return Err(AskError::Health {
            health: u64::from(health),
            vars: u64::from(vars),
        });
    }
    let count = vars - health;
    if count as usize > WIRE_LIMIT {
        return Err(AskError::Wires {
            count: u64::from(count),
        });
    }
    let parts = variable_names(alloc, 1, health)?;
    let wires = variable_names(alloc, health + 1, count)?;
    Ok((parts, wires))
}

fn five_digits(number: u32) -> [u8; 5]
    requires { number < 100000 }
    ensures { result ≡ five_digits number }
{
    [
        b'0' + (number / 10_000) as u8,
        b'0' + (number / 1000 % 10) as u8,
        b'0' + (number / 100 % 10) as u8,
        b'0' + (number / 10 % 10) as u8,
        b'0' + (number % 10) as u8,
    ]
}

// Returns the names of `count` variables from `first` on.
fn variable_names(alloc: Global, first: u32, count: u32) -> Result<Vec<Name>, Memory>
    requires { first + count ≤ 100000 }
    ensures names { IfOk result (λ names. names.items ≡ variable_names first count) }
    ensures rise { IfOk result (λ names. names_rise names.items ≡ true) }
    ensures many { IfOk result (λ names. length names.items ≡ count) }
{
    let mut names = Vec::with_capacity(alloc, count as usize)?;
    for place in 0..count {
        names.push(Name::new(alloc, &five_digits(first + place))?)?;
    }
    Ok(names)
}

/// Returns the cost of each part's failure: 1.
pub fn ask_costs(alloc: Global, health: u32) -> Result<Vec<u32>, Memory>
    requires few { health ≤ PART_LIMIT }
    ensures costs { IfOk result (λ costs. costs.items ≡ plain_costs health) }
    ensures many { IfOk result (λ costs. length costs.items ≡ health) }
    ensures dear { IfOk result (λ costs. All (λ c. 0 < c) costs.items) }
    ensures total { IfOk result (λ costs. total_cost costs.items ≡ health) }
{
    vec![in alloc; 1; health as usize]
}
