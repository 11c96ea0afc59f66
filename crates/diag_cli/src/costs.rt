//! The costs of a device's parts, and its names. They have a file of their own, since the prover is slow with them among many
//! imports.
ghost use Rattle.std.specs.Prelude.{◌≡◌, ◌*◌, ◌<◌, ◌≤◌, length, All, IfOk};
ghost use Rattle.std.specs.List.{sum};
ghost use Rattle.device_model.specs.Devices.{IsDevice, part_costs, part_names};

use device_model::{COST_LIMIT, Device, Name, PART_LIMIT};
use std::alloc::{AllocError, Global};

/// Returns the cost of each part's failure.
pub(crate) fn costs_of(alloc: Global, device: &Device) -> Result<Vec<u32>, AllocError>
    ensures costs { IfOk result (λ costs. costs.items ≡ part_costs device.now) }
    ensures many { IfOk result (λ costs. length costs.items ≡ length device.now.parts) }
    ensures dear { IfOk result (λ costs. All (λ c. 0 < c) costs.items) }
    ensures total { IfOk result (λ costs. sum costs.items ≤ COST_LIMIT * PART_LIMIT) }
    ensures valid { IsDevice device.now }
{
    let parts = device.parts().len();
    let mut costs = Vec::with_capacity(alloc, parts)?;
    for part in 0..parts as u32 {
        costs.push(device.cost(part))?;
    }
    Ok(costs)
}

/// Returns the names of the parts and of the wires, each in order, and the cost of each part's failure.
pub(crate) fn names_and_costs(
    alloc: Global,
    device: Device,
) -> Result<(Vec<Name>, Vec<Name>, Vec<u32>), AllocError>
    ensures parts { IfOk result (λ taken. taken.0.items ≡ part_names device.parts) }
    ensures wires { IfOk result (λ taken. taken.1.items ≡ device.wires) }
    ensures costs { IfOk result (λ taken. taken.2.items ≡ part_costs device) }
    ensures many { IfOk result (λ taken. length taken.2.items ≡ length device.parts) }
    ensures dear { IfOk result (λ taken. All (λ c. 0 < c) taken.2.items) }
    ensures total { IfOk result (λ taken. sum taken.2.items ≤ COST_LIMIT * PART_LIMIT) }
    ensures valid { IsDevice device }
{
    let costs = costs_of(alloc, &device)?;
    let (parts, wires) = device.take_names(alloc)?;
    Ok((parts, wires, costs))
}
