ghost use Rattle.std.specs.Prelude.{◌≡◌, ◌≤◌, map, IfOk, None};
ghost use Rattle.std.specs.List.{range_with_len};
ghost use Rattle.component_lang.specs.declared.design.Shape.{Shape as OneType};
ghost use Rattle.text_rules.specs.Expected.{Fulfils};
ghost use Rattle.flattener.specs.Flat.{flattened, told};
ghost use Rattle.flattener.specs.inner.Counting.{counts_of_design, refusal};
ghost use Rattle.flattener.specs.inner.Expanding.{IsFlat};
ghost use Rattle.flattener.specs.declared.flattening.FlattenError.TheVariants.{Memory};

use crate::counting::{Counts, top_ports};
use crate::expanding::{Flat, expand};
use component_lang::{Design, Shape};
use device_model::{BuildError, Device, Name, Table, WIRE_LIMIT};
use std::alloc::{AllocError, Global};

/// The limit on instances of blocks below the top.
pub const INSTANCE_LIMIT: usize = 4096;

/// Why a design has no flat device. A count stops at 2^64 - 1.
#[derive(Clone, Copy, Debug, PartialEq, Eq)]
pub enum FlattenError {
    /// More than 4,096 parts.
    TooManyParts { count: u64 },
    /// More than 16,384 wires.
    TooManyWires { count: u64 },
    /// More than 4,096 instances of blocks below the top.
    TooManyBlocks { count: u64 },
    /// The longest path of a part, a wire or an instance has more than 255 bytes: `length`.
    PathTooLong { length: u64 },
    /// Memory ran out.
    Memory,
}

impl From<AllocError> for FlattenError {
    ghost from_gives = { λ _ e. e ≡ Memory };

    fn from(_: AllocError) -> Self {
        FlattenError::Memory
    }
}

/// Makes the device of a design: each part, wire and instance of a block has its path as its name, and each port of an
/// instance is the wire that is passed to it.
///
/// Memory may run out at any time. Any other error is the first in the order of `FlattenError` that applies. In the
/// present code, all counts are taken before anything is made.
pub fn flatten(alloc: Global, design: &Design) -> Result<Device, FlattenError>
    ensures { Fulfils (λ device. device) told (flattened design.now) result }
{
    let counts = Counts::of_design(alloc, design)?;
    if let Some(error) = counts.refusal() {
        return Err(error);
    }
    let Flat { parts, wires } = flat_of(alloc, design)?;
    let tables = tables_of(alloc, design.types())?;
    match Device::build(alloc, parts, wires, tables) {
        Ok(device) => Ok(device),
        Err(error) => match error {
            BuildError::Memory => Err(FlattenError::Memory),
            // In each block names differ and arguments fit, so paths differ and ports fit.
            _ => unreachable!(),
        },
    }
}

// Makes all parts and wires. No limit is exceeded.
fn flat_of(alloc: Global, design: &Design) -> Result<Flat, AllocError>
    requires { refusal (counts_of_design design.now) ≡ None }
    ensures { IfOk result (λ flat. IsFlat design.now flat.parts.items flat.wires.items) }
{
    let ports = top_ports(design);
    let mut flat = Flat {
        parts: Vec::new(alloc),
        wires: names_of(alloc, ports)?,
    };
    let passed = first_places(alloc, ports.len())?;
    expand(
        alloc,
        design,
        design.top() as usize,
        &[],
        &passed,
        &mut flat,
    )?;
    Ok(flat)
}

fn names_of(alloc: Global, names: &[Name]) -> Result<Vec<Name>, AllocError>
    ensures { IfOk result (λ copies. copies.items ≡ names.now) }
{
    let mut copies = Vec::with_capacity(alloc, names.len())?;
    for name in names {
        copies.push(Name::new(alloc, name.as_slice())?)?;
    }
    Ok(copies)
}

// Returns the first `count` places, from 0 on.
fn first_places(alloc: Global, count: usize) -> Result<Vec<u32>, AllocError>
    requires { count ≤ WIRE_LIMIT }
    ensures { IfOk result (λ places. places.items ≡ range_with_len 0 count) }
{
    let mut places = Vec::with_capacity(alloc, count)?;
    for place in 0..count as u32 {
        places.push(place)?;
    }
    Ok(places)
}

fn tables_of(alloc: Global, types: &[Shape]) -> Result<Vec<Table>, AllocError>
    ensures { IfOk result (λ tables. tables.items ≡ map (λ (s : OneType). s.table) types.now) }
{
    types.iter().map(|shape| shape.table).collect(alloc)
}
