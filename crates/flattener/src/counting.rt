ghost use Rattle.std.specs.Prelude.{◌≡◌, true, drop, slice_index_or, IfOk};
ghost use Rattle.state_rules.specs.Values.{values};
ghost use Rattle.component_lang.specs.Designs.{is_design};
ghost use Rattle.flattener.specs.Flat.{top_ports};
ghost use Rattle.flattener.specs.inner.Counting.{no_counts, longest_of, counts_of_wires, added, counts_of_part, counts_of_instance, counts_of_used, counts_of_block, counts_of_design, refusal};

use crate::flattening::{FlattenError, INSTANCE_LIMIT};
use component_lang::{Block, Design, Used, UsedKind};
use device_model::{NAME_LIMIT, Name, PART_LIMIT, WIRE_LIMIT};
use std::alloc::{AllocError, Global};

/// The counts of an instance of a block, and the length of its longest path in bytes, measured from the instance on. They
/// stop at 2^64 - 1.
#[derive(Clone, Copy, Debug, PartialEq, Eq)]
pub(crate) struct Counts {
    parts: u64,
    wires: u64,
    instances: u64,
    longest: u64,
}

impl Counts {
    const NONE: Counts = Counts {
        parts: 0,
        wires: 0,
        instances: 0,
        longest: 0,
    };

    fn of_wires(wires: &[Name]) -> Counts
        ensures { result ≡ counts_of_wires wires.now }
    {
        Counts {
            parts: 0,
            wires: wires.len() as u64,
            instances: 0,
            longest: longest_of(wires),
        }
    }

    fn of_part(name: &Name) -> Counts
        ensures { result ≡ counts_of_part name.now }
    {
        Counts {
            parts: 1,
            wires: 0,
            instances: 0,
            longest: name.as_slice().len() as u64,
        }
    }

    // Returns the counts that an instance of this name adds; `inner` are those of its block.
    fn of_instance(name: &Name, inner: Counts) -> Counts
        ensures { result ≡ counts_of_instance name.now inner }
    {
        let name = name.as_slice().len() as u64;
        let longest = if inner.longest == 0 {
            name
        } else {
            (name + 1).saturating_add(inner.longest)
        };
        Counts {
            parts: inner.parts,
            wires: inner.wires,
            instances: inner.instances.saturating_add(1),
            longest,
        }
    }

    fn of_used(used: &Used, above: &[Counts]) -> Counts
        ensures { result ≡ counts_of_used above.now used.now }
    {
        match used.kind {
            UsedKind::Gate(_) | UsedKind::Shape(_) => Counts::of_part(&used.name),
            UsedKind::Block(place) => {
                Counts::of_instance(&used.name, Counts::at(above, place as usize))
            }
        }
    }

    fn at(counts: &[Counts], place: usize) -> Counts
        ensures { result ≡ slice_index_or counts.now place no_counts }
    {
        counts.get(place).copied().unwrap_or(Counts::NONE)
    }

    fn of_block(block: &Block, above: &[Counts]) -> Counts
        ensures { result ≡ counts_of_block block.now above.now }
    {
        let mut counts = Counts::of_wires(own_wires(block));
        for used in block.parts.as_slice() {
            counts = counts.and(Counts::of_used(used, above));
        }
        counts
    }

    fn and(self, other: Counts) -> Counts
        ensures { result ≡ added self other }
    {
        Counts {
            parts: self.parts.saturating_add(other.parts),
            wires: self.wires.saturating_add(other.wires),
            instances: self.instances.saturating_add(other.instances),
            longest: self.longest.max(other.longest),
        }
    }

    /// Counts the content of a design's device, block by block and not instance by instance.
    pub(crate) fn of_design(alloc: Global, design: &Design) -> Result<Counts, AllocError>
        ensures counts { IfOk result (λ counts. counts ≡ counts_of_design design.now) }
        ensures valid { is_design design.now ≡ true }
    {
        let counts = counts_of(alloc, design.blocks())?;
        let top = Counts::at(&counts, design.top() as usize);
        Ok(Counts::of_wires(top_ports(design)).and(top))
    }

    /// Finds the first limit that is exceeded.
    pub(crate) fn refusal(self) -> Option<FlattenError>
        ensures { result ≡ refusal self }
    {
        if self.parts > PART_LIMIT as u64 {
            return Some(FlattenError::TooManyParts { count: self.parts });
        }
        if self.wires > WIRE_LIMIT as u64 {
            return Some(FlattenError::TooManyWires { count: self.wires });
        }
        if self.instances > INSTANCE_LIMIT as u64 {
            return Some(FlattenError::TooManyBlocks {
                count: self.instances,
            });
        }
        if self.longest > NAME_LIMIT as u64 {
            return Some(FlattenError::PathTooLong {
                length: self.longest,
            });
        }
        None
    }
}

fn counts_of(alloc: Global, blocks: &[Block]) -> Result<Vec<Counts>, AllocError>
    ensures { IfOk result (λ counts. counts.items ≡ values counts_of_block blocks.now) }
{
    let mut counts = Vec::with_capacity(alloc, blocks.len())?;
    for block in blocks {
        let next = Counts::of_block(block, &counts);
        counts.push(next)?;
    }
    Ok(counts)
}

// Returns the length in bytes of the longest name.
fn longest_of(names: &[Name]) -> u64
    ensures { result ≡ longest_of names.now }
{
    let mut longest = 0;
    for name in names {
        longest = longest.max(name.as_slice().len() as u64);
    }
    longest
}

/// Returns the wires of a block that are not passed to it.
pub(crate) fn own_wires(block: &Block) -> &[Name]
    ensures { result.now ≡ drop block.now.ports block.now.wires }
{
    let wires = block.wires.as_slice();
    &wires[wires.len().min(block.ports as usize)..]
}

/// Returns the ports of the top.
pub(crate) fn top_ports(design: &Design) -> &[Name]
    ensures ports { result.now ≡ top_ports design.now }
    ensures valid { is_design design.now ≡ true }
{
    let block = &design.blocks()[design.top() as usize];
    let wires = block.wires.as_slice();
    &wires[..wires.len().min(block.ports as usize)]
}
