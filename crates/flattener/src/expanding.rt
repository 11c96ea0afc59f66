ghost use Rattle.std.specs.Prelude.{◌≡◌, ◌<◌, ◌≤◌, ◌+◌, ◌++◌, ◌∷◌, [], true, map, length, OnOk, IfOk};
ghost use Rattle.flattener.specs.inner.Expanding.{CanExpand, Grows, wire_at, are_joined, are_within, position_of, instance_at, are_short, prefix_of, behind};

use crate::counting::own_wires;
use component_lang::{Design, UsedKind};
use device_model::{Component, Kind, NAME_LIMIT, Name, WIRE_LIMIT, Wires};
use std::alloc::{AllocError, Global};

/// The parts and wires made so far. A port is a position among the wires.
#[derive(Debug, Drop)]
pub(crate) struct Flat {
    pub(crate) parts: Vec<Component>,
    pub(crate) wires: Vec<Name>,
}

/// Adds the content of an instance of a block: its own wires, then the content of its parts, in their order.
///
/// Wires are only added, so each wire keeps its position. The path of an instance has at most 255 bytes, and each level
/// below the first adds at least two, so calls are at most 129 deep.
#[tactic(auto, using(crate::proofs::Rules::grown_instances))]
pub(crate) fn expand(
    alloc: Global,
    design: &Design,
    place: usize,
    path: &[u8],
    passed: &[u32],
    flat: &mut Flat,
) -> Result<(), AllocError>
    requires can { CanExpand design.now place path.now passed.now flat.old.wires.items }
    requires joined { are_joined flat.old.wires.items flat.old.parts.items ≡ true }
    ensures { let content = instance_at design.now place path.now (map (wire_at flat.old.wires.items) passed.now) in
        OnOk result (Grows flat.old.parts.items flat.old.wires.items content flat.new.parts.items flat.new.wires.items) }
{
    let block = &design.blocks()[place];
    let start = flat.wires.len() as u32;
    let mut prefix = prefix_of(alloc, path)?;
    push_wires(alloc, &mut prefix, own_wires(block), &mut flat.wires)?;
    let mut ports = Vec::new(alloc);
    for used in block.parts.as_slice() {
        let name = with_prefix(alloc, &mut prefix, used.name.as_slice())?;
        read_positions(used.args.as_slice(), passed, start, &mut ports)?;
        match used.kind {
            UsedKind::Gate(gate) => push_part(alloc, name, gate, &ports, &mut flat.parts)?,
            UsedKind::Shape(table) => {
                push_part(alloc, name, Kind::Table(table), &ports, &mut flat.parts)?
            }
            UsedKind::Block(inner) => {
                expand(alloc, design, inner as usize, name.as_slice(), &ports, flat)?
            }
        }
    }
    Ok(())
}

// Returns what precedes each name in the instance at a path.
fn prefix_of(alloc: Global, path: &[u8]) -> Result<Vec<u8>, AllocError>
    ensures { IfOk result (λ prefix. prefix.items ≡ prefix_of path.now) }
{
    let mut prefix = Vec::new(alloc);
    if !path.is_empty() {
        prefix.extend_from_slice(path)?;
        prefix.push(b'.')?;
    }
    Ok(prefix)
}

// Joins a prefix and a name: adds the name to `prefix` and takes it off again.
fn with_prefix(alloc: Global, prefix: &mut Vec<u8>, name: &[u8]) -> Result<Name, AllocError>
    requires some { 1 ≤ length name.now }
    requires short { length (behind prefix.old.items name.now) ≤ NAME_LIMIT }
    ensures joined { IfOk result (λ joined. joined ≡ behind prefix.old.items name.now) }
    ensures same { OnOk result (prefix.new.items ≡ prefix.old.items) }
{
    let len = prefix.len();
    prefix.extend_from_slice(name)?;
    let joined = Name::new(alloc, prefix)?;
    prefix.truncate(len);
    Ok(joined)
}

fn push_wires(
    alloc: Global,
    prefix: &mut Vec<u8>,
    names: &[Name],
    wires: &mut Vec<Name>,
) -> Result<(), AllocError>
    requires { are_short (map (behind prefix.old.items) names.now) ≡ true }
    ensures wires { OnOk result
        (wires.new.items ≡ wires.old.items ++ map (behind prefix.old.items) names.now) }
    ensures same { OnOk result (prefix.new.items ≡ prefix.old.items) }
{
    for name in names {
        wires.push(with_prefix(alloc, prefix, name.as_slice())?)?;
    }
    Ok(())
}

// Replaces the items of a list by the positions of a block's wires.
fn read_positions(
    args: &[u32],
    passed: &[u32],
    start: u32,
    positions: &mut Vec<u32>,
) -> Result<(), AllocError>
    requires start { start ≤ WIRE_LIMIT }
    requires args { are_within (length passed.now + WIRE_LIMIT) args.now ≡ true }
    ensures { OnOk result (positions.new.items ≡ map (position_of passed.now start) args.now) }
{
    positions.clear();
    for wire in args {
        positions.push(position_of(*wire, passed, start))?;
    }
    Ok(())
}

// The first wires of a block are passed to it; its own are from `start` on.
fn position_of(wire: u32, passed: &[u32], start: u32) -> u32
    requires start { start ≤ WIRE_LIMIT }
    requires wire { wire < length passed.now + WIRE_LIMIT }
    ensures { result ≡ position_of passed.now start wire }
{
    let wire = wire as usize;
    match passed.get(wire) {
        Some(position) => *position,
        None => start + (wire - passed.len()) as u32,
    }
}

fn push_part(
    alloc: Global,
    name: Name,
    kind: Kind,
    ports: &[u32],
    parts: &mut Vec<Component>,
) -> Result<(), AllocError>
    ensures { OnOk result
        (parts.new.items ≡ parts.old.items ++ record { name = name; kind = kind; ports = ports.now } ∷ []) }
{
    let ports = Wires::new(alloc, ports)?;
    parts.push(Component { name, kind, ports })?;
    Ok(())
}
