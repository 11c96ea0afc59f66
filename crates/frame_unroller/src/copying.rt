ghost use Rattle.std.specs.Prelude.{◌≡◌, ◌<◌, ◌≤◌, ◌+◌, ◌*◌, ◌++◌, ℕ, length, map, All, IfOk, OnOk};
ghost use Rattle.text_rules.specs.declared.names.TheConstants.{SHORT_NAME_LIMIT};
ghost use Rattle.device_model.specs.declared.limits.TheConstants.{PART_LIMIT, WIRE_LIMIT};
ghost use Rattle.bench_reader.specs.SequentialNetlists.{HasShortNames};
ghost use Rattle.clause_encoder.specs.declared.limits.TheConstants.{CLAUSE_LIMIT};
ghost use Rattle.clause_encoder.specs.Encoding.{raw_count};
ghost use Rattle.frame_unroller.specs.declared.unrolling.TheConstants.{FRAME_LIMIT};
ghost use Rattle.frame_unroller.specs.Times.{wire_at as named_at};
ghost use Rattle.frame_unroller.specs.Unrolling.{Copy, copies_for, copies, frame_device};
ghost use Rattle.frame_unroller.specs.inner.Copying.{given_copy, AreCopies};
ghost use Rattle.frame_unroller.specs.inner.Delays.{AreDelays};

use crate::names::{copy_at, wire_at};
use bench_reader::Sequential;
use device_model::{Component, Name, Wires};
use std::alloc::{AllocError, Global};

/// The copies of all parts for `frames` frames, the places of their parts, and the wires at all times. A port is a position
/// among these wires.
#[derive(Debug, Drop)]
pub(crate) struct Copies {
    pub(crate) frames: u32,
    pub(crate) parts: Vec<Component>,
    pub(crate) places: Vec<u32>,
    pub(crate) wires: Vec<Name>,
}

/// Makes all copies for `frames` frames. The numbers of copies, wires and clauses are within the limits.
pub(crate) fn copies_over(
    alloc: Global,
    seq: &Sequential,
    delays: &[bool],
    frames: u32,
) -> Result<Copies, AllocError>
    requires some { 1 ≤ frames }
    requires few { frames ≤ FRAME_LIMIT }
    requires few_parts { length (copies seq.now frames) ≤ PART_LIMIT }
    requires few_wires { frames * length seq.now.device.wires ≤ WIRE_LIMIT }
    requires few_clauses { raw_count (frame_device seq.now frames) ≤ CLAUSE_LIMIT }
    requires short { HasShortNames seq.now.device }
    requires delays { AreDelays seq.now delays.now }
    ensures { IfOk result (λ made. (made.frames ≡ frames)
        × AreCopies seq.now frames made.parts.items made.places.items made.wires.items) }
{
    let mut made = Copies {
        frames,
        parts: Vec::new(alloc),
        places: Vec::new(alloc),
        wires: Vec::new(alloc),
    };
    for time in 1..frames + 1 {
        push_copies(alloc, seq, delays, time, &mut made.parts, &mut made.places)?;
        push_wires(alloc, seq.device.wires(), time, &mut made.wires)?;
    }
    Ok(made)
}

// Adds the copies for a time, and the places of their parts.
fn push_copies(
    alloc: Global,
    seq: &Sequential,
    delays: &[bool],
    time: u32,
    copies: &mut Vec<Component>,
    places: &mut Vec<u32>,
) -> Result<(), AllocError>
    requires some { 1 ≤ time }
    requires few { time ≤ FRAME_LIMIT }
    requires short { HasShortNames seq.now.device }
    requires delays { AreDelays seq.now delays.now }
    ensures copies { OnOk result (copies.new.items
        ≡ copies.old.items ++ map (given_copy (length seq.now.device.wires)) (copies_for seq.now time)) }
    ensures places { OnOk result (places.new.items
        ≡ places.old.items ++ map (λ (c : Copy). c.place) (copies_for seq.now time)) }
{
    let wires = seq.device.wires().len() as u32;
    for (place, part) in seq.device.parts().iter().enumerate() {
        let before = if delays[place] { time - 1 } else { time };
        if before > 0 {
            copies.push(copy_of(alloc, part, wires, before, time)?)?;
            places.push(place as u32)?;
        }
    }
    Ok(())
}

// Makes the copy of a part, with inputs at `before` and the output at `now`.
fn copy_of(
    alloc: Global,
    part: &Component,
    wires: u32,
    before: u32,
    now: u32,
) -> Result<Component, AllocError>
    requires short { length part.now.name ≤ SHORT_NAME_LIMIT }
    requires wires { wires ≤ WIRE_LIMIT }
    requires ports { All (λ port. port < wires) part.now.ports }
    requires some { 1 ≤ before }
    requires order { before ≤ now }
    requires few { now ≤ FRAME_LIMIT }
    ensures { (place : ℕ) → IfOk result (λ copy. copy
        ≡ given_copy wires (record { place = place; part = part.now; before = before; now = now })) }
{
    let name = copy_at(alloc, now, part.name.as_slice())?;
    let given = part.ports.as_slice();
    let inputs = given.len().saturating_sub(1);
    let mut ports = Vec::with_capacity(alloc, given.len())?;
    push_ports(&mut ports, &given[..inputs], (before - 1) * wires)?;
    push_ports(&mut ports, &given[inputs..], (now - 1) * wires)?;
    Ok(Component {
        name,
        kind: part.kind,
        ports: Wires::of(ports),
    })
}

// Adds wires as positions counted from `from`.
fn push_ports(ports: &mut Vec<u32>, wires: &[u32], from: u32) -> Result<(), AllocError>
    requires from { from ≤ FRAME_LIMIT * WIRE_LIMIT }
    requires wires { All (λ wire. wire < WIRE_LIMIT) wires.now }
    ensures { OnOk result (ports.new.items ≡ ports.old.items ++ map (λ wire. from + wire) wires.now) }
{
    for wire in wires {
        ports.push(from + *wire)?;
    }
    Ok(())
}

// Adds the names of wires at a time.
fn push_wires(
    alloc: Global,
    wires: &[Name],
    time: u32,
    named: &mut Vec<Name>,
) -> Result<(), AllocError>
    requires time { time ≤ FRAME_LIMIT }
    requires short { All (λ name. length name ≤ SHORT_NAME_LIMIT) wires.now }
    ensures { OnOk result (named.new.items ≡ named.old.items ++ map (named_at time) wires.now) }
{
    for wire in wires {
        named.push(wire_at(alloc, time, wire.as_slice())?)?;
    }
    Ok(())
}
