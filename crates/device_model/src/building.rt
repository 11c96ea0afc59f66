ghost use Rattle.std.specs.Prelude.{◌≡◌, ◌≢◌, ℕ, ◌<◌, ◌≤◌, [], length, map, All, slice_index, slice_index_or, position, not, IfSome, IfOk, IfErr, OnOk, Ok, Err};
ghost use Rattle.std.specs.List.{AllPairs};
ghost use Rattle.std.specs.List.Sorted.{IsPermutation};
ghost use Rattle.text_rules.specs.Names.{Name as Bytes};
ghost use Rattle.device_model.specs.Order.{sorted_distinct};
ghost use Rattle.device_model.specs.Devices.{IsDevice, part_names, takes_ports, has_arity, has_wires};
ghost use Rattle.text_rules.specs.Expected.{Fulfils};
ghost use Rattle.device_model.specs.Building.{built, reason, repeated};
ghost use Rattle.device_model.specs.inner.Sorting.{numbered_from, with_places, IsFirstRepeat, IsTwice};
ghost use Rattle.device_model.specs.declared.building.BuildError.TheVariants.{TwoParts, TwoWires, Memory};

use crate::component::{Component, Table};
use crate::device::Device;
use crate::gates::Rule;
use crate::limits::{PART_LIMIT, WIRE_LIMIT};
use crate::names::Name;
use std::alloc::{AllocError, Global};

/// Why parts and wires make no device. A part is given by its place in the given list, counted from 0.
#[derive(Debug, Drop)]
pub enum BuildError {
    /// More than 4,096 parts, or else more than 16,384 wires: `count`.
    TooMany { count: u64 },
    /// This is the least name that two parts have.
    TwoParts { name: Name },
    /// This is the least name that two wires have.
    TwoWires { name: Name },
    /// The kind of this part does not take its number of ports, or its table is missing.
    Arity { part: u32 },
    /// A port of this part is not the place of a wire.
    NoWire { part: u32 },
    /// Memory ran out.
    Memory,
}

impl From<AllocError> for BuildError {
    ghost from_gives = { λ _ e. e ≡ Memory };

    fn from(_: AllocError) -> Self {
        BuildError::Memory
    }
}

// Whether a part of this rule has `ports` ports.
fn takes_ports(rule: Rule, tables: &[Table], ports: usize) -> bool
    ensures { result ≡ takes_ports tables.now rule ports }
{
    match rule {
        Rule::Gate(gate) => gate.takes(ports.saturating_sub(1)),
        Rule::Table(table) => match tables.get(table as usize) {
            Some(table) => usize::from(table.ports()) == ports,
            None => false,
        },
    }
}

fn has_arity(tables: &[Table], part: &Component) -> bool
    ensures { result ≡ has_arity tables.now part.now }
{
    takes_ports(part.kind.rule(), tables, part.ports.as_slice().len())
}

fn has_wires(wires: usize, part: &Component) -> bool
    ensures { result ≡ has_wires wires part.now }
{
    part.ports
        .as_slice()
        .iter()
        .all(|port| (*port as usize) < wires)
}

fn first_without_arity(tables: &[Table], parts: &[Component]) -> Option<usize>
    ensures first { result ≡ position (λ part. not (has_arity tables.now part)) parts.now }
    ensures within { IfSome result (λ place. place < length parts.now) }
{
    parts.iter().position(|part| !has_arity(tables, part))
}

fn first_without_wires(wires: usize, parts: &[Component]) -> Option<usize>
    ensures first { result ≡ position (λ part. not (has_wires wires part)) parts.now }
    ensures within { IfSome result (λ place. place < length parts.now) }
{
    parts.iter().position(|part| !has_wires(wires, part))
}

impl Device {
    /// Sorts parts and wires by name. A port is a place in the given `wires` and becomes the wire's place in order.
    ///
    /// Memory may run out at any time. Any other error is the first in the order of `BuildError` that applies.
    #[tactic(auto, using(crate::proofs::Rules::sorted_places))]
    pub fn build(
        alloc: Global,
        parts: Vec<Component>,
        wires: Vec<Name>,
        tables: Vec<Table>,
    ) -> Result<Device, BuildError>
        ensures built { Fulfils (λ device. device) reason (built parts.items wires.items tables.items) result }
        ensures valid { IfOk result (λ device. IsDevice device) }
    {
        if parts.len() > PART_LIMIT {
            return Err(BuildError::TooMany {
                count: parts.len() as u64,
            });
        }
        if wires.len() > WIRE_LIMIT {
            return Err(BuildError::TooMany {
                count: wires.len() as u64,
            });
        }
        let arity = first_without_arity(&tables, &parts);
        let joined = first_without_wires(wires.len(), &parts);
        let mut parts = sorted_parts(parts)?;
        let wires = sorted_wires(alloc, wires)?;
        if let Some(part) = arity {
            return Err(BuildError::Arity { part: part as u32 });
        }
        if let Some(part) = joined {
            return Err(BuildError::NoWire { part: part as u32 });
        }
        let places = places_of(alloc, &wires)?;
        renumber_all(&mut parts, &places);
        let wires = names_of(alloc, wires)?;
        Ok(Device::of_sorted(parts, wires, tables))
    }
}

// Sorts the parts by name. The error is the least name that two parts have.
fn sorted_parts(parts: Vec<Component>) -> Result<Vec<Component>, BuildError>
    ensures sorted { IfOk result (λ s. s.items ≡ sorted_distinct (λ p. p.name) parts.items) }
    ensures same { IfOk result (λ s. IsPermutation parts.items s.items) }
    ensures distinct { OnOk result (repeated (part_names parts.items) ≡ []) }
    ensures twice { IfErr result
        (λ e. e ≢ Memory → IsTwice TwoParts (part_names parts.items) e) }
{
    let mut parts = parts;
    parts.sort_by(|a, b| a.name.cmp(&b.name))?;
    if let Some(place) = repeated_part(&parts) {
        let Component { name, .. } = parts.swap_remove(place);
        return Err(BuildError::TwoParts { name });
    }
    Ok(parts)
}

// Sorts the wires by name, each with its position in `wires`. The error is the least name that two wires have.
fn sorted_wires(alloc: Global, wires: Vec<Name>) -> Result<Vec<(Name, u32)>, BuildError>
    requires { length wires.items ≤ WIRE_LIMIT }
    ensures sorted { IfOk result
        (λ s. map (λ w. w.0) s.items ≡ sorted_distinct (λ n. n) wires.items) }
    ensures same { IfOk result (λ s. IsPermutation (numbered_from 0 wires.items) s.items) }
    ensures distinct { OnOk result (repeated wires.items ≡ []) }
    ensures twice { IfErr result (λ e. e ≢ Memory → IsTwice TwoWires wires.items e) }
{
    let mut wires = numbered(alloc, wires)?;
    wires.sort_by(|a, b| a.0.cmp(&b.0))?;
    if let Some(place) = repeated_wire(&wires) {
        let (name, _) = wires.swap_remove(place);
        return Err(BuildError::TwoWires { name });
    }
    Ok(wires)
}

// Finds the first part that follows one of the same name.
fn repeated_part(parts: &[Component]) -> Option<usize>
    ensures { IsFirstRepeat (part_names parts.now) result }
{
    for place in 1..parts.len() {
        if parts[place - 1].name == parts[place].name {
            return Some(place);
        }
    }
    None
}

fn repeated_wire(wires: &[(Name, u32)]) -> Option<usize>
    ensures { IsFirstRepeat (map (λ w. w.0) wires.now) result }
{
    for place in 1..wires.len() {
        if wires[place - 1].0 == wires[place].0 {
            return Some(place);
        }
    }
    None
}

// Pairs each wire with its position.
fn numbered(alloc: Global, wires: Vec<Name>) -> Result<Vec<(Name, u32)>, AllocError>
    requires { length wires.items ≤ WIRE_LIMIT }
    ensures { IfOk result (λ pairs. pairs.items ≡ numbered_from 0 wires.items) }
{
    let mut numbered = Vec::with_capacity(alloc, wires.len())?;
    let mut position = 0u32;
    for wire in wires {
        numbered.push((wire, position))?;
        position += 1;
    }
    Ok(numbered)
}

// Returns the place in `wires` of each position.
fn places_of(alloc: Global, wires: &[(Name, u32)]) -> Result<Vec<u32>, AllocError>
    requires few { length wires.now ≤ WIRE_LIMIT }
    requires within { All (λ w. w.1 < length wires.now) wires.now }
    requires distinct { AllPairs (λ v w. v.1 ≢ w.1) wires.now }
    ensures len { IfOk result (λ places. length places.items ≡ length wires.now) }
    ensures places { IfOk result (λ places. (k : ℕ) (w : Bytes × ℕ) → k < length wires.now
        → slice_index places.items (slice_index_or wires.now k w).1 ≡ k) }
{
    let mut places = vec![in alloc; 0u32; wires.len()]?;
    for (place, (_, position)) in wires.iter().enumerate() {
        places[*position as usize] = place as u32;
    }
    Ok(places)
}

// Replaces each port by `places` at that port.
fn renumber_all(parts: &mut [Component], places: &[u32])
    requires { All (λ p. All (λ port. port < length places.now) p.ports) parts.old }
    ensures { parts.new ≡ map (with_places places.now) parts.old }
{
    for part in parts.iter_mut() {
        part.ports.renumber(places);
    }
}

fn names_of(alloc: Global, wires: Vec<(Name, u32)>) -> Result<Vec<Name>, AllocError>
    ensures { IfOk result (λ names. names.items ≡ map (λ w. w.0) wires.items) }
{
    wires.into_iter().map(|(name, _)| name).collect(alloc)
}
