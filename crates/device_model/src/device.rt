ghost use Rattle.std.specs.Prelude.{◌≡◌, ◌<◌, ◌≤◌, true, length, slice_index, IfOk};
ghost use Rattle.text_rules.specs.Names.{names_rise};
ghost use Rattle.device_model.specs.TruthTable.{is_cost};
ghost use Rattle.device_model.specs.Devices.{IsDevice, place_of, part_names, part_costs};

use crate::Memory;
use crate::component::{Component, Table};
use crate::gates::Rule;
use crate::limits::WIRE_LIMIT;
use crate::names::Name;
use std::alloc::Global;
use std::marker::Model;

/// Parts and wires, each in the order of their names.
#[derive(Drop)]
pub struct Device {
    parts: Vec<Component>,
    wires: Vec<Name>,
    tables: Vec<Table>,
}

impl Model for Device {
    ghost use Rattle.device_model.specs.Devices.{Device as Shown, IsDevice};

    ghost Value = { Shown };

    ghost view = { λ d. record { parts = d.parts.items; wires = d.wires.items; tables = d.tables.items } };

    ghost invariant = { λ d. IsDevice (record { parts = d.parts.items; wires = d.wires.items; tables = d.tables.items }) };
}

impl Device {
    pub(crate) fn of_sorted(parts: Vec<Component>, wires: Vec<Name>, tables: Vec<Table>) -> Device
        requires { IsDevice (record { parts = parts.items; wires = wires.items; tables = tables.items }) }
        ensures { result ≡ record { parts = parts.items; wires = wires.items; tables = tables.items } }
    {
        Device {
            parts,
            wires,
            tables,
        }
    }

    /// Returns the parts, in the order of their names.
    pub fn parts(&self) -> &[Component]
        ensures parts { result.now ≡ self.now.parts }
        ensures valid { IsDevice self.now }
    {
        &self.parts
    }

    /// Returns the wires, in the order of their names.
    pub fn wires(&self) -> &[Name]
        ensures wires { result.now ≡ self.now.wires }
        ensures valid { IsDevice self.now }
    {
        &self.wires
    }

    /// Returns the tables, at the places that `Kind::Table` gives.
    pub fn tables(&self) -> &[Table]
        ensures tables { result.now ≡ self.now.tables }
        ensures valid { IsDevice self.now }
    {
        &self.tables
    }

    /// Returns the cost of a failure of a part, 1 to 1,000: 1 for a gate, else the cost of its table.
    pub fn cost(&self, part: u32) -> u32
        requires { part < length self.now.parts }
        ensures cost { result ≡ slice_index (part_costs self.now) part }
        ensures within { is_cost result ≡ true }
    {
        match self.parts[part as usize].kind.rule() {
            Rule::Gate(_) => 1,
            Rule::Table(table) => self.tables[table as usize].cost(),
        }
    }

    /// Finds the place of the part with a name; `None` exactly if no part has the name.
    pub fn find_part(&self, name: &[u8]) -> Option<u32>
        ensures { result ≡ place_of name.now (part_names self.now.parts) }
    {
        match self
            .parts
            .binary_search_by(|part| part.name.as_slice().cmp(name))
        {
            Ok(place) => Some(place as u32),
            Err(_) => None,
        }
    }

    /// Finds the place of the wire with a name; `None` exactly if no wire has the name.
    pub fn find_wire(&self, name: &[u8]) -> Option<u32>
        ensures { result ≡ place_of name.now self.now.wires }
    {
        place_of(&self.wires, name)
    }

    /// Returns the names of the parts and of the wires, each in order.
    pub fn take_names(self, alloc: Global) -> Result<(Vec<Name>, Vec<Name>), Memory>
        ensures parts { IfOk result (λ names. names.0.items ≡ part_names self.parts) }
        ensures wires { IfOk result (λ names. names.1.items ≡ self.wires) }
    {
        let mut names = Vec::with_capacity(alloc, self.parts.len())?;
        for part in self.parts {
            let Component {
                name,
                kind: _,
                ports: _,
            } = part;
            names.push(name)?;
        }
        Ok((names, self.wires))
    }
}

/// Finds the place of a name among rising names; `None` exactly if it is not there.
pub fn place_of(names: &[Name], name: &[u8]) -> Option<u32>
    requires rising { names_rise names.now ≡ true }
    requires few { length names.now ≤ WIRE_LIMIT }
    ensures { result ≡ place_of name.now names.now }
{
    match names.binary_search_by(|other| other.as_slice().cmp(name)) {
        Ok(place) => Some(place as u32),
        Err(_) => None,
    }
}
