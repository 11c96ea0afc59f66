ghost use Rattle.std.specs.Prelude.{◌≡◌, ◌<◌, ◌^◌, length, map, slice_index, All, IfOk, Some, None, true, if◌then◌else◌};
ghost use Rattle.state_rules.specs.Bits.{has_bit};
ghost use Rattle.device_model.specs.TruthTable.{set_of_all, is_table};

use crate::Memory;
use crate::gates::Kind;
use crate::limits::COST_LIMIT;
use crate::names::Name;
use std::alloc::Global;
use std::marker::Model;

/// The wires at the ports of a part, by their places.
#[derive(Debug, Drop)]
pub struct Wires {
    items: Vec<u32>,
}

impl Model for Wires {
    ghost use Rattle.std.specs.Prelude.{ℕ, List};

    ghost Value = { List ℕ };

    ghost view = { λ w. w.items.items };
}

impl Wires {
    /// Copies a list of places.
    pub fn new(alloc: Global, items: &[u32]) -> Result<Wires, Memory>
        ensures { IfOk result (λ wires. wires ≡ items.now) }
    {
        let items = Vec::from_slice(alloc, items)?;
        Ok(Wires { items })
    }

    /// Wraps a vector of places.
    pub fn of(items: Vec<u32>) -> Wires
        ensures { result ≡ items.items }
    {
        Wires { items }
    }

    /// Returns the places, in the order of the ports.
    pub fn as_slice(&self) -> &[u32]
        ensures { result.now ≡ self.now }
    {
        self.items.as_slice()
    }

    // Replaces each place by `places` at that place.
    pub(crate) fn renumber(&mut self, places: &[u32])
        requires { All (λ place. place < length places.now) self.old }
        ensures { self.new ≡ map (λ place. slice_index places.now place) self.old }
    {
        for place in self.items.iter_mut() {
            *place = places[*place as usize];
        }
    }
}

/// A part: its name, its kind and the wires at its ports. The ports of a gate are its inputs, then its output.
#[derive(Debug, Drop)]
pub struct Component {
    pub name: Name,
    pub kind: Kind,
    pub ports: Wires,
}

/// The rows that the parts of a type allow, and the cost of a failure. Bit r of `ok` and of `bad` is for the row whose port i
/// has bit i of r.
#[derive(Clone, Copy, Debug)]
pub struct Table {
    ports: u8,
    ok: u64,
    bad: u64,
    cost: u32,
}

impl Model for Table {
    ghost use Rattle.std.specs.Prelude.{◌≡◌, true};
    ghost use Rattle.device_model.specs.TruthTable.{TruthTable, is_table};

    ghost Value = { TruthTable };

    ghost view = { λ t. record { ports = t.ports; ok = t.ok; bad = t.bad; cost = t.cost } };

    ghost inverse = { λ t. record { ports = t.ports; ok = t.ok; bad = t.bad; cost = t.cost } };

    ghost invariant = { λ t. is_table (record { ports = t.ports; ok = t.ok; bad = t.bad; cost = t.cost }) ≡ true };
}

impl Table {
    /// Makes the table of a type. Returns `None` if the number of ports is not 1 to 6, a row is not one of that many ports, or
    /// the cost is not 1 to 1,000.
    pub fn new(ports: u8, ok: u64, bad: u64, cost: u32) -> Option<Table>
        ensures { result ≡ (if is_table (record { ports = ports; ok = ok; bad = bad; cost = cost })
            then Some (record { ports = ports; ok = ok; bad = bad; cost = cost }) else None) }
    {
        let all = Table::all_rows(ports)?;
        if ok <= all && bad <= all && 1 <= cost && cost <= COST_LIMIT {
            Some(Table {
                ports,
                ok,
                bad,
                cost,
            })
        } else {
            None
        }
    }

    /// Returns the set of all rows of 1 to 6 ports, else `None`.
    pub fn all_rows(ports: u8) -> Option<u64>
        ensures { result ≡ set_of_all ports }
    {
        match ports {
            1 => Some(0x3),
            2 => Some(0xF),
            3 => Some(0xFF),
            4 => Some(0xFFFF),
            5 => Some(0xFFFF_FFFF),
            6 => Some(u64::MAX),
            _ => None,
        }
    }

    /// Returns the number of ports, 1 to 6.
    pub fn ports(&self) -> u8
        ensures ports { result ≡ self.now.ports }
        ensures valid { is_table self.now ≡ true }
    {
        self.ports
    }

    /// Returns the rows that an ok part allows.
    pub fn ok(&self) -> u64
        ensures { result ≡ self.now.ok }
    {
        self.ok
    }

    /// Returns the rows that a faulty part allows.
    pub fn bad(&self) -> u64
        ensures { result ≡ self.now.bad }
    {
        self.bad
    }

    /// Whether a part, ok or faulty, allows a row.
    pub fn allows(&self, ok: bool, row: u32) -> bool
        requires { row < 2 ^ self.now.ports }
        ensures { result ≡ has_bit (if ok then self.now.ok else self.now.bad) row }
    {
        let rows = if ok { self.ok } else { self.bad };
        (rows >> row) & 1 == 1
    }

    /// Returns the cost of a failure, 1 to 1,000.
    pub fn cost(&self) -> u32
        ensures cost { result ≡ self.now.cost }
        ensures valid { is_table self.now ≡ true }
    {
        self.cost
    }
}
