//! Devices: named parts, joined by named wires.
#![tactic(auto)]

mod building;
mod component;
mod device;
mod gates;
mod limits;
mod names;

pub use building::BuildError;
pub use component::{Component, Table, Wires};
pub use device::{Device, place_of};
pub use gates::{Gate, Kind, Reduction, Rule, gate_named};
pub use limits::{COST_LIMIT, INPUT_LIMIT, NAME_LIMIT, PART_LIMIT, TYPE_PORT_LIMIT, WIRE_LIMIT};
pub use names::{Name, Names};
pub use std::alloc::AllocError as Memory;
