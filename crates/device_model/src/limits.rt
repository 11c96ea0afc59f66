//! The limits of devices.

/// The most parts of a device.
pub const PART_LIMIT: usize = 4096;

/// The most wires of a device.
pub const WIRE_LIMIT: usize = 16384;

/// The most bytes of a name of a part or a wire, with the path of the instances that it is in. A name in a text is shorter.
pub const NAME_LIMIT: usize = 255;

/// The most inputs of a gate.
pub const INPUT_LIMIT: usize = 64;

/// The most ports of a part of a type.
pub const TYPE_PORT_LIMIT: u8 = 6;

/// The highest cost of a failure of a part.
pub const COST_LIMIT: u32 = 1000;
