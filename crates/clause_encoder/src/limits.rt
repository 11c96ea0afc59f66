//! The limits of clause lists.

/// The most clauses of a list, and of a device before any is left out.
pub const CLAUSE_LIMIT: u32 = 262_144;

/// The most inputs of a gate without inner variables. A gate with more has a chain of them.
pub const NARROW_LIMIT: usize = 4;

/// There are fewer variables than this.
pub const VARIABLE_LIMIT: u32 = 1 << 29;
