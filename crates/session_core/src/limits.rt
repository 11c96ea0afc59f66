//! The limits of a service.

/// The most sessions that may be open at a time.
pub const SESSION_LIMIT: u32 = 1024;
