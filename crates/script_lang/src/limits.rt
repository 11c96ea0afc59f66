//! The limits of a line's length and of a count.

/// The longest line of a script, in bytes and without its line feed.
pub const LINE_LIMIT: usize = 1_048_576;

/// The most states that one line may list.
pub const COUNT_LIMIT: u64 = 1_000_000;
