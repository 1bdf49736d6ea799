//! The limits of lines, numbers and data.

/// The most bytes of a line before its newline.
pub const LONGEST_LINE: usize = 65_536;

/// The most bytes of a key.
pub const LONGEST_KEY: usize = 250;

/// The most bytes that a storage line announces.
pub const MOST_BYTES: u64 = 2_147_483_647;

/// The greatest flags, and the greatest level of verbosity.
pub const MOST_FLAGS: u64 = 4_294_967_295;
