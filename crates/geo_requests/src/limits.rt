//! The limits of values and numbers.

/// The most bytes of a value.
pub const LONGEST_VALUE: usize = 1_048_576;

/// The greatest unique number, and the most that is added or taken away.
pub const MOST_NUMBER: u64 = 18_446_744_073_709_551_615;
