//! The program's statuses; 0 is that all was done.

/// The words of the call, the script or the configuration were refused.
pub const REFUSED: u8 = 2;

/// Memory was wanted and refused.
pub const NO_MEMORY: u8 = 3;

/// A socket, standard input or output, or another device of the system, failed.
pub const DEVICE_FAILED: u8 = 4;
