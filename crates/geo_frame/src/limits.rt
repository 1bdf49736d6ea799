//! The numbers of the format.

/// The bytes with which a frame begins.
pub const MAGIC: [u8; 4] = *b"GCDS";

/// The version of the format that is written.
pub const VERSION: u8 = 2;

/// The version before it, which is read too: parcels alone, without a kind.
pub const OLD_VERSION: u8 = 1;

/// The kind of a parcel.
pub const PARCEL: u8 = 1;

/// The kind of an ask.
pub const ASK: u8 = 2;

/// The kind of an offer.
pub const OFFER: u8 = 3;

/// The bytes before the fields: the magic, the version and the length.
pub const HEAD: usize = 9;

/// The bytes of a SHA-256.
pub const DIGEST: usize = 32;

/// The fewest bytes of a frame: of an ask for a key of one byte.
pub const SHORTEST_FRAME: usize = 79;

/// The fewest bytes of a frame of version 1: of two sites, without records.
pub const SHORTEST_OLD_FRAME: usize = 89;

/// The most bytes of a frame: 2^30.
pub const LONGEST_FRAME: usize = 1_073_741_824;

/// The bytes of a parcel's frame beside its vectors and records.
pub const BESIDE_RECORDS: usize = 66;

/// The bytes of an ask's frame beside its key.
pub const BESIDE_KEY: usize = 78;
