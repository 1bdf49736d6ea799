//! What is visible of a key.

/// What is visible of a key: the bytes that are held, and what goes with them.
#[derive(Clone, Copy)]
pub struct Entry<'a> {
    pub bytes: &'a [u8],
    pub flags: u32,
    /// The moment at which it ends, in seconds; 0 is never.
    pub expiry: u64,
    /// The number that `gets` shows and `cas` compares.
    pub unique: u64,
}
