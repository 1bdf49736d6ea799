//! A sum of all results.

/// Tells results apart. Bytes give the same sum in whatever pieces they come.
#[derive(Clone, Copy)]
pub struct Sum {
    folded: u64,
    // Bytes that make no word yet, and how many they are.
    pending: u64,
    count: usize,
}

impl Sum {
    pub fn new() -> Sum {
        Sum {
            folded: 0,
            pending: 0,
            count: 0,
        }
    }

    /// Takes a number in.
    pub fn add(&mut self, number: u64) {
        let turned = self.folded.rotate_left(23) ^ number;
        self.folded = turned.wrapping_mul(0x9E37_79B9_7F4A_7C15);
    }

    fn add_byte(&mut self, byte: u8) {
        self.pending = (self.pending >> 8) | (u64::from(byte) << 56);
        self.count = self.count.wrapping_add(1) & 7;
        if self.count == 0 {
            self.add(self.pending);
        }
    }

    /// Takes bytes in.
    pub fn add_bytes(&mut self, bytes: &[u8]) {
        let missing = 8usize.wrapping_sub(self.count) & 7;
        let (front, rest) = bytes.split_at(missing.min(bytes.len()));
        for byte in front.iter() {
            self.add_byte(*byte);
        }
        for piece in rest.chunks(8) {
            match piece.first_chunk::<8>() {
                Some(word) => self.add(u64::from_le_bytes(*word)),
                None => {
                    for byte in piece.iter() {
                        self.add_byte(*byte);
                    }
                }
            }
        }
    }

    /// The sum of all that came.
    pub fn total(&self) -> u64 {
        let mut all = *self;
        all.add(self.pending);
        all.add(self.count as u64);
        all.folded ^ (all.folded >> 29)
    }
}
