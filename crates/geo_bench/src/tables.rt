//! Keys and values, which are made once.
use crate::random::Random;
use anyhow::Result;
use std::alloc::Global;

/// How many bytes there are of which values are pieces: some more than the longest value has.
const BLOCK: u64 = 1_153_434;

/// How many letters there are.
const LETTERS: u64 = 65_536;

/// The longest value.
pub const LONGEST: usize = 1_048_576;

/// Keys, and bytes for values.
#[derive(Drop)]
pub struct Tables {
    keys: Vec<Vec<u8>>,
    // Keys that are never set.
    unknown: Vec<Vec<u8>>,
    block: Vec<u8>,
    letters: Vec<u8>,
}

/// How long keys are.
#[derive(Clone, Copy)]
pub enum Length {
    /// Nine bytes.
    Nine,
    /// 16 to 45 bytes.
    Varied,
}

/// So many lower case letters.
fn letters(alloc: Global, random: &mut Random, count: u64) -> Result<Vec<u8>> {
    let mut all = Vec::new(alloc);
    for _letter in 0..count {
        let letter = u8::try_from(random.below(26)).unwrap_or(0);
        all.push(b'a'.wrapping_add(letter))?;
    }
    Ok(all)
}

/// So many bytes.
fn block(alloc: Global, random: &mut Random) -> Result<Vec<u8>> {
    let mut all = Vec::new(alloc);
    for _word in 0..BLOCK / 8 {
        all.extend_from_slice(random.number().to_le_bytes().as_slice())?;
    }
    Ok(all)
}

/// The key of a number.
fn key_of(
    alloc: Global,
    random: &mut Random,
    prefix: &str,
    number: u64,
    length: Length,
) -> Result<Vec<u8>> {
    let text = format!(in alloc; "{prefix}:{number:06}")?;
    let mut key = Vec::from_slice(alloc, text.as_bytes())?;
    if let Length::Varied = length {
        key.push(b':')?;
        let more = random.within(6, 35);
        key.extend_from_slice(letters(alloc, random, more)?.as_slice())?;
    }
    Ok(key)
}

/// So many keys.
fn keys(
    alloc: Global,
    random: &mut Random,
    prefix: &str,
    count: u64,
    length: Length,
) -> Result<Vec<Vec<u8>>> {
    let mut all = Vec::new(alloc);
    for number in 0..count {
        all.push(key_of(alloc, random, prefix, number, length)?)?;
    }
    Ok(all)
}

/// The one of this number, which goes round.
fn at(keys: &[Vec<u8>], number: u64) -> &[u8] {
    let place = number.checked_rem(keys.len() as u64).unwrap_or(0);
    match keys.get(place as usize) {
        Some(key) => key.as_slice(),
        None => b"none",
    }
}

/// So many bytes from somewhere.
fn piece<'a>(random: &mut Random, all: &'a [u8], length: usize) -> &'a [u8] {
    let spare = all.len().saturating_sub(length) as u64;
    let from = random.below(spare.wrapping_add(1)) as usize;
    match all.get(from..from.saturating_add(length)) {
        Some(bytes) => bytes,
        None => b"",
    }
}

impl Tables {
    /// So many keys, and as many that are never set.
    pub fn new(alloc: Global, random: &mut Random, count: u64, length: Length) -> Result<Tables> {
        Tables::under(alloc, random, "it", count, length)
    }

    /// So many keys that begin so, and as many that are never set.
    pub fn under(
        alloc: Global,
        random: &mut Random,
        prefix: &str,
        count: u64,
        length: Length,
    ) -> Result<Tables> {
        Ok(Tables {
            keys: keys(alloc, random, prefix, count, length)?,
            unknown: keys(alloc, random, "no", count, length)?,
            block: block(alloc, random)?,
            letters: letters(alloc, random, LETTERS)?,
        })
    }

    /// The key of a number, which goes round.
    pub fn key(&self, number: u64) -> &[u8] {
        at(self.keys.as_slice(), number)
    }

    /// How many keys there are.
    pub fn count(&self) -> u64 {
        self.keys.len() as u64
    }

    /// A key by Zipf's law.
    pub fn frequent(&self, random: &mut Random) -> &[u8] {
        let rank = random.rank(self.count());
        self.key(rank.wrapping_mul(7_919))
    }

    /// Any key.
    pub fn any(&self, random: &mut Random) -> &[u8] {
        self.key(random.number() >> 1)
    }

    /// A key that is never set.
    pub fn unknown(&self, random: &mut Random) -> &[u8] {
        at(self.unknown.as_slice(), random.number() >> 1)
    }

    /// A value of so many bytes.
    pub fn value(&self, random: &mut Random, length: usize) -> &[u8] {
        piece(random, self.block.as_slice(), length)
    }

    /// A value of so many letters.
    pub fn text(&self, random: &mut Random, length: usize) -> &[u8] {
        piece(random, self.letters.as_slice(), length)
    }
}
