//! A script that is made line by line while it is read.
use crate::lines::{push_figure, push_number, push_word};
use crate::random::Random;
use crate::sum::Sum;
use crate::tables::{Length, Tables};
use anyhow::{Result, anyhow};
use geo_cluster::run_script;
use geo_grammar::Device;
use std::alloc::{AllocError, Global};
use std::hash::RandomState;
use std::io;
use std::io::{Read, Write};

/// How many keys there are.
const KEYS: u64 = 2_000;

/// How many bytes of lines there are, at the scale of 1.
const BYTES: u64 = 1_000_000;

/// How many sites there are.
const SITES: u64 = 3;

/// So many lines are made at once.
const PIECE: u64 = 50;

/// A script in the making.
#[derive(Drop)]
struct Script<'a> {
    tables: &'a Tables,
    random: Random,
    line: Vec<u8>,
    at: usize,
    /// How many bytes of it are still to be made.
    left: u64,
    moment: u64,
    /// How many parcels were made, and which of them are to be taken, by which site.
    parcels: u64,
    waiting: Vec<(u64, u64)>,
}

/// A byte as an escape.
fn push_escape(out: &mut Vec<u8>, byte: u8) -> Result<(), AllocError> {
    out.extend_from_slice(b"\\x")?;
    for half in [byte >> 4, byte & 15].iter() {
        out.push(if *half < 10 {
            b'0'.wrapping_add(*half)
        } else {
            b'W'.wrapping_add(*half)
        })?;
    }
    Ok(())
}

/// The end of a line of a client.
fn push_client_end(out: &mut Vec<u8>) -> Result<(), AllocError> {
    out.extend_from_slice(b"\\r\\n")
}

/// A store of letters, of which four bytes are now and then any.
fn push_store(
    tables: &Tables,
    random: &mut Random,
    verb: &[u8],
    key: &[u8],
    out: &mut Vec<u8>,
) -> Result<(), AllocError> {
    let length = random.within(4, 150);
    let escapes = if random.one_in(6) { 4 } else { 0 };
    out.extend_from_slice(verb)?;
    push_word(out, key)?;
    out.extend_from_slice(if random.one_in(8) { b" 7 500" } else { b" 0 0" })?;
    push_figure(out, length.wrapping_add(escapes))?;
    push_client_end(out)?;
    for _escape in 0..escapes {
        push_escape(out, random.byte())?;
    }
    out.extend_from_slice(tables.text(random, length as usize))?;
    push_client_end(out)
}

/// A command of a key.
fn push_of_key(out: &mut Vec<u8>, verb: &[u8], key: &[u8]) -> Result<(), AllocError> {
    out.extend_from_slice(verb)?;
    push_word(out, key)?;
    push_client_end(out)
}

/// A command of one of fifty counters.
fn push_count(random: &mut Random, out: &mut Vec<u8>) -> Result<(), AllocError> {
    let counter = random.rank(50);
    if random.one_in(5) {
        out.extend_from_slice(b"set count:")?;
        push_number(out, counter)?;
        return out.extend_from_slice(b" 0 0 2\\r\\n10\\r\\n");
    }
    out.extend_from_slice(b"incr count:")?;
    push_number(out, counter)?;
    push_figure(out, random.below(1_000))?;
    push_client_end(out)
}

/// One command of a client.
fn push_command(tables: &Tables, random: &mut Random, out: &mut Vec<u8>) -> Result<(), AllocError> {
    let key = tables.frequent(random);
    match random.below(20) {
        0..5 => push_store(tables, random, b"set", key, out),
        5..7 => push_count(random, out),
        7 => push_store(tables, random, b"append", key, out),
        8 => push_of_key(out, b"delete", key),
        9..11 => push_of_key(out, b"gets", key),
        _ => push_of_key(out, b"get", key),
    }
}

impl Script<'_> {
    /// Writes a word and the number of some site.
    fn push_at_site(&mut self, word: &[u8]) -> Result<u64, AllocError> {
        let site = self.random.below(SITES);
        self.line.extend_from_slice(word)?;
        push_figure(&mut self.line, site.wrapping_add(1))?;
        Ok(site)
    }

    /// What a client of a site sends.
    fn client(&mut self) -> Result<(), AllocError> {
        let _site = self.push_at_site(b"client")?;
        self.line.push(b' ')?;
        for _command in 0..self.random.within(1, 5) {
            push_command(self.tables, &mut self.random, &mut self.line)?;
        }
        Ok(())
    }

    /// A site makes a parcel for another.
    fn send(&mut self) -> Result<(), AllocError> {
        let from = self.push_at_site(b"send")?;
        let behind = self.random.within(1, 2);
        let to = from.wrapping_add(behind) % SITES;
        push_figure(&mut self.line, to.wrapping_add(1))?;
        if !self.random.one_in(10) {
            self.waiting.push((to, self.parcels))?;
        }
        self.parcels = self.parcels.wrapping_add(1);
        Ok(())
    }

    /// A site takes a parcel that was made for it.
    fn take(&mut self) -> Result<(), AllocError> {
        let Some((site, parcel)) = self.waiting.pop() else {
            return self.send();
        };
        self.line.extend_from_slice(b"take")?;
        push_figure(&mut self.line, site.wrapping_add(1))?;
        push_figure(&mut self.line, parcel)
    }

    /// The moment moves on.
    fn at(&mut self) -> Result<(), AllocError> {
        self.moment = self.moment.wrapping_add(self.random.within(1, 20));
        self.line.extend_from_slice(b"at")?;
        push_figure(&mut self.line, self.moment)
    }

    /// What a site does with a key.
    fn of_key(&mut self, word: &[u8]) -> Result<(), AllocError> {
        let _site = self.push_at_site(word)?;
        push_word(&mut self.line, self.tables.any(&mut self.random))
    }

    /// One line.
    fn push_line(&mut self) -> Result<(), AllocError> {
        match self.random.below(20_000) {
            0 => {
                let _site = self.push_at_site(b"versions")?;
            }
            1..100 => {
                let _site = self.push_at_site(b"remove")?;
            }
            100..300 => {
                let _site = self.push_at_site(b"tick")?;
            }
            300..700 => self.at()?,
            700..1_300 => self.of_key(b"evict")?,
            1_300..1_900 => self.of_key(b"reap")?,
            1_900..2_300 => self.send()?,
            2_300..2_700 => self.take()?,
            _ => self.client()?,
        }
        self.line.push(b'\n')?;
        Ok(())
    }

    /// Makes the next lines where all was read, unless there are enough.
    fn go_on(&mut self) -> Result<(), AllocError> {
        if self.at >= self.line.len() && self.left > 0 {
            self.line.clear();
            self.at = 0;
            for _line in 0..PIECE {
                self.push_line()?;
            }
            self.left = self.left.saturating_sub(self.line.len() as u64);
        }
        Ok(())
    }
}

impl Read for Script<'_> {
    fn read(&mut self, buf: &mut [u8]) -> io::Result<usize> {
        self.go_on()?;
        let left = match self.line.get(self.at..) {
            Some(left) => left,
            None => b"",
        };
        let count = left.len().min(buf.len());
        let (piece, _) = left.split_at(count);
        let (front, _) = buf.split_at_mut(count);
        front.copy_from_slice(piece);
        self.at = self.at.wrapping_add(count);
        Ok(count)
    }
}

/// A writer that takes in what is written.
#[derive(Drop)]
struct Summed {
    sum: Sum,
}

impl Write for Summed {
    fn write(&mut self, buf: &[u8]) -> io::Result<usize> {
        self.sum.add_bytes(buf);
        Ok(buf.len())
    }

    fn flush(&mut self) -> io::Result<()> {
        Ok(())
    }
}

/// The sum of all that it prints.
pub fn run(alloc: Global, hasher: RandomState, seed: u64, scale: u64) -> Result<u64> {
    let mut random = Random::new(seed);
    let (keys, left) = if scale == 0 {
        (50, 20_000)
    } else {
        (KEYS, BYTES.wrapping_mul(scale))
    };
    let tables = Tables::new(alloc, &mut random, keys, Length::Varied)?;
    let mut reader = Device::new(Script {
        tables: &tables,
        random,
        line: Vec::from_slice(alloc, b"sites 3 pages 15\nat 1000\n")?,
        at: 0,
        left,
        moment: 1_000,
        parcels: 0,
        waiting: Vec::new(alloc),
    });
    let mut writer = Device::new(Summed { sum: Sum::new() });
    match run_script(alloc, hasher, &mut reader, &mut writer) {
        Ok(()) => Ok(writer.into_inner().sum.total()),
        Err(_) => Err(anyhow!("the script does not end well")),
    }
}
