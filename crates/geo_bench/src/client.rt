//! Connections whose clients say the next when they are read.
use crate::random::Random;
use crate::sum::Sum;
use crate::tables::Tables;
use geo_crowd::{Accepted, Given, Stream};
use std::alloc::{AllocError, Global};

/// A read brings so many bytes at most.
const PIECE: u64 = 16_384;

/// What a client says.
pub trait Talk {
    /// Writes what it says next, once so many bytes came in answer to what it said last; nothing where it has said all.
    fn say(
        &mut self,
        tables: &Tables,
        random: &mut Random,
        answered: u64,
        out: &mut Vec<u8>,
    ) -> Result<(), AllocError>;
}

/// A client's connection.
#[derive(Drop)]
pub struct Client<'a, T> {
    tables: &'a Tables,
    random: Random,
    talk: T,
    said: Vec<u8>,
    at: usize,
    // Reads bring 1 to 7 bytes.
    in_crumbs: bool,
    answered: u64,
    sum: Sum,
}

impl<'a, T> Client<'a, T> {
    pub fn new(alloc: Global, tables: &'a Tables, random: Random, talk: T) -> Client<'a, T> {
        Client {
            tables,
            random,
            talk,
            said: Vec::new(alloc),
            at: 0,
            in_crumbs: false,
            answered: 0,
            sum: Sum::new(),
        }
    }

    /// The same, of which reads bring 1 to 7 bytes.
    pub fn in_crumbs(self) -> Client<'a, T> {
        let mut client = self;
        client.in_crumbs = true;
        client
    }

    /// A sum of all that was written to it.
    pub fn sum(&self) -> u64 {
        self.sum.total()
    }

    /// How many bytes a read brings at most.
    fn most(&mut self) -> u64 {
        if self.in_crumbs {
            self.random.within(1, 7)
        } else {
            PIECE
        }
    }
}

impl<T: Talk> Client<'_, T> {
    /// Has the client say the next where all was read.
    fn go_on(&mut self) -> Result<(), AllocError> {
        if self.at >= self.said.len() {
            self.said.clear();
            self.at = 0;
            let answered = self.answered;
            self.answered = 0;
            self.talk
                .say(self.tables, &mut self.random, answered, &mut self.said)?;
        }
        Ok(())
    }
}

impl<T: Talk> Stream for Client<'_, T> {
    ghost use Rattle.std.specs.Prelude.{None};

    ghost remaining = { λ _. None };

    ghost contents = { λ _. None };

    fn read(&mut self, buffer: &mut [u8]) -> Given {
        if self.go_on().is_err() {
            return Given::Failed;
        }
        let most = self.most() as usize;
        let left = match self.said.get(self.at..) {
            Some(left) => left,
            None => b"",
        };
        let count = most.min(left.len()).min(buffer.len());
        if count == 0 {
            return Given::End;
        }
        let (piece, _) = left.split_at(count);
        let (front, _) = buffer.split_at_mut(count);
        front.copy_from_slice(piece);
        self.at = self.at.wrapping_add(count);
        Given::Bytes(count)
    }

    fn write(&mut self, bytes: &[u8]) -> Accepted {
        if bytes.is_empty() {
            return Accepted::Later;
        }
        self.answered = self.answered.wrapping_add(bytes.len() as u64);
        self.sum.add_bytes(bytes);
        Accepted::Bytes(bytes.len())
    }
}
