//! A list that grows without moving what is there.
ghost use Rattle.std.specs.Prelude.{◌≡◌, ◌≤◌, ◌<◌, ◌+◌, ◌++◌, ◌∷◌, [], IfOk, OnOk, OnErr, slice_get, option_copied, length, vec_capacity, List};
ghost use Rattle.geo_chunks.specs.Chunking.{most_in_chunk};

use std::alloc::{AllocError, Global};
use std::marker::Model;
use std::mem;

/// How many elements stand in a chunk.
const CHUNK: usize = 256;

/// How many full chunks there may be. That many are more than any memory has room for.
const MOST_CHUNKS: usize = 1 << 40;

/// A list that only grows at its end, in chunks of 256 elements. A chunk that is full stays where it is: to append takes the same time
/// however long the list is, and moves no element. Contracts see its elements, and for how many more there is room.
#[derive(Drop)]
pub struct Chunks<T> {
    full: Vec<Vec<T>>,
    last: Vec<T>,
    /// The next chunk, without elements.
    spare: Option<Vec<T>>,
}

impl<T> Model for Chunks<T> {
    ghost use Rattle.geo_chunks.specs.Chunking.{Chunked, chunked_in, IsChunked};

    ghost Value = { Chunked T };

    ghost view = { λ c. chunked_in c.full.items c.last.items c.spare };

    ghost invariant = { λ c. IsChunked c.full c.last c.spare };
}

/// An empty chunk.
fn empty_chunk<T>(alloc: Global) -> Result<Vec<T>, AllocError>
    ensures items { IfOk result (λ chunk. chunk.items ≡ []) }
    ensures room { IfOk result (λ chunk. most_in_chunk ≤ vec_capacity chunk) }
{
    Vec::with_capacity(alloc, CHUNK)
}

impl<T: Drop> Chunks<T> {
    /// No elements, with room for 256.
    pub fn new(alloc: Global) -> Result<Chunks<T>, AllocError>
        ensures { IfOk result (λ chunks. chunks.items ≡ []) }
    {
        Ok(Chunks {
            full: Vec::new(alloc),
            last: empty_chunk(alloc)?,
            spare: None,
        })
    }

    /// How many elements there are.
    pub fn len(&self) -> usize
        ensures { result ≡ length self.now.items }
    {
        self.full.len() * CHUNK + self.last.len()
    }

    /// The element at a place, from 0. None where there are fewer.
    pub fn get(&self, place: usize) -> Option<&T>
        ensures { option_copied result ≡ slice_get self.now.items place }
    {
        let chunk = place / CHUNK;
        if chunk < self.full.len() {
            return self.full[chunk].get(place % CHUNK);
        }
        self.last.get(place - self.full.len() * CHUNK)
    }

    /// Makes room for so many elements more, at most 256, in memory of the allocator that `new` was given.
    pub fn ready(&mut self, count: usize) -> Result<(), AllocError>
        requires { count ≤ most_in_chunk }
        ensures items { self.new.items ≡ self.old.items }
        ensures ok { OnOk result (count ≤ self.new.room) }
        ensures err { OnErr result (self.new.room ≡ self.old.room) }
    {
        if CHUNK - self.last.len() >= count || self.spare.is_some() {
            return Ok(());
        }
        if self.full.len() >= MOST_CHUNKS {
            return Err(AllocError);
        }
        self.full.reserve(1)?;
        let alloc = *self.full.allocator();
        self.spare = Some(empty_chunk(alloc)?);
        Ok(())
    }

    /// Appends an element, for which there is room.
    pub fn push(&mut self, element: T)
        requires { 1 ≤ self.old.room }
        ensures items { self.new.items ≡ self.old.items ++ element ∷ [] }
        ensures room { self.new.room + 1 ≡ self.old.room }
    {
        if self.last.len() < CHUNK {
            self.last.push_reserved(element);
            return;
        }
        let Some(mut next) = self.spare.take() else {
            unreachable!();
        };
        next.push_reserved(element);
        self.full.push_reserved(mem::replace(&mut self.last, next));
    }
}
