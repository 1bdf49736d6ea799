//! The chunks of one slab class.
ghost use Rattle.std.specs.Prelude.{◌≡◌, ℕ, ◌+◌, ◌*◌, ◌<◌, ◌≤◌, true, false, [], length, Some, None, IfSome, IfNone, IfOk, slice_get, slice_set, slice_index_or, IsSome, IsSomeAnd, take, drop, ◌^◌, ◌++◌, ◌-◌, replicate, vec_capacity};
ghost use borrow.Rule.Slice.PartMut.{put_mid};
ghost use Rattle.std.specs.Int.{w32, from_be_bytes};
ghost use Rattle.geo_slabs.specs.Chunks.{ClassState, AllReserved, bytes_of, grown, page_bytes, link, HasFree, HasLink, HoldsSoMany, TakeDoes};

use crate::lengths::Lengths;
use std::alloc::{AllocError, Global};
use std::marker::Model;

/// The bytes of a page.
pub const PAGE_BYTES: usize = 1 << 20;

/// Writes bytes over those of a page, from a place on. The page first grows up to an end, in the memory that it has.
fn write_at(page: &mut Vec<u8>, from: usize, end: usize, bytes: &[u8])
    requires within { from + length bytes.now ≤ end }
    requires room { end ≤ vec_capacity page.old }
    ensures bytes { page.new.items ≡ put_mid from (length bytes.now) (grown end page.old.items) bytes.now }
    ensures capacity { vec_capacity page.old ≤ vec_capacity page.new }
{
    if page.len() < end {
        let _grown = page.resize(end, 0);
    }
    page[from..from + bytes.len()].copy_from_slice(bytes);
}

/// The same in one page of several.
fn write_in(pages: &mut Vec<Vec<u8>>, at: usize, from: usize, end: usize, bytes: &[u8])
    requires at { at < length pages.old.items }
    requires within { from + length bytes.now ≤ end }
    requires end { end ≤ page_bytes }
    requires reserved { AllReserved pages.old.items }
    ensures bytes { bytes_of pages.new.items ≡ slice_set (bytes_of pages.old.items) at
        (put_mid from (length bytes.now) (grown end (slice_index_or (bytes_of pages.old.items) at [])) bytes.now) }
    ensures reserved { AllReserved pages.new.items }
    ensures capacity { vec_capacity pages.new ≡ vec_capacity pages.old }
    ensures len { length pages.new.items ≡ length pages.old.items }
{
    write_at(&mut pages[at], from, end, bytes);
}

/// Some bytes of one page.
fn read_in(pages: &Vec<Vec<u8>>, at: usize, from: usize, len: usize) -> &[u8]
    requires at { at < length pages.now.items }
    requires from { from + len ≤ length (slice_index_or (bytes_of pages.now.items) at []) }
    requires size { from + len < 2 ^ 64 }
    ensures { result.now ≡ take len (drop from (slice_index_or (bytes_of pages.now.items) at [])) }
{
    &pages[at][from..from + len]
}

/// The number in four bytes of one page.
fn link_in(pages: &Vec<Vec<u8>>, at: usize, from: usize) -> u32
    requires at { at < length pages.now.items }
    requires from { from + 4 ≤ length (slice_index_or (bytes_of pages.now.items) at []) }
    requires size { from + 4 < 2 ^ 64 }
    ensures { result ≡ from_be_bytes w32 (take 4 (drop from (slice_index_or (bytes_of pages.now.items) at []))) }
{
    let Some((field, _)) = read_in(pages, at, from, 4).split_first_chunk::<4>() else {
        unreachable!();
    };
    u32::from_be_bytes(*field)
}

/// Which chunks are free: those from `used` on, which never were used, and `freed` that were. Of these `last` was freed last; in its first
/// four bytes stands the one that was freed before it, and so on.
#[derive(Clone, Copy)]
pub(crate) struct FreeChunks {
    used: u32,
    freed: u32,
    last: u32,
}

/// Takes a free chunk of those that these pages have: the one that was freed last, else the next that was never used. None where there is
/// no other.
fn take_number(
    free: FreeChunks,
    pages: &Vec<Vec<u8>>,
    chunk_bytes: usize,
    per_page: usize,
) -> Option<(u32, FreeChunks)>
    requires whole { per_page * chunk_bytes ≡ 1048576 }
    requires few { per_page * length pages.now.items < 2 ^ 32 }
    requires linked { 0 < free.freed → HasLink chunk_bytes per_page (bytes_of pages.now.items) free.last }
    ensures { TakeDoes (link chunk_bytes per_page (bytes_of pages.now.items)) (per_page * length pages.now.items) free result }
{
    if free.freed > 0 {
        let index = free.last as usize;
        let last = link_in(pages, index / per_page, index % per_page * chunk_bytes);
        let rest = FreeChunks {
            used: free.used,
            freed: free.freed - 1,
            last,
        };
        return Some((free.last, rest));
    }
    if free.used as usize >= per_page * pages.len() {
        return None;
    }
    let rest = FreeChunks {
        used: free.used + 1,
        freed: 0,
        last: free.last,
    };
    Some((free.used, rest))
}

/// Pages cut into chunks of one size. A page has its memory at once, and grows up to the last chunk of it that was used. What is known of a
/// chunk that holds no value stands in the chunk, and the length of a value with whoever has its chunk.
#[derive(Drop)]
pub(crate) struct Class {
    chunk_bytes: usize,
    per_page: usize,
    most_pages: usize,
    pages: Vec<Vec<u8>>,
    free: FreeChunks,
    lengths: Lengths,
}

impl Model for Class {
    ghost use Rattle.std.specs.Prelude.{◌-◌, ◌*◌, length};
    ghost use Rattle.std.specs.Vec.{vec_capacity};
    ghost use Rattle.geo_slabs.specs.Chunks.{ClassState, IsClass, bytes_of, read, chunks_from, with_fresh};

    ghost Value = { ClassState };

    ghost view = { λ s. record {
      chunks = chunks_from (read s.chunk_bytes s.per_page (bytes_of s.pages.items)) 0
          (with_fresh s.lengths.each (s.per_page * length s.pages.items));
      chunk_bytes = s.chunk_bytes;
      per_page = s.per_page;
      room = s.most_pages - length s.pages.items;
    } };

    ghost invariant = { λ s. IsClass s.chunk_bytes s.per_page s.most_pages s.pages.items s.lengths.each s.free (vec_capacity s.pages) };
}

impl Class {
    ghost use Rattle.geo_slabs.specs.Chunks.{ClassState, page_bytes};

    /// A class without pages that has room for so many.
    pub(crate) fn new(
        alloc: Global,
        chunk_bytes: usize,
        per_page: usize,
        most_pages: usize,
    ) -> Result<Class, AllocError>
        requires whole { per_page * chunk_bytes ≡ 1048576 }
        requires least { 4 ≤ chunk_bytes }
        requires numbered { per_page * most_pages ≤ 1073741824 }
        ensures { IfOk result (λ s. s ≡ record { chunks = []; chunk_bytes = chunk_bytes; per_page = per_page; room = most_pages }) }
    {
        let pages = Vec::with_capacity(alloc, most_pages)?;
        let free = FreeChunks {
            used: 0,
            freed: 0,
            last: 0,
        };
        Ok(Class {
            chunk_bytes,
            per_page,
            most_pages,
            pages,
            free,
            lengths: Lengths::new(),
        })
    }

    /// Takes a page, for which there is room.
    pub(crate) fn add_page(&mut self, page: Vec<u8>)
        requires reserved { page_bytes ≤ vec_capacity page }
        requires room { 0 < self.old.room }
        ensures { self.new ≡ record self.old { chunks = self.old.chunks ++ replicate self.old.per_page None; room = self.old.room - 1 } }
    {
        let _pushed = self.pages.push(page);
    }

    /// Puts bytes into a free chunk, and gives its number. None exactly where each chunk holds a value.
    pub(crate) fn put(&mut self, bytes: &[u8]) -> Option<u32>
        requires { length bytes.now ≤ self.old.chunk_bytes }
        ensures was_free { IfSome result (λ c. slice_get self.old.chunks c ≡ Some None) }
        ensures holds { IfSome result (λ c. self.new ≡ record self.old { chunks = slice_set self.old.chunks c (Some bytes.now) }) }
        ensures full { IfNone result ((k : ℕ) → slice_get self.old.chunks k ≡ Some None → ⊥) }
        ensures unchanged { IfNone result (self.new ≡ self.old) }
    {
        let (number, free) = take_number(self.free, &self.pages, self.chunk_bytes, self.per_page)?;
        let index = number as usize;
        let page = index / self.per_page;
        let from = index % self.per_page * self.chunk_bytes;
        write_in(&mut self.pages, page, from, from + self.chunk_bytes, bytes);
        self.free = free;
        self.lengths.note(&[number, bytes.len() as u32]);
        Some(number)
    }

    /// Whether each chunk holds a value.
    pub(crate) fn is_full(&self) -> bool
        ensures full { result ≡ true → (k : ℕ) → slice_get self.now.chunks k ≡ Some None → ⊥ }
        ensures free { result ≡ false → HasFree self.now.chunks }
    {
        take_number(self.free, &self.pages, self.chunk_bytes, self.per_page).is_none()
    }

    /// The bytes that a chunk holds, which are so many.
    pub(crate) fn bytes(&self, number: u32, length: u32) -> &[u8]
        requires { HoldsSoMany length (slice_get self.now.chunks number) }
        ensures { slice_get self.now.chunks number ≡ Some (Some result.now) }
    {
        let index = number as usize;
        let from = index % self.per_page * self.chunk_bytes;
        read_in(&self.pages, index / self.per_page, from, length as usize)
    }

    /// Puts other bytes into a chunk that holds some, and tells how many.
    pub(crate) fn replace(&mut self, number: u32, bytes: &[u8]) -> u32
        requires held { IsSomeAnd (slice_get self.old.chunks number) IsSome }
        requires fits { length bytes.now ≤ self.old.chunk_bytes }
        ensures holds { self.new ≡ record self.old { chunks = slice_set self.old.chunks number (Some bytes.now) } }
        ensures many { result ≡ length bytes.now }
    {
        let taken = number as usize;
        let from = taken % self.per_page * self.chunk_bytes;
        let end = from + self.chunk_bytes;
        write_in(&mut self.pages, taken / self.per_page, from, end, bytes);
        let length = bytes.len() as u32;
        self.lengths.note(&[number, length]);
        length
    }

    /// Frees a chunk.
    pub(crate) fn free(&mut self, number: u32)
        requires { IsSomeAnd (slice_get self.old.chunks number) IsSome }
        ensures { self.new ≡ record self.old { chunks = slice_set self.old.chunks number None } }
    {
        let freed = number as usize;
        let from = freed % self.per_page * self.chunk_bytes;
        let end = from + self.chunk_bytes;
        let before = self.free.last.to_be_bytes();
        write_in(&mut self.pages, freed / self.per_page, from, end, &before);
        self.free = FreeChunks {
            used: self.free.used,
            freed: self.free.freed + 1,
            last: number,
        };
        self.lengths.note(&[number]);
    }
}
