//! All slab classes, and the pages that none of them has yet.
ghost use Rattle.std.specs.Prelude.{◌≡◌, ◌≢◌, ◌≤◌, ◌<◌, ◌+◌, Some, None, IsSome, IfSome, IfNone, IfOk, true, false, length, vec_capacity};
ghost use Rattle.geo_slabs.specs.Chunks.{AllReserved, page_bytes};
ghost use Rattle.geo_slabs.specs.Storage.{class_count, chunk_bytes, chunks_a_page, held_in, with_held, so_long, IsClassOf, most_pages, first_class, first_classes};

use crate::class::{Class, PAGE_BYTES};
use std::alloc::{AllocError, Global};
use std::marker::Model;
use thiserror::Error;

/// How many slab classes there are. Class c has chunks of 64 * 2^c bytes.
pub const CLASSES: usize = 15;

/// The most pages, of a mebibyte each.
pub const MOST_PAGES: usize = 65_536;

/// Why there are no slabs.
#[derive(Clone, Copy, Debug, PartialEq, Eq, Error)]
pub enum SlabsError {
    /// Fewer than 15 pages: each class has one.
    #[error("fewer than 15 pages")]
    TooFewPages,
    /// More than 65,536 pages.
    #[error("more than 65536 pages")]
    TooManyPages,
    /// Memory was wanted and refused.
    #[error("memory was refused")]
    Memory,
}

/// A chunk that holds a value, and how many bytes that has. It can't be copied, so it is given back at most once. One that is dropped and
/// not given back stays taken.
#[derive(Drop)]
pub struct Chunk {
    class: u8,
    number: u32,
    length: u32,
}

/// How many bytes a chunk of a class has room for.
fn chunk_size(class: usize) -> usize
    requires { class < class_count }
    ensures { result ≡ chunk_bytes class }
{
    64 * 2usize.pow(class as u32)
}

/// How many chunks of a class a page has.
fn chunks_in_page(class: usize) -> usize
    requires { class < class_count }
    ensures { result ≡ chunks_a_page class }
{
    2usize.pow((14 - class) as u32)
}

/// The class that keeps values of so many bytes, at most 1,048,576: the one with the smallest chunks that have room for them (memcached's
/// slabs_clsid).
pub fn class_of(length: usize) -> usize
    requires { length ≤ 1048576 }
    ensures { IsClassOf length result }
{
    let mut class = 0;
    while class < CLASSES - 1 && chunk_size(class) < length {
        class += 1;
    }
    class
}

/// So many spare pages, each with its memory.
fn reserved(alloc: Global, pages: usize) -> Result<Vec<Vec<u8>>, AllocError>
    ensures many { IfOk result (λ all. length all.items ≡ pages) }
    ensures reserved { IfOk result (λ all. AllReserved all.items) }
{
    let mut all = Vec::with_capacity(alloc, pages)?;
    for _ in 0..pages {
        all.push(Vec::with_capacity(alloc, PAGE_BYTES)?)?;
    }
    Ok(all)
}

/// A class with one page, and with room for all.
fn opened(alloc: Global, class: usize, pages: usize, page: Vec<u8>) -> Result<Class, AllocError>
    requires class { class < class_count }
    requires pages { (1 ≤ pages) × (pages ≤ most_pages) }
    requires page { page_bytes ≤ vec_capacity page }
    ensures { IfOk result (λ made. made ≡ first_class pages class) }
{
    let mut made = Class::new(alloc, chunk_size(class), chunks_in_page(class), pages)?;
    made.add_page(page);
    Ok(made)
}

/// All classes, each with one of these pages, of which there are enough.
fn all_opened(
    alloc: Global,
    pages: usize,
    spare: &mut Vec<Vec<u8>>,
) -> Result<Vec<Class>, AllocError>
    requires pages { (class_count ≤ pages) × (pages ≤ most_pages) }
    requires many { length spare.old.items ≡ pages }
    requires reserved { AllReserved spare.old.items }
    ensures classes { IfOk result (λ all. all.items ≡ first_classes pages class_count) }
    ensures left { IfOk result (λ _. length spare.new.items + class_count ≡ pages) }
    ensures reserved { AllReserved spare.new.items }
{
    let mut all = Vec::with_capacity(alloc, CLASSES)?;
    for class in 0..CLASSES {
        let Some(page) = spare.pop() else {
            unreachable!();
        };
        all.push(opened(alloc, class, pages, page)?)?;
    }
    Ok(all)
}

/// The chunks of all classes. All memory is taken when they are made.
#[derive(Drop)]
pub struct Slabs {
    classes: Vec<Class>,
    spare: Vec<Vec<u8>>,
}

impl Model for Slabs {
    ghost use Rattle.std.specs.Prelude.{length};
    ghost use Rattle.geo_slabs.specs.Storage.{Storage, IsStorage};
    ghost use Rattle.geo_slabs.specs.Chunks.{AllReserved};

    ghost Value = { Storage };

    ghost view = { λ s. record { classes = s.classes.items; spare = length s.spare.items } };

    ghost invariant = { λ s. IsStorage s.classes.items (length s.spare.items) × AllReserved s.spare.items };
}

impl Slabs {
    ghost use Rattle.geo_slabs.specs.Storage.{PutDoes, IsPut, IsFull, AllHeld, chunks_in, with_page, OpenDoes, IsUnused};
    ghost use Rattle.geo_slabs.specs.declared.slabs.Chunk.{Chunk};

    /// Slabs of so many pages, of which each class has one at first. TooFewPages below 15, TooManyPages above 65,536. It takes the
    /// memory of all pages; nothing that is done with slabs later takes any.
    pub fn new(alloc: Global, pages: usize) -> Result<Slabs, SlabsError>
        ensures opened { OpenDoes pages result }
        ensures unused { IfOk result IsUnused }
    {
        if pages < CLASSES {
            return Err(SlabsError::TooFewPages);
        }
        if pages > MOST_PAGES {
            return Err(SlabsError::TooManyPages);
        }
        let Ok(mut spare) = reserved(alloc, pages) else {
            return Err(SlabsError::Memory);
        };
        let Ok(classes) = all_opened(alloc, pages, &mut spare) else {
            return Err(SlabsError::Memory);
        };
        Ok(Slabs { classes, spare })
    }

    /// Puts bytes into a free chunk of a class. None exactly where none of its chunks is free.
    fn put_free(&mut self, class: usize, bytes: &[u8]) -> Option<Chunk>
        requires class { class < class_count }
        requires fits { length bytes.now ≤ chunk_bytes class }
        ensures some { IfSome result (λ chunk. IsPut self.old self.new class bytes.now chunk) }
        ensures none { IfNone result (AllHeld (chunks_in self.old class) × (self.new ≡ self.old)) }
    {
        let number = self.classes[class].put(bytes)?;
        Some(Chunk {
            class: class as u8,
            number,
            length: bytes.len() as u32,
        })
    }

    /// Gives a class a spare page. False exactly where no page is spare.
    fn add_page(&mut self, class: usize) -> bool
        requires { class < class_count }
        ensures added { result ≡ true → (0 < self.old.spare) × (self.new ≡ with_page self.old class) }
        ensures free { result ≡ true → AllHeld (chunks_in self.new class) → ⊥ }
        ensures none { result ≡ false → (self.old.spare ≡ 0) × (self.new ≡ self.old) }
    {
        let Some(page) = self.spare.pop() else {
            return false;
        };
        self.classes[class].add_page(page);
        true
    }

    /// Puts bytes into a free chunk of a class, which takes a spare page where it has none.
    fn put_paged(&mut self, class: usize, bytes: &[u8]) -> Option<Chunk>
        requires class { class < class_count }
        requires fits { length bytes.now ≤ chunk_bytes class }
        ensures { PutDoes self.old self.new class bytes.now result }
    {
        if let Some(chunk) = self.put_free(class, bytes) {
            return Some(chunk);
        }
        if !self.add_page(class) {
            return None;
        }
        self.put_free(class, bytes)
    }

    /// Puts bytes into a chunk of a class, which takes a spare page where none of its chunks is free and keeps it from then on. None
    /// exactly where no page is spare either. A put takes the time of a chunk's bytes at most.
    pub fn put(&mut self, class: usize, bytes: &[u8]) -> Option<Chunk>
        requires class { class < class_count }
        requires fits { length bytes.now ≤ chunk_bytes class }
        ensures put { PutDoes self.old self.new class bytes.now result }
        ensures others { (other : Chunk) → IfSome result (λ chunk. other ≢ chunk) → held_in self.new other ≡ held_in self.old other }
    {
        self.put_paged(class, bytes)
    }

    /// Whether a class is full: a put into it would give None.
    pub fn is_full(&self, class: usize) -> bool
        requires { class < class_count }
        ensures full { result ≡ true → IsFull self.now class }
        ensures room { result ≡ false → IsFull self.now class → ⊥ }
    {
        self.spare.is_empty() && self.classes[class].is_full()
    }

    /// The bytes that a chunk holds.
    pub fn bytes(&self, chunk: &Chunk) -> &[u8]
        requires { IsSome (held_in self.now chunk.now) }
        ensures { held_in self.now chunk.now ≡ Some result.now }
    {
        self.classes[chunk.class as usize].bytes(chunk.number, chunk.length)
    }

    /// Puts other bytes into a chunk that holds some, in place of them.
    pub fn replace(&mut self, chunk: &mut Chunk, bytes: &[u8])
        requires held { IsSome (held_in self.old chunk.old) }
        requires fits { length bytes.now ≤ chunk_bytes chunk.old.class }
        ensures chunk { chunk.new ≡ so_long chunk.old bytes.now }
        ensures holds { self.new ≡ with_held self.old chunk.old.class chunk.old.number (Some bytes.now) }
        ensures gives { held_in self.new chunk.new ≡ Some bytes.now }
        ensures others { (other : Chunk) → other ≢ chunk.old → other ≢ chunk.new → held_in self.new other ≡ held_in self.old other }
    {
        self.replace_in(chunk, bytes);
    }

    /// Frees a chunk.
    pub fn free(&mut self, chunk: Chunk)
        requires { IsSome (held_in self.old chunk) }
        ensures freed { self.new ≡ with_held self.old chunk.class chunk.number None }
        ensures others { (other : Chunk) → other ≢ chunk → held_in self.new other ≡ held_in self.old other }
    {
        self.free_in(&chunk);
    }

    /// Puts other bytes into its class's chunk.
    fn replace_in(&mut self, chunk: &mut Chunk, bytes: &[u8])
        requires held { IsSome (held_in self.old chunk.old) }
        requires fits { length bytes.now ≤ chunk_bytes chunk.old.class }
        ensures chunk { chunk.new ≡ so_long chunk.old bytes.now }
        ensures holds { self.new ≡ with_held self.old chunk.old.class chunk.old.number (Some bytes.now) }
    {
        let class = &mut self.classes[chunk.class as usize];
        chunk.length = class.replace(chunk.number, bytes);
    }

    /// Frees its class's chunk.
    fn free_in(&mut self, chunk: &Chunk)
        requires { IsSome (held_in self.old chunk.now) }
        ensures { self.new ≡ with_held self.old chunk.now.class chunk.now.number None }
    {
        self.classes[chunk.class as usize].free(chunk.number);
    }
}
