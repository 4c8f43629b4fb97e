//! Pages of 4,096 bytes, found by number. Each byte has an owner, the segment that contains it.
ghost use Rattle.std.specs.Prelude.{◌≡◌, ℕ, ◌+◌, ◌-◌, ◌*◌, ◌/◌, ◌%◌, ◌<◌, ◌≤◌, ◌∷◌, [], length, take, drop, ◌++◌, Some, None, IfOk, OnOk, cond, ◌==◌, ◌&&◌, nat_le, nat_lt, slice_index_or, slice_index, replicate};
ghost use Rattle.byteorder.specs.Endian.{little_number, little_bytes};
ghost use Rattle.eh_bus.specs.Segment.{AreBytes};
ghost use Rattle.eh_word.specs.Bytes.{zeros};
ghost use Rattle.mem_buses.specs.Pages.{Pages as Lists, ArePages, AreUsed, Ready, FillsBytes, with_page, no_pages, no_places, cell_of, byte_of, owner_of};

use crate::segment::{put8, put16, put32};
use byteorder::{ByteOrder, LittleEndian};
use eh_bus::map::{PAGE_COUNT, PAGE_SIZE, STACK_END};
use eh_word::bytes::push_zeros;
use std::alloc::{AllocError, Global};
use std::marker::Model;

/// The pages that contain a byte of some segment.
#[derive(Drop)]
pub(crate) struct Pages {
    places: Vec<Option<u32>>,
    firsts: Vec<u32>,
    bytes: Vec<u8>,
    owners: Vec<Option<u32>>,
}

impl Model for Pages {
    ghost use Rattle.mem_buses.specs.Pages.{Pages as Lists};

    ghost Value = { Lists };

    ghost view = { λ p. record { places = p.places.items; firsts = p.firsts.items; bytes = p.bytes.items; owners = p.owners.items } };
}

impl Pages {
    /// No pages, with room for the table of page numbers.
    pub(crate) fn new(alloc: Global) -> Result<Self, AllocError>
        ensures { IfOk result (λ p. p ≡ no_pages) }
    {
        let places = no_places(alloc, PAGE_COUNT as usize)?;
        Ok(Pages {
            places,
            firsts: Vec::new(alloc),
            bytes: Vec::new(alloc),
            owners: Vec::new(alloc),
        })
    }

    /// The number of pages.
    pub(crate) fn count(&self) -> usize
        ensures { result ≡ length self.now.firsts }
    {
        self.firsts.len()
    }

    /// The index of a page among all pages, by its number.
    pub(crate) fn place(&self, number: usize) -> Option<u32>
        ensures { result ≡ slice_index_or self.now.places number None }
    {
        if number < self.places.len() {
            self.places[number]
        } else {
            None
        }
    }

    /// The index of the byte at `a` among the bytes of all pages (its cell); None if its page isn't there.
    pub(crate) fn cell(&self, a: u32) -> Option<usize>
        ensures { result ≡ cell_of self.now a }
    {
        match self.place((a / PAGE_SIZE) as usize) {
            Some(place) => Some(place as usize * PAGE_SIZE as usize + (a % PAGE_SIZE) as usize),
            None => None,
        }
    }

    /// The segment that contains the byte at a cell.
    pub(crate) fn owner(&self, at: usize) -> Option<u32>
        requires { at < length self.now.owners }
        ensures { result ≡ slice_index_or self.now.owners at None }
    {
        self.owners[at]
    }

    /// The bytes of a page, by its index.
    pub(crate) fn page(&self, place: u32) -> &[u8]
        requires { place * PAGE_SIZE + PAGE_SIZE ≤ length self.now.bytes }
        ensures sized { length result.now ≡ PAGE_SIZE }
        ensures byte { (k : ℕ) → k < PAGE_SIZE → slice_index result.now k ≡ slice_index self.now.bytes (place * PAGE_SIZE + k) }
    {
        let start = place as usize * PAGE_SIZE as usize;
        &self.bytes[start..start + PAGE_SIZE as usize]
    }

    /// Loads the byte at a cell.
    pub(crate) fn load8(&self, at: usize) -> u8
        requires { at + 1 ≤ length self.now.bytes }
        ensures { result ≡ little_number 1 (drop at self.now.bytes) }
    {
        self.bytes[at]
    }

    /// Loads the halfword at a cell.
    pub(crate) fn load16(&self, at: usize) -> u16
        requires { at + 2 ≤ length self.now.bytes }
        ensures { result ≡ little_number 2 (drop at self.now.bytes) }
    {
        LittleEndian::read_u16(&self.bytes[at..])
    }

    /// Loads the word at a cell.
    pub(crate) fn load32(&self, at: usize) -> u32
        requires { at + 4 ≤ length self.now.bytes }
        ensures { result ≡ little_number 4 (drop at self.now.bytes) }
    {
        LittleEndian::read_u32(&self.bytes[at..])
    }

    /// Stores a byte at a cell.
    pub(crate) fn store8(&mut self, at: usize, v: u8)
        requires { at + 1 ≤ length self.old.bytes }
        ensures { self.new ≡ record self.old { bytes = take at self.old.bytes ++ (little_bytes 1 v ++ drop (at + 1) self.old.bytes) } }
    {
        put8(&mut self.bytes, at, v);
    }

    /// Stores a halfword at a cell.
    pub(crate) fn store16(&mut self, at: usize, v: u16)
        requires { at + 2 ≤ length self.old.bytes }
        ensures { self.new ≡ record self.old { bytes = take at self.old.bytes ++ (little_bytes 2 v ++ drop (at + 2) self.old.bytes) } }
    {
        put16(&mut self.bytes, at, v);
    }

    /// Stores a word at a cell.
    pub(crate) fn store32(&mut self, at: usize, v: u32)
        requires { at + 4 ≤ length self.old.bytes }
        ensures { self.new ≡ record self.old { bytes = take at self.old.bytes ++ (little_bytes 4 v ++ drop (at + 4) self.old.bytes) } }
    {
        put32(&mut self.bytes, at, v);
    }

    /// Adds the page of `a`, all zeros and without owners, and gives the cell of `a`. The page must not be there yet.
    fn add_page(&mut self, a: u32) -> Result<usize, AllocError>
        requires { a / PAGE_SIZE < length self.old.places }
        ensures page { OnOk result (self.new ≡ with_page self.old a) }
        ensures cell { IfOk result (λ at. at ≡ length self.old.firsts * PAGE_SIZE + a % PAGE_SIZE) }
    {
        let Ok(place) = u32::try_from(self.firsts.len()) else {
            return Err(AllocError);
        };
        self.firsts.push(a)?;
        push_zeros(&mut self.bytes, PAGE_SIZE as usize)?;
        push_unowned(&mut self.owners, PAGE_SIZE as usize)?;
        self.places[(a / PAGE_SIZE) as usize] = Some(place);
        Ok(place as usize * PAGE_SIZE as usize + (a % PAGE_SIZE) as usize)
    }

    /// The cell of `a`; its page is added if it isn't there.
    fn cell_for(&mut self, a: u32) -> Result<usize, AllocError>
        requires room { a / PAGE_SIZE < length self.old.places }
        requires sound { ArePages self.old }
        ensures { IfOk result (λ at. Ready self.old self.new a at) }
    {
        match self.cell(a) {
            Some(at) => Ok(at),
            None => self.add_page(a),
        }
    }

    /// Fills the bytes from a cell on with the first `size` of these values, then zeros, and sets their owner.
    fn set_run(&mut self, at: usize, size: usize, given: &[u8], owner: u32)
        requires bytes { at + size ≤ length self.old.bytes }
        requires owners { at + size ≤ length self.old.owners }
        ensures { self.new ≡ record self.old { bytes = take at self.old.bytes ++ ((take size given.now ++ zeros (size - length given.now)) ++ drop (at + size) self.old.bytes); owners = take at self.old.owners ++ (replicate size (Some owner) ++ drop (at + size) self.old.owners) } }
    {
        put_given(&mut self.bytes, at, size, given);
        put_owner(&mut self.owners, at, size, owner);
    }

    /// Fills the bytes from `a` on, which lie in one page, with the first `size` of these values, then zeros, and sets
    /// their owner.
    fn claim_run(&mut self, a: u32, size: u32, given: &[u8], owner: u32) -> Result<(), AllocError>
        requires some { 0 < size }
        requires one_page { a % PAGE_SIZE + size ≤ PAGE_SIZE }
        requires room { a / PAGE_SIZE < length self.old.places }
        requires sound { ArePages self.old }
        requires used { AreUsed self.old }
        ensures { OnOk result (FillsBytes self.old self.new a size given.now owner) }
    {
        let at = self.cell_for(a)?;
        self.set_run(at, size as usize, given, owner);
        Ok(())
    }

    /// Fills the bytes from `start` on with these values, then zeros, and sets their owner.
    pub(crate) fn fill(
        &mut self,
        start: u32,
        size: u32,
        given: &[u8],
        owner: u32,
    ) -> Result<(), AllocError>
        requires ends { start + size ≤ STACK_END }
        requires room { length self.old.places ≡ PAGE_COUNT }
        requires sound { ArePages self.old }
        requires used { AreUsed self.old }
        ensures filled { OnOk result (FillsBytes self.old self.new start size given.now owner) }
        ensures bytes { AreBytes given.now }
    {
        let mut done = 0;
        'pages: while done < size {
            let run = left_of_page(start, done).min(size - done);
            let rest = &given[(done as usize).min(given.len())..];
            self.claim_run(start + done, run, rest, owner)?;
            done += run;
        }
        Ok(())
    }
}

/// How many bytes are left in the page of the address `k` bytes after `start`.
pub(crate) fn left_of_page(start: u32, k: u32) -> u32
    ensures { result ≡ PAGE_SIZE - (start + k) % PAGE_SIZE }
{
    PAGE_SIZE - (start % PAGE_SIZE + k % PAGE_SIZE) % PAGE_SIZE
}

/// Writes the first `size` of these bytes at an index, padded by zeros.
#[tactic(auto, unfolding(eh_word::specs::Bytes::zeros))]
fn put_given(bytes: &mut [u8], at: usize, size: usize, given: &[u8])
    requires { at + size ≤ length bytes.old }
    ensures { bytes.new ≡ take at bytes.old ++ ((take size given.now ++ zeros (size - length given.now)) ++ drop (at + size) bytes.old) }
{
    let count = size.min(given.len());
    bytes[at..at + count].copy_from_slice(&given[..count]);
    bytes[at + count..at + size].fill(0);
}

/// Sets the owner of a run of bytes.
fn put_owner(owners: &mut [Option<u32>], at: usize, size: usize, owner: u32)
    requires { at + size ≤ length owners.old }
    ensures { owners.new ≡ take at owners.old ++ (replicate size (Some owner) ++ drop (at + size) owners.old) }
{
    owners[at..at + size].fill(Some(owner));
}

/// Appends bytes without an owner. If memory runs out, nothing is appended.
#[tactic(auto, unfolding(crate::specs::Pages::no_places))]
fn push_unowned(owners: &mut Vec<Option<u32>>, count: usize) -> Result<(), AllocError>
    ensures { OnOk result (owners.new.items ≡ owners.old.items ++ no_places count) }
{
    match owners.len().checked_add(count) {
        Some(len) => owners.resize(len, None),
        None => Err(AllocError),
    }
}

/// A table of `n` empty entries.
#[tactic(auto, unfolding(crate::specs::Pages::no_places))]
fn no_places(alloc: Global, n: usize) -> Result<Vec<Option<u32>>, AllocError>
    ensures { IfOk result (λ places. places.items ≡ no_places n) }
{
    vec![in alloc; None; n]
}
