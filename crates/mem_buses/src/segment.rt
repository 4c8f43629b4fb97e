//! A segment of memory: bytes at an address with access rights, and the little-endian numbers in them.
ghost use Rattle.std.specs.Prelude.{◌≡◌, ℕ, ◌+◌, ◌-◌, ◌*◌, ◌%◌, ◌^◌, ◌<◌, ◌≤◌, ◌∷◌, [], length, take, drop, ◌++◌, IsTrue, IfOk};
ghost use Rattle.byteorder.specs.Endian.{little_bytes};
ghost use Rattle.eh_bus.specs.Segment.{AreBytes, holds, number_at, with_number_at};
ghost use Rattle.eh_bus.specs.Built.{segment_of, zeros_at};
ghost use Rattle.eh_word.specs.Bytes.{zeros};

use byteorder::{ByteOrder, LittleEndian};
use eh_bus::segment::SegmentSpec;
use std::alloc::{AllocError, Global};
use std::marker::Model;

/// Bytes at an address, with access rights.
#[derive(Drop)]
pub(crate) struct BusSegment {
    start: u32,
    bytes: Vec<u8>,
    write: bool,
    exec: bool,
}

impl Model for BusSegment {
    ghost use Rattle.eh_bus.specs.Segment.{Segment as Bytes};

    ghost Value = { Bytes };

    ghost view = { λ s. record { start = s.start; bytes = s.bytes.items; write = s.write; exec = s.exec } };
}

impl BusSegment {
    /// A segment of these bytes.
    pub(crate) fn new(start: u32, bytes: Vec<u8>, write: bool, exec: bool) -> Self
        ensures { result ≡ record { start = start; bytes = bytes.items; write = write; exec = exec } }
    {
        BusSegment {
            start,
            bytes,
            write,
            exec,
        }
    }

    /// The segment of a description.
    pub(crate) fn of(alloc: Global, spec: &SegmentSpec) -> Result<Self, AllocError>
        requires { length spec.now.bytes.now ≤ spec.now.size }
        ensures segment { IfOk result (λ s. s ≡ segment_of spec.now) }
        ensures bytes { AreBytes spec.now.bytes.now }
    {
        let bytes = zero_padded(alloc, spec.bytes, spec.size as usize)?;
        Ok(BusSegment::new(spec.start, bytes, spec.write, spec.exec))
    }

    /// A writable segment of zeros.
    #[tactic(auto, unfolding(eh_word::specs::Bytes::zeros))]
    pub(crate) fn zeros(alloc: Global, start: u32, size: u32) -> Result<Self, AllocError>
        ensures { IfOk result (λ s. s ≡ zeros_at start size) }
    {
        let bytes = vec![in alloc; 0; size as usize]?;
        Ok(BusSegment::new(start, bytes, true, false))
    }

    /// Whether it is writable.
    pub(crate) fn may_write(&self) -> bool
        ensures { result ≡ self.now.write }
    {
        self.write
    }

    /// Whether it is executable.
    pub(crate) fn may_execute(&self) -> bool
        ensures { result ≡ self.now.exec }
    {
        self.exec
    }

    /// Whether the `n` bytes from `a` on all lie here.
    pub(crate) fn holds(&self, a: u32, n: u32) -> bool
        ensures { result ≡ holds self.now a n }
    {
        self.start <= a && u64::from(a - self.start) + u64::from(n) <= self.bytes.len() as u64
    }

    /// Loads a byte.
    pub(crate) fn load8(&self, a: u32) -> u8
        requires { IsTrue (holds self.now a 1) }
        ensures { result ≡ number_at 1 self.now a }
    {
        self.bytes[(a - self.start) as usize]
    }

    /// Loads a halfword.
    pub(crate) fn load16(&self, a: u32) -> u16
        requires { IsTrue (holds self.now a 2) }
        ensures { result ≡ number_at 2 self.now a }
    {
        LittleEndian::read_u16(&self.bytes[(a - self.start) as usize..])
    }

    /// Loads a word.
    pub(crate) fn load32(&self, a: u32) -> u32
        requires { IsTrue (holds self.now a 4) }
        ensures { result ≡ number_at 4 self.now a }
    {
        LittleEndian::read_u32(&self.bytes[(a - self.start) as usize..])
    }

    /// Stores a byte.
    pub(crate) fn store8(&mut self, a: u32, v: u8)
        requires { IsTrue (holds self.old a 1) }
        ensures { self.new ≡ with_number_at 1 self.old a v }
    {
        put8(&mut self.bytes, (a - self.start) as usize, v);
    }

    /// Stores a halfword.
    pub(crate) fn store16(&mut self, a: u32, v: u16)
        requires { IsTrue (holds self.old a 2) }
        ensures { self.new ≡ with_number_at 2 self.old a v }
    {
        put16(&mut self.bytes, (a - self.start) as usize, v);
    }

    /// Stores a word.
    pub(crate) fn store32(&mut self, a: u32, v: u32)
        requires { IsTrue (holds self.old a 4) }
        ensures { self.new ≡ with_number_at 4 self.old a v }
    {
        put32(&mut self.bytes, (a - self.start) as usize, v);
    }
}

/// These bytes, padded by zeros up to the size.
#[tactic(auto, unfolding(eh_word::specs::Bytes::zeros))]
fn zero_padded(alloc: Global, given: &[u8], size: usize) -> Result<Vec<u8>, AllocError>
    requires { length given.now ≤ size }
    ensures zero_padded { IfOk result (λ all. all.items ≡ given.now ++ zeros (size - length given.now)) }
    ensures bytes { AreBytes given.now }
{
    let mut bytes = Vec::with_capacity(alloc, size)?;
    bytes.extend_from_slice(given)?;
    bytes.resize(size, 0)?;
    Ok(bytes)
}

/// Writes a byte at an index.
pub(crate) fn put8(bytes: &mut [u8], at: usize, v: u8)
    requires { at < length bytes.old }
    ensures { bytes.new ≡ take at bytes.old ++ (little_bytes 1 v ++ drop (at + 1) bytes.old) }
{
    bytes[at] = v;
}

/// Writes a halfword at an index.
pub(crate) fn put16(bytes: &mut [u8], at: usize, v: u16)
    requires { at + 2 ≤ length bytes.old }
    ensures { bytes.new ≡ take at bytes.old ++ (little_bytes 2 v ++ drop (at + 2) bytes.old) }
{
    bytes[at..at + 2].copy_from_slice(&v.to_le_bytes());
}

/// Writes a word at an index.
pub(crate) fn put32(bytes: &mut [u8], at: usize, v: u32)
    requires { at + 4 ≤ length bytes.old }
    ensures { bytes.new ≡ take at bytes.old ++ (little_bytes 4 v ++ drop (at + 4) bytes.old) }
{
    bytes[at..at + 4].copy_from_slice(&v.to_le_bytes());
}
