//! The language-specific data area of the GNU C++ personality routine, which follows an entry's unwind instructions: its head (Linux
//! Standard Base, "DWARF Exception Header Encoding"). docs/rules/gnu-tables.md states the format.
ghost use Rattle.std.specs.Prelude.{◌≡◌, ◌+◌, ◌<◌, ◌≤◌, length, IfSome, Some, None};
ghost use Rattle.gnu_lsda.specs.Leb128.{uleb128_at};
ghost use Rattle.gnu_lsda.specs.Heads.{byte_at, sites_at, types_at, area_at};

use crate::leb128::uleb128_at;
use std::marker::Model;

/// The encoding of a part that is left out (DW_EH_PE_omit).
pub const OMITTED: u8 = 0xFF;
/// The encoding of absolute addresses (DW_EH_PE_absptr).
pub const ABSOLUTE: u8 = 0x00;
/// The encoding of addresses relative to their own place (DW_EH_PE_pcrel).
pub const RELATIVE: u8 = 0x10;
/// The encoding of ULEB128 numbers (DW_EH_PE_uleb128).
pub const ULEB128: u8 = 0x01;

/// Why the head of a data area can't be read: the first fault from the front.
#[derive(Clone, Copy)]
pub enum HeadFault {
    /// It goes past the end of the bytes, or a ULEB128 number isn't accepted.
    Short,
    /// An encoding isn't supported: landing pads with their own base, types that are neither absolute nor relative, or call sites that
    /// aren't ULEB128 numbers.
    Format,
}

/// A language-specific data area whose head was read. Its call-site table may go past the end of the bytes.
#[derive(Drop)]
pub struct Lsda<'a> {
    /// The bytes of its segment.
    pub(crate) bytes: &'a [u8],
    /// The address of the first of these bytes.
    pub(crate) address: u32,
    /// The base of the type table, its end: an index into the bytes; None if there is no type table.
    pub(crate) types: Option<usize>,
    /// The start of the call-site table: an index into the bytes.
    pub(crate) records: usize,
    /// The size of the call-site table, in bytes.
    pub(crate) size: u32,
}

impl<'a> Model for Lsda<'a> {
    ghost use Rattle.std.specs.Prelude.{◌≤◌, length};
    ghost use Rattle.gnu_lsda.specs.Heads.{Area};

    ghost Value = { Area };

    ghost view = { λ l. record { bytes = l.bytes.now; address = l.address; types = l.types; records = l.records; size = l.size } };

    ghost invariant = { λ l. l.records ≤ length l.bytes.now };
}

/// The byte at a place; None past the end.
fn byte_at(bytes: &[u8], at: usize) -> Option<u8>
    ensures byte { result ≡ byte_at bytes.now at }
    ensures room { IfSome result (λ byte. at < length bytes.now) }
{
    if at < bytes.len() {
        Some(bytes[at])
    } else {
        None
    }
}

impl<'a> Lsda<'a> {
    /// The area whose call-site encoding and table length are at a place; Err if they can't be read.
    #[tactic(auto, using(crate::proofs::NumberEnds::uleb128_inside))]
    fn sites_at(
        bytes: &'a [u8],
        address: u32,
        types: Option<usize>,
        place: usize,
    ) -> Result<Lsda<'a>, HeadFault>
        ensures { result ≡ sites_at bytes.now address types place }
    {
        let Some(encoding) = byte_at(bytes, place) else {
            return Err(HeadFault::Short);
        };
        if encoding != ULEB128 {
            return Err(HeadFault::Format);
        }
        let Some((size, records)) = uleb128_at(bytes, place + 1) else {
            return Err(HeadFault::Short);
        };
        Ok(Lsda {
            bytes,
            address,
            types,
            records,
            size,
        })
    }

    /// The area whose type table encoding and base are at a place; Err if they can't be read.
    #[tactic(auto, using(crate::proofs::NumberEnds::uleb128_inside))]
    fn types_at(bytes: &'a [u8], address: u32, place: usize) -> Result<Lsda<'a>, HeadFault>
        ensures { result ≡ types_at bytes.now address place }
    {
        let Some(encoding) = byte_at(bytes, place) else {
            return Err(HeadFault::Short);
        };
        if encoding == OMITTED {
            return Lsda::sites_at(bytes, address, None, place + 1);
        }
        if encoding != ABSOLUTE && encoding != RELATIVE {
            return Err(HeadFault::Format);
        }
        let Some((displacement, next)) = uleb128_at(bytes, place + 1) else {
            return Err(HeadFault::Short);
        };
        Lsda::sites_at(bytes, address, Some(next + displacement as usize), next)
    }

    /// The area at a place of bytes that begin at `address`; Err if its head can't be read.
    pub(crate) fn at(bytes: &'a [u8], address: u32, place: usize) -> Result<Lsda<'a>, HeadFault>
        ensures { result ≡ area_at bytes.now address place }
    {
        let Some(encoding) = byte_at(bytes, place) else {
            return Err(HeadFault::Short);
        };
        if encoding != OMITTED {
            return Err(HeadFault::Format);
        }
        Lsda::types_at(bytes, address, place + 1)
    }

    /// The size of the call-site table in bytes, even if it goes past the end of the bytes.
    pub fn table_size(&self) -> u32
        ensures { result ≡ self.now.size }
    {
        self.size
    }
}
