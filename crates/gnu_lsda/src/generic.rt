//! Unwind entries of the generic model (IHI 0038), read in place. docs/rules/gnu-tables.md states the rules.
ghost use Rattle.std.specs.Prelude.{◌≡◌, ◌+◌, ◌-◌, ◌*◌, ◌/◌, ◌%◌, ◌^◌, ◌<◌, ◌≤◌, length, Option, None, option_map, option_copied, slice_index};
ghost use Rattle.elf_image.specs.Functions.{segment_at};
ghost use Rattle.eh_index.specs.Rows.{entry_at, entry_count, entries_of};
ghost use Rattle.eh_codes.specs.declared.row.TheConstants.{ROW_SIZE};
ghost use Rattle.gnu_lsda.specs.Entries.{size_in, range_size, generic_entry_in, generic_in, generic_of, address_in, personality_of, personality_in, words_after, words_of};
ghost use Rattle.gnu_lsda.specs.Heads.{area_of};

use crate::lsda::{HeadFault, Lsda};
use byteorder::{ByteOrder, LittleEndian};
use eh_codes::row::{ROW_SIZE, even};
use eh_codes::words::COMPACT_MARK;
use eh_codes::{Entry, EntryBody, entry_of};
use eh_index::Index;
use eh_word::{get_word, prel31};
use elf_image::image::Image;
use elf_image::segment::Segment;
use std::marker::Model;

/// A generic entry: bit 31 of its first word is clear. It reads its segment in place and allocates nothing.
#[derive(Drop)]
pub struct Generic<'a> {
    bytes: &'a [u8],
    address: u32,
    place: usize,
    first: u32,
    start: u32,
    size: u32,
}

impl<'a> Model for Generic<'a> {
    ghost use Rattle.std.specs.Prelude.{◌+◌, ◌≤◌, length};
    ghost use Rattle.gnu_lsda.specs.Entries.{Form};

    ghost Value = { Form };

    ghost view = { λ g. record { bytes = g.bytes.now; address = g.address; place = g.place; first = g.first; start = g.start; size = g.size } };

    ghost invariant = { λ g. g.place + 4 ≤ length g.bytes.now };
}

/// Row `k` of an image's index table.
#[tactic(auto, using(eh_index::proofs::Places::places))]
pub fn row_at(image: &Image, k: u32) -> Entry
    requires { k < entry_count image.now }
    ensures { result ≡ entry_at image.now k }
{
    let bytes = image.index_bytes();
    let at = ROW_SIZE as usize * k as usize;
    let place = image.index_start() + ROW_SIZE * k;
    entry_of(
        place,
        LittleEndian::read_u32(&bytes[at..]),
        LittleEndian::read_u32(&bytes[at + 4..]),
    )
}

/// The number of rows of an image's index table.
#[tactic(auto, using(eh_index::proofs::Places::places))]
pub fn row_count(image: &Image) -> u32
    ensures { result ≡ entry_count image.now }
{
    let bytes = image.index_bytes();
    (bytes.len() / ROW_SIZE as usize) as u32
}

/// The number of bytes from an address to the end of its executable segment, rounded down to an even address; 0 if no executable
/// segment contains it.
#[tactic(auto, using(crate::proofs::SegmentEnds::ends_low))]
fn size_to_end(image: &Image, start: u32) -> u32
    ensures { result ≡ size_in start (segment_at image.now.segments start) }
{
    match image.segment_at(start) {
        None => 0,
        Some(segment) => {
            if segment.may_execute() {
                even(segment.start() + segment.size()).saturating_sub(start)
            } else {
                0
            }
        }
    }
}

/// The size of the range of row `k`, in bytes.
fn range_size(image: &Image, k: u32) -> u32
    requires { k < entry_count image.now }
    ensures { result ≡ range_size image.now k }
{
    let start = row_at(image, k).start;
    let count = row_count(image);
    if k + 1 < count {
        row_at(image, k + 1).start.saturating_sub(start)
    } else {
        size_to_end(image, start)
    }
}

/// The generic entry at an address of a segment; None if there is none.
#[tactic(auto, using(crate::proofs::NumberEnds::room))]
fn generic_entry_in<'a>(
    segment: &Segment<'a>,
    at: u32,
    start: u32,
    size: u32,
) -> Option<Generic<'a>>
    ensures { result ≡ generic_entry_in at start size (Some segment.now) }
{
    if segment.may_write() || at < segment.start() {
        return None;
    }
    let place = (at - segment.start()) as usize;
    let first = get_word(segment.bytes(), place)?;
    if first >= COMPACT_MARK {
        return None;
    }
    Some(Generic {
        bytes: segment.bytes(),
        address: segment.start(),
        place,
        first,
        start,
        size,
    })
}

impl<'a> Generic<'a> {
    /// The generic entry of row `k` of an index table. None unless the row has an entry in the exception table, in the file bytes of a
    /// read-only segment, with bit 31 of its first word clear.
    #[tactic(auto, using(eh_index::proofs::Search::entries_len))]
    pub fn of(index: &Index<'_, 'a>, k: u32) -> Option<Generic<'a>>
        requires { k < length (entries_of index.now) }
        ensures { result ≡ generic_of index.now k }
    {
        let image = index.image();
        let row = row_at(image, k);
        let size = range_size(image, k);
        match row.body {
            EntryBody::CantUnwind | EntryBody::Inline(_) => None,
            EntryBody::Table(at) => generic_entry_in(image.segment_at(at)?, at, row.start, size),
        }
    }

    /// The address of its function's first instruction.
    pub fn start(&self) -> u32
        ensures { result ≡ self.now.start }
    {
        self.start
    }

    /// The size of its function's range, in bytes. The range ends at the next row's start. For the last row it ends with the executable
    /// segment where it begins, rounded down to an even address; the size is 0 if there is no such segment.
    pub fn size(&self) -> u32
        ensures { result ≡ self.now.size }
    {
        self.size
    }

    /// The address of its personality routine, with bit 0 clear.
    pub fn personality(&self) -> u32
        ensures { result ≡ personality_of self.now }
    {
        let place = self
            .address
            .wrapping_add((self.place % 0x1_0000_0000) as u32);
        even(prel31(place, self.first))
    }

    /// The number of words of unwind instructions after its second word; None if the bytes end before its second word does.
    pub fn words_after(&self) -> Option<u8>
        ensures { result ≡ words_after self.now }
    {
        let word = get_word(self.bytes, self.place + 4)?;
        Some((word / 0x100_0000) as u8)
    }

    /// The bytes of its words of unwind instructions: the second word and those that it counts. None if they aren't all there. The top
    /// byte of the second word is the count, no instruction.
    pub fn words(&self) -> Option<&'a [u8]>
        ensures { option_copied result ≡ words_of self.now }
    {
        let words = self.words_after()? as usize;
        let end = self.place + 8 + 4 * words;
        if end > self.bytes.len() {
            return None;
        }
        let bytes = self.bytes;
        Some(&bytes[self.place + 4..end])
    }

    /// The language-specific data area after the unwind instructions; Err if its head can't be read.
    pub fn lsda(&self) -> Result<Lsda<'a>, HeadFault>
        ensures { result ≡ area_of self.now }
    {
        match self.words_after() {
            None => Err(HeadFault::Short),
            Some(words) => {
                let place = self.place + 8 + 4 * words as usize;
                Lsda::at(self.bytes, self.address, place)
            }
        }
    }
}

/// The address of the GNU C++ personality routine, from the symbol `__gxx_personality_v0`; None if there is none. Goes over all
/// symbols.
pub fn personality_symbol(image: &Image) -> Option<u32>
    ensures { result ≡ personality_in image.now }
{
    image.symbol(b"__gxx_personality_v0")
}
