//! The memories that are accessed: segments in a list, or in pages.
ghost use Rattle.eh_bus.specs.Built.{CanBuild};

use crate::words::accesses::say_access;
use eh_bus::fault::BusMemory;
use eh_bus::segment::SegmentSpec;
use mem_buses::flat::FlatBus;
use mem_buses::paged::PagedBus;
use std::alloc::Global;
use test_rows::{Pieces, Text, first_word};

/// A memory on which the accesses of a row are made one after the other. For one in pages, `pages` asks how many pages have bytes, and
/// `byte PAGE PLACE` for a byte of a page.
pub enum Memory {
    /// 16 bytes of code at 0x8000, the first 8 given, then 16 bytes of data, the first 4 given.
    SampleFlat,
    /// The same, in pages.
    SamplePaged,
    /// Writable bytes 0 to 31 from 0x8FF0 on: half in one page and half in the next.
    TwoPages,
    /// Two segments of 16 bytes. The second begins at the end of the first and of its page, 9000. The first may be written and has no given
    /// bytes; the second may be run and begins with 4770.
    Touching,
    /// The last 16 writable bytes that an image's segment may have, beginning with 5, 6 and 7.
    LastBytes,
}

/// 16 bytes of read-only code at 0x8000, and 16 bytes of data after them, the first 4 given.
fn sample<'a>() -> [SegmentSpec<'a>; 2]
    ensures { CanBuild result }
{
    let code = SegmentSpec {
        start: 0x8000,
        bytes: &[0x41, 0x20, 0x01, 0xdf, 0x11, 0x22, 0x33, 0x44],
        size: 16,
        write: false,
        exec: true,
    };
    let data = SegmentSpec {
        start: 0x8010,
        bytes: &[1, 2, 3, 4],
        size: 16,
        write: true,
        exec: false,
    };
    [code, data]
}

/// The bytes of the memory over two pages.
static TWO_PAGES: [u8; 32] = [
    0, 1, 2, 3, 4, 5, 6, 7, 8, 9, 10, 11, 12, 13, 14, 15, 16, 17, 18, 19, 20, 21, 22, 23, 24, 25,
    26, 27, 28, 29, 30, 31,
];

fn two_pages(alloc: Global) -> Result<PagedBus, BusMemory> {
    let data = SegmentSpec {
        start: 0x8ff0,
        bytes: &TWO_PAGES,
        size: 32,
        write: true,
        exec: false,
    };
    PagedBus::build(alloc, &[data])
}

fn touching(alloc: Global) -> Result<PagedBus, BusMemory> {
    let first = SegmentSpec {
        start: 0x8ff0,
        bytes: &[],
        size: 16,
        write: true,
        exec: false,
    };
    let second = SegmentSpec {
        start: 0x9000,
        bytes: &[0x70, 0x47],
        size: 16,
        write: false,
        exec: true,
    };
    PagedBus::build(alloc, &[first, second])
}

fn last_bytes(alloc: Global) -> Result<PagedBus, BusMemory> {
    let last = SegmentSpec {
        start: 0x2fff_fff0,
        bytes: &[5, 6, 7],
        size: 16,
        write: true,
        exec: false,
    };
    PagedBus::build(alloc, &[last])
}

/// A memory as a list of segments.
#[derive(Drop)]
struct InSegments {
    bus: FlatBus,
}

/// A memory in pages.
#[derive(Drop)]
struct InPages {
    bus: PagedBus,
}

impl Pieces for InSegments {
    fn tell_piece(&mut self, text: &mut Text, piece: &str) {
        say_access(text, &mut self.bus, piece);
    }
}

impl Pieces for InPages {
    fn tell_piece(&mut self, text: &mut Text, piece: &str) {
        say_of_pages(text, &mut self.bus, piece);
    }
}

/// A byte of a page.
fn byte_of_page(bus: &PagedBus, number: u32, place: usize) -> Option<u8> {
    bus.page(number)?.get(place).copied()
}

fn say_byte(text: &mut Text, bus: &PagedBus, words: &str) {
    let (page, place) = text.first_hex(words);
    let place = text.decimal(place) as usize;
    match byte_of_page(bus, page, place) {
        Some(byte) => write!(text, "{byte:X};"),
        None => text.say("none;"),
    }
}

/// Appends the answer to an access of pages.
fn say_of_pages(text: &mut Text, bus: &mut PagedBus, access: &str) {
    let (what, words) = first_word(access);
    match what {
        "pages" => {
            let count = bus.page_count();
            write!(text, "{count};");
        }
        "byte" => say_byte(text, bus, words),
        _ => say_access(text, bus, access),
    }
}

/// Appends the answers to accesses of pages.
fn tell_paged(text: &mut Text, built: Result<PagedBus, BusMemory>, question: &str) {
    match built {
        Ok(bus) => text.tell_pieces(&mut InPages { bus }, question, ", "),
        Err(_fault) => text.want_memory(),
    }
}

/// Appends the answers to accesses of segments.
fn tell_flat(text: &mut Text, built: Result<FlatBus, BusMemory>, question: &str) {
    match built {
        Ok(bus) => text.tell_pieces(&mut InSegments { bus }, question, ", "),
        Err(_fault) => text.want_memory(),
    }
}

/// Appends the answers to accesses of a memory.
pub fn tell(text: &mut Text, memory: &Memory, question: &str) {
    let alloc = text.alloc();
    match memory {
        Memory::SampleFlat => tell_flat(text, FlatBus::build(alloc, &sample()), question),
        Memory::SamplePaged => tell_paged(text, PagedBus::build(alloc, &sample()), question),
        Memory::TwoPages => tell_paged(text, two_pages(alloc), question),
        Memory::Touching => tell_paged(text, touching(alloc), question),
        Memory::LastBytes => tell_paged(text, last_bytes(alloc), question),
    }
}
