//! The memory of an image, and of raw code.
ghost use Rattle.std.specs.Prelude.{◌≡◌, ◌≤◌, length, map, IfOk};
ghost use Rattle.mem_buses.specs.Flat.{memory_of};
ghost use Rattle.mem_buses.specs.Paged.{memory_of as paged_memory_of};
ghost use Rattle.run_images.specs.Placing.{segment_asked_for};
ghost use Rattle.run_images.specs.Start.{image_start, code_start};

use eh_bus::fault::BusMemory;
use eh_bus::map::MAX_IMAGE_SIZE;
use eh_bus::segment::SegmentSpec;
use elf_image::image::Image;
use elf_image::segment::Segment;
use mem_buses::flat::FlatBus;
use mem_buses::paged::PagedBus;
use std::alloc::{AllocError, Global};

/// The address at which raw code is loaded and starts.
pub const CODE_START: u32 = 0x8000;

/// The description of a segment in memory.
fn place<'a>(segment: &Segment<'a>) -> SegmentSpec<'a>
    ensures { segment_asked_for result ≡ segment.now }
{
    SegmentSpec {
        start: segment.start(),
        bytes: segment.bytes(),
        size: segment.size(),
        write: segment.may_write(),
        exec: segment.may_execute(),
    }
}

/// The descriptions of the segments in memory.
fn places<'a>(alloc: Global, segments: &[Segment<'a>]) -> Result<Vec<SegmentSpec<'a>>, AllocError>
    ensures { IfOk result (λ all. map segment_asked_for all.items ≡ segments.now) }
{
    let mut all = Vec::new(alloc);
    for segment in segments {
        all.push(place(segment))?;
    }
    Ok(all)
}

/// The memory of an image: its segments, each padded by zeros, the stack and the pool. It is kept in pages, since an
/// image may have a thousand segments. Err if memory runs out.
pub fn image_memory(alloc: Global, image: &Image) -> Result<PagedBus, BusMemory>
    ensures { IfOk result (λ bus. paged_memory_of bus ≡ (image_start image.now).memory) }
{
    match places(alloc, image.segments()) {
        Ok(places) => PagedBus::build(alloc, &places),
        Err(_) => Err(BusMemory::OutOfMemory),
    }
}

/// The memory of raw code: one segment, executable and not writable, the stack and the pool. Err if memory runs out.
pub fn code_memory(alloc: Global, code: &[u8]) -> Result<FlatBus, BusMemory>
    requires { length code.now ≤ MAX_IMAGE_SIZE }
    ensures { IfOk result (λ bus. memory_of bus ≡ (code_start code.now).memory) }
{
    let segment = SegmentSpec {
        start: CODE_START,
        bytes: code,
        size: code.len() as u32,
        write: false,
        exec: true,
    };
    FlatBus::build(alloc, &[segment])
}
