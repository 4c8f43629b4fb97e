//! A memory with as many segments as an image may have, which share a page.
ghost use Rattle.std.specs.Prelude.{◌≡◌, ◌≤◌, length, IfOk};
ghost use Rattle.eh_bus.specs.Built.{CanBuild};

use eh_bus::bus::Bus;
use eh_bus::fault::BusFault;
use eh_bus::segment::SegmentSpec;
use mem_buses::flat::FlatBus;
use mem_buses::paged::PagedBus;
use std::alloc::{AllocError, Global};
use std::test::Fail;

/// A byte of a page.
fn byte_of_page(bus: &PagedBus, number: u32, k: usize) -> Option<u8> {
    let bytes = bus.page(number)?;
    bytes.get(k).copied()
}

/// A segment of one byte for each of these values, one after the other. Those with even numbers may be written, those with odd numbers
/// executed.
fn one_byte_each<'a>(alloc: Global, values: &'a [u8]) -> Result<Vec<SegmentSpec<'a>>, AllocError>
    requires { length values.now ≤ 1024 }
    ensures { IfOk result (λ all. CanBuild all.items) }
{
    let mut all = Vec::new(alloc);
    for k in 0..values.len() {
        all.push(SegmentSpec {
            start: 0x8000 + k as u32,
            bytes: &values[k..k + 1],
            size: 1,
            write: k % 2 == 0,
            exec: k % 2 == 1,
        })?;
    }
    Ok(all)
}

/// The bytes of 1,024 segments: each segment's number modulo 251.
fn values(alloc: Global) -> Result<Vec<u8>, AllocError> {
    let mut all = Vec::new(alloc);
    for k in 0..1024_u32 {
        all.push((k % 251) as u8)?;
    }
    Ok(all)
}

/// Whether a byte has its own value and rights. It is overwritten with 255 if it may be, and no halfword there lies in one segment.
fn is_apart<B: Bus>(bus: &mut B, k: u32) -> bool {
    let a = 0x8000u32.wrapping_add(k);
    let old = (k % 251) as u8;
    let written = k % 2 == 0;
    let (stored, now) = if written {
        (Ok(()), 255)
    } else {
        (Err(BusFault::ReadOnly(a)), old)
    };
    bus.load8(a) == Ok(old)
        && bus.load16(a) == Err(BusFault::Unmapped(a))
        && bus.store16(a, 1) == Err(BusFault::Unmapped(a))
        && bus.fetch16(a) == Err(BusFault::Unmapped(a))
        && bus.store8(a, 255) == stored
        && bus.load8(a) == Ok(now)
}

/// The first byte that isn't separate from its neighbours. None if all are, and the addresses beside them hold no byte and can't be
/// executed.
fn first_joined<B: Bus>(bus: &mut B) -> Option<u32> {
    for k in 0..1024_u32 {
        if !is_apart(bus, k) {
            return Some(k);
        }
    }
    let is_alone = bus.load8(0x7fff) == Err(BusFault::Unmapped(0x7fff))
        && bus.load8(0x8400) == Err(BusFault::Unmapped(0x8400))
        && bus.store_run(0x8000, &[1]) == Err(BusFault::Unmapped(0x8000));
    if is_alone { None } else { Some(1024) }
}

/// Bytes of the page of the segments: the last two of the segments, and the one after them.
fn last_three(bus: &PagedBus) -> [Option<u8>; 3] {
    [
        byte_of_page(bus, 8, 1022),
        byte_of_page(bus, 8, 1023),
        byte_of_page(bus, 8, 1024),
    ]
}

#[test]
fn segments_share_a_page(rt: HostRuntime) -> Result<(), Fail> {
    let values = values(rt.alloc())?;
    assert!(rt; values.len() <= 1024);
    let all = one_byte_each(rt.alloc(), &values)?;
    let paged = PagedBus::build(rt.alloc(), &all)?;
    assert_eq!(rt; paged.page_count(), 25);
    assert_eq!(rt; last_three(&paged), [Some(18), Some(19), Some(0)]);
    Ok(())
}

#[test]
fn segments_in_a_page_are_apart(rt: HostRuntime) -> Result<(), Fail> {
    let values = values(rt.alloc())?;
    assert!(rt; values.len() <= 1024);
    let all = one_byte_each(rt.alloc(), &values)?;
    let mut paged = PagedBus::build(rt.alloc(), &all)?;
    assert_eq!(rt; first_joined(&mut paged), None);
    assert_eq!(rt; last_three(&paged), [Some(255), Some(19), Some(0)]);
    Ok(())
}

#[test]
fn segments_one_after_the_other_are_apart(rt: HostRuntime) -> Result<(), Fail> {
    let values = values(rt.alloc())?;
    assert!(rt; values.len() <= 1024);
    let all = one_byte_each(rt.alloc(), &values)?;
    assert_eq!(rt; first_joined(&mut FlatBus::build(rt.alloc(), &all)?), None);
    Ok(())
}
