//! Which generic entries are refused. docs/rules/gnu-tables.md states the rules.
ghost use Rattle.std.specs.Prelude.{◌≡◌, ◌+◌, ◌-◌, ◌%◌, ◌==◌, not};
ghost use Rattle.elf_image.specs.Functions.{segment_at};
ghost use Rattle.gnu_lsda.specs.Entries.{words_after};
ghost use Rattle.gnu_lsda.specs.Faults.{rank, lower, fault_when, read_only, caught_type_fault, action_fault, item_fault, chain_fault, is_odd, is_pad_beyond, is_disordered, with_record, records_fault, is_too_long, area_fault, names_routine, fault_with, fault_of};

use crate::actions::{Action, ActionFault, CatchFilter};
use crate::generic::Generic;
use crate::lsda::{HeadFault, Lsda};
use crate::records::{Record, RecordFault};
use eh_codes::row::even;
use elf_image::image::Image;
use elf_image::limits::ADDRESS_LIMIT;

/// The number of further words of unwind instructions that leaves no room for one more in the compact model.
pub const TOO_MANY_WORDS: u8 = 255;

/// Why a generic entry is refused. If its bytes have several faults, the first variant is given. The head of the data area is checked
/// last.
#[derive(Clone, Copy, Debug)]
pub enum EntryFault {
    /// It doesn't name the GNU C++ personality routine.
    Personality,
    /// A part goes past the end of the segment, a record past the end of the call-site table, or a number has too many bytes or bits.
    Short,
    /// An encoding isn't supported.
    Format,
    /// A call-site record starts before the end of the one before it, or ends past the function's range; or its start, size or landing
    /// pad is odd; or its landing pad is at 0x30000000 or above.
    Order,
    /// An action is an exception specification, or a catch without a type table, or a catch of a type that isn't in a read-only
    /// segment.
    Filter,
    /// A chain has more than 64 actions.
    Chain,
    /// It has 255 words of unwind instructions after the second word.
    TooLong,
}

/// The result of checking the call-site records so far.
#[derive(Clone, Copy)]
pub struct RecordScan {
    /// The end of the last record, in bytes from the function's start.
    pub end: u64,
    /// The fault that comes first in the order of `EntryFault`; None if there is none so far.
    pub fault: Option<EntryFault>,
}

impl EntryFault {
    /// The fault's number in the order of `EntryFault`.
    fn rank(self) -> u8
        ensures { result ≡ rank self }
    {
        match self {
            EntryFault::Personality => 1,
            EntryFault::Short => 2,
            EntryFault::Format => 3,
            EntryFault::Order => 4,
            EntryFault::Filter => 5,
            EntryFault::Chain => 6,
            EntryFault::TooLong => 7,
        }
    }
}

/// The one of two faults that comes first.
fn lower(seen: Option<EntryFault>, other: Option<EntryFault>) -> Option<EntryFault>
    ensures { result ≡ lower seen other }
{
    match (seen, other) {
        (None, other) => other,
        (Some(fault), None) => Some(fault),
        (Some(fault), Some(other)) => {
            if fault.rank() <= other.rank() {
                Some(fault)
            } else {
                Some(other)
            }
        }
    }
}

/// The fault if `holds`, else None.
fn fault_when(holds: bool, fault: EntryFault) -> Option<EntryFault>
    ensures { result ≡ fault_when holds fault }
{
    if holds { Some(fault) } else { None }
}

/// Whether the segment that contains an address isn't writable.
fn is_read_only(image: &Image, address: u32) -> bool
    ensures { result ≡ read_only (segment_at image.now.segments address) }
{
    match image.segment_at(address) {
        None => false,
        Some(segment) => !segment.may_write(),
    }
}

/// The fault of a catch of this type; None if it is accepted.
fn caught_type_fault(image: &Image, takes: CatchFilter) -> Option<EntryFault>
    ensures { result ≡ caught_type_fault image.now takes }
{
    match takes {
        CatchFilter::All => None,
        CatchFilter::OfType(address) => fault_when(
            !is_read_only(image, address),
            EntryFault::Filter,
        ),
    }
}

/// The fault of an action; None if it is accepted.
fn item_fault(image: &Image, item: Result<Action, ActionFault>) -> Option<EntryFault>
    ensures { result ≡ item_fault image.now item }
{
    match item {
        Ok(Action::Cleanup) => None,
        Ok(Action::Catch { takes, .. }) => caught_type_fault(image, takes),
        Ok(Action::NoTypes) => Some(EntryFault::Filter),
        Ok(Action::Specification) => Some(EntryFault::Filter),
        Err(ActionFault::Short) => Some(EntryFault::Short),
        Err(ActionFault::Chain) => Some(EntryFault::Chain),
    }
}

/// The first fault of a chain of actions; None if it is accepted.
fn chain_fault(image: &Image, area: &Lsda, action: u32) -> Option<EntryFault>
    ensures { result ≡ chain_fault image.now area.now action }
{
    let mut seen = None;
    for item in area.actions(action) {
        seen = lower(seen, item_fault(image, item));
    }
    seen
}

/// Whether bit 0 of a number is set.
fn is_odd(n: u32) -> bool
    ensures { result ≡ is_odd n }
{
    n % 2 != 0
}

impl<'a> Generic<'a> {
    /// Whether a record's landing pad is past all segments.
    fn is_pad_beyond(&self, site: &Record) -> bool
        ensures { result ≡ is_pad_beyond self.now site.now }
    {
        site.pad != 0 && u64::from(self.start()) + u64::from(site.pad) >= ADDRESS_LIMIT
    }

    /// Whether a record is at a place that isn't allowed; the record before it ends `before` bytes from the function's start.
    fn is_disordered(&self, before: u64, site: &Record) -> bool
        ensures { result ≡ is_disordered self.now before site.now }
    {
        u64::from(site.start) < before
            || u64::from(site.start) + u64::from(site.size) > u64::from(self.size())
            || is_odd(site.start)
            || is_odd(site.size)
            || is_odd(site.pad)
            || self.is_pad_beyond(site)
    }

    /// The result with one more record.
    fn with_record(
        &self,
        image: &Image,
        area: &Lsda,
        seen: RecordScan,
        item: Result<Record, RecordFault>,
    ) -> RecordScan
        ensures { result ≡ with_record image.now self.now area.now seen item }
    {
        match item {
            Ok(site) => {
                let order = fault_when(self.is_disordered(seen.end, &site), EntryFault::Order);
                RecordScan {
                    end: u64::from(site.start) + u64::from(site.size),
                    fault: lower(
                        lower(seen.fault, order),
                        chain_fault(image, area, site.action),
                    ),
                }
            }
            Err(RecordFault::Short) => RecordScan {
                end: seen.end,
                fault: lower(seen.fault, Some(EntryFault::Short)),
            },
        }
    }

    /// The first fault of the call-site records; None if they are accepted.
    fn records_fault(&self, image: &Image, area: &Lsda) -> Option<EntryFault>
        ensures { result ≡ records_fault image.now self.now area.now }
    {
        let mut seen = RecordScan {
            end: 0,
            fault: None,
        };
        for item in area.records() {
            seen = self.with_record(image, area, seen, item);
        }
        seen.fault
    }

    /// Whether there is no room for one more word of unwind instructions.
    fn is_too_long(&self) -> bool
        ensures { result ≡ is_too_long (words_after self.now) }
    {
        match self.words_after() {
            None => false,
            Some(words) => words == TOO_MANY_WORDS,
        }
    }

    /// Whether it names the personality routine at an address; false for None. Bit 0 isn't part of the address.
    fn names_routine(&self, routine: Option<u32>) -> bool
        ensures { result ≡ names_routine self.now routine }
    {
        match routine {
            None => false,
            Some(address) => even(address) == self.personality(),
        }
    }

    /// The first fault of the entry; None if it has none. `personality` is the address of the GNU C++ personality routine, as
    /// `personality_symbol` gives it. Linear in the bytes.
    pub fn fault(&self, image: &Image, personality: Option<u32>) -> Option<EntryFault>
        ensures { result ≡ fault_with image.now personality self.now }
    {
        if !self.names_routine(personality) {
            return Some(EntryFault::Personality);
        }
        match self.lsda() {
            Err(HeadFault::Short) => Some(EntryFault::Short),
            Err(HeadFault::Format) => Some(EntryFault::Format),
            Ok(area) => {
                let long = fault_when(self.is_too_long(), EntryFault::TooLong);
                lower(long, self.records_fault(image, &area))
            }
        }
    }
}
