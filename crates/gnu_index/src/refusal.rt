//! Which images' tables can't be rewritten: the lowest row that is refused, and too many bytes of call-site tables. docs/rules/gnu-tables.md
//! states the rules.
ghost use Rattle.std.specs.Prelude.{◌≡◌, ◌<◌, Some};
ghost use Rattle.eh_index.specs.Rows.{entry_count};
ghost use Rattle.gnu_lsda.specs.Entries.{personality_in, generic_of};
ghost use Rattle.gnu_lsda.specs.Faults.{names_routine};
ghost use Rattle.gnu_index.specs.Refusal.{form_size, sites_size, sites_total, sites_refusal, form_refusal, rows_refusal};
ghost use Rattle.gnu_index.specs.declared.refusal.TheConstants.{SITES_LIMIT};

use crate::tables::RefusedEntry;
use eh_codes::row::even;
use eh_index::Index;
use gnu_lsda::{Generic, personality_symbol, row_count};
use std::alloc::AllocError;

/// The most bytes of call-site tables that are read for one image. A table counts once for each row that refers to it.
pub const SITES_LIMIT: u64 = 1_048_576;

/// Why the tables of an image can't be rewritten.
#[derive(Clone, Copy)]
pub enum GnuFault {
    /// An entry is refused.
    Entry(RefusedEntry),
    /// The call-site tables have more than 1,048,576 bytes, or the new image is over a limit.
    TooLarge,
    /// An allocation failed.
    OutOfMemory,
}

impl From<AllocError> for GnuFault {
    ghost use Rattle.std.specs.Prelude.{◌≡◌};
    ghost use Rattle.gnu_index.specs.declared.refusal.GnuFault.TheVariants.{OutOfMemory};

    ghost from_gives = { λ _ e. e ≡ OutOfMemory };

    fn from(_e: AllocError) -> GnuFault {
        GnuFault::OutOfMemory
    }
}

/// Whether an entry names the personality routine at an address; false for None.
fn names_routine(entry: &Generic, routine: Option<u32>) -> bool
    ensures { result ≡ names_routine entry.now routine }
{
    match routine {
        None => false,
        Some(address) => even(address) == entry.personality(),
    }
}

/// How many bytes of call-site table are read for an entry.
fn entry_size(entry: &Generic, personality: Option<u32>) -> u32
    ensures { result ≡ form_size personality (Some entry.now) }
{
    if !names_routine(entry, personality) {
        return 0;
    }
    match entry.lsda() {
        Ok(area) => area.table_size(),
        Err(_) => 0,
    }
}

/// How many bytes of call-site table are read for row `k`.
#[tactic(auto, using(eh_index::proofs::Search::entries_len))]
fn row_size(index: &Index, personality: Option<u32>, k: u32) -> u32
    requires row { k < entry_count index.now }
    requires personality { personality ≡ personality_in index.now }
    ensures { result ≡ sites_size index.now k }
{
    match Generic::of(index, k) {
        None => 0,
        Some(entry) => entry_size(&entry, personality),
    }
}

/// The fault of the entry of row `k`; None if it is accepted.
#[tactic(auto, using(eh_index::proofs::Search::entries_len))]
fn row_fault(index: &Index, personality: Option<u32>, k: u32) -> Option<GnuFault>
    requires row { k < entry_count index.now }
    requires personality { personality ≡ personality_in index.now }
    ensures { result ≡ form_refusal index.now (personality_in index.now) (generic_of index.now k) }
{
    match Generic::of(index, k) {
        None => None,
        Some(entry) => match entry.fault(index.image(), personality) {
            None => None,
            Some(fault) => Some(GnuFault::Entry(RefusedEntry {
                start: entry.start(),
                fault,
            })),
        },
    }
}

/// The fault of the lowest row that has one; None if all rows are accepted. A row is refused as `TooLarge` if the call-site tables up
/// to and with its own have more than 1,048,576 bytes; else if its entry has a fault. Reads no entry after that row.
#[tactic(auto, using(crate::proofs::Refusing::refusing), unfolding(crate::specs::Refusal::rows_refusal))]
pub fn rows_refusal(index: &Index) -> Option<GnuFault>
    ensures { result ≡ rows_refusal index.now }
{
    let image = index.image();
    let personality = personality_symbol(image);
    let count = row_count(image);
    let mut before = 0;
    for k in 0..count {
        before += u64::from(row_size(index, personality, k));
        if before > SITES_LIMIT {
            return Some(GnuFault::TooLarge);
        }
        if let Some(fault) = row_fault(index, personality, k) {
            return Some(fault);
        }
    }
    None
}

/// How many bytes of call-site tables are read for all rows.
#[tactic(auto, using(crate::proofs::Rowing::rowing), unfolding(crate::specs::Refusal::sites_total))]
fn sites_total(index: &Index) -> u64
    ensures { result ≡ sites_total index.now }
{
    let image = index.image();
    let personality = personality_symbol(image);
    let mut total = 0;
    for k in 0..row_count(image) {
        total += u64::from(row_size(index, personality, k));
    }
    total
}

/// `TooLarge` if the call-site tables of all rows have more than 1,048,576 bytes, else None. Reads no record.
pub fn sites_refusal(index: &Index) -> Option<GnuFault>
    ensures { result ≡ sites_refusal index.now }
{
    if sites_total(index) > SITES_LIMIT {
        Some(GnuFault::TooLarge)
    } else {
        None
    }
}
