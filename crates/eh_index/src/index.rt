//! The index table of an image: read once, and looked up by binary search (docs/rules/unwind-tables.md).
ghost use Rattle.eh_index.specs.Laws.{IsEntry};
ghost use Rattle.std.specs.List.{range_with_len};
ghost use Rattle.std.specs.Prelude.{ℕ, None, map, ◌==◌, ◌≡◌, ◌+◌, ◌*◌, ◌<◌, ◌≤◌, length, IfSome, option_copied};
ghost use Rattle.eh_codes.specs.declared.row.TheConstants.{ROW_SIZE};
ghost use Rattle.eh_index.specs.Rows.{entry_at, entry_count, entries_of};
ghost use Rattle.eh_index.specs.Places.{is_table_place, table_of};
ghost use Rattle.eh_index.specs.Refusal.{first_of, entry_refusal, index_refusal, index_or_fault};
ghost use Rattle.eh_index.specs.Covering.{covering, IsCovering};

use crate::fault::IndexFault;
use crate::place::{bounds_code, bytes_at, has_bytes};
use crate::row::{entry_at, first_word, start_at};
use eh_codes::row::{Entry, EntryBody, PREL31_LIMIT, ROW_SIZE};
use elf_image::image::Image;
use std::marker::Model;

/// By which factor each step of a search outwards from a row is longer than the step before.
const STEP_GROWTH: u32 = 16;

/// The index table of an image. In contracts, an `Index` is that image; its rows are valid, and their starts are in ascending order.
#[derive(Drop)]
pub struct Index<'i, 'a> {
    image: &'i Image<'a>,
}

impl<'i, 'a> Model for Index<'i, 'a> {
    ghost use Rattle.std.specs.Prelude.{◌≡◌, None};
    ghost use Rattle.elf_image.specs.Image.{Image as Parts};
    ghost use Rattle.eh_index.specs.Refusal.{index_refusal};

    ghost Value = { Parts };

    ghost view = { λ i. i.image.now };

    ghost invariant = { λ i. index_refusal i.image.now ≡ None };
}

/// Whether an entry's table is at a valid place; true for an entry without a table.
fn is_table_place(image: &Image, body: EntryBody) -> bool
    ensures { result ≡ is_table_place image.now.segments body }
{
    match body {
        EntryBody::CantUnwind | EntryBody::Inline(_) => true,
        EntryBody::Table(a) => a % 4 == 0 && has_bytes(image, a),
    }
}

/// The fault of row `k`; None if it is valid.
#[tactic(auto, unfolding(crate::specs::Refusal::entry_refusal))]
fn entry_refusal(image: &Image, k: u32) -> Option<IndexFault>
    requires { ROW_SIZE * k + ROW_SIZE ≤ length image.now.index_bytes }
    ensures { result ≡ entry_refusal image.now k }
{
    let e = entry_at(image, k);
    if first_word(image, k) >= PREL31_LIMIT
        || !bounds_code(image, e.start)
        || !is_table_place(image, e.body)
    {
        return Some(IndexFault::OutsideImage(k));
    }
    if k > 0 && e.start < start_at(image, k - 1) {
        return Some(IndexFault::Unsorted(k));
    }
    None
}

/// The fault of the lowest row that has one; None if all `count` rows are valid.
#[tactic(auto, using(crate::proofs::Search::refusals))]
fn rows_refusal(image: &Image, count: u32) -> Option<IndexFault>
    requires { count ≡ entry_count image.now }
    ensures { result ≡ first_of (map (entry_refusal image.now) (range_with_len 0 (entry_count image.now))) }
{
    for k in 0..count {
        if let Some(fault) = entry_refusal(image, k) {
            return Some(fault);
        }
    }
    None
}

/// The number of rows.
#[tactic(auto, using(crate::proofs::Places::places))]
fn count(image: &Image) -> u32
    ensures { result ≡ entry_count image.now }
{
    let bytes = image.index_bytes();
    (bytes.len() / ROW_SIZE as usize) as u32
}

/// How many rows start at or below `site`, by binary search. Every row below `low` must, and no row from `high` on may.
#[tactic(auto, using(crate::proofs::Search::rises))]
fn rows_between(image: &Image, mut low: u32, mut high: u32, site: u32) -> u32
    requires accepted { index_refusal image.now ≡ None }
    requires ordered { low ≤ high }
    requires within { high ≤ entry_count image.now }
    requires low_ones { (k : ℕ) → k < low → (entry_at image.now k).start ≤ site }
    requires high_ones { (k : ℕ) → high ≤ k → k < entry_count image.now → site < (entry_at image.now k).start }
    ensures within { result ≤ entry_count image.now }
    ensures below { (k : ℕ) → k < result → (entry_at image.now k).start ≤ site }
    ensures above { (k : ℕ) → result ≤ k → k < entry_count image.now → site < (entry_at image.now k).start }
{
    while low < high {
        let middle = low + (high - low) / 2;
        if start_at(image, middle) <= site {
            low = middle + 1;
        } else {
            high = middle;
        }
    }
    low
}

/// How many of the rows start at or below `site`, by binary search.
fn rows_up_to(image: &Image, count: u32, site: u32) -> u32
    requires count { count ≡ entry_count image.now }
    requires accepted { index_refusal image.now ≡ None }
    ensures within { result ≤ count }
    ensures below { (k : ℕ) → k < result → (entry_at image.now k).start ≤ site }
    ensures above { (k : ℕ) → result ≤ k → k < entry_count image.now → site < (entry_at image.now k).start }
{
    rows_between(image, 0, count, site)
}

/// How many of the rows start at or below `site`, by a search from the row `near`. It looks at rows on one side of `near`, in growing
/// steps, until it has passed `site`; then it searches between the last two by halving.
#[tactic(auto, using(crate::proofs::Search::rises))]
fn rows_near(image: &Image, count: u32, site: u32, near: u32) -> u32
    requires count { count ≡ entry_count image.now }
    requires accepted { index_refusal image.now ≡ None }
    ensures within { result ≤ count }
    ensures below { (k : ℕ) → k < result → (entry_at image.now k).start ≤ site }
    ensures above { (k : ℕ) → result ≤ k → k < entry_count image.now → site < (entry_at image.now k).start }
{
    let mut low = 0;
    let mut high = count;
    let mut probe = near;
    let mut step = 1u32;
    while low <= probe && probe < high {
        if start_at(image, probe) <= site {
            low = probe + 1;
            probe = probe.wrapping_add(step);
        } else {
            high = probe;
            probe = probe.wrapping_sub(step);
        }
        step = step.wrapping_mul(STEP_GROWTH);
    }
    rows_between(image, low, high, site)
}

impl<'i, 'a> Index<'i, 'a> {
    /// Reads the index table of an image; an image without one has an index without entries. Err with the lowest row that has a fault,
    /// and its first fault in the order of `IndexFault`.
    #[tactic(auto, unfolding(crate::specs::Refusal::index_refusal))]
    pub fn read(image: &'i Image<'a>) -> Result<Index<'i, 'a>, IndexFault>
        ensures { result ≡ index_or_fault image.now }
    {
        if image.index_bytes().len() % ROW_SIZE as usize != 0 {
            return Err(IndexFault::Length);
        }
        match rows_refusal(image, count(image)) {
            Some(fault) => Err(fault),
            None => Ok(Index { image }),
        }
    }

    /// The index of an image whose index was read already, at no cost.
    pub fn of(image: &'i Image<'a>) -> Index<'i, 'a>
        requires { index_refusal image.now ≡ None }
        ensures { result ≡ image.entry.now }
    {
        Index { image }
    }

    /// The image that the index belongs to.
    pub fn image(&self) -> &'i Image<'a>
        ensures { result.now ≡ self.now }
    {
        self.image
    }

    /// The number of entries.
    pub fn len(&self) -> usize
        ensures { result ≡ length (entries_of self.now) }
    {
        count(self.image) as usize
    }

    /// Whether there are no entries.
    pub fn is_empty(&self) -> bool
        ensures { result ≡ (length (entries_of self.now) == 0) }
    {
        count(self.image) == 0
    }

    /// The unwind entry that covers an address: the last whose start is at or below it. None if and only if there is none. A binary
    /// search.
    pub fn find(&self, site: u32) -> Option<Entry>
        ensures covering { result ≡ covering (entries_of self.now) site }
        ensures last { IsCovering (entries_of self.now) site result }
        ensures stands { IfSome result (IsEntry self.now) }
    {
        let count = rows_up_to(self.image, count(self.image), site);
        if count == 0 {
            None
        } else {
            Some(entry_at(self.image, count - 1))
        }
    }

    /// As `find`, but the search begins at the row `near`; also returns the row found. It reads two rows if the entry is in row `near`
    /// or in the one before it, and at worst a few rows more than `find`. Any `near` is allowed; the row found last is fastest.
    #[inline(always)]
    pub fn find_near(&self, site: u32, near: u32) -> (Option<Entry>, u32)
        ensures covering { result.0 ≡ covering (entries_of self.now) site }
        ensures stands { IfSome result.0 (IsEntry self.now) }
    {
        let rows = rows_near(self.image, count(self.image), site, near);
        if rows == 0 {
            (None, 0)
        } else {
            (Some(entry_at(self.image, rows - 1)), rows - 1)
        }
    }

    /// The bytes of an entry's table, up to the end of the file bytes of its read-only segment. None if and only if the entry has no
    /// table or there are no such bytes. Each entry of this index with a table has them.
    pub fn table(&self, e: &Entry) -> Option<&'a [u8]>
        ensures { option_copied result ≡ table_of self.now e.now }
    {
        match e.body {
            EntryBody::CantUnwind | EntryBody::Inline(_) => None,
            EntryBody::Table(a) => bytes_at(self.image, a),
        }
    }
}
