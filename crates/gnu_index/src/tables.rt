//! All rows of an index table, with new tables for their generic entries. docs/rules/gnu-tables.md states the rules.
ghost use Rattle.std.specs.Prelude.{◌≡◌, ◌≢◌, ◌<◌, ◌++◌, [], None, Some, OnOk, IfOk, IfErr};
ghost use Rattle.eh_index.specs.Rows.{entry_count};
ghost use Rattle.gnu_lsda.specs.Entries.{personality_in};
ghost use Rattle.gnu_lsda.specs.Heads.{area_of};
ghost use Rattle.gnu_descriptors.specs.Codes.{codes_of};
ghost use Rattle.gnu_descriptors.specs.Scopes.{scopes_of};
ghost use Rattle.gnu_index.specs.Tables.{descriptors_of, filters_from, no_tables, place_after, with_same_row, with_refused_entry, with_table, with_area, with_entry_or_fault, with_row, rewrite_rows};
ghost use Rattle.gnu_descriptors.specs.Filters.{with_filter};
ghost use Rattle.gnu_index.specs.Refusal.{sites_refusal};
ghost use Rattle.gnu_index.specs.declared.refusal.GnuFault.TheVariants.{OutOfMemory};

use crate::refusal::{GnuFault, sites_refusal};
use eh_codes::row::{Entry, EntryBody};
use eh_index::Index;
use gnu_compact::{OwnDescriptor, codes_end, push_table};
use gnu_descriptors::{GnuDescriptor, codes_of, scopes_of};
use gnu_lsda::{EntryFault, Generic, Lsda, personality_symbol, row_at, row_count};
use std::alloc::{AllocError, Global};
use std::marker::Model;

/// A generic entry that isn't rewritten.
#[derive(Clone, Copy)]
pub struct RefusedEntry {
    /// The address of its function's first instruction.
    pub start: u32,
    /// Why it isn't rewritten.
    pub fault: EntryFault,
}

/// The rewritten unwind tables of an image.
#[derive(Drop)]
pub struct RewrittenTables {
    /// The bytes of the new tables, one after the other.
    pub bytes: Vec<u8>,
    /// The rows of the new index table.
    pub rows: Vec<Entry>,
    /// The address of the descriptor of each new catch, with its filter.
    pub filters: Vec<(u32, u32)>,
    /// The entries that aren't rewritten; their functions can't be unwound.
    pub refused: Vec<RefusedEntry>,
}

impl Model for RewrittenTables {
    ghost use Rattle.gnu_index.specs.Lists.{Lists};

    ghost Value = { Lists };

    ghost view = { λ t. record { bytes = t.bytes.items; rows = t.rows.items; filters = t.filters.items; refused = t.refused.items } };
}

/// The descriptors, without their filters.
fn descriptors_of(alloc: Global, scopes: &[GnuDescriptor]) -> Result<Vec<OwnDescriptor>, AllocError>
    ensures { IfOk result (λ v. v.items ≡ descriptors_of scopes.now) }
{
    scopes.iter().map(|s| s.descriptor).collect(alloc)
}

/// Adds the filter of a descriptor at address `place`, if it has one.
fn push_filter(
    filters: &mut Vec<(u32, u32)>,
    place: u32,
    filter: Option<u32>,
) -> Result<(), AllocError>
    ensures { OnOk result (filters.new.items ≡ filters.old.items ++ with_filter place filter []) }
{
    if let Some(filter) = filter {
        filters.push((place, filter))?;
    }
    Ok(())
}

/// Adds the filters of descriptors that are written one after the other from address `place` on.
#[tactic(auto, using(crate::proofs::Filtering::filtering))]
fn push_filters(
    filters: &mut Vec<(u32, u32)>,
    place: u32,
    scopes: &[GnuDescriptor],
) -> Result<(), AllocError>
    ensures { OnOk result (filters.new.items ≡ filters.old.items ++ filters_from place scopes.now) }
{
    let mut at = place;
    for s in scopes {
        push_filter(filters, at, s.filter)?;
        at = at.wrapping_add(s.descriptor.kind.size());
    }
    Ok(())
}

impl RewrittenTables {
    /// No rows and no tables yet.
    fn new(alloc: Global) -> RewrittenTables
        ensures { result ≡ no_tables }
    {
        RewrittenTables {
            bytes: Vec::new(alloc),
            rows: Vec::new(alloc),
            filters: Vec::new(alloc),
            refused: Vec::new(alloc),
        }
    }

    /// The address of the next table, if the first one is at `base`.
    fn place_after(&self, base: u32) -> u32
        ensures { result ≡ place_after base self.now }
    {
        base.wrapping_add((self.bytes.len() % 0x1_0000_0000) as u32)
    }

    /// The bytes of the tables, the rows, the filters and the refused entries.
    pub fn into_lists(self) -> (Vec<u8>, Vec<Entry>, Vec<(u32, u32)>, Vec<RefusedEntry>)
        ensures bytes { result.0.items ≡ self.bytes }
        ensures rows { result.1.items ≡ self.rows }
        ensures filters { result.2.items ≡ self.filters }
        ensures refused { result.3.items ≡ self.refused }
    {
        (self.bytes, self.rows, self.filters, self.refused)
    }

    /// Adds a row that isn't changed.
    fn push_same_row(&mut self, row: Entry) -> Result<(), AllocError>
        ensures { OnOk result (self.new ≡ with_same_row self.old row) }
    {
        self.rows.push(row)?;
        Ok(())
    }

    /// Adds an entry that isn't rewritten: its function can't be unwound.
    fn push_refused_entry(&mut self, start: u32, fault: EntryFault) -> Result<(), AllocError>
        ensures { OnOk result (self.new ≡ with_refused_entry self.old start fault) }
    {
        self.rows.push(Entry {
            start,
            body: EntryBody::CantUnwind,
        })?;
        self.refused.push(RefusedEntry { start, fault })?;
        Ok(())
    }

    /// Adds a table at `place`, with its row and its filters.
    fn push_table(
        &mut self,
        place: u32,
        start: u32,
        codes: &[u8],
        scopes: &[GnuDescriptor],
        descriptors: &[OwnDescriptor],
    ) -> Result<(), AllocError>
        requires { descriptors.now ≡ descriptors_of scopes.now }
        ensures { OnOk result (self.new ≡ with_table place self.old start codes.now scopes.now) }
    {
        push_table(&mut self.bytes, place, codes, descriptors)?;
        push_filters(
            &mut self.filters,
            place.wrapping_add(codes_end(codes)),
            scopes,
        )?;
        self.rows.push(Entry {
            start,
            body: EntryBody::Table(place),
        })?;
        Ok(())
    }

    /// Adds the table of an entry with its data area, at `place`.
    fn push_area(
        &mut self,
        alloc: Global,
        place: u32,
        entry: &Generic,
        area: &Lsda,
    ) -> Result<(), AllocError>
        ensures { OnOk result (self.new ≡ with_table place self.old entry.now.start (codes_of entry.now) (scopes_of entry.now area.now)) }
    {
        let codes = codes_of(alloc, entry)?;
        let scopes = scopes_of(alloc, entry, area)?;
        let descriptors = descriptors_of(alloc, &scopes)?;
        self.push_table(place, entry.start(), &codes, &scopes, &descriptors)
    }

    /// Adds an accepted entry, at `place`. The head of its data area can be read.
    fn push_rewritten_entry(
        &mut self,
        alloc: Global,
        place: u32,
        entry: &Generic,
    ) -> Result<(), AllocError>
        ensures { OnOk result (self.new ≡ with_area place self.old entry.now (area_of entry.now)) }
    {
        match entry.lsda() {
            Ok(area) => self.push_area(alloc, place, entry, &area),
            Err(_) => Ok(()),
        }
    }

    /// Adds a generic entry, at `place`.
    fn push_entry_or_fault(
        &mut self,
        alloc: Global,
        place: u32,
        entry: &Generic,
        fault: Option<EntryFault>,
    ) -> Result<(), AllocError>
        ensures { OnOk result (self.new ≡ with_entry_or_fault place self.old entry.now fault) }
    {
        match fault {
            None => self.push_rewritten_entry(alloc, place, entry),
            Some(fault) => self.push_refused_entry(entry.start(), fault),
        }
    }

    /// Adds row `k` of an index table; if its entry is generic, adds a new table after those so far.
    #[tactic(auto, using(eh_index::proofs::Search::entries_len))]
    fn push_row(
        &mut self,
        alloc: Global,
        index: &Index,
        personality: Option<u32>,
        base: u32,
        k: u32,
    ) -> Result<(), AllocError>
        requires row { k < entry_count index.now }
        requires personality { personality ≡ personality_in index.now }
        ensures { OnOk result (self.new ≡ with_row index.now base self.old k) }
    {
        let place = self.place_after(base);
        match Generic::of(index, k) {
            None => self.push_same_row(row_at(index.image(), k)),
            Some(entry) => {
                let fault = entry.fault(index.image(), personality);
                self.push_entry_or_fault(alloc, place, &entry, fault)
            }
        }
    }
}

/// The rows of an index table, with tables of the compact model for its generic entries; the first is at address `base`. An entry with
/// a fault isn't rewritten: its function can't be unwound, and it is listed. Linear in rows, records and actions. Err if memory runs
/// out.
#[tactic(auto, using(crate::proofs::Rowing::rowing), unfolding(crate::specs::Tables::rewrite_rows))]
pub fn rewrite_rows(alloc: Global, index: &Index, base: u32) -> Result<RewrittenTables, AllocError>
    ensures { IfOk result (λ t. t ≡ rewrite_rows index.now base) }
{
    let image = index.image();
    let personality = personality_symbol(image);
    let mut tables = RewrittenTables::new(alloc);
    for k in 0..row_count(image) {
        tables.push_row(alloc, index, personality, base, k)?;
    }
    Ok(tables)
}

/// As `rewritten`, within a limit. Err `TooLarge` if and only if the call-site tables of all rows have more than 1,048,576 bytes.
/// Linear in rows, records and actions.
pub fn rewritten_within_limit(
    alloc: Global,
    index: &Index,
    base: u32,
) -> Result<RewrittenTables, GnuFault>
    ensures accepted { IfOk result (λ _. sites_refusal index.now ≡ None) }
    ensures made { IfOk result (λ t. t ≡ rewrite_rows index.now base) }
    // Running out of memory is always allowed.
    ensures refused { IfErr result (λ fault. fault ≢ OutOfMemory → sites_refusal index.now ≡ Some fault) }
{
    match sites_refusal(index) {
        None => Ok(rewrite_rows(alloc, index, base)?),
        Some(fault) => Err(fault),
    }
}
