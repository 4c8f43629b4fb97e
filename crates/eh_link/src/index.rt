//! Builds the exception index (IHI 0038, "Index table entries"; docs/rules/linking.md).
ghost use Rattle.std.specs.Prelude.{◌≡◌, ◌+◌, ◌++◌, ◌^◌, map, IfOk, OnOk};
ghost use Rattle.std.specs.List.{flat_map};
ghost use Rattle.eh_link.specs.Index.{row_of, rows_in, in_order, closing, index_of};

use crate::places::{Addresses, PlacedObject, address_at};
use asm_relocatable::object::{IndexRow, RowEntry};
use eh_codes::row::{Entry, EntryBody, push_rows};
use std::alloc::{AllocError, Global};

/// The index entry of an object's row, given the addresses of the object's sections.
fn row_of(at: Addresses, row: &IndexRow) -> Entry
    ensures { result ≡ row_of at row.now }
{
    let body = match row.entry {
        RowEntry::CantUnwind => EntryBody::CantUnwind,
        RowEntry::Inline(given) => EntryBody::Inline(given),
        RowEntry::Table(offset) => EntryBody::Table(address_at(at.extab, offset)),
    };
    Entry {
        start: address_at(at.text, row.offset),
        body,
    }
}

/// Appends the entries of an object.
fn put_rows(out: &mut Vec<Entry>, placed: &PlacedObject) -> Result<(), AllocError>
    ensures { OnOk result (out.new.items ≡ out.old.items ++ rows_in placed.now) }
{
    for row in placed.object.rows.as_slice() {
        out.push(row_of(placed.at, row))?;
    }
    Ok(())
}

/// The entries of all objects.
fn all_rows(alloc: Global, all: &[PlacedObject]) -> Result<Vec<Entry>, AllocError>
    ensures { IfOk result (λ rows. rows.items ≡ flat_map rows_in all.now) }
{
    let mut out = Vec::new(alloc);
    for placed in all {
        put_rows(&mut out, placed)?;
    }
    Ok(out)
}

/// Sorts entries by their starts; those with the same start keep their order.
fn sort_rows(rows: &mut Vec<Entry>) -> Result<(), AllocError>
    ensures { OnOk result (rows.new.items ≡ in_order rows.old.items) }
{
    rows.sort_by_key(|row| row.start)?;
    Ok(())
}

/// The entry after all others: nothing unwinds from there on.
fn closing(end: u32) -> Entry
    ensures { result ≡ closing end }
{
    Entry {
        start: end,
        body: EntryBody::CantUnwind,
    }
}

/// The bytes of the index at the address `start`, where the text of the image ends at `end`.
pub(crate) fn index_of(
    alloc: Global,
    end: u32,
    start: u32,
    all: &[PlacedObject],
) -> Result<Vec<u8>, AllocError>
    ensures { IfOk result (λ bytes. bytes.items ≡ index_of end start all.now) }
{
    let mut rows = all_rows(alloc, all)?;
    sort_rows(&mut rows)?;
    rows.push(closing(end))?;
    let mut bytes = Vec::new(alloc);
    push_rows(&mut bytes, start, &rows)?;
    Ok(bytes)
}
