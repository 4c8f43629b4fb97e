//! The call-site records of a language-specific data area. docs/rules/gnu-tables.md states the format.
ghost use Rattle.std.specs.Prelude.{◌≡◌, ◌+◌, ◌^◌, ◌<◌};
ghost use Rattle.std.specs.Iterator.{YieldsFirst, item_count};
ghost use Rattle.gnu_lsda.specs.Sites.{record_at, next_record_at, records_of, table_end};

use crate::leb128::uleb128_at;
use crate::lsda::Lsda;
use std::marker::Model;

/// A call-site record: what it tells of a part of a function.
#[derive(Clone, Copy)]
pub struct Record {
    /// The start of the part, in bytes from the function's start.
    pub start: u32,
    /// The size of the part, in bytes.
    pub size: u32,
    /// The landing pad, in bytes from the function's start; 0 for none.
    pub pad: u32,
    /// The start of its chain of actions: the offset in bytes into the action table, plus 1; 0 for no chain.
    pub action: u32,
}

/// Why the records can't be read further.
#[derive(Clone, Copy)]
pub enum RecordFault {
    /// A record goes past the table's end or the end of the bytes, or one of its numbers isn't accepted.
    Short,
}

/// What is at a place of the table.
#[derive(Clone, Copy)]
pub enum NextRecord {
    /// The end of the table.
    End,
    /// A record, and the place after it (an index into the bytes).
    One(Record, usize),
    /// It can't be read, for this reason.
    Fault(RecordFault),
}

/// The record at a place.
fn record_at(table: &[u8], place: usize) -> NextRecord
    ensures { result ≡ record_at table.now place }
{
    let Some((start, second)) = uleb128_at(table, place) else {
        return NextRecord::Fault(RecordFault::Short);
    };
    let Some((size, third)) = uleb128_at(table, second) else {
        return NextRecord::Fault(RecordFault::Short);
    };
    let Some((pad, fourth)) = uleb128_at(table, third) else {
        return NextRecord::Fault(RecordFault::Short);
    };
    let Some((action, next)) = uleb128_at(table, fourth) else {
        return NextRecord::Fault(RecordFault::Short);
    };
    let record = Record {
        start,
        size,
        pad,
        action,
    };
    NextRecord::One(record, next)
}

/// Iterates over the records of a call-site table, in order; the first that can't be read is the last item. In contracts, it is the
/// list of items still to come. It reads the table in place and allocates nothing.
#[derive(Drop)]
pub struct Records<'a> {
    table: &'a [u8],
    end: usize,
    place: usize,
    over: bool,
}

impl<'a> Model for Records<'a> {
    ghost use Rattle.std.specs.Prelude.{List, Result, [], if◌then◌else◌};
    ghost use Rattle.gnu_lsda.specs.declared.records.Record.{Record};
    ghost use Rattle.gnu_lsda.specs.declared.records.RecordFault.{RecordFault};
    ghost use Rattle.gnu_lsda.specs.Sites.{records_from};

    ghost Value = { List (Result Record RecordFault) };

    ghost view = { λ r. if r.over then [] else records_from r.table.now r.end r.place };
}

/// What is at a place of a table that ends at `end`.
fn next_record_at(table: &[u8], end: usize, place: usize) -> NextRecord
    ensures { result ≡ next_record_at table.now end place }
{
    if place >= end {
        NextRecord::End
    } else {
        record_at(table, place)
    }
}

impl<'a> Lsda<'a> {
    /// The place after the call-site table: an index into the bytes.
    pub(crate) fn table_end(&self) -> usize
        ensures place { result ≡ table_end self.now }
        ensures fits { result < 2 ^ 63 + 2 ^ 32 }
    {
        self.records + self.size as usize
    }

    /// The call-site records.
    pub fn records(&self) -> Records<'a>
        ensures { result ≡ records_of self.now }
    {
        let end = self.table_end();
        let bytes = self.bytes;
        Records {
            table: &bytes[..end.min(bytes.len())],
            end,
            place: self.records,
            over: false,
        }
    }
}

impl<'a> Iterator for Records<'a> {
    type Item = Result<Record, RecordFault>;

    ghost next_gives = { YieldsFirst (λ s. s) };

    ghost remaining = { item_count (λ s. s) };

    #[tactic(auto, using(crate::proofs::Listing::over, crate::proofs::Listing::one, crate::proofs::Listing::fault))]
    fn next(&mut self) -> Option<Result<Record, RecordFault>> {
        if self.over {
            return None;
        }
        match next_record_at(self.table, self.end, self.place) {
            NextRecord::End => {
                self.over = true;
                None
            }
            NextRecord::One(record, next) => {
                self.place = next;
                Some(Ok(record))
            }
            NextRecord::Fault(fault) => {
                self.over = true;
                Some(Err(fault))
            }
        }
    }
}
