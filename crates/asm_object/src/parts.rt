//! The sections of an object as they grow, statement by statement (docs/rules/sources.md).
ghost use Rattle.std.specs.Prelude.{◌≡◌, ◌<◌, ◌++◌, ◌∷◌, [], nat_lt, length, flat_map, OnOk};
ghost use Rattle.asm_layout.specs.Labels.{label_places};
ghost use Rattle.eh_word.specs.Bytes.{gap};
ghost use Rattle.asm_object.specs.Bytes.{word_bytes};
ghost use Rattle.asm_object.specs.Pieces.{place_at, words_piece, filling_piece, pool_pieces, table_pieces, code_piece, data_piece, pieces_of_puts, set_pieces, own_piece_by, row_entry, row_of, rows_of_puts};
ghost use Rattle.asm_object.specs.Built.{text_with_mark, text_with, with_piece, with_pieces, no_sections};

use crate::bytes::push_filling;
use crate::code::EncodeResult;
use crate::part::Part;
use asm_layout::labels::Labels;
use asm_layout::placed::{PlacedFunction, PlacedPool, Puts};
use asm_layout::walk::{entry_at, is_instruction, multiple};
use asm_layout::word::{Words, low_part};
use asm_layout::{
    bare_form, branch_form, computed_form, data_form, local_form, name_form, nameless_form,
    reader_form, wide_form,
};
use asm_relocatable::object::{IndexRow, IndexRows, Mark, Marks, Octets, RowEntry};
use asm_relocatable::place::{Place, Section};
use asm_statements::StmtKind;
use asm_unwind::EntryWords;
use eh_word::bytes::gap;
use std::alloc::{AllocError, Global};

/// The text so far, with a mark at each change between code and data.
#[derive(Drop)]
pub struct MarkedText {
    /// The bytes and relocations.
    pub part: Part,
    /// The marks, ascending by offset.
    pub marks: Marks,
    /// Whether the last bytes are code; None if there are none.
    last: Option<bool>,
}

impl MarkedText {
    /// Adds a mark if bytes were appended since a length and their kind differs from that of the bytes before.
    fn mark(&mut self, before: usize, place: u64, code: bool) -> Result<(), AllocError>
        ensures { OnOk result (self.new ≡ text_with_mark self.old (nat_lt before (length self.old.part.bytes)) place code) }
    {
        if self.part.bytes.len() <= before {
            return Ok(());
        }
        match self.last {
            Some(last) if last == code => {}
            _ => {
                let offset = low_part(place);
                self.marks.push(Mark { offset, code })?;
            }
        }
        self.last = Some(code);
        Ok(())
    }

    /// Appends a statement's data.
    fn push_data(
        &mut self,
        alloc: Global,
        labels: &Labels,
        at: Place,
        kind: &StmtKind,
    ) -> Result<(), AllocError>
        ensures { OnOk result (self.new ≡ text_with self.old (data_piece (label_places labels.now) kind.now at)) }
    {
        let before = self.part.bytes.len();
        self.part.push_data(alloc, labels, at, kind)?;
        self.mark(before, at.offset, false)
    }

    /// Appends an instruction.
    fn push_instruction(
        &mut self,
        alloc: Global,
        labels: &Labels,
        at: Place,
        kind: &StmtKind,
        code: EncodeResult,
    ) -> Result<(), AllocError>
        ensures { OnOk result (self.new ≡ text_with self.old (code_piece (label_places labels.now) kind.now at code)) }
    {
        let before = self.part.bytes.len();
        self.part.push_instruction(alloc, labels, at, kind, code)?;
        self.mark(before, at.offset, true)
    }

    /// Fills up to the next multiple.
    fn push_filling(&mut self, place: u64, multiple: u64) -> Result<(), AllocError>
        requires { 0 < multiple }
        ensures { OnOk result (self.new ≡ text_with self.old (filling_piece (place_at Section.Text place) (gap place multiple))) }
    {
        let before = self.part.bytes.len();
        push_filling(&mut self.part.bytes, place, multiple)?;
        self.mark(before, place, true)
    }

    /// Appends the words of a literal pool.
    fn push_pool(&mut self, labels: &Labels, from: u64, words: Words) -> Result<(), AllocError>
        ensures { OnOk result (self.new ≡ text_with self.old (words_piece (label_places labels.now) (place_at Section.Text from) words)) }
    {
        let before = self.part.bytes.len();
        self.part.push_pool(labels, from, words)?;
        self.mark(before, from, false)
    }
}

/// The sections of an object so far.
#[derive(Drop)]
pub struct Sections {
    /// The text.
    pub text: MarkedText,
    /// The read-only data.
    pub rodata: Part,
    /// The exception tables.
    pub extab: Part,
    /// The initialized data.
    pub init: Part,
}

impl Sections {
    /// Empty sections.
    pub fn new(alloc: Global) -> Sections
        ensures { result ≡ no_sections }
    {
        Sections {
            text: MarkedText {
                part: Part::new(alloc),
                marks: Marks::new(alloc),
                last: None,
            },
            rodata: Part::new(alloc),
            extab: Part::new(alloc),
            init: Part::new(alloc),
        }
    }

    /// Appends a statement's data to its section.
    fn push_data(
        &mut self,
        alloc: Global,
        labels: &Labels,
        at: Place,
        kind: &StmtKind,
    ) -> Result<(), AllocError>
        ensures { OnOk result (self.new ≡ with_piece self.old (data_piece (label_places labels.now) kind.now at)) }
    {
        match at.section {
            Section::Text => self.text.push_data(alloc, labels, at, kind),
            Section::Rodata => self.rodata.push_data(alloc, labels, at, kind),
            Section::Extab => self.extab.push_data(alloc, labels, at, kind),
            Section::Init => self.init.push_data(alloc, labels, at, kind),
            Section::Bss => Ok(()),
        }
    }

    /// Appends an instruction to its section.
    fn push_instruction(
        &mut self,
        alloc: Global,
        labels: &Labels,
        at: Place,
        kind: &StmtKind,
        code: EncodeResult,
    ) -> Result<(), AllocError>
        ensures { OnOk result (self.new ≡ with_piece self.old (code_piece (label_places labels.now) kind.now at code)) }
    {
        match at.section {
            Section::Text => self.text.push_instruction(alloc, labels, at, kind, code),
            Section::Rodata => self.rodata.push_instruction(alloc, labels, at, kind, code),
            Section::Extab => self.extab.push_instruction(alloc, labels, at, kind, code),
            Section::Init => self.init.push_instruction(alloc, labels, at, kind, code),
            Section::Bss => Ok(()),
        }
    }

    /// Appends a statement's own bytes. `code` is the result of the encoder.
    pub fn push_own(
        &mut self,
        alloc: Global,
        labels: &Labels,
        at: Place,
        kind: &StmtKind,
        code: EncodeResult,
    ) -> Result<(), AllocError>
        ensures { OnOk result (self.new ≡ with_piece self.old (own_piece_by (label_places labels.now) kind.now at code)) }
    {
        if is_instruction(kind) {
            self.push_instruction(alloc, labels, at, kind, code)
        } else {
            self.push_data(alloc, labels, at, kind)
        }
    }

    /// Fills a section up to the next multiple.
    fn push_filling(&mut self, at: Place, multiple: u64) -> Result<(), AllocError>
        requires { 0 < multiple }
        ensures { OnOk result (self.new ≡ with_piece self.old (filling_piece at (gap at.offset multiple))) }
    {
        let count = gap(at.offset, multiple);
        match at.section {
            Section::Text => self.text.push_filling(at.offset, multiple),
            Section::Rodata => self.rodata.bytes.push_zeros(count as usize),
            Section::Extab => self.extab.bytes.push_zeros(count as usize),
            Section::Init => self.init.bytes.push_zeros(count as usize),
            Section::Bss => Ok(()),
        }
    }

    /// Appends a literal pool to the text.
    pub fn push_pool(&mut self, labels: &Labels, pool: PlacedPool) -> Result<(), AllocError>
        ensures { OnOk result (self.new ≡ with_pieces self.old (pool_pieces (label_places labels.now) pool)) }
    {
        let PlacedPool { from, words } = pool;
        if words.is_empty() {
            return Ok(());
        }
        self.text.push_filling(from, 4)?;
        let place = from.saturating_add(gap(from, 4));
        self.text.push_pool(labels, place, words)
    }

    /// Appends the words of a function's table to the exception tables, at the next multiple of 4 from a place on.
    fn push_table(&mut self, place: u64, entry: &EntryWords) -> Result<(), AllocError>
        ensures { OnOk result (self.new ≡ with_pieces self.old (table_pieces place (Some entry.now))) }
    {
        match entry {
            EntryWords::Table(words) => {
                self.extab.bytes.push_zeros(gap(place, 4) as usize)?;
                push_table_words(&mut self.extab.bytes, words.as_slice())
            }
            EntryWords::CantUnwind | EntryWords::Inline(_) => Ok(()),
        }
    }

    /// Appends the literal pool or the unwind table that a statement emits.
    fn push_put(
        &mut self,
        labels: &Labels,
        entries: &[Option<EntryWords>],
        puts: Puts,
    ) -> Result<(), AllocError>
        ensures { OnOk result (self.new ≡ with_pieces self.old (pieces_of_puts entries.now (label_places labels.now) puts)) }
    {
        match puts {
            Puts::Pool(pool) => self.push_pool(labels, pool),
            Puts::Function(function) => match entry_at(entries, function.number) {
                Some(entry) => self.push_table(function.from, entry),
                None => Ok(()),
            },
            Puts::Nothing => Ok(()),
        }
    }

    /// Appends the filling of a statement, and the pool or table that it emits.
    pub fn push_set(
        &mut self,
        labels: &Labels,
        entries: &[Option<EntryWords>],
        at: Place,
        kind: &StmtKind,
        puts: Puts,
    ) -> Result<(), AllocError>
        ensures { OnOk result (self.new ≡ with_pieces self.old (set_pieces entries.now (label_places labels.now) kind.now at puts)) }
    {
        match kind {
            StmtKind::Align(n) => self.push_filling(at, multiple(*n)),
            computed_form!()
            | nameless_form!()
            | reader_form!()
            | wide_form!()
            | branch_form!()
            | local_form!()
            | StmtKind::Udf { .. }
            | data_form!()
            | name_form!()
            | bare_form!() => self.push_put(labels, entries, puts),
        }
    }
}

/// Appends the words of a table.
fn push_table_words(bytes: &mut Octets, words: &[u32]) -> Result<(), AllocError>
    ensures { OnOk result (bytes.new ≡ bytes.old ++ flat_map word_bytes words.now) }
{
    for word in words {
        bytes.push_word(*word)?;
    }
    Ok(())
}

/// The row entry of an unwind entry whose table is at an offset of the exception tables.
fn row_entry(entry: &EntryWords, table: u64) -> RowEntry
    ensures { result ≡ row_entry table entry.now }
{
    match entry {
        EntryWords::CantUnwind => RowEntry::CantUnwind,
        EntryWords::Inline(word) => RowEntry::Inline(*word),
        EntryWords::Table(_) => RowEntry::Table(low_part(table)),
    }
}

/// Adds the index row of the function that a statement begins, if it does and the function has an entry.
pub fn push_row(
    rows: &mut IndexRows,
    entries: &[Option<EntryWords>],
    puts: &Puts,
) -> Result<(), AllocError>
    ensures { OnOk result (rows.new ≡ rows.old ++ rows_of_puts entries.now puts.now) }
{
    match puts {
        Puts::Function(function) => {
            if let Some(entry) = entry_at(entries, function.number) {
                rows.push(row_of(*function, entry))?;
            }
            Ok(())
        }
        Puts::Pool(_) | Puts::Nothing => Ok(()),
    }
}

/// The index row of a function.
fn row_of(function: PlacedFunction, entry: &EntryWords) -> IndexRow
    ensures { result ∷ [] ≡ row_of function (Some entry.now) }
{
    let table = function.from.saturating_add(gap(function.from, 4));
    IndexRow {
        offset: low_part(function.start),
        entry: row_entry(entry, table),
    }
}
