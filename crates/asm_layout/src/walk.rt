//! Walks over the statements and keeps the current place and the words of the next pool (docs/rules/sources.md).
ghost use Rattle.std.specs.Prelude.{◌≡◌, ◌<◌, [], Some, option_map, length, IfOk, OnOk, OnErr};
ghost use Rattle.std.specs.List.{position_or_len};
ghost use Rattle.asm_layout.specs.Given.{data_value};
ghost use Rattle.asm_layout.specs.Sizes.{times, multiple, data_size, size_at, is_instruction, size_in, sizes_with_more, is_too_large, table_size};
ghost use Rattle.asm_layout.specs.SameWords.{same_word};
ghost use Rattle.asm_statements.specs.declared.statement.StmtKind.TheVariants.{Pool as ForPool};
ghost use Rattle.asm_layout.specs.Walks.{entry_at, cursor_place, start, after_fnstart, after_fnend, handling, in_section, with_more_bytes, cursor_after, pool_with, pool_after, ends_pool, pool_place, sizes_with_pool, next};
ghost use Rattle.asm_layout.specs.Placing.{word_offset, pool_here, function_puts, puts_at, unresolved_stmt};

use crate::given::Data;
use crate::placed::{PlacedFunction, PlacedPool, PlacedStmt, Puts};
use crate::sort::given;
use crate::word::{Word, Words, word_of};
use crate::{
    bare_form, branch_form, computed_form, data_form, local_form, name_form, nameless_form,
    reader_form, wide_form,
};
use asm_relocatable::place::{Place, Section};
use asm_statements::computation::{
    of_register_number, of_three_registers, of_two_registers, of_two_registers_number,
};
use asm_statements::{Stmt, StmtKind};
use asm_unwind::EntryWords;
use eh_word::bytes::gap;
use indexmap::IndexSet;
use std::alloc::{AllocError, Global};
use std::marker::Model;
use std::mem;

/// The size of each section so far, in bytes. Sums are capped at 2^64 - 1, far above what a section may have.
#[derive(Clone, Copy)]
pub struct Sizes {
    /// Bytes of the text.
    pub text: u64,
    /// Bytes of the read-only data.
    pub rodata: u64,
    /// Bytes of the exception tables.
    pub extab: u64,
    /// Bytes of the initialized data.
    pub init: u64,
    /// Bytes of bss.
    pub bss: u64,
}

/// The most bytes that a section may have.
pub const MOST_BYTES: u64 = 1_048_576;

impl Sizes {
    const NONE: Sizes = Sizes {
        text: 0,
        rodata: 0,
        extab: 0,
        init: 0,
        bss: 0,
    };

    /// The size of a section, in bytes.
    pub fn of(self, section: Section) -> u64
        ensures { result ≡ size_in self section }
    {
        match section {
            Section::Text => self.text,
            Section::Rodata => self.rodata,
            Section::Extab => self.extab,
            Section::Init => self.init,
            Section::Bss => self.bss,
        }
    }

    /// Adds bytes to a section.
    fn grow(&mut self, section: Section, by: u64)
        ensures { self.new ≡ sizes_with_more self.old section by }
    {
        match section {
            Section::Text => self.text = self.text.saturating_add(by),
            Section::Rodata => self.rodata = self.rodata.saturating_add(by),
            Section::Extab => self.extab = self.extab.saturating_add(by),
            Section::Init => self.init = self.init.saturating_add(by),
            Section::Bss => self.bss = self.bss.saturating_add(by),
        }
    }

    /// The sizes with more bytes in a section.
    pub fn with_more(mut self, section: Section, by: u64) -> Sizes
        ensures { result ≡ sizes_with_more self section by }
    {
        self.grow(section, by);
        self
    }

    /// Whether a section has more than `MOST_BYTES` bytes.
    pub fn is_too_large(self) -> bool
        ensures { result ≡ is_too_large self }
    {
        self.text > MOST_BYTES
            || self.rodata > MOST_BYTES
            || self.extab > MOST_BYTES
            || self.init > MOST_BYTES
            || self.bss > MOST_BYTES
    }
}

/// The alignment in bytes that `.align n` asks for; 1 if n is outside of 0 to 3.
pub fn multiple(n: i64) -> u64
    ensures { result ≡ multiple n }
{
    match n {
        1 => 2,
        2 => 4,
        3 => 8,
        _ => 1,
    }
}

/// A length times the size of an element, capped at 2^64 - 1.
fn times(len: usize, size: u64) -> u64
    ensures { result ≡ times len size }
{
    (len as u64).saturating_mul(size)
}

/// The size of data, in bytes.
fn data_size(given: Data<'_>) -> u64
    ensures { result ≡ data_size (data_value given.entry) }
{
    match given {
        Data::Fields(width, fields) => times(fields.len(), width.bytes()),
        Data::Text { text, closed } => {
            let size = times(text.len(), 1);
            if closed { size.saturating_add(1) } else { size }
        }
        Data::Zeros(n) => u64::try_from(n).unwrap_or(0),
    }
}

/// The size in bytes of a statement at a place. Computations state their own size; `bl`, `b.w` and the barriers have
/// two halfwords, other instructions one; `.align` fills up to its multiple.
fn size_at(place: u64, kind: &StmtKind) -> u64
    ensures { result ≡ size_at place kind.now }
{
    if let Some(found) = given(kind) {
        return data_size(found);
    }
    match kind {
        StmtKind::TwoRegisters { what, d, m } => of_two_registers(*what, *d, *m).bytes,
        StmtKind::ThreeRegisters { what, d, n, m } => of_three_registers(*what, *d, *n, *m).bytes,
        StmtKind::RegisterNumber { what, d, imm } => of_register_number(*what, *d, *imm).bytes,
        StmtKind::TwoRegistersNumber { what, d, n, imm } => of_two_registers_number(
            *what, *d, *n, *imm,
        ).bytes,
        nameless_form!()
        | reader_form!()
        | StmtKind::B(_)
        | StmtKind::BCond { .. }
        | StmtKind::Cbz { .. }
        | StmtKind::Udf { .. } => 2,
        wide_form!() | StmtKind::Bl(_) | StmtKind::BWide(_) => 4,
        StmtKind::Align(n) => gap(place, multiple(*n)),
        data_form!() | name_form!() | bare_form!() => 0,
    }
}

/// Whether a statement is an instruction.
pub fn is_instruction(kind: &StmtKind) -> bool
    ensures { result ≡ is_instruction kind.now }
{
    match kind {
        computed_form!()
        | nameless_form!()
        | reader_form!()
        | wide_form!()
        | branch_form!()
        | local_form!()
        | StmtKind::Udf { .. } => true,
        data_form!() | StmtKind::Align(_) | name_form!() | bare_form!() => false,
    }
}

/// The current place of the walk.
#[derive(Clone, Copy)]
pub struct LayoutPosition {
    /// The section of the next byte.
    pub section: Section,
    /// The section to return to at `.fnend`: the one that `.handlerdata` left.
    pub left: Option<Section>,
    /// The sizes of the sections so far.
    pub sizes: Sizes,
    /// Whether a function is open.
    pub inside: bool,
    /// How many functions have begun.
    pub functions: usize,
}

impl LayoutPosition {
    const START: LayoutPosition = LayoutPosition {
        section: Section::Text,
        left: None,
        sizes: Sizes::NONE,
        inside: false,
        functions: 0,
    };

    /// The offset in bytes of the next byte in its section.
    fn place(self) -> u64
        ensures { result ≡ size_in self.sizes self.section }
    {
        self.sizes.of(self.section)
    }

    /// The place of the next byte.
    pub fn cursor_place(self) -> Place
        ensures { result ≡ cursor_place self }
    {
        Place {
            section: self.section,
            offset: self.place(),
        }
    }
}

/// The size in bytes of a function's unwind table at a place of the exception tables, alignment included.
fn table_size(place: u64, entry: &EntryWords) -> u64
    ensures { result ≡ table_size place (Some entry.now) }
{
    match entry {
        EntryWords::Table(words) => gap(place, 4).saturating_add(times(words.as_slice().len(), 4)),
        EntryWords::CantUnwind | EntryWords::Inline(_) => 0,
    }
}

/// The unwind entry of a function by its number, or None if it has none.
pub fn entry_at(entries: &[Option<EntryWords>], function: usize) -> Option<&EntryWords>
    ensures { option_map (λ e. e.now) result ≡ entry_at entries.now function }
{
    match entries.get(function) {
        Some(Some(entry)) => Some(entry),
        _ => None,
    }
}

impl LayoutPosition {
    /// Passes a `.fnstart`: the function's table takes its room in the exception tables.
    fn start(&mut self, entries: &[Option<EntryWords>])
        ensures { self.new ≡ after_fnstart entries.now self.old }
    {
        if !self.inside && self.functions < usize::MAX {
            let size = match entry_at(entries, self.functions) {
                Some(entry) => table_size(self.sizes.extab, entry),
                None => 0,
            };
            self.sizes.grow(Section::Extab, size);
            self.inside = true;
            self.functions += 1;
        }
    }

    /// Passes a `.fnend`.
    fn end(&mut self)
        ensures { self.new ≡ after_fnend self.old }
    {
        self.section = self.left.unwrap_or(self.section);
        self.left = None;
        self.inside = false;
    }

    /// Switches to the exception tables, unless it is there already.
    fn handle(&mut self)
        ensures { self.new ≡ handling self.old }
    {
        if self.section != Section::Extab {
            self.left = Some(self.section);
            self.section = Section::Extab;
        }
    }

    /// Switches to a section.
    fn enter(&mut self, section: Section)
        ensures { self.new ≡ in_section self.old section }
    {
        self.section = section;
    }

    /// Adds bytes to the current section.
    fn grow(&mut self, by: u64)
        ensures { self.new ≡ with_more_bytes self.old by }
    {
        self.sizes.grow(self.section, by);
    }

    /// The function that a statement begins.
    fn function_puts(self, kind: &StmtKind) -> Puts
        ensures { result ≡ function_puts self kind.now }
    {
        match kind {
            StmtKind::FnStart => {
                if self.inside {
                    return Puts::Nothing;
                }
                Puts::Function(PlacedFunction {
                    start: self.sizes.text,
                    from: self.sizes.extab,
                    number: self.functions,
                })
            }
            _ => Puts::Nothing,
        }
    }

    /// Passes a statement; pools are left out.
    fn pass(&mut self, kind: &StmtKind, entries: &[Option<EntryWords>])
        ensures { self.new ≡ cursor_after entries.now self.old kind.now }
    {
        match kind {
            StmtKind::Text => self.enter(Section::Text),
            StmtKind::Data => self.enter(Section::Init),
            StmtKind::Bss => self.enter(Section::Bss),
            StmtKind::Rodata => self.enter(Section::Rodata),
            StmtKind::FnStart => self.start(entries),
            StmtKind::FnEnd => self.end(),
            StmtKind::HandlerData => self.handle(),
            _ => {
                let size = size_at(self.place(), kind);
                self.grow(size);
            }
        }
    }
}

/// The words of the next pool, each once, in the order of their first use. Contracts see a list.
#[derive(Drop)]
pub struct Pool {
    words: IndexSet<Word>,
}

impl Model for Pool {
    ghost use Rattle.std.specs.Prelude.{List};
    ghost use Rattle.asm_layout.specs.declared.word.Word.{Word};

    ghost Value = { List Word };

    ghost view = { λ pool. pool.words.keys };
}

impl Pool {
    /// An empty pool.
    fn new(alloc: Global) -> Pool
        ensures { length result ≡ 0 }
    {
        Pool {
            words: IndexSet::new(alloc),
        }
    }

    /// The index of a word in the pool; a new word is added at the end. If memory runs out, the pool is unchanged.
    fn intern(&mut self, word: Word) -> Result<usize, AllocError>
        ensures index { IfOk result (λ index. index ≡ position_or_len (same_word word) self.old) }
        ensures pool { OnOk result (self.new ≡ pool_with self.old word) }
        ensures err { OnErr result (self.new ≡ self.old) }
    {
        let (index, _) = self.words.insert_full(word)?;
        Ok(index)
    }

    /// The number of words.
    pub(crate) fn len(&self) -> usize
        ensures { result ≡ length self.now }
    {
        self.words.len()
    }

    /// The words, in order.
    fn into_words(self, alloc: Global) -> Result<Words, AllocError>
        ensures { IfOk result (λ words. words ≡ self) }
    {
        let mut words = Vec::new(alloc);
        for word in self.words {
            words.push(word)?;
        }
        Ok(Words::of_vec(words))
    }
}

/// A walk over statements.
#[derive(Drop)]
pub struct Walk {
    /// The current place.
    pub at: LayoutPosition,
    /// The words of the next pool so far.
    pub pool: Pool,
}

impl Walk {
    /// The walk before the first statement.
    pub(crate) fn new(alloc: Global) -> Walk
        ensures { result ≡ start }
    {
        Walk {
            at: LayoutPosition::START,
            pool: Pool::new(alloc),
        }
    }

    /// Where a pool that is emitted here begins.
    pub(crate) fn pool_place(&self) -> u64
        ensures { result ≡ pool_place self.now }
    {
        self.at
            .sizes
            .text
            .saturating_add(gap(self.at.sizes.text, 4))
    }

    /// Whether a statement emits a pool with words.
    pub(crate) fn ends_pool(&self, kind: &StmtKind) -> bool
        ensures { result ≡ ends_pool self.now kind.now }
    {
        matches!(kind, StmtKind::Pool) && self.at.section == Section::Text && self.pool.len() > 0
    }

    /// The sizes after the pool that is emitted here. A pool without words adds nothing.
    pub(crate) fn sizes_with_pool(&self) -> Sizes
        ensures { result ≡ sizes_with_pool self.now }
    {
        if self.pool.len() == 0 {
            return self.at.sizes;
        }
        let by = gap(self.at.sizes.text, 4).saturating_add(times(self.pool.len(), 4));
        self.at.sizes.with_more(Section::Text, by)
    }

    /// The pool that is emitted at the end of the text.
    pub(crate) fn into_pool(self, alloc: Global) -> Result<PlacedPool, AllocError>
        ensures { IfOk result (λ pool. pool ≡ pool_here self) }
    {
        Ok(PlacedPool {
            from: self.at.sizes.text,
            words: self.pool.into_words(alloc)?,
        })
    }

    /// The offset in bytes of a statement's word in its pool; a new word is added. None if it loads none.
    fn put_word(&mut self, alloc: Global, kind: &StmtKind) -> Result<Option<u64>, AllocError>
        ensures word { IfOk result (λ word. word ≡ word_offset self.old kind.now) }
        ensures walk { OnOk result (self.new ≡ record self.old { pool = pool_after self.old kind.now }) }
    {
        match kind {
            StmtKind::LdrPool { value, .. } => {
                if self.at.section != Section::Text {
                    return Ok(None);
                }
                let index = self.pool.intern(word_of(alloc, value.expr())?)?;
                Ok(Some(times(index, 4)))
            }
            _ => Ok(None),
        }
    }

    /// Emits the pool at a `.pool` and passes it.
    fn end_pool(&mut self, alloc: Global) -> Result<Puts, AllocError>
        ensures puts { IfOk result (λ puts. puts ≡ puts_at self.old ForPool) }
        ensures walk { OnOk result (self.new ≡ next [] self.old ForPool) }
    {
        if self.at.section != Section::Text {
            return Ok(Puts::Nothing);
        }
        let from = self.at.sizes.text;
        self.at.sizes = self.sizes_with_pool();
        let words = mem::replace(&mut self.pool, Pool::new(alloc)).into_words(alloc)?;
        Ok(Puts::Pool(PlacedPool { from, words }))
    }

    /// Places a statement and passes it. Its pool word is still an offset in the pool.
    pub(crate) fn place<'a>(
        &mut self,
        alloc: Global,
        stmt: &'a Stmt,
        entries: &[Option<EntryWords>],
    ) -> Result<PlacedStmt<'a>, AllocError>
        ensures placed { IfOk result (λ placed. placed ≡ unresolved_stmt self.old stmt.now) }
        ensures walk { OnOk result (self.new ≡ next entries.now self.old stmt.now.kind) }
    {
        let at = self.at.cursor_place();
        match &stmt.kind {
            StmtKind::Pool => {
                let puts = self.end_pool(alloc)?;
                let placed = PlacedStmt::new(alloc, stmt, at, None, puts)?;
                Ok(placed)
            }
            kind => {
                let puts = self.at.function_puts(kind);
                let word = self.put_word(alloc, kind)?;
                self.at.pass(kind, entries);
                let placed = PlacedStmt::new(alloc, stmt, at, word, puts)?;
                Ok(placed)
            }
        }
    }
}
