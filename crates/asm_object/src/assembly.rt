//! Assembles statements into an object: refusals first, then sections, index rows, symbols and relocations
//! (docs/rules/sources.md).
ghost use Rattle.std.specs.Prelude.{◌≡◌, [], ◌++◌, ◌⊎◌, MatchResult, IfOk, OnOk, option_map, None, Some, Ok, Err};
ghost use Rattle.asm_layout.specs.Faults.{fault_at, out_of_memory, first_of_all};
ghost use Rattle.asm_layout.specs.Labels.{label_places};
ghost use Rattle.asm_layout.specs.declared.placed.PlacedPool.{PlacedPool};
ghost use Rattle.asm_object.specs.Instructions.{instruction, encode_option};
ghost use Rattle.asm_object.specs.Refusals.{refusal};
ghost use Rattle.asm_object.specs.Pieces.{pool_pieces, pieces_at, pieces_of, rows_of_puts, rows_of};
ghost use Rattle.asm_object.specs.Objects.{refusals_at, refusals_of, object_of};
ghost use Rattle.asm_object.specs.Built.{with_pieces, no_sections, object_of_parts};

use crate::code::{EncodeResult, encode_stmt};
use crate::part::Part;
use crate::parts::{MarkedText, Sections, push_row};
use crate::refusal::refusal;
use crate::symbols::{relocs, symbols};
use asm_layout::fault::{AsmFault, first_of};
use asm_layout::frames::functions_of;
use asm_layout::labels::Labels;
use asm_layout::layout::{Layout, layout_of};
use asm_layout::placed::{PlacedPool, PlacedStmt};
use asm_layout::word::low_part;
use asm_relocatable::object::{IndexRows, Object};
use asm_statements::Stmt;
use asm_unwind::EntryWords;
use std::alloc::{AllocError, Global};

/// The state of the assembly: the first refusal or, while there is none, the sections and index rows so far.
#[derive(Drop)]
struct AssemblyState {
    first: Option<AsmFault>,
    sections: Sections,
    rows: IndexRows,
}

/// The refusal of a statement at its place, if any. `code` is the result of the encoder.
fn refusal_at(labels: &Labels, placed: &PlacedStmt<'_>, code: &EncodeResult) -> Option<AsmFault>
    requires { code.now ≡ encode_option (instruction (label_places labels.now) placed.now.stmt.kind placed.now.at.offset placed.now.word) }
    ensures { result ≡ option_map (fault_at placed.now.stmt.line) (refusal (label_places labels.now) placed.now.stmt.kind placed.now.at.section placed.now.at.offset placed.now.word) }
{
    match refusal(labels, &placed.stmt.kind, placed.at, placed.word(), code) {
        Some(what) => Some(AsmFault {
            line: placed.stmt.line,
            what,
        }),
        None => None,
    }
}

impl AssemblyState {
    /// The state before the first statement, given the first refusal of the layout.
    fn new(alloc: Global, first: Option<AsmFault>) -> AssemblyState
        ensures first { result.first ≡ first }
        ensures sections { result.sections ≡ no_sections }
        ensures rows { result.rows ≡ [] }
    {
        AssemblyState {
            first,
            sections: Sections::new(alloc),
            rows: IndexRows::new(alloc),
        }
    }

    /// Adds what a statement emits. `code` is the result of the encoder.
    fn add(
        &mut self,
        alloc: Global,
        labels: &Labels,
        entries: &[Option<EntryWords>],
        placed: PlacedStmt<'_>,
        code: EncodeResult,
    ) -> Result<(), AllocError>
        requires { code ≡ encode_option (instruction (label_places labels.now) placed.stmt.kind placed.at.offset placed.word) }
        ensures first { OnOk result (self.new.first ≡ self.old.first) }
        ensures sections { OnOk result (self.new.sections ≡ with_pieces self.old.sections (pieces_at entries.now (label_places labels.now) placed.entry)) }
        ensures rows { OnOk result (self.new.rows ≡ self.old.rows ++ rows_of_puts entries.now placed.entry.puts) }
    {
        let (stmt, at) = (placed.stmt, placed.at);
        let puts = placed.into_puts();
        push_row(&mut self.rows, entries, &puts)?;
        self.sections
            .push_set(labels, entries, at, &stmt.kind, puts)?;
        self.sections.push_own(alloc, labels, at, &stmt.kind, code)
    }

    /// Processes a statement. After a refusal, only further refusals are looked for.
    fn take(
        &mut self,
        alloc: Global,
        labels: &Labels,
        entries: &[Option<EntryWords>],
        placed: PlacedStmt<'_>,
    ) -> Result<(), AllocError>
        ensures first { OnOk result (self.new.first ≡ first_of_all self.old.first (refusals_at (label_places labels.now) placed.entry)) }
        ensures sections { OnOk result (self.new.first ≡ None → self.new.sections ≡ with_pieces self.old.sections (pieces_at entries.now (label_places labels.now) placed.entry)) }
        ensures rows { OnOk result (self.new.first ≡ None → self.new.rows ≡ self.old.rows ++ rows_of_puts entries.now placed.entry.puts) }
    {
        let code = encode_stmt(labels, &placed.stmt.kind, placed.at.offset, placed.word());
        self.first = first_of(self.first, refusal_at(labels, &placed, &code));
        if self.first.is_some() {
            return Ok(());
        }
        self.add(alloc, labels, entries, placed, code)
    }

    /// Processes statements one by one. After a refusal, only further refusals are looked for.
    #[tactic(auto, unfolding(crate::specs::Pieces::pieces_of, asm_layout::specs::Faults::first_of_all))]
    fn take_all(
        &mut self,
        alloc: Global,
        labels: &Labels,
        entries: &[Option<EntryWords>],
        placed: Vec<PlacedStmt<'_>>,
    ) -> Result<(), AllocError>
        ensures first { OnOk result (self.new.first ≡ first_of_all self.old.first (refusals_of (label_places labels.now) placed.entry.items)) }
        ensures sections { OnOk result ((last : PlacedPool) → self.new.first ≡ None
            → with_pieces self.new.sections (pool_pieces (label_places labels.now) last) ≡ with_pieces self.old.sections (pieces_of entries.now (label_places labels.now) placed.entry.items last)) }
        ensures rows { OnOk result (self.new.first ≡ None → self.new.rows ≡ self.old.rows ++ rows_of entries.now placed.entry.items) }
    {
        for one in placed {
            self.take(alloc, labels, entries, one)?;
        }
        Ok(())
    }

    /// Adds the literal pool at the end of the text.
    fn end(&mut self, labels: &Labels, last: PlacedPool) -> Result<(), AllocError>
        ensures first { OnOk result (self.new.first ≡ self.old.first) }
        ensures sections { OnOk result (self.new.first ≡ None → self.new.sections ≡ with_pieces self.old.sections (pool_pieces (label_places labels.now) last)) }
        ensures rows { OnOk result (self.new.rows ≡ self.old.rows) }
    {
        if self.first.is_none() {
            self.sections.push_pool(labels, last)?;
        }
        Ok(())
    }

    /// Processes all statements, and the pool at the end of the text.
    fn take_source(
        &mut self,
        alloc: Global,
        labels: &Labels,
        entries: &[Option<EntryWords>],
        placed: Vec<PlacedStmt<'_>>,
        last: PlacedPool,
    ) -> Result<(), AllocError>
        ensures first { OnOk result (self.new.first ≡ first_of_all self.old.first (refusals_of (label_places labels.now) placed.entry.items)) }
        ensures sections { OnOk result (self.new.first ≡ None
            → self.new.sections ≡ with_pieces self.old.sections (pieces_of entries.now (label_places labels.now) placed.entry.items last)) }
        ensures rows { OnOk result (self.new.first ≡ None → self.new.rows ≡ self.old.rows ++ rows_of entries.now placed.entry.items) }
    {
        self.take_all(alloc, labels, entries, placed)?;
        self.end(labels, last)
    }

    /// The object with these labels and `bss` bytes of zeros, or the first refusal.
    fn into_object(self, alloc: Global, labels: Labels, bss: u64) -> Result<Object, AsmFault>
        ensures { MatchResult result
            (λ object. (self.first ≡ None) × (object ≡ object_of_parts self.sections self.rows labels bss))
            (λ fault. (fault ≡ out_of_memory) ⊎ (self.first ≡ Some fault)) }
    {
        let AssemblyState {
            first,
            sections,
            rows,
        } = self;
        match first {
            Some(fault) => Err(fault),
            None => Ok(object(alloc, sections, rows, labels, bss)?),
        }
    }
}

/// The object of these sections, rows and labels, with `bss` bytes of zeros.
fn object(
    alloc: Global,
    sections: Sections,
    rows: IndexRows,
    labels: Labels,
    bss: u64,
) -> Result<Object, AllocError>
    ensures { IfOk result (λ object. object ≡ object_of_parts sections rows labels bss) }
{
    let Sections {
        text,
        rodata,
        extab,
        init,
    } = sections;
    let MarkedText {
        part: text,
        marks,
        ..
    } = text;
    let Part {
        bytes: text,
        relocs: in_text,
    } = text;
    let Part {
        bytes: rodata,
        relocs: in_rodata,
    } = rodata;
    let Part {
        bytes: extab,
        relocs: in_extab,
    } = extab;
    let Part {
        bytes: init,
        relocs: in_init,
    } = init;
    Ok(Object {
        text,
        rodata,
        extab,
        init,
        bss: low_part(bss),
        symbols: symbols(alloc, labels)?,
        marks,
        rows,
        relocs: relocs(in_text, in_rodata, in_extab, in_init)?,
    })
}

/// Assembles a layout, given the first refusal so far. Err with the first refusal of all.
fn assemble_placed(
    alloc: Global,
    entries: &[Option<EntryWords>],
    first: Option<AsmFault>,
    layout: Layout<'_>,
) -> Result<Object, AsmFault>
    ensures { MatchResult result
        (λ object. (first_of_all first (refusals_of (label_places layout.entry.labels) layout.entry.placed.items) ≡ None)
        × (object ≡ object_of_parts (with_pieces no_sections (pieces_of entries.now (label_places layout.entry.labels) layout.entry.placed.items layout.entry.last))
        (rows_of entries.now layout.entry.placed.items) layout.entry.labels layout.entry.bss))
        (λ fault. (fault ≡ out_of_memory)
        ⊎ (first_of_all first (refusals_of (label_places layout.entry.labels) layout.entry.placed.items) ≡ Some fault)) }
{
    let Layout {
        placed,
        last,
        labels,
        bss,
        ..
    } = layout;
    let mut gathered = AssemblyState::new(alloc, first);
    gathered.take_source(alloc, &labels, entries, placed, last)?;
    gathered.into_object(alloc, labels, bss)
}

/// Assembles statements into their object. Err with the refusal at the lowest line; at one line, the first in the order
/// of `AsmWhat`. Err also if memory runs out.
pub fn assemble(alloc: Global, stmts: &[Stmt]) -> Result<Object, AsmFault>
    ensures { MatchResult result
        (λ object. object_of stmts.now ≡ Ok object)
        (λ fault. (fault ≡ out_of_memory) ⊎ (object_of stmts.now ≡ Err fault)) }
{
    let functions = functions_of(alloc, stmts)?;
    let entries = functions.entries.as_slice();
    let layout = layout_of(alloc, stmts, entries)?;
    let first = first_of(
        first_of(functions.first, layout.duplicate),
        layout.too_large,
    );
    assemble_placed(alloc, entries, first, layout)
}
