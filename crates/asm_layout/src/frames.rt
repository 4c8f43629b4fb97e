//! Finds the functions of a source and their unwind entries, by the unwind directives (docs/rules/sources.md).
ghost use Rattle.std.specs.Prelude.{◌≡◌, ◌++◌, [], ◌∷◌, Some, None, IfOk, OnOk};
ghost use Rattle.asm_unwind.specs.Entries.{entry_words_of};
ghost use Rattle.asm_layout.specs.declared.fault.AsmWhat.TheVariants as AsmWhat;
ghost use Rattle.asm_layout.specs.Faults.{fault_at, first_with, first_of_all};
ghost use Rattle.asm_layout.specs.Functions.{field_of, directive_of, no_frame, next_frame, entry_or_none, new_entries, entry_faults, new_faults, open_faults, entries_of, unwind_faults_of};

use crate::fault::{AsmFault, AsmWhat, first_with};
use asm_statements::{Stmt, StmtKind};
use asm_unwind::{EntryWords, FrameText, UnwindDirective, UnwindFault, new_frame};
use eh_word::Seq;
use std::alloc::{AllocError, Global};
use std::marker::Model;
use std::mem;

/// A number as a 32-bit field of an unwind directive; the greatest value if it doesn't fit.
fn field_32(n: i64) -> u32
    ensures { result ≡ field_of 0xffffffff n }
{
    u32::try_from(n).unwrap_or(u32::MAX)
}

/// A number as an 8-bit field of an unwind directive; the greatest value if it doesn't fit.
fn field_8(n: i64) -> u8
    ensures { result ≡ field_of 255 n }
{
    u8::try_from(n).unwrap_or(u8::MAX)
}

/// The unwind directive of a statement, or None.
fn directive_of(kind: &StmtKind) -> Option<UnwindDirective>
    ensures { result ≡ directive_of kind.now }
{
    match kind {
        StmtKind::FnStart => Some(UnwindDirective::FnStart),
        StmtKind::FnEnd => Some(UnwindDirective::FnEnd),
        StmtKind::Save { list } => Some(UnwindDirective::Save(*list)),
        StmtKind::Pad(n) => Some(UnwindDirective::Pad(field_32(*n))),
        StmtKind::SetFp { r, off } => Some(UnwindDirective::SetFp(*r, field_32(*off))),
        StmtKind::CantUnwind => Some(UnwindDirective::CantUnwind),
        StmtKind::PersonalityIndex(n) => Some(UnwindDirective::PersonalityIndex(field_8(*n))),
        StmtKind::HandlerData => Some(UnwindDirective::HandlerData),
        _ => None,
    }
}

/// The unwind entries of functions, None for a function whose directives give no entry. Contracts see a list.
pub type Entries = Seq<Option<EntryWords>>;

/// The functions of a source.
#[derive(Drop)]
pub struct Functions {
    /// The unwind entry of each function, in the order of the text.
    pub entries: Entries,
    /// The first refusal among the unwind directives.
    pub first: Option<AsmFault>,
}

/// The open function: its directives so far, and the line of its `.fnstart`. Contracts see the directives.
#[derive(Drop)]
struct Open {
    frame: FrameText,
    start: Option<u32>,
}

impl Model for Open {
    ghost use Rattle.asm_layout.specs.Functions.{Frame};

    ghost Value = { Frame };

    ghost view = { λ opened. record { directives = opened.frame; start = opened.start } };
}

impl Functions {
    /// Records a refusal at a line.
    fn refuse(&mut self, line: u32, fault: UnwindFault)
        ensures first { self.new.first ≡ first_with self.old.first (fault_at line (AsmWhat.Unwind fault)) }
        ensures entries { self.new.entries ≡ self.old.entries }
    {
        let what = AsmWhat::Unwind(fault);
        self.first = first_with(self.first, AsmFault { line, what });
    }

    /// Ends the open function, at a line.
    #[tactic(auto, unfolding(crate::specs::Faults::first_of_all))]
    fn end(&mut self, alloc: Global, opened: &mut Open, line: u32) -> Result<(), AllocError>
        ensures entries { OnOk result (self.new.entries ≡ self.old.entries ++ entry_or_none (entry_words_of opened.old.directives) ∷ []) }
        ensures first { OnOk result (self.new.first ≡ first_of_all self.old.first (entry_faults line (entry_words_of opened.old.directives))) }
        ensures closed { OnOk result (opened.new ≡ no_frame) }
    {
        let ended = mem::replace(&mut opened.frame, new_frame(alloc));
        opened.start = None;
        match ended.finish() {
            Ok(entry) => self.entries.push(Some(entry))?,
            Err((UnwindFault::OutOfMemory, _frame)) => return Err(AllocError),
            Err((fault, _frame)) => {
                self.refuse(line, fault);
                self.entries.push(None)?;
            }
        }
        Ok(())
    }

    /// Processes the unwind directive of a statement, if it is one.
    #[tactic(auto, unfolding(crate::specs::Faults::first_of_all))]
    fn take(&mut self, alloc: Global, opened: &mut Open, stmt: &Stmt) -> Result<(), AllocError>
        ensures entries { OnOk result (self.new.entries ≡ self.old.entries ++ new_entries opened.old (directive_of stmt.now.kind)) }
        ensures first { OnOk result (self.new.first ≡ first_of_all self.old.first (new_faults opened.old stmt.now.line (directive_of stmt.now.kind))) }
        ensures opened { OnOk result (opened.new ≡ next_frame opened.old stmt.now.line (directive_of stmt.now.kind)) }
    {
        let Some(directive) = directive_of(&stmt.kind) else {
            return Ok(());
        };
        match opened.frame.directive(directive) {
            Ok(()) => match directive {
                UnwindDirective::FnStart => {
                    opened.start = Some(stmt.line);
                    Ok(())
                }
                UnwindDirective::FnEnd => self.end(alloc, opened, stmt.line),
                _ => Ok(()),
            },
            Err(UnwindFault::OutOfMemory) => Err(AllocError),
            Err(fault) => {
                self.refuse(stmt.line, fault);
                Ok(())
            }
        }
    }

    /// At the end of the source, refuses a function that is still open; at its start.
    #[tactic(auto, unfolding(crate::specs::Faults::first_of_all))]
    fn close(&mut self, opened: &Open)
        ensures entries { self.new.entries ≡ self.old.entries }
        ensures first { self.new.first ≡ first_of_all self.old.first (open_faults opened.now.start) }
    {
        if let Some(line) = opened.start {
            self.refuse(line, UnwindFault::OutsideFunction);
        }
    }
}

/// The functions of these statements. Err only if memory runs out.
pub fn functions_of(alloc: Global, stmts: &[Stmt]) -> Result<Functions, AllocError>
    ensures entries { IfOk result (λ functions. functions.entries ≡ entries_of stmts.now) }
    ensures first { IfOk result (λ functions. functions.first ≡ first_of_all None (unwind_faults_of stmts.now)) }
{
    let mut functions = Functions {
        entries: Seq::new(alloc),
        first: None,
    };
    let mut opened = Open {
        frame: new_frame(alloc),
        start: None,
    };
    for stmt in stmts {
        functions.take(alloc, &mut opened, stmt)?;
    }
    functions.close(&opened);
    Ok(functions)
}
