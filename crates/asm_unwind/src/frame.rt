//! Collects the unwind directives of a function and makes its entry (docs/rules/sources.md).
ghost use Rattle.std.specs.Prelude.{◌≡◌, ℕ, ◌+◌, ◌≤◌, ◌++◌, ◌≢◌, Option, Some, None, IfOk, IfErr, OnOk, OnErr, All, List, [], ◌∷◌, Ok, Err, take_while, not, length};
ghost use Rattle.asm_unwind.specs.Refusals.{is_frame_pointer, directive_state_of, refusal_of};
ghost use Rattle.asm_unwind.specs.Codes.{is_no_pad, with_pads_if, reversed_bytes, bytecode_of, IsWritable, directive_codes};
ghost use Rattle.eh_codes.specs.Bytes.{code_bytes};
ghost use Rattle.asm_unwind.specs.Entries.{entry_words_of};
ghost use Rattle.asm_unwind.specs.declared.directive.UnwindFault.{UnwindFault};

use crate::code::push_directive;
use crate::directive::{UnwindDirective, UnwindFault};
use crate::entry::{EntryWords, entry_of_code};
use crate::seen::DirectiveState;
use std::alloc::{AllocError, Global};
use std::marker::Model;

impl UnwindDirective {
    /// Whether the directive is `.setfp`.
    fn is_frame_pointer(self) -> bool
        ensures { result ≡ is_frame_pointer self }
    {
        matches!(self, UnwindDirective::SetFp(_, _))
    }

    /// Whether the directive is anything but `.pad`.
    fn is_no_pad(self) -> bool
        ensures { result ≡ is_no_pad self }
    {
        !matches!(self, UnwindDirective::Pad(_))
    }
}

/// Appends the bytecode of a directive; that of a `.pad` only if `pads`.
#[tactic(auto, using(crate::proofs::Reversed::bytes_of_one), unfolding(crate::specs::Codes::reversed_bytes))]
fn push_kept(bytes: &mut Vec<u8>, directive: UnwindDirective, pads: bool) -> Result<(), AllocError>
    requires { IsWritable directive }
    ensures { OnOk result (bytes.new.items ≡ bytes.old.items ++ reversed_bytes (with_pads_if pads (directive ∷ []))) }
{
    if pads || directive.is_no_pad() {
        push_directive(bytes, directive)?;
    }
    Ok(())
}

/// Appends the bytecode of the directives in reverse order; that of `.pad` only if `pads`.
fn push_reversed(
    bytes: &mut Vec<u8>,
    directives: &[UnwindDirective],
    pads: bool,
) -> Result<(), AllocError>
    requires { All IsWritable directives.now }
    ensures { OnOk result (bytes.new.items ≡ bytes.old.items ++ reversed_bytes (with_pads_if pads directives.now)) }
{
    let mut rest = directives;
    while let [front @ .., last] = rest {
        push_kept(bytes, *last, pads)?;
        rest = front;
    }
    Ok(())
}

/// How many directives precede the first `.setfp`.
fn before_frame_pointer(directives: &[UnwindDirective]) -> usize
    ensures { result ≡ length (take_while (λ d. not (is_frame_pointer d)) directives.now) }
{
    directives
        .iter()
        .take_while(|d| !d.is_frame_pointer())
        .count()
}

/// The bytecode of a function's directives.
#[tactic(auto, using(crate::proofs::Reversed::split_at_frame_pointer))]
fn bytecode(alloc: Global, directives: &[UnwindDirective]) -> Result<Vec<u8>, AllocError>
    requires { All IsWritable directives.now }
    ensures { IfOk result (λ bytes. bytes.items ≡ bytecode_of directives.now) }
{
    let (front, after) = directives.split_at(before_frame_pointer(directives));
    let mut bytes = Vec::new(alloc);
    push_reversed(&mut bytes, after, false)?;
    push_reversed(&mut bytes, front, true)?;
    Ok(bytes)
}

/// The unwind directives of one function, in the order of the text. Contracts see a list.
#[derive(Drop)]
pub struct FrameText {
    directives: Vec<UnwindDirective>,
    seen: DirectiveState,
    alloc: Global,
}

impl Model for FrameText {
    ghost use Rattle.std.specs.Prelude.{List};
    ghost use Rattle.asm_unwind.specs.declared.directive.UnwindDirective.{UnwindDirective};
    ghost use Rattle.asm_unwind.specs.Kept.{IsKept};

    ghost Value = { List UnwindDirective };

    ghost view = { λ f. f.directives.items };

    ghost invariant = { λ f. IsKept f.directives.items f.seen };
}

/// A frame without directives. It keeps the allocator and allocates nothing yet.
#[tactic(auto, using(crate::proofs::KeptLemmas::kept_none))]
pub fn new_frame(alloc: Global) -> FrameText
    ensures { result ≡ [] }
{
    FrameText {
        directives: Vec::new(alloc),
        seen: DirectiveState::nothing(),
        alloc,
    }
}

impl FrameText {
    /// Adds the next directive. A refusal leaves the frame unchanged; if several hold, the lowest is reported.
    pub fn directive(&mut self, d: UnwindDirective) -> Result<(), UnwindFault>
        ensures ok { IfOk result (λ _. refusal_of (directive_state_of self.old) d ≡ None) }
        ensures err { IfErr result (λ e. e ≢ UnwindFault.OutOfMemory → refusal_of (directive_state_of self.old) d ≡ Some e) }
        ensures taken { OnOk result (self.new ≡ self.old ++ d ∷ []) }
        ensures unchanged { OnErr result (self.new ≡ self.old) }
    {
        if let Some(fault) = self.seen.refusal(d) {
            return Err(fault);
        }
        self.directives.push(d)?;
        self.seen = self.seen.with_next(d);
        Ok(())
    }

    /// The entry of the directives so far.
    #[tactic(auto, unfolding(crate::specs::Entries::entry_words_of))]
    fn entry(&self) -> Result<EntryWords, UnwindFault>
        ensures ok { IfOk result (λ entry. entry_words_of self.now ≡ Ok entry) }
        ensures err { IfErr result (λ e. e ≢ UnwindFault.OutOfMemory → entry_words_of self.now ≡ Err e) }
    {
        if !self.seen.ended {
            return Err(UnwindFault::OutsideFunction);
        }
        if self.seen.cant_unwind {
            return Ok(EntryWords::CantUnwind);
        }
        let bytes = bytecode(self.alloc, self.directives.as_slice())?;
        entry_of_code(
            self.alloc,
            self.seen.personality,
            self.seen.handler_data,
            bytes.as_slice(),
        )
    }

    /// The function's index entry or unwind table. Err, with the unchanged frame, before `.fnend` (OutsideFunction) or
    /// if the bytecode doesn't fit the entry (TooLong).
    pub fn finish(self) -> Result<EntryWords, (UnwindFault, FrameText)>
        ensures ok { IfOk result (λ entry. entry_words_of self ≡ Ok entry) }
        ensures err { IfErr result (λ e. e.0 ≢ UnwindFault.OutOfMemory → entry_words_of self ≡ Err e.0) }
        ensures handed_back { IfErr result (λ e. e.1 ≡ self) }
    {
        match self.entry() {
            Ok(entry) => Ok(entry),
            Err(fault) => Err((fault, self)),
        }
    }
}
