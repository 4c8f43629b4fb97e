//! The state of a function's directives, which decides whether the next one is refused (docs/rules/sources.md).
ghost use Rattle.std.specs.Prelude.{◌≡◌, ◌<◌, [], IfNone};
ghost use Rattle.std.specs.Bool.{OnFalse};
ghost use Rattle.asm_unwind.specs.Refusals.{HasNarrowList, has_register, is_start, is_end, is_outside, is_bad_save, is_bad_pad, is_bad_personality, directive_state_of, refusal_of, with_next};

use crate::directive::{MOST_FRAME_OFFSET, MOST_PAD, UnwindDirective, UnwindFault};
use eh_codes::words::MOST_PERSONALITY;

/// What later directives depend on.
#[derive(Clone, Copy)]
pub struct DirectiveState {
    /// Whether `.fnstart` was seen.
    pub started: bool,
    /// Whether `.fnend` was seen.
    pub ended: bool,
    /// Whether `.setfp` was seen.
    pub frame_pointer: bool,
    /// The number of `.personalityindex`, if it was seen.
    pub personality: Option<u8>,
    /// Whether `.cantunwind` was seen.
    pub cant_unwind: bool,
    /// Whether `.handlerdata` was seen.
    pub handler_data: bool,
}

/// Whether a register list contains a register.
fn has_register(registers: u16, register: u16) -> bool
    requires { register < 16 }
    ensures { result ≡ has_register registers register }
{
    (registers >> register) % 2 == 1
}

impl UnwindDirective {
    /// Whether the directive is `.fnstart`.
    fn is_start(self) -> bool
        ensures { result ≡ is_start self }
    {
        matches!(self, UnwindDirective::FnStart)
    }

    /// Whether the directive is `.fnend`.
    fn is_end(self) -> bool
        ensures { result ≡ is_end self }
    {
        matches!(self, UnwindDirective::FnEnd)
    }
}

impl DirectiveState {
    /// The state before the first directive.
    #[tactic(auto, unfolding(crate::specs::Refusals::directive_state_of))]
    pub fn nothing() -> DirectiveState
        ensures { result ≡ directive_state_of [] }
    {
        DirectiveState {
            started: false,
            ended: false,
            frame_pointer: false,
            personality: None,
            cant_unwind: false,
            handler_data: false,
        }
    }

    /// Whether the directive is before `.fnstart` or after `.fnend`.
    fn is_outside(self, next: UnwindDirective) -> bool
        ensures { result ≡ is_outside self next }
    {
        self.ended || (!self.started && !next.is_start())
    }

    /// Whether the directive is a `.save` that no bytecode expresses, or one after `.setfp`.
    fn is_bad_save(self, next: UnwindDirective) -> bool
        ensures value { result ≡ is_bad_save self next }
        ensures narrow { OnFalse result (HasNarrowList next) }
    {
        match next {
            UnwindDirective::Save(registers) => {
                registers == 0
                    || has_register(registers, 13)
                    || has_register(registers, 15)
                    || self.frame_pointer
            }
            _ => false,
        }
    }

    /// Whether the directive has a size or offset that no bytecode expresses, or a register that can't be a frame
    /// pointer.
    fn is_bad_pad(next: UnwindDirective) -> bool
        ensures { result ≡ is_bad_pad next }
    {
        match next {
            UnwindDirective::Pad(size) => size == 0 || size > MOST_PAD || size % 4 != 0,
            UnwindDirective::SetFp(register, offset) => {
                offset > MOST_FRAME_OFFSET || offset % 4 != 0 || register < 4 || register > 11
            }
            _ => false,
        }
    }

    /// Whether the directive is a second personality number, or one above 2.
    fn is_bad_personality(self, next: UnwindDirective) -> bool
        ensures { result ≡ is_bad_personality self next }
    {
        match next {
            UnwindDirective::PersonalityIndex(index) => self.personality.is_some()
                || index > MOST_PERSONALITY,
            _ => false,
        }
    }

    /// Why the next directive is refused, or None; the first that holds, in the order of `UnwindFault`.
    #[tactic(auto, unfolding(crate::specs::Refusals::refusal_of))]
    pub fn refusal(self, next: UnwindDirective) -> Option<UnwindFault>
        ensures value { result ≡ refusal_of self next }
        ensures narrow { IfNone result (HasNarrowList next) }
    {
        if self.is_outside(next) {
            Some(UnwindFault::OutsideFunction)
        } else if self.started && next.is_start() {
            Some(UnwindFault::NestedFunction)
        } else if self.is_bad_save(next) {
            Some(UnwindFault::SaveRange)
        } else if DirectiveState::is_bad_pad(next) {
            Some(UnwindFault::PadRange)
        } else if self.is_bad_personality(next) {
            Some(UnwindFault::TwoPersonalities)
        } else if self.cant_unwind && !next.is_end() {
            Some(UnwindFault::AfterCantunwind)
        } else {
            None
        }
    }

    /// The state after one more directive, which must not be refused.
    pub fn with_next(self, next: UnwindDirective) -> DirectiveState
        ensures { result ≡ with_next self next }
    {
        let mut seen = self;
        match next {
            UnwindDirective::FnStart => seen.started = true,
            UnwindDirective::FnEnd => seen.ended = true,
            UnwindDirective::SetFp(_, _) => seen.frame_pointer = true,
            UnwindDirective::CantUnwind => seen.cant_unwind = true,
            UnwindDirective::PersonalityIndex(index) => seen.personality = Some(index),
            UnwindDirective::HandlerData => seen.handler_data = true,
            UnwindDirective::Save(_) | UnwindDirective::Pad(_) => {}
        }
        seen
    }
}
