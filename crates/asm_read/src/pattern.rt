//! The patterns of operands, each as a list of pieces (docs/rules/sources.md, "Statements" and "Directives").
ghost use Rattle.std.specs.Prelude.{◌≡◌};
ghost use Rattle.asm_read.specs.Patterns.{pieces_of};

use crate::form::Piece;

/// What follows the word of a form. `rd`, `rn`, `rm`, `rt` and `r` are registers, `n` is a number.
#[derive(Clone, Copy)]
pub enum Pattern {
    /// Nothing.
    Nothing,
    /// `rm`
    OneRegister,
    /// `rd, rm`
    TwoRegisters,
    /// `rd, rn, rm`
    ThreeRegisters,
    /// `#n`
    OneNumber,
    /// `rd, #n`
    RegisterNumber,
    /// `rd, rn, #n`
    TwoRegistersNumber,
    /// `rd, rm, #0`
    TwoRegistersZero,
    /// `sp, #n`
    SpNumber,
    /// `rd, sp, #n`
    RegisterSpNumber,
    /// `r, sp, #n`, with or without the `#`
    RegisterSpCount,
    /// `n` or `#n`
    Count,
    /// `n` or `#n`, from 0 to 3
    Power,
    /// `name`
    OneName,
    /// `rd, name`
    RegisterName,
    /// `name, %function`
    NameFunction,
    /// `name, %object`
    NameObject,
    /// `name, .-name`, the same name twice
    NameSize,
    /// `.rodata`
    RodataName,
    /// `"text"`
    OneText,
    /// `rt, =expr`
    RegisterValue,
    /// Comma-separated expressions.
    Values,
    /// Comma-separated expressions, `name(prel31)` and the other operators of words included.
    WordValues,
    /// `rt, [sp, #n]`
    SpOffset,
    /// `rt, [sp]`
    SpAlone,
    /// `rt, [rn, #n]`
    BaseOffset,
    /// `rt, [rn]`
    BaseAlone,
    /// `rt, [rn, rm]`
    BaseIndex,
    /// `{list}`
    RegisterList,
    /// `rn!, {list}`
    BaseBackList,
    /// `rn, {list}`, with rn in the list
    BaseList,
}

const NOTHING: &[Piece] = &[];

const ONE_REGISTER: &[Piece] = &[Piece::First];

const TWO_REGISTERS: &[Piece] = &[Piece::First, Piece::Mark(b','), Piece::Second];

const THREE_REGISTERS: &[Piece] = &[
    Piece::First,
    Piece::Mark(b','),
    Piece::Second,
    Piece::Mark(b','),
    Piece::Third,
];

const ONE_NUMBER: &[Piece] = &[Piece::Mark(b'#'), Piece::Number];

const REGISTER_NUMBER: &[Piece] = &[
    Piece::First,
    Piece::Mark(b','),
    Piece::Mark(b'#'),
    Piece::Number,
];

const TWO_REGISTERS_NUMBER: &[Piece] = &[
    Piece::First,
    Piece::Mark(b','),
    Piece::Second,
    Piece::Mark(b','),
    Piece::Mark(b'#'),
    Piece::Number,
];

const TWO_REGISTERS_ZERO: &[Piece] = &[
    Piece::First,
    Piece::Mark(b','),
    Piece::Second,
    Piece::Mark(b','),
    Piece::Mark(b'#'),
    Piece::Zero,
];

const SP_NUMBER: &[Piece] = &[
    Piece::Sp,
    Piece::Mark(b','),
    Piece::Mark(b'#'),
    Piece::Number,
];

const REGISTER_SP_NUMBER: &[Piece] = &[
    Piece::First,
    Piece::Mark(b','),
    Piece::Sp,
    Piece::Mark(b','),
    Piece::Mark(b'#'),
    Piece::Number,
];

const REGISTER_SP_COUNT: &[Piece] = &[
    Piece::First,
    Piece::Mark(b','),
    Piece::Sp,
    Piece::Mark(b','),
    Piece::MaybeHash,
    Piece::Number,
];

const COUNT: &[Piece] = &[Piece::MaybeHash, Piece::Number];

const POWER: &[Piece] = &[Piece::MaybeHash, Piece::UpToThree];

const ONE_NAME: &[Piece] = &[Piece::Name];

const REGISTER_NAME: &[Piece] = &[Piece::First, Piece::Mark(b','), Piece::Name];

const NAME_FUNCTION: &[Piece] = &[
    Piece::Name,
    Piece::Mark(b','),
    Piece::Mark(b'%'),
    Piece::Function,
];

const NAME_OBJECT: &[Piece] = &[
    Piece::Name,
    Piece::Mark(b','),
    Piece::Mark(b'%'),
    Piece::Object,
];

const NAME_SIZE: &[Piece] = &[
    Piece::Name,
    Piece::Mark(b','),
    Piece::Dot,
    Piece::Mark(b'-'),
    Piece::SameName,
];

const RODATA_NAME: &[Piece] = &[Piece::Rodata];

const ONE_TEXT: &[Piece] = &[Piece::Text];

const REGISTER_VALUE: &[Piece] = &[
    Piece::First,
    Piece::Mark(b','),
    Piece::Mark(b'='),
    Piece::Expression,
];

const VALUES: &[Piece] = &[Piece::Expressions];

const WORD_VALUES: &[Piece] = &[Piece::WordExpressions];

const SP_OFFSET: &[Piece] = &[
    Piece::First,
    Piece::Mark(b','),
    Piece::Mark(b'['),
    Piece::Sp,
    Piece::Mark(b','),
    Piece::Mark(b'#'),
    Piece::Number,
    Piece::Mark(b']'),
];

const SP_ALONE: &[Piece] = &[
    Piece::First,
    Piece::Mark(b','),
    Piece::Mark(b'['),
    Piece::Sp,
    Piece::Mark(b']'),
];

const BASE_OFFSET: &[Piece] = &[
    Piece::First,
    Piece::Mark(b','),
    Piece::Mark(b'['),
    Piece::Second,
    Piece::Mark(b','),
    Piece::Mark(b'#'),
    Piece::Number,
    Piece::Mark(b']'),
];

const BASE_ALONE: &[Piece] = &[
    Piece::First,
    Piece::Mark(b','),
    Piece::Mark(b'['),
    Piece::Second,
    Piece::Mark(b']'),
];

const BASE_INDEX: &[Piece] = &[
    Piece::First,
    Piece::Mark(b','),
    Piece::Mark(b'['),
    Piece::Second,
    Piece::Mark(b','),
    Piece::Third,
    Piece::Mark(b']'),
];

const REGISTER_LIST: &[Piece] = &[Piece::Registers];

const BASE_BACK_LIST: &[Piece] = &[
    Piece::First,
    Piece::Mark(b'!'),
    Piece::Mark(b','),
    Piece::Registers,
];

const BASE_LIST: &[Piece] = &[Piece::First, Piece::Mark(b','), Piece::RegistersWithFirst];

/// The pieces of a pattern.
pub fn pieces_of(pattern: Pattern) -> &'static [Piece]
    ensures { result.now ≡ pieces_of pattern }
{
    match pattern {
        Pattern::Nothing => NOTHING,
        Pattern::OneRegister => ONE_REGISTER,
        Pattern::TwoRegisters => TWO_REGISTERS,
        Pattern::ThreeRegisters => THREE_REGISTERS,
        Pattern::OneNumber => ONE_NUMBER,
        Pattern::RegisterNumber => REGISTER_NUMBER,
        Pattern::TwoRegistersNumber => TWO_REGISTERS_NUMBER,
        Pattern::TwoRegistersZero => TWO_REGISTERS_ZERO,
        Pattern::SpNumber => SP_NUMBER,
        Pattern::RegisterSpNumber => REGISTER_SP_NUMBER,
        Pattern::RegisterSpCount => REGISTER_SP_COUNT,
        Pattern::Count => COUNT,
        Pattern::Power => POWER,
        Pattern::OneName => ONE_NAME,
        Pattern::RegisterName => REGISTER_NAME,
        Pattern::NameFunction => NAME_FUNCTION,
        Pattern::NameObject => NAME_OBJECT,
        Pattern::NameSize => NAME_SIZE,
        Pattern::RodataName => RODATA_NAME,
        Pattern::OneText => ONE_TEXT,
        Pattern::RegisterValue => REGISTER_VALUE,
        Pattern::Values => VALUES,
        Pattern::WordValues => WORD_VALUES,
        Pattern::SpOffset => SP_OFFSET,
        Pattern::SpAlone => SP_ALONE,
        Pattern::BaseOffset => BASE_OFFSET,
        Pattern::BaseAlone => BASE_ALONE,
        Pattern::BaseIndex => BASE_INDEX,
        Pattern::RegisterList => REGISTER_LIST,
        Pattern::BaseBackList => BASE_BACK_LIST,
        Pattern::BaseList => BASE_LIST,
    }
}
