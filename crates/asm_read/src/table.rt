//! The forms of all statements, as tables (docs/rules/sources.md, "Statements" and "Directives").
ghost use Rattle.std.specs.Prelude.{◌≡◌, map};
ghost use Rattle.asm_read.specs.Forms.{row_of, group_of, forms_in};

use crate::makes::Computation::AddRdSp;
use crate::makes::Computation::AddSp;
use crate::makes::Computation::Rsbs;
use crate::makes::Computation::SubSp;
use crate::makes::Control::Barrier;
use crate::makes::Control::Blx;
use crate::makes::Control::Bx;
use crate::makes::Control::Hint;
use crate::makes::Control::Svc;
use crate::makes::Control::Udf;
use crate::makes::Directive::Align;
use crate::makes::Directive::Bss;
use crate::makes::Directive::CantUnwind;
use crate::makes::Directive::Data;
use crate::makes::Directive::FnEnd;
use crate::makes::Directive::FnStart;
use crate::makes::Directive::HandlerData;
use crate::makes::Directive::Pad;
use crate::makes::Directive::PersonalityIndex;
use crate::makes::Directive::Pool;
use crate::makes::Directive::Rodata;
use crate::makes::Directive::Save;
use crate::makes::Directive::SetFp;
use crate::makes::Directive::Space;
use crate::makes::Directive::Text;
use crate::makes::Makes::Computes;
use crate::makes::Makes::Controls;
use crate::makes::Makes::Directs;
use crate::makes::Makes::Names;
use crate::makes::Makes::OfRegisterNumber;
use crate::makes::Makes::OfThreeRegisters;
use crate::makes::Makes::OfTwoRegisters;
use crate::makes::Makes::OfTwoRegistersNumber;
use crate::makes::Makes::Transfers;
use crate::makes::Makes::{self};
use crate::makes::Named::Adr;
use crate::makes::Named::Ascii;
use crate::makes::Named::Asciz;
use crate::makes::Named::B;
use crate::makes::Named::BCond;
use crate::makes::Named::BWide;
use crate::makes::Named::Bl;
use crate::makes::Named::Bytes;
use crate::makes::Named::Cbz;
use crate::makes::Named::Global;
use crate::makes::Named::Halves;
use crate::makes::Named::LdrLabel;
use crate::makes::Named::LdrPool;
use crate::makes::Named::Size;
use crate::makes::Named::TypeFunction;
use crate::makes::Named::TypeObject;
use crate::makes::Named::Words;
use crate::makes::Transfer::Ldm;
use crate::makes::Transfer::LdmBack;
use crate::makes::Transfer::MemImm;
use crate::makes::Transfer::MemReg;
use crate::makes::Transfer::MemSp;
use crate::makes::Transfer::Pop;
use crate::makes::Transfer::Push;
use crate::makes::Transfer::Stm;
use crate::pattern::Pattern::BaseAlone;
use crate::pattern::Pattern::BaseBackList;
use crate::pattern::Pattern::BaseIndex;
use crate::pattern::Pattern::BaseList;
use crate::pattern::Pattern::BaseOffset;
use crate::pattern::Pattern::Count;
use crate::pattern::Pattern::NameFunction;
use crate::pattern::Pattern::NameObject;
use crate::pattern::Pattern::NameSize;
use crate::pattern::Pattern::Nothing;
use crate::pattern::Pattern::OneName;
use crate::pattern::Pattern::OneNumber;
use crate::pattern::Pattern::OneRegister;
use crate::pattern::Pattern::OneText;
use crate::pattern::Pattern::Power;
use crate::pattern::Pattern::RegisterList;
use crate::pattern::Pattern::RegisterName;
use crate::pattern::Pattern::RegisterNumber;
use crate::pattern::Pattern::RegisterSpCount;
use crate::pattern::Pattern::RegisterSpNumber;
use crate::pattern::Pattern::RegisterValue;
use crate::pattern::Pattern::RodataName;
use crate::pattern::Pattern::SpAlone;
use crate::pattern::Pattern::SpNumber;
use crate::pattern::Pattern::SpOffset;
use crate::pattern::Pattern::ThreeRegisters;
use crate::pattern::Pattern::TwoRegisters;
use crate::pattern::Pattern::TwoRegistersNumber;
use crate::pattern::Pattern::TwoRegistersZero;
use crate::pattern::Pattern::Values;
use crate::pattern::Pattern::WordValues;
use crate::pattern::Pattern::{self};
use asm_statements::computation::OfRegisterNumber::AddSubTwo;
use asm_statements::computation::OfRegisterNumber::CmpImm;
use asm_statements::computation::OfRegisterNumber::MovT;
use asm_statements::computation::OfRegisterNumber::MovW;
use asm_statements::computation::OfRegisterNumber::MovsImm;
use asm_statements::computation::OfThreeRegisters::AddSubReg;
use asm_statements::computation::OfThreeRegisters::Div;
use asm_statements::computation::OfTwoRegisters::AddReg;
use asm_statements::computation::OfTwoRegisters::Alu;
use asm_statements::computation::OfTwoRegisters::CmpReg;
use asm_statements::computation::OfTwoRegisters::Extend;
use asm_statements::computation::OfTwoRegisters::Mov;
use asm_statements::computation::OfTwoRegisters::MovsReg;
use asm_statements::computation::OfTwoRegisters::Rev;
use asm_statements::computation::OfTwoRegistersNumber::AddSubThree;
use asm_statements::computation::OfTwoRegistersNumber::ShiftImm;

/// A form of a word: its operands, and the statement that it makes.
#[derive(Clone, Copy)]
pub struct Form {
    /// What follows the word.
    pub operands: Pattern,
    /// Which kind of statement it makes.
    pub makes: Makes,
}

/// A row of a table: the word that a form begins with, and the form. It is a tuple because the definitions name the
/// tables; a struct with a reference would rule that out.
pub type Row = (&'static [u8], Form);

/// Makes a row from a word, its operands, and the statement.
macro_rules! row {
    ($word:expr, $operands:expr, $makes:expr) => {
        (
            $word,
            Form {
                operands: $operands,
                makes: $makes,
            },
        )
    };
}

/// The tables, by the first byte of the word.
#[derive(Clone, Copy)]
pub enum Group {
    /// Directives.
    Directives,
    /// Mnemonics that begin with a or b.
    AToB,
    /// Mnemonics that begin with c to l.
    CToL,
    /// Mnemonics that begin with m to z.
    MToZ,
}

impl Group {
    /// The table to search for a word.
    pub fn of(word: &[u8]) -> Group
        ensures { result ≡ group_of word.now }
    {
        match word {
            [b'.', ..] => Group::Directives,
            [b'a'..=b'b', ..] => Group::AToB,
            [b'c'..=b'l', ..] => Group::CToL,
            _ => Group::MToZ,
        }
    }
}

/// The forms of directives.
pub static DIRECTIVES: [Row; 32] = [
    row!(b".2byte", Values, Names(Halves)),
    row!(b".4byte", WordValues, Names(Words)),
    row!(b".align", Power, Directs(Align)),
    row!(b".ascii", OneText, Names(Ascii)),
    row!(b".asciz", OneText, Names(Asciz)),
    row!(b".bss", Nothing, Directs(Bss)),
    row!(b".byte", Values, Names(Bytes)),
    row!(b".cantunwind", Nothing, Directs(CantUnwind)),
    row!(b".data", Nothing, Directs(Data)),
    row!(b".fnend", Nothing, Directs(FnEnd)),
    row!(b".fnstart", Nothing, Directs(FnStart)),
    row!(b".global", OneName, Names(Global)),
    row!(b".globl", OneName, Names(Global)),
    row!(b".half", Values, Names(Halves)),
    row!(b".handlerdata", Nothing, Directs(HandlerData)),
    row!(b".long", WordValues, Names(Words)),
    row!(b".ltorg", Nothing, Directs(Pool)),
    row!(b".p2align", Power, Directs(Align)),
    row!(b".pad", Count, Directs(Pad)),
    row!(b".personalityindex", Count, Directs(PersonalityIndex)),
    row!(b".pool", Nothing, Directs(Pool)),
    row!(b".save", RegisterList, Directs(Save)),
    row!(b".section", RodataName, Directs(Rodata)),
    row!(b".setfp", RegisterSpCount, Directs(SetFp)),
    row!(b".short", Values, Names(Halves)),
    row!(b".size", NameSize, Names(Size)),
    row!(b".space", Count, Directs(Space)),
    row!(b".text", Nothing, Directs(Text)),
    row!(b".type", NameFunction, Names(TypeFunction)),
    row!(b".type", NameObject, Names(TypeObject)),
    row!(b".word", WordValues, Names(Words)),
    row!(b".zero", Count, Directs(Space)),
];

/// The forms of mnemonics that begin with a or b.
pub static A_TO_B: [Row; 33] = [
    row!(b"adcs", TwoRegisters, OfTwoRegisters(Alu(5))),
    row!(b"add", RegisterSpNumber, Computes(AddRdSp)),
    row!(b"add", SpNumber, Computes(AddSp)),
    row!(b"add", TwoRegisters, OfTwoRegisters(AddReg)),
    row!(b"adds", RegisterNumber, OfRegisterNumber(AddSubTwo(false))),
    row!(b"adds", ThreeRegisters, OfThreeRegisters(AddSubReg(false))),
    row!(
        b"adds",
        TwoRegistersNumber,
        OfTwoRegistersNumber(AddSubThree(false))
    ),
    row!(b"adr", RegisterName, Names(Adr)),
    row!(b"ands", TwoRegisters, OfTwoRegisters(Alu(0))),
    row!(
        b"asrs",
        TwoRegistersNumber,
        OfTwoRegistersNumber(ShiftImm(2))
    ),
    row!(b"asrs", TwoRegisters, OfTwoRegisters(Alu(4))),
    row!(b"b", OneName, Names(B)),
    row!(b"b.w", OneName, Names(BWide)),
    row!(b"bcc", OneName, Names(BCond(3))),
    row!(b"bcs", OneName, Names(BCond(2))),
    row!(b"beq", OneName, Names(BCond(0))),
    row!(b"bge", OneName, Names(BCond(10))),
    row!(b"bgt", OneName, Names(BCond(12))),
    row!(b"bhi", OneName, Names(BCond(8))),
    row!(b"bhs", OneName, Names(BCond(2))),
    row!(b"bics", TwoRegisters, OfTwoRegisters(Alu(14))),
    row!(b"bl", OneName, Names(Bl)),
    row!(b"ble", OneName, Names(BCond(13))),
    row!(b"blo", OneName, Names(BCond(3))),
    row!(b"bls", OneName, Names(BCond(9))),
    row!(b"blt", OneName, Names(BCond(11))),
    row!(b"blx", OneRegister, Controls(Blx)),
    row!(b"bmi", OneName, Names(BCond(4))),
    row!(b"bne", OneName, Names(BCond(1))),
    row!(b"bpl", OneName, Names(BCond(5))),
    row!(b"bvc", OneName, Names(BCond(7))),
    row!(b"bvs", OneName, Names(BCond(6))),
    row!(b"bx", OneRegister, Controls(Bx)),
];

/// The forms of mnemonics that begin with c to l.
pub static C_TO_L: [Row; 30] = [
    row!(b"cbnz", RegisterName, Names(Cbz(true))),
    row!(b"cbz", RegisterName, Names(Cbz(false))),
    row!(b"cmn", TwoRegisters, OfTwoRegisters(Alu(11))),
    row!(b"cmp", RegisterNumber, OfRegisterNumber(CmpImm)),
    row!(b"cmp", TwoRegisters, OfTwoRegisters(CmpReg)),
    row!(b"dmb", Nothing, Controls(Barrier(1))),
    row!(b"dsb", Nothing, Controls(Barrier(0))),
    row!(b"eors", TwoRegisters, OfTwoRegisters(Alu(1))),
    row!(b"isb", Nothing, Controls(Barrier(2))),
    row!(b"ldm", BaseBackList, Transfers(LdmBack)),
    row!(b"ldm", BaseList, Transfers(Ldm)),
    row!(b"ldr", RegisterName, Names(LdrLabel)),
    row!(b"ldr", RegisterValue, Names(LdrPool)),
    row!(b"ldr", SpOffset, Transfers(MemSp(true))),
    row!(b"ldr", SpAlone, Transfers(MemSp(true))),
    row!(b"ldr", BaseOffset, Transfers(MemImm(1))),
    row!(b"ldr", BaseAlone, Transfers(MemImm(1))),
    row!(b"ldr", BaseIndex, Transfers(MemReg(4))),
    row!(b"ldrb", BaseOffset, Transfers(MemImm(3))),
    row!(b"ldrb", BaseAlone, Transfers(MemImm(3))),
    row!(b"ldrb", BaseIndex, Transfers(MemReg(6))),
    row!(b"ldrh", BaseOffset, Transfers(MemImm(5))),
    row!(b"ldrh", BaseAlone, Transfers(MemImm(5))),
    row!(b"ldrh", BaseIndex, Transfers(MemReg(5))),
    row!(b"ldrsb", BaseIndex, Transfers(MemReg(3))),
    row!(b"ldrsh", BaseIndex, Transfers(MemReg(7))),
    row!(
        b"lsls",
        TwoRegistersNumber,
        OfTwoRegistersNumber(ShiftImm(0))
    ),
    row!(b"lsls", TwoRegisters, OfTwoRegisters(Alu(2))),
    row!(
        b"lsrs",
        TwoRegistersNumber,
        OfTwoRegistersNumber(ShiftImm(1))
    ),
    row!(b"lsrs", TwoRegisters, OfTwoRegisters(Alu(3))),
];

/// The forms of mnemonics that begin with m to z.
pub static M_TO_Z: [Row; 46] = [
    row!(b"mov", TwoRegisters, OfTwoRegisters(Mov)),
    row!(b"movs", RegisterNumber, OfRegisterNumber(MovsImm)),
    row!(b"movs", TwoRegisters, OfTwoRegisters(MovsReg)),
    row!(b"movt", RegisterNumber, OfRegisterNumber(MovT)),
    row!(b"movw", RegisterNumber, OfRegisterNumber(MovW)),
    row!(b"muls", TwoRegisters, OfTwoRegisters(Alu(13))),
    row!(b"mvns", TwoRegisters, OfTwoRegisters(Alu(15))),
    row!(b"nop", Nothing, Controls(Hint(0))),
    row!(b"orrs", TwoRegisters, OfTwoRegisters(Alu(12))),
    row!(b"pop", RegisterList, Transfers(Pop)),
    row!(b"push", RegisterList, Transfers(Push)),
    row!(b"rev", TwoRegisters, OfTwoRegisters(Rev(0))),
    row!(b"rev16", TwoRegisters, OfTwoRegisters(Rev(1))),
    row!(b"revsh", TwoRegisters, OfTwoRegisters(Rev(3))),
    row!(b"rors", TwoRegisters, OfTwoRegisters(Alu(7))),
    row!(b"rsbs", TwoRegistersZero, Computes(Rsbs)),
    row!(b"sbcs", TwoRegisters, OfTwoRegisters(Alu(6))),
    row!(b"sdiv", ThreeRegisters, OfThreeRegisters(Div(true))),
    row!(b"sev", Nothing, Controls(Hint(4))),
    row!(b"stm", BaseBackList, Transfers(Stm)),
    row!(b"str", SpOffset, Transfers(MemSp(false))),
    row!(b"str", SpAlone, Transfers(MemSp(false))),
    row!(b"str", BaseOffset, Transfers(MemImm(0))),
    row!(b"str", BaseAlone, Transfers(MemImm(0))),
    row!(b"str", BaseIndex, Transfers(MemReg(0))),
    row!(b"strb", BaseOffset, Transfers(MemImm(2))),
    row!(b"strb", BaseAlone, Transfers(MemImm(2))),
    row!(b"strb", BaseIndex, Transfers(MemReg(2))),
    row!(b"strh", BaseOffset, Transfers(MemImm(4))),
    row!(b"strh", BaseAlone, Transfers(MemImm(4))),
    row!(b"strh", BaseIndex, Transfers(MemReg(1))),
    row!(b"sub", SpNumber, Computes(SubSp)),
    row!(b"subs", RegisterNumber, OfRegisterNumber(AddSubTwo(true))),
    row!(b"subs", ThreeRegisters, OfThreeRegisters(AddSubReg(true))),
    row!(
        b"subs",
        TwoRegistersNumber,
        OfTwoRegistersNumber(AddSubThree(true))
    ),
    row!(b"svc", OneNumber, Controls(Svc)),
    row!(b"sxtb", TwoRegisters, OfTwoRegisters(Extend(1))),
    row!(b"sxth", TwoRegisters, OfTwoRegisters(Extend(0))),
    row!(b"tst", TwoRegisters, OfTwoRegisters(Alu(8))),
    row!(b"udf", OneNumber, Controls(Udf)),
    row!(b"udiv", ThreeRegisters, OfThreeRegisters(Div(false))),
    row!(b"uxtb", TwoRegisters, OfTwoRegisters(Extend(3))),
    row!(b"uxth", TwoRegisters, OfTwoRegisters(Extend(2))),
    row!(b"wfe", Nothing, Controls(Hint(2))),
    row!(b"wfi", Nothing, Controls(Hint(3))),
    row!(b"yield", Nothing, Controls(Hint(1))),
];

/// The forms of a group, sorted by their words, byte by byte. Forms of one word are adjacent and tried in this order.
#[tactic(auto, unfolding(crate::specs::Forms::directives, crate::specs::Forms::a_to_b, crate::specs::Forms::c_to_l, crate::specs::Forms::m_to_z))]
pub fn forms_in(group: Group) -> &'static [Row]
    ensures { map row_of result.now ≡ forms_in group }
{
    match group {
        Group::Directives => &DIRECTIVES,
        Group::AToB => &A_TO_B,
        Group::CToL => &C_TO_L,
        Group::MToZ => &M_TO_Z,
    }
}
