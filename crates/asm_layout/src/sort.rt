//! Groups the forms of statements into patterns, for matches over all of them. Every form except `udf` and `.align` is
//! in exactly one pattern (`specs/Sorts.antt`; docs/rules/sources.md). A match that uses them must have `StmtKind` in
//! scope. The data of a statement is here too.
ghost use Rattle.std.specs.Prelude.{◌≡◌, option_map};
ghost use Rattle.asm_layout.specs.Given.{data_value};
ghost use Rattle.asm_layout.specs.Sorts.{stmt_data};

use crate::given::{Data, Width};
use crate::{
    bare_form, branch_form, computed_form, local_form, name_form, nameless_form, reader_form,
    wide_form,
};
use asm_statements::StmtKind;

/// A computation on registers and numbers (`computation` of asm_statements).
#[macro_export]
macro_rules! computed_form {
    () => {
        StmtKind::TwoRegisters { .. }
            | StmtKind::ThreeRegisters { .. }
            | StmtKind::RegisterNumber { .. }
            | StmtKind::TwoRegistersNumber { .. }
    };
}

/// Any other 16-bit instruction without a name, except `udf`.
#[macro_export]
macro_rules! nameless_form {
    () => {
        StmtKind::AddRdSp { .. }
            | StmtKind::AddSp { .. }
            | StmtKind::SubSp { .. }
            | StmtKind::Rsbs { .. }
            | StmtKind::MemImm { .. }
            | StmtKind::MemReg { .. }
            | StmtKind::MemSp { .. }
            | StmtKind::Push { .. }
            | StmtKind::Pop { .. }
            | StmtKind::Stm { .. }
            | StmtKind::LdmBack { .. }
            | StmtKind::Ldm { .. }
            | StmtKind::Bx { .. }
            | StmtKind::Blx { .. }
            | StmtKind::Svc { .. }
            | StmtKind::Hint { .. }
    };
}

/// Any other 32-bit instruction without a name.
#[macro_export]
macro_rules! wide_form {
    () => {
        StmtKind::Barrier { .. }
    };
}

/// An instruction with a label of the text, or with a value.
#[macro_export]
macro_rules! reader_form {
    () => {
        StmtKind::Adr { .. } | StmtKind::LdrLabel { .. } | StmtKind::LdrPool { .. }
    };
}

/// A branch that takes only labels of the text.
#[macro_export]
macro_rules! local_form {
    () => {
        StmtKind::Cbz { .. } | StmtKind::BWide(_)
    };
}

/// A branch to a name, which another source may define.
#[macro_export]
macro_rules! branch_form {
    () => {
        StmtKind::B(_) | StmtKind::BCond { .. } | StmtKind::Bl(_)
    };
}

/// Data.
#[macro_export]
macro_rules! data_form {
    () => {
        StmtKind::Words(_)
            | StmtKind::Halves(_)
            | StmtKind::Bytes(_)
            | StmtKind::Ascii(_)
            | StmtKind::Asciz(_)
            | StmtKind::Space(_)
    };
}

/// A directive about a name.
#[macro_export]
macro_rules! name_form {
    () => {
        StmtKind::Global(_)
            | StmtKind::TypeFunction(_)
            | StmtKind::TypeObject(_)
            | StmtKind::Size(_)
    };
}

/// A statement that emits no bytes and uses no name.
#[macro_export]
macro_rules! bare_form {
    () => {
        StmtKind::Label(_)
            | StmtKind::Text
            | StmtKind::Data
            | StmtKind::Bss
            | StmtKind::Rodata
            | StmtKind::Pool
            | StmtKind::FnStart
            | StmtKind::FnEnd
            | StmtKind::Save { .. }
            | StmtKind::Pad(_)
            | StmtKind::SetFp { .. }
            | StmtKind::CantUnwind
            | StmtKind::PersonalityIndex(_)
            | StmtKind::HandlerData
    };
}

/// The data of a statement, or None if it is no data.
pub fn given(kind: &StmtKind) -> Option<Data<'_>>
    ensures { option_map data_value result ≡ stmt_data kind.now }
{
    match kind {
        StmtKind::Words(fields) => Some(Data::Fields(Width::Word, fields)),
        StmtKind::Halves(fields) => Some(Data::Fields(Width::Half, fields)),
        StmtKind::Bytes(fields) => Some(Data::Fields(Width::Byte, fields)),
        StmtKind::Ascii(text) => Some(Data::Text {
            text: text.bytes(),
            closed: false,
        }),
        StmtKind::Asciz(text) => Some(Data::Text {
            text: text.bytes(),
            closed: true,
        }),
        StmtKind::Space(n) => Some(Data::Zeros(*n)),
        computed_form!()
        | nameless_form!()
        | reader_form!()
        | wide_form!()
        | branch_form!()
        | local_form!()
        | StmtKind::Udf { .. }
        | StmtKind::Align(_)
        | name_form!()
        | bare_form!() => None,
    }
}
