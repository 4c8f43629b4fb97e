//! Laws on the object of a source, in terms of the source (docs/rules/unwind-tables.md, "From the source").
#![tactic(auto)]

ghost use Rattle.std.specs.Prelude.{◌<◌, ◌^◌, length};
ghost use Rattle.asm_laws.specs.RowLaw.{RowsStandAtTheirFunctions, RowsAreOfFunctions, FunctionsAreClosed};
ghost use Rattle.asm_laws.specs.HandlerLaw.{HandlersStandAfterTheirTables};
ghost use Rattle.asm_laws.specs.SourceRowLaw.{EachRowIsAFunctions, RowsRise, LaterRowsBeginAfter, RowsLieInTheirObjects, HasShortList, HaveShortLists};
ghost use Rattle.asm_laws.specs.MarkLaw.{MarksTellCode, PoolsAreMarked, LastPoolsAreMarked};
ghost use Rattle.asm_laws.specs.SymbolLaw.{FunctionsAreTyped, ObjectsAreTyped, OthersAreNoFunctions, GlobalsAreGlobal, OthersAreLocal};
ghost use Rattle.asm_laws.specs.SizeLaw.{SizesCountBytes, OthersHaveNoSize};
ghost use Rattle.asm_laws.specs.RoomLaw.{AlignsReachMultiples, ZeroedDataIsCounted};

use asm_statements::{Stmt, StmtKind};

/// In an accepted source, each `.fnstart` has its `.fnend` before the next function begins.
pub fn functions_are_closed()
    ensures { FunctionsAreClosed }
{}

/// In the object of an accepted source, the k-th index row belongs to the k-th `.fnstart`, and there are no other rows.
/// The row's offset is the place of that statement in the text. Its entry is that of the unwind directives up to the
/// next `.fnend`. If the entry is a table, its words are in the exception tables at the offset that the row gives.
pub fn rows_stand_at_their_functions()
    ensures rows { RowsStandAtTheirFunctions }
    ensures count { RowsAreOfFunctions }
{}

/// What a source gives after `.handlerdata` directly follows the words of the function's table, byte by byte.
pub fn handlers_stand_after_their_tables()
    ensures { HandlersStandAfterTheirTables }
{}

/// Each index row of an object belongs to a function of the source. Rows ascend, and each begins at or after the
/// `.fnend` of the one before. A row lies in its object: it begins in the text, an inline entry has bit 31 set, and a
/// table is in the exception tables at a multiple of 4.
pub fn rows_are_of_the_source()
    ensures functions { EachRowIsAFunctions }
    ensures rising { RowsRise }
    ensures later { LaterRowsBeginAfter }
    ensures inside { RowsLieInTheirObjects }
{}

/// The last mark at or below a byte of the text says what the byte is: code, which is an instruction or filling, or
/// data. In a literal pool the filling is code and the words are data.
pub fn marks_tell_code()
    ensures statements { MarksTellCode }
    ensures pools { PoolsAreMarked }
    ensures last { LastPoolsAreMarked }
{}

/// The last `.type` of a name says whether its symbol is a function; without one it isn't. A `.global` anywhere makes a
/// name global, and nothing else does.
pub fn symbols_are_described()
    ensures functions { FunctionsAreTyped }
    ensures objects { ObjectsAreTyped }
    ensures others { OthersAreNoFunctions }
    ensures globals { GlobalsAreGlobal }
    ensures locals { OthersAreLocal }
{}

/// If the last `.size` of a name comes after its label in the same section, the size is the number of bytes between
/// them. Without a `.size` the size is 0.
pub fn sizes_count_bytes()
    ensures sizes { SizesCountBytes }
    ensures others { OthersHaveNoSize }
{}

/// An `.align n` advances to the next multiple of 2^n of its section. The bss section of an object ends at the place
/// that its source has reached in `.bss`.
pub fn room_is_as_given()
    ensures aligns { AlignsReachMultiples }
    ensures zeroed { ZeroedDataIsCounted }
{}

/// A register list has 16 bits.
fn is_short(kind: &StmtKind)
    ensures { HasShortList kind.now }
{
    match kind {
        StmtKind::Save { list } => {
            let _list = *list;
        }
        _ => {}
    }
}

/// The bounds that the types give of every source: fewer than 2^64 statements, and register lists of 16 bits. So the
/// other conditions of these laws, besides acceptance, always hold.
pub fn types_bound_sources(stmts: &[Stmt])
    ensures few { length stmts.now < 2 ^ 64 }
    ensures short { HaveShortLists stmts.now }
{
    let _count = stmts.len();
    for stmt in stmts {
        is_short(&stmt.kind);
    }
}
