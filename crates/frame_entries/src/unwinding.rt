//! How an unwind entry unwinds, as far as the checker needs it. docs/rules/acceptance.md, "Sites".
ghost use Rattle.std.specs.Prelude.{◌≡◌, ◌+◌, ◌<◌, ◌≤◌, ◌^◌, slice_index};
ghost use Rattle.eh_codes.specs.Cut.{split_codes};
ghost use Rattle.eh_bytecode.specs.Recipe.{is_same};
ghost use Rattle.eh_index.specs.Places.{table_of};
ghost use Rattle.frame_entries.specs.Unwinding.{pop_once, summary_of_codes, summary_of_fault, summary_of_body, keeps_register, changes_register, change_bit, resume_changes, landing_changes};

use eh_bytecode::{Codes, CodesFault, Recipe, RecipeFault, Src, pops_once, summarise};
use eh_index::{Entry, EntryBody, Index};
use thumb_core::calls::CALL_CHANGES;

/// How an unwind entry unwinds a frame.
#[derive(Clone, Copy)]
pub enum EntrySummary {
    /// Its unwind instructions give the caller's registers by this recipe.
    Finds(Recipe),
    /// It doesn't unwind: there is no entry, it is CANTUNWIND, or its unwind instructions refuse.
    Refused,
    /// Its unwind instructions can't be read, have no recipe, or pop a register twice.
    BadBytecode,
    /// It is of the generic model.
    GenericModel,
}

/// Whether unwind instructions pop no register twice.
fn pop_once(codes: &Codes) -> bool
    ensures { result ≡ pop_once (split_codes codes.now) }
{
    pops_once(codes)
}

/// How these unwind instructions unwind.
fn summary_of_codes(codes: &Codes) -> EntrySummary
    ensures { result ≡ summary_of_codes codes.now }
{
    match summarise(codes) {
        Ok(recipe) => {
            if pop_once(codes) {
                EntrySummary::Finds(recipe)
            } else {
                EntrySummary::BadBytecode
            }
        }
        Err(RecipeFault::Refuses) => EntrySummary::Refused,
        Err(RecipeFault::BadCode | RecipeFault::NotStatic) => EntrySummary::BadBytecode,
    }
}

/// How an entry without readable unwind instructions unwinds.
fn summary_of_fault(fault: CodesFault) -> EntrySummary
    ensures { result ≡ summary_of_fault fault }
{
    match fault {
        CodesFault::Generic => EntrySummary::GenericModel,
        CodesFault::Short | CodesFault::Reserved => EntrySummary::BadBytecode,
    }
}

/// How an entry unwinds.
pub fn summary_of_entry(index: &Index, e: &Entry) -> EntrySummary
    ensures { result ≡ summary_of_body e.now.body (table_of index.now e.now) }
{
    match e.body {
        EntryBody::CantUnwind => EntrySummary::Refused,
        EntryBody::Inline(word) => match Codes::inline(word) {
            Ok(codes) => summary_of_codes(&codes),
            Err(fault) => summary_of_fault(fault),
        },
        EntryBody::Table(_) => match index.table(e) {
            None => EntrySummary::BadBytecode,
            Some(bytes) => match Codes::table(bytes) {
                Ok(codes) => summary_of_codes(&codes),
                Err(fault) => summary_of_fault(fault),
            },
        },
    }
}

fn is_same(src: Src) -> bool
    ensures { result ≡ is_same src }
{
    match src {
        Src::Same => true,
        Src::FromSp(_) | Src::FromBase(_) => false,
    }
}

/// Whether a register has the same value after a resume as at the site.
fn keeps_register(r: &Recipe, reg: u8) -> bool
    requires { reg < 16 }
    ensures { result ≡ keeps_register r.now reg }
{
    r.base == reg || is_same(r.src[reg as usize])
}

impl EntrySummary {
    fn changes_register(&self, reg: u8) -> bool
        requires { reg < 16 }
        ensures { result ≡ changes_register self.now reg }
    {
        match self {
            EntrySummary::Finds(recipe) => !keeps_register(recipe, reg),
            EntrySummary::Refused | EntrySummary::BadBytecode | EntrySummary::GenericModel => true,
        }
    }

    /// The register's bit if a resume changes it, else 0.
    fn change_bit(&self, reg: u8) -> u16
        requires { reg < 12 }
        ensures bit { result ≡ change_bit self.now reg }
        ensures most { result ≤ 2 ^ reg }
    {
        if self.changes_register(reg) {
            1 << reg
        } else {
            0
        }
    }

    /// The registers of r4 to r11 that a resume changes; bit k means register k.
    fn resume_changes(&self) -> u16
        ensures list { result ≡ resume_changes self.now }
        ensures most { result < 0x1000 }
    {
        self.change_bit(4)
            + self.change_bit(5)
            + self.change_bit(6)
            + self.change_bit(7)
            + self.change_bit(8)
            + self.change_bit(9)
            + self.change_bit(10)
            + self.change_bit(11)
    }

    /// The registers of which nothing is known at a landing pad; bit k means register k. `resumed` says that the pad is reached by a
    /// resume: a cleanup in scope comes before its descriptor.
    pub fn landing_changes(&self, resumed: bool) -> u16
        ensures { result ≡ landing_changes self.now resumed }
    {
        if resumed {
            CALL_CHANGES + self.resume_changes()
        } else {
            CALL_CHANGES
        }
    }
}
