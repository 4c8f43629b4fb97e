//! Why a source is refused, and where (docs/rules/sources.md, "Refusals of text").
ghost use Rattle.std.specs.Prelude.{◌≡◌, ◌≤◌, length};
ghost use Rattle.asm_read.specs.Fault.{what_name};

use eh_word::NameMemory;
use std::alloc::AllocError;

/// Where and why a source is refused. If memory ran out, line and column are 0.
#[derive(Clone, Copy)]
pub struct SourceFault {
    /// The line, counted from 1.
    pub line: u32,
    /// The column in bytes, counted from 1.
    pub column: u32,
    /// Why the source is refused.
    pub what: SourceWhat,
}

/// Why a source is refused. The earliest place of the text is reported; at one place, the first cause of this list.
#[derive(Clone, Copy, Debug)]
pub enum SourceWhat {
    /// A byte above 126, or below 32 other than tab, carriage return and line feed; at the byte.
    NotAscii,
    /// A line of more than 256 bytes; at column 257.
    LineTooLong,
    /// More than 200,000 lines; at column 1 of line 200,001.
    TooManyLines,
    /// Bytes that are no token; at the first of them.
    BadToken,
    /// A word that is no mnemonic; at the word.
    UnknownMnemonic,
    /// A word that begins with a dot and is no directive; at the word.
    UnknownDirective,
    /// A token that no form of the word takes there; at the token. If the line ends too early, after its last token.
    BadOperand,
    /// A number outside -2,147,483,648 to 4,294,967,295; at the number.
    NumberRange,
    /// Memory ran out.
    OutOfMemory,
}

impl SourceWhat {
    /// The name of the refusal in reports, of at most 16 bytes.
    pub fn name(self) -> &'static [u8]
        ensures name { result.now ≡ what_name self }
        ensures short { length result.now ≤ 16 }
    {
        match self {
            SourceWhat::NotAscii => b"NotAscii",
            SourceWhat::LineTooLong => b"LineTooLong",
            SourceWhat::TooManyLines => b"TooManyLines",
            SourceWhat::BadToken => b"BadToken",
            SourceWhat::UnknownMnemonic => b"UnknownMnemonic",
            SourceWhat::UnknownDirective => b"UnknownDirective",
            SourceWhat::BadOperand => b"BadOperand",
            SourceWhat::NumberRange => b"NumberRange",
            SourceWhat::OutOfMemory => b"OutOfMemory",
        }
    }
}

impl From<AllocError> for SourceFault {
    ghost use Rattle.std.specs.Prelude.{◌≡◌};
    ghost use Rattle.asm_read.specs.Fault.{out_of_memory};

    ghost from_gives = { λ _ e. e ≡ out_of_memory };

    fn from(_e: AllocError) -> SourceFault {
        SourceFault {
            line: 0,
            column: 0,
            what: SourceWhat::OutOfMemory,
        }
    }
}

impl From<NameMemory> for SourceFault {
    ghost use Rattle.std.specs.Prelude.{◌≡◌};
    ghost use Rattle.asm_read.specs.Fault.{out_of_memory};

    ghost from_gives = { λ _ e. e ≡ out_of_memory };

    fn from(_e: NameMemory) -> SourceFault {
        SourceFault {
            line: 0,
            column: 0,
            what: SourceWhat::OutOfMemory,
        }
    }
}
