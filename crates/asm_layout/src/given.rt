//! The data that a directive gives: fields of one width, a text, or zeros (docs/rules/sources.md).
ghost use Rattle.std.specs.Prelude.{◌≡◌};
ghost use Rattle.asm_layout.specs.Given.{bytes_of, field_limit, takes_addresses};

use asm_statements::Exprs;

/// The width of a data field. It is the only difference between `.byte`, `.half` and `.word`.
#[derive(Clone, Copy)]
pub enum Width {
    /// One byte.
    Byte,
    /// Two bytes.
    Half,
    /// Four bytes.
    Word,
}

/// The limit of a byte: it takes numbers from `-BYTE_LIMIT` to `2 * BYTE_LIMIT - 1`.
pub const BYTE_LIMIT: u16 = 0x80;

/// The limit of a halfword, likewise.
pub const HALF_LIMIT: u16 = 0x8000;

impl Width {
    /// The width in bytes.
    pub fn bytes(self) -> u64
        ensures { result ≡ bytes_of self }
    {
        match self {
            Width::Byte => 1,
            Width::Half => 2,
            Width::Word => 4,
        }
    }

    /// The limit of the numbers that a field takes. None for a word, which takes every number modulo 2^32.
    pub fn limit(self) -> Option<u16>
        ensures { result ≡ field_limit self }
    {
        match self {
            Width::Byte => Some(BYTE_LIMIT),
            Width::Half => Some(HALF_LIMIT),
            Width::Word => None,
        }
    }

    /// Whether a field may hold an address, which the linker fills in.
    pub fn takes_addresses(self) -> bool
        ensures { result ≡ takes_addresses self }
    {
        match self {
            Width::Byte | Width::Half => false,
            Width::Word => true,
        }
    }
}

/// The data of a statement.
#[derive(Clone, Copy)]
pub enum Data<'a> {
    /// Fields of one width.
    Fields(Width, &'a Exprs),
    /// A text, and in `closed` whether a zero byte follows it.
    Text { text: &'a [u8], closed: bool },
    /// A number of zero bytes.
    Zeros(i64),
}
