//! Splits a line into tokens (docs/rules/sources.md, "Tokens").
ghost use Rattle.std.specs.Prelude.{◌≡◌, ◌+◌, ◌-◌, ◌<◌, ◌≤◌, length, take, drop, IfSome, option_and_then, false};
ghost use Rattle.std.specs.List.{prefix_len};
ghost use Rattle.asm_read.specs.Tokens.{is_blank, is_digit, is_name_byte, is_mark, escape_of, hex_digit, decimal_digit, kind_of_number, number_of, character_front, run_front, minus_front, quoted_front, closing, front_of, token_at};
ghost use Rattle.asm_read.specs.Operands.{is_mark_of};
ghost use Rattle.asm_read.specs.Marks.{is_lone_mark, begins_with, mark_after};
ghost use Rattle.asm_read.specs.Capped.{capped_number_from, capped_number};
ghost use Rattle.asm_read.specs.declared.token.TheConstants.{NAME_BYTES};

/// The kind of a token.
#[derive(Clone, Copy)]
pub enum TokenKind {
    /// A name: letters, digits, `_`, `.` and `$`, not beginning with a digit.
    Word,
    /// A number that fits 32 bits, signed or unsigned, or a character.
    Number(i64),
    /// A number that doesn't fit 32 bits.
    Wide,
    /// A text in double quotes.
    Quoted,
    /// One of `# , [ ] { } ! : = + - ( ) %`.
    Mark(u8),
    /// The end of the line.
    End,
    /// Bytes that are no token.
    Bad,
}

/// The token that some bytes begin with.
#[derive(Clone, Copy)]
pub struct Front {
    /// The kind of the token.
    pub kind: TokenKind,
    /// Its length in bytes.
    pub len: usize,
}

/// A token of a line.
#[derive(Clone, Copy)]
pub struct Token {
    /// The offset in the line, in bytes, of its first byte.
    pub start: usize,
    /// The offset in the line, in bytes, after its last byte.
    pub end: usize,
    /// Its kind.
    pub kind: TokenKind,
}

const NO_TOKEN: Front = Front {
    kind: TokenKind::Bad,
    len: 0,
};

/// A minus sign that doesn't begin a number.
const MINUS_ALONE: Front = Front {
    kind: TokenKind::Mark(b'-'),
    len: 1,
};

/// Where counting of digits stops: any number from here on is outside 32 bits, with or without a sign.
pub const MANY: u64 = 0x2_0000_0000;

/// The greatest number that a source may have.
pub const GREATEST: u64 = 0xffff_ffff;

/// The absolute value of the least number that a source may have.
pub const FARTHEST_BELOW: u64 = 0x8000_0000;

/// Whether a byte is a decimal digit.
fn is_digit(b: u8) -> bool
    ensures { result ≡ is_digit b }
{
    b >= b'0' && b <= b'9'
}

/// For each byte, whether a name may contain it.
static NAME_BYTES: [bool; 256] = [
    false, false, false, false, false, false, false, false, false, false, false, false, false,
    false, false, false, false, false, false, false, false, false, false, false, false, false,
    false, false, false, false, false, false, false, false, false, false, true, false, false,
    false, false, false, false, false, false, false, true, false, true, true, true, true, true,
    true, true, true, true, true, false, false, false, false, false, false, false, true, true,
    true, true, true, true, true, true, true, true, true, true, true, true, true, true, true, true,
    true, true, true, true, true, true, true, true, false, false, false, false, true, false, true,
    true, true, true, true, true, true, true, true, true, true, true, true, true, true, true, true,
    true, true, true, true, true, true, true, true, true, false, false, false, false, false, false,
    false, false, false, false, false, false, false, false, false, false, false, false, false,
    false, false, false, false, false, false, false, false, false, false, false, false, false,
    false, false, false, false, false, false, false, false, false, false, false, false, false,
    false, false, false, false, false, false, false, false, false, false, false, false, false,
    false, false, false, false, false, false, false, false, false, false, false, false, false,
    false, false, false, false, false, false, false, false, false, false, false, false, false,
    false, false, false, false, false, false, false, false, false, false, false, false, false,
    false, false, false, false, false, false, false, false, false, false, false, false, false,
    false, false, false, false, false, false, false, false, false, false, false, false, false,
    false, false, false, false, false, false, false, false, false, false,
];

/// The table as a slice.
fn name_bytes() -> &'static [bool]
    ensures bytes { result.now ≡ NAME_BYTES }
    ensures len { length result.now ≡ 256 }
{
    &NAME_BYTES
}

/// Whether a name may contain a byte.
#[tactic(auto, using(crate::proofs::Bytes::name_byte))]
fn is_name_byte(b: u8) -> bool
    ensures { result ≡ is_name_byte b }
{
    name_bytes()[usize::from(b)]
}

/// Whether a byte is a mark.
fn is_mark(b: u8) -> bool
    ensures { result ≡ is_mark b }
{
    matches!(
        b,
        b'#' | b','
            | b'['
            | b']'
            | b'{'
            | b'}'
            | b'!'
            | b':'
            | b'='
            | b'+'
            | b'-'
            | b'('
            | b')'
            | b'%'
    )
}

/// Whether a token that begins with this byte is always a mark. A minus sign isn't: it may begin a number.
fn is_lone_mark(b: u8) -> bool
    ensures { result ≡ is_lone_mark b }
{
    b != b'-' && is_mark(b)
}

/// The byte that an escape stands for, given the byte after the backslash. None if there is no such escape.
pub fn escape(b: u8) -> Option<u8>
    ensures { result ≡ escape_of b }
{
    match b {
        b'n' => Some(b'\n'),
        b't' => Some(b'\t'),
        b'r' => Some(b'\r'),
        b'0' => Some(0),
        b'\\' | b'"' | b'\'' => Some(b),
        _ => None,
    }
}

/// The value of a hexadecimal digit, or None.
fn hex_digit(b: u8) -> Option<u8>
    ensures value { result ≡ hex_digit b }
    ensures small { IfSome result (λ d. d < 16) }
{
    match b {
        b'0'..=b'9' => Some(b - b'0'),
        b'a'..=b'f' => Some(10 + (b - b'a')),
        b'A'..=b'F' => Some(10 + (b - b'A')),
        _ => None,
    }
}

/// The value of a decimal digit, or None.
fn decimal_digit(b: u8) -> Option<u8>
    ensures value { result ≡ decimal_digit b }
    ensures small { IfSome result (λ d. d < 10) }
{
    match b {
        b'0'..=b'9' => Some(b - b'0'),
        _ => None,
    }
}

/// The number of decimal digits, capped at `MANY`. None if a byte is no digit.
fn decimal(digits: &[u8]) -> Option<u64>
    ensures { result ≡ capped_number_from decimal_digit 10 0 digits.now }
{
    let mut n: u64 = 0;
    for b in digits {
        let d = decimal_digit(*b)?;
        n = MANY.min(n * 10 + u64::from(d));
    }
    Some(n)
}

/// The number of hexadecimal digits, capped at `MANY`. None if a byte is no digit.
fn hexadecimal(digits: &[u8]) -> Option<u64>
    ensures { result ≡ capped_number_from hex_digit 16 0 digits.now }
{
    let mut n: u64 = 0;
    for b in digits {
        let d = hex_digit(*b)?;
        n = MANY.min(n * 16 + u64::from(d));
    }
    Some(n)
}

/// The number that a run of name bytes spells, capped at `MANY`. None if it spells none.
fn number(run: &[u8]) -> Option<u64>
    ensures { result ≡ capped_number run.now }
{
    if run.len() > 2 && run[0] == b'0' && run[1] == b'x' {
        hexadecimal(&run[2..])
    } else {
        decimal(run)
    }
}

/// The token kind of a number: `Number` if it fits, `Wide` if it doesn't, `Bad` if there is none.
fn kind_of(negative: bool, number: Option<u64>) -> TokenKind
    ensures { result ≡ kind_of_number negative number }
{
    match number {
        None => TokenKind::Bad,
        Some(n) if negative => {
            if n <= FARTHEST_BELOW {
                TokenKind::Number(0 - n as i64)
            } else {
                TokenKind::Wide
            }
        }
        Some(n) => {
            if n <= GREATEST {
                TokenKind::Number(n as i64)
            } else {
                TokenKind::Wide
            }
        }
    }
}

/// How many of the first bytes may be in a name.
fn name_len(bytes: &[u8]) -> usize
    ensures len { result ≡ prefix_len is_name_byte bytes.now }
    ensures within { result ≤ length bytes.now }
{
    for (i, b) in bytes.iter().enumerate() {
        if !is_name_byte(*b) {
            return i;
        }
    }
    bytes.len()
}

/// How many of the first bytes are blanks.
fn blank_len(bytes: &[u8]) -> usize
    ensures len { result ≡ prefix_len is_blank bytes.now }
    ensures within { result ≤ length bytes.now }
{
    for (i, b) in bytes.iter().enumerate() {
        if *b != b' ' && *b != b'\t' && *b != b'\r' {
            return i;
        }
    }
    bytes.len()
}

/// The length in bytes of a text up to its closing quote, that quote included. None if it isn't closed.
fn text_len(bytes: &[u8]) -> Option<usize>
    ensures len { result ≡ closing false bytes.now }
    ensures within { IfSome result (λ n. n ≤ length bytes.now) }
{
    let mut escaped = false;
    for (i, b) in bytes.iter().enumerate() {
        if escaped {
            if escape(*b).is_none() {
                return None;
            }
            escaped = false;
        } else if *b == b'"' {
            return Some(i + 1);
        } else {
            escaped = *b == b'\\';
        }
    }
    None
}

/// The character token of bytes that begin with a single quote.
fn character(bytes: &[u8], negative: bool) -> Front
    ensures front { result ≡ character_front negative bytes.now }
    ensures within { result.len ≤ length bytes.now }
{
    match bytes {
        [_, b'\\', e, b'\'', ..] => Front {
            kind: kind_of(negative, escape(*e).map(u64::from)),
            len: 4,
        },
        [_, b'\\', ..] | [_, b'\'', ..] => NO_TOKEN,
        [_, b, b'\'', ..] => Front {
            kind: kind_of(negative, Some(u64::from(*b))),
            len: 3,
        },
        _ => NO_TOKEN,
    }
}

/// The text token, given the bytes after its opening quote.
fn text(bytes: &[u8]) -> Front
    ensures front { result ≡ quoted_front (closing false bytes.now) }
    ensures within { result.len ≤ length bytes.now + 1 }
{
    match text_len(bytes) {
        None => NO_TOKEN,
        Some(n) => Front {
            kind: TokenKind::Quoted,
            len: n + 1,
        },
    }
}

/// The number token of bytes that begin with a digit.
#[tactic(auto, using(crate::proofs::Capping::same_kind))]
fn run(bytes: &[u8], negative: bool) -> Front
    ensures front { result ≡ run_front negative bytes.now }
    ensures within { result.len ≤ length bytes.now }
{
    let len = name_len(bytes);
    Front {
        kind: kind_of(negative, number(&bytes[..len])),
        len,
    }
}

/// The token of a minus sign, given the bytes after it: a negative number, or the mark alone.
fn minus(bytes: &[u8]) -> Front
    ensures front { result ≡ minus_front bytes.now }
    ensures within { result.len ≤ length bytes.now + 1 }
{
    let number = match bytes {
        [b'\'', ..] => character(bytes, true),
        [b'0'..=b'9', ..] => run(bytes, true),
        _ => NO_TOKEN,
    };
    match number.kind {
        TokenKind::Bad => MINUS_ALONE,
        kind => Front {
            kind,
            len: number.len + 1,
        },
    }
}

/// The first token of bytes that don't begin with a blank.
#[tactic(auto, unfolding(crate::specs::Tokens::front_of))]
pub fn front_at(bytes: &[u8]) -> Front
    ensures front { result ≡ front_of bytes.now }
    ensures within { result.len ≤ length bytes.now }
{
    let [first, rest @ ..] = bytes else {
        return Front {
            kind: TokenKind::End,
            len: 0,
        };
    };
    match *first {
        b'@' => Front {
            kind: TokenKind::End,
            len: 0,
        },
        b'"' => text(rest),
        b'\'' => character(bytes, false),
        b'-' => minus(rest),
        b'0'..=b'9' => run(bytes, false),
        b if is_name_byte(b) => Front {
            kind: TokenKind::Word,
            len: name_len(bytes),
        },
        b if is_mark(b) => Front {
            kind: TokenKind::Mark(b),
            len: 1,
        },
        _ => NO_TOKEN,
    }
}

/// The token at an offset of a line, blanks skipped. The end of the line is placed right after the last token.
#[tactic(auto, unfolding(crate::specs::Tokens::token_at))]
pub fn token_at(line: &[u8], from: usize) -> Token
    requires { from ≤ length line.now }
    ensures token { result ≡ token_at line.now from }
    ensures start { result.start ≤ length line.now }
    ensures end { result.end ≤ length line.now }
{
    let start = from + blank_len(&line[from..]);
    let found = front_at(&line[start..]);
    match found.kind {
        TokenKind::End => Token {
            start: from,
            end: from,
            kind: TokenKind::End,
        },
        kind => Token {
            start,
            end: start + found.len,
            kind,
        },
    }
}

/// Whether a token is this mark.
pub fn is_mark_of(mark: u8, kind: TokenKind) -> bool
    ensures { result ≡ is_mark_of mark kind }
{
    match kind {
        TokenKind::Mark(b) => mark == b,
        _ => false,
    }
}

/// Whether bytes begin with this byte.
fn begins_with(byte: u8, bytes: &[u8]) -> bool
    ensures { result ≡ begins_with byte bytes.now }
{
    !bytes.is_empty() && bytes[0] == byte
}

/// The offset after a mark, or None if another token is there. The first byte decides, except for a minus sign.
pub fn mark_after(mark: u8, line: &[u8], from: usize) -> Option<usize>
    requires { from ≤ length line.now }
    ensures place { result ≡ mark_after mark line.now from }
    ensures end { IfSome result (λ at. at ≤ length line.now) }
{
    let start = from + blank_len(&line[from..]);
    if !begins_with(mark, &line[start..]) {
        return None;
    }
    if is_lone_mark(mark) {
        return Some(start + 1);
    }
    let token = token_at(line, from);
    if is_mark_of(mark, token.kind) {
        Some(token.end)
    } else {
        None
    }
}
