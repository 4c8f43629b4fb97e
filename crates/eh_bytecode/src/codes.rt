//! The unwind instructions of an entry, read in place (IHI 0038, "The compact model"). docs/rules/unwind-tables.md states where their bytes
//! are.
ghost use Rattle.std.specs.Prelude.{◌≡◌, ◌+◌, ◌-◌, ◌*◌, ◌/◌, ◌%◌, ◌^◌, ◌<◌, ◌≤◌, ◌==◌, ◌++◌, [], List, ℕ, length, take, drop, ◌∷◌, IfSome, MatchOption};
ghost use Rattle.std.specs.Iterator.{YieldsFirst, item_count};
ghost use Rattle.eh_codes.specs.Bytes.{IsCode};
ghost use Rattle.eh_codes.specs.Table.{code_front};
ghost use Rattle.eh_bytecode.specs.Codes.{inline_codes, table_codes, code_and_rest, swap_word_bytes};

use eh_codes::UnwindCode;
use eh_codes::code::{
    FINISH, LOWER, POP_LOW, POP_MASK, POP_RANGE, POP_RANGE_AND_LR, RAISE_LONG, RESTORE,
};
use eh_codes::words::{COMPACT_TOP, MOST_PERSONALITY};
use eh_word::uleb128;
use std::marker::Model;

/// Why an entry has no unwind instructions that can be read. If several variants hold, the first is given; but missing words after the
/// first are checked last.
#[derive(Clone, Copy)]
pub enum CodesFault {
    /// The entry's words go past the end of the bytes.
    Short,
    /// Bit 31 of the first word is clear: the entry is of the generic model.
    Generic,
    /// Bits 30 to 28 of the first word aren't 0; or the personality index is above 2; or an inline entry has an index other than 0.
    Reserved,
}

/// Iterates over the bytes of an entry's unwind instructions. In contracts, a `Codes` is the list of bytes still to come. It reads the
/// table in place and allocates nothing.
#[derive(Drop)]
pub struct Codes<'a> {
    word: [u8; 4],
    given: usize,
    further: &'a [u8],
}

impl<'a> Model for Codes<'a> {
    ghost use Rattle.std.specs.Prelude.{List, ℕ, drop, ◌++◌, ◌≤◌};
    ghost use Rattle.eh_bytecode.specs.Codes.{swap_word_bytes};

    ghost Value = { List ℕ };

    ghost view = { λ c. drop c.given c.word ++ swap_word_bytes c.further.now };

    ghost invariant = { λ c. c.given ≤ 4 };
}

impl<'a> Codes<'a> {
    /// The unwind instructions that are inline in the second word of an index row.
    #[inline(always)]
    pub fn inline(word: u32) -> Result<Codes<'a>, CodesFault>
        ensures { result ≡ inline_codes word }
    {
        let word = word.to_be_bytes();
        if word[0] == COMPACT_TOP {
            Ok(Codes {
                word,
                given: 1,
                further: &[],
            })
        } else if word[0] < COMPACT_TOP {
            Err(CodesFault::Generic)
        } else {
            Err(CodesFault::Reserved)
        }
    }

    /// The unwind instructions of an entry in the exception table; `bytes` begin with the entry's first word, little-endian.
    #[inline(always)]
    pub fn table(bytes: &'a [u8]) -> Result<Codes<'a>, CodesFault>
        ensures { result ≡ table_codes bytes.now }
    {
        let [a, b, c, d, more @ ..] = bytes else {
            return Err(CodesFault::Short);
        };
        let word = [*d, *c, *b, *a];
        if word[0] == COMPACT_TOP {
            return Ok(Codes {
                word,
                given: 1,
                further: &more[..0],
            });
        }
        if word[0] < COMPACT_TOP {
            return Err(CodesFault::Generic);
        }
        if word[0] > COMPACT_TOP + MOST_PERSONALITY {
            return Err(CodesFault::Reserved);
        }
        let size = 4 * word[1] as usize;
        if more.len() < size {
            return Err(CodesFault::Short);
        }
        Ok(Codes {
            word,
            given: 2,
            further: &more[..size],
        })
    }

    /// A copy of this iterator, to read the same bytes again.
    pub(crate) fn copy(&self) -> Codes<'a>
        ensures { result ≡ self.now }
    {
        Codes {
            word: self.word,
            given: self.given,
            further: self.further,
        }
    }

    /// The number of bytes left.
    pub fn len(&self) -> usize
        ensures { result ≡ length self.now }
    {
        4 - self.given + self.further.len() / 4 * 4
    }

    /// Whether no byte is left.
    pub fn is_empty(&self) -> bool
        ensures { result ≡ (length self.now == 0) }
    {
        self.len() == 0
    }
}

impl<'a> Codes<'a> {
    /// The next bytes, five at most, and their number.
    fn peek_five(&self) -> ([u8; 5], usize)
        ensures within { result.1 ≤ 5 }
        ensures bytes { take result.1 result.0 ≡ take 5 self.now }
    {
        let mut left = self.copy();
        let mut bytes = [0; 5];
        let mut count = 0;
        while count < 5 {
            match left.next() {
                Some(byte) => bytes[count] = byte,
                None => return (bytes, count),
            }
            count += 1;
        }
        (bytes, count)
    }

    /// Takes the operand of an instruction that begins with `10110010`. None, and nothing taken, if it isn't valid.
    #[inline(never)]
    fn take_long_raise(&mut self) -> Option<UnwindCode>
        ensures code { (result, self.new) ≡ code_and_rest (code_front RAISE_LONG self.old) self.old }
        ensures fits { IfSome result IsCode }
    {
        let (bytes, count) = self.peek_five();
        match uleb128(&bytes[..count], 0) {
            Ok((words, size)) => {
                self.skip_bytes(size);
                Some(UnwindCode::RaiseLong(words))
            }
            Err(_) => None,
        }
    }

    /// Takes the operand of an instruction that begins with `1000iiii`. None, and nothing taken, if there is none.
    fn take_mask(&mut self, first: u8) -> Option<UnwindCode>
        requires low { POP_MASK ≤ first }
        requires high { first < RESTORE }
        ensures code { (result, self.new) ≡ code_and_rest (code_front first self.old) self.old }
        ensures fits { IfSome result IsCode }
    {
        if first / 2 % 2 == 1 {
            return None;
        }
        let next = self.next()?;
        if first == POP_MASK && next == 0 {
            Some(UnwindCode::Refuse)
        } else {
            let mask = u16::from(first % 16) * 256 + u16::from(next);
            Some(UnwindCode::PopMask(mask))
        }
    }

    /// Takes the operand of an instruction that begins with `10110001`. None, and nothing taken, if it isn't valid.
    #[inline(never)]
    fn take_low_mask(&mut self) -> Option<UnwindCode>
        ensures code { (result, self.new) ≡ code_and_rest (code_front POP_LOW self.old) self.old }
        ensures fits { IfSome result IsCode }
    {
        let mut after = self.copy();
        let next = after.next()?;
        if next == 0 || next > 15 {
            return None;
        }
        *self = after;
        Some(UnwindCode::PopLow(next))
    }

    /// Takes the rest of an instruction whose first byte was taken, and returns the instruction. None if these bytes are no
    /// instruction; then nothing is taken.
    #[inline(always)]
    pub(crate) fn take_code(&mut self, first: u8) -> Option<UnwindCode>
        ensures code { (result, self.new) ≡ code_and_rest (code_front first self.old) self.old }
        ensures fits { IfSome result IsCode }
    {
        if first < POP_RANGE {
            if first < LOWER {
                Some(UnwindCode::Raise(first % 64))
            } else if first < POP_MASK {
                Some(UnwindCode::Lower(first % 64))
            } else if first < RESTORE {
                self.take_mask(first)
            } else {
                restore(first)
            }
        } else if first < POP_RANGE_AND_LR {
            Some(UnwindCode::PopRange(first % 8))
        } else if first < FINISH {
            Some(UnwindCode::PopRangeAndLr(first % 8))
        } else if first == FINISH {
            Some(UnwindCode::Finish)
        } else if first == POP_LOW {
            self.take_low_mask()
        } else if first == RAISE_LONG {
            self.take_long_raise()
        } else {
            None
        }
    }

    /// Skips `count` bytes.
    pub(crate) fn skip_bytes(&mut self, count: usize)
        ensures { self.new ≡ drop count self.old }
    {
        for _passed in 0..count {
            let _byte = self.next();
        }
    }
}

/// The instruction `1001nnnn` (vsp = r`nnnn`); None for sp and pc.
fn restore(first: u8) -> Option<UnwindCode>
    requires low { RESTORE ≤ first }
    requires high { first < POP_RANGE }
    ensures code { (after : List ℕ) → (result, after) ≡ code_and_rest (code_front first after) after }
    ensures fits { IfSome result IsCode }
{
    let register = first % 16;
    if register == 13 || register == 15 {
        None
    } else {
        Some(UnwindCode::Restore(register))
    }
}

/// The first byte of the further words, in the order of instructions, and the bytes after it; None if there is no word.
#[inline(never)]
fn next_word<'a>(further: &'a [u8]) -> Option<(u8, Codes<'a>)>
    ensures { MatchOption result (swap_word_bytes further.now ≡ []) (λ first. swap_word_bytes further.now ≡ first.0 ∷ first.1) }
{
    let [a, b, c, d, more @ ..] = further else {
        return None;
    };
    let codes = Codes {
        word: [*d, *c, *b, *a],
        given: 1,
        further: more,
    };
    Some((*d, codes))
}

impl<'a> Iterator for Codes<'a> {
    type Item = u8;

    ghost next_gives = { YieldsFirst (λ s. s) };

    ghost remaining = { item_count (λ s. s) };

    #[inline(always)]
    fn next(&mut self) -> Option<u8> {
        if self.given == 4 {
            let (byte, codes) = next_word(self.further)?;
            *self = codes;
            return Some(byte);
        }
        let byte = self.word[self.given];
        self.given += 1;
        Some(byte)
    }
}
