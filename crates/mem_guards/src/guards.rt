//! The guarded words of the stack, with one bit for each word (docs/rules/memory.md).
ghost use Rattle.std.specs.Prelude.{◌≡◌, ◌≢◌, ◌⊎◌, ℕ, ◌+◌, ◌-◌, ◌*◌, ◌/◌, ◌%◌, ◌^◌, ◌<◌, ◌≤◌, ◌∷◌, [], length, Option, Some, None, filter, nat_le, ◌||◌, nat_lt, IfOk, min, slice_index, slice_index_or, slice_set, true, false, if◌then◌else◌};
ghost use Rattle.std.specs.Int.{bit_at};
ghost use Rattle.eh_word.specs.Bytes.{zeros};
ghost use Rattle.eh_bus.specs.Memory.{guard_hit, stays_guarded};
ghost use Rattle.eh_bus.specs.Guards.{insert_sorted};
ghost use Rattle.mem_guards.specs.Flags.{flagged_words, flags_of, AreFlags, AreKept, IsClear, ClearsBits, ReleasesFlags, AreFree, AreOff};

use eh_bus::map::{STACK_END, STACK_SIZE, STACK_START, STACK_WORDS};
use std::alloc::{AllocError, Global};
use std::marker::Model;

/// How many guard bits are in one number.
pub(crate) const NUMBER_BITS: usize = 64;

/// How many numbers hold the guards of the whole stack.
pub(crate) const NUMBERS: usize = STACK_WORDS / NUMBER_BITS;

/// The number of homes, the equal parts into which the stack is divided.
pub const HOMES: usize = 4;

/// The size of a home, in bytes.
pub const HOME_SIZE: u32 = STACK_SIZE / HOMES as u32;

/// The number of words of a home.
pub(crate) const HOME_WORDS: usize = STACK_WORDS / HOMES;

/// How many numbers hold the guards of a home.
pub(crate) const HOME_NUMBERS: usize = NUMBERS / HOMES;

/// The guarded words: one bit for each word of the stack, lowest addresses in the lowest bits.
///
/// Testing and setting a guard cost one bit operation. A run of words is tested at once if one number has all of its
/// bits. A release clears whole numbers, in each home from the lowest that may have a bit up to that of the address. So
/// a push and the return that releases its guards cost a step for each 64 words in between. They never cost a pass over
/// the whole stack, even if other homes have guards.
#[derive(Drop)]
pub struct Guards {
    numbers: Vec<u64>,
    /// For each home, how many of its lowest numbers are 0.
    clear: [usize; HOMES],
    /// A number of lowest homes that are known to have no guards.
    empty: usize,
}

impl Model for Guards {
    ghost use Rattle.std.specs.Prelude.{ℕ, List};
    ghost use Rattle.mem_guards.specs.Flags.{flagged_words, flags_of, AreKept};
    ghost use Rattle.eh_bus.specs.declared.map.TheConstants.{STACK_START};

    ghost Value = { List ℕ };

    ghost view = { λ g. flagged_words STACK_START (flags_of g.numbers.items) };

    ghost invariant = { λ g. AreKept g.numbers.items g.clear g.empty };
}

impl Guards {
    /// No guarded words. All memory is allocated here; Err if it runs out.
    #[tactic(auto, using(crate::proofs::FlagLemmas::none_flagged, crate::proofs::FlagLemmas::clear_are, crate::proofs::FlagLemmas::all_empty))]
    pub fn new(alloc: Global) -> Result<Self, AllocError>
        ensures { IfOk result (λ g. g ≡ []) }
    {
        Ok(Guards {
            numbers: clear_numbers(alloc, NUMBERS)?,
            clear: [HOME_NUMBERS; HOMES],
            empty: HOMES,
        })
    }

    /// The guarded word that contains the `n` bytes from `a` on, if that word is guarded. The bytes must lie in one
    /// word.
    pub fn guard_hit(&self, a: u32, n: u32) -> Option<u32>
        requires some { 0 < n }
        requires one_word { a % 4 + n ≤ 4 }
        ensures { result ≡ guard_hit self.now a n }
    {
        guard_hit_in(&self.numbers, a, n)
    }

    /// Whether the `count` words from `a` on all lie in the stack and none is guarded.
    #[inline(always)]
    pub fn are_free(&self, a: u32, count: usize) -> bool
        requires { a % 4 ≡ 0 }
        ensures yes { result ≡ true → AreFree self.now a count }
        ensures no { result ≡ false → AreFree self.now a count → ⊥ }
    {
        free_in(&self.numbers, a, count)
    }

    /// Guards the word at `a`.
    pub fn insert(&mut self, a: u32)
        requires aligned { a % 4 ≡ 0 }
        requires low { STACK_START ≤ a }
        requires high { a < STACK_END }
        ensures { self.new ≡ insert_sorted a self.old }
    {
        guard_word(&mut self.numbers, &mut self.clear, &mut self.empty, a);
    }

    /// Removes the guards below `a`, in the home that begins at `low` and in those above it.
    pub fn release_from(&mut self, low: u32, a: u32)
        requires inside { STACK_START ≤ low }
        requires below { low < STACK_END }
        requires starts { (low - STACK_START) % HOME_SIZE ≡ 0 }
        ensures { (high : ℕ) → self.new ≡ filter (stays_guarded (low, high) a) self.old }
    {
        release(&mut self.numbers, &mut self.clear, &mut self.empty, low, a);
    }
}

/// A number of zeros.
#[tactic(auto, unfolding(eh_word::specs::Bytes::zeros))]
fn clear_numbers(alloc: Global, n: usize) -> Result<Vec<u64>, AllocError>
    ensures { IfOk result (λ numbers. numbers.items ≡ zeros n) }
{
    vec![in alloc; 0; n]
}

/// The guarded word of an access, by its bit.
#[inline(always)]
#[tactic(auto, using(crate::proofs::FlagLemmas::stack_hit, crate::proofs::FlagLemmas::hit_below, crate::proofs::FlagLemmas::flag_outside))]
fn guard_hit_in(numbers: &[u64], a: u32, n: u32) -> Option<u32>
    requires whole { length numbers.now ≡ NUMBERS }
    requires some { 0 < n }
    requires one_word { a % 4 + n ≤ 4 }
    ensures { result ≡ guard_hit (flagged_words STACK_START (flags_of numbers.now)) a n }
{
    // an address below the stack gets an index past the last word
    let i = (a.wrapping_sub(STACK_START) / 4) as usize;
    if flag(numbers, i) {
        Some(a - a % 4)
    } else {
        None
    }
}

/// The bit of word `i`.
#[inline(always)]
#[tactic(auto, using(crate::proofs::FlagLemmas::flag_inside, crate::proofs::FlagLemmas::flag_outside))]
fn flag(numbers: &[u64], i: usize) -> bool
    requires { length numbers.now ≡ NUMBERS }
    ensures { result ≡ slice_index_or (flags_of numbers.now) i false }
{
    i < STACK_WORDS && (numbers[i / NUMBER_BITS] >> (i % NUMBER_BITS)) % 2 == 1
}

/// Whether these words lie in the stack and none is guarded, by their bits.
#[inline(always)]
fn free_in(numbers: &[u64], a: u32, count: usize) -> bool
    requires whole { length numbers.now ≡ NUMBERS }
    requires aligned { a % 4 ≡ 0 }
    ensures yes { result ≡ true → AreFree (flagged_words STACK_START (flags_of numbers.now)) a count }
    ensures no { result ≡ false → AreFree (flagged_words STACK_START (flags_of numbers.now)) a count → ⊥ }
{
    // an address below the stack gets an index past the last word
    let first = (a.wrapping_sub(STACK_START) / 4) as usize;
    first < STACK_WORDS && all_off(numbers, first, count)
}

/// Whether the bits of these words are all clear. A short run mostly has its bits in one number and is tested at once.
#[inline(always)]
fn all_off(numbers: &[u64], i: usize, count: usize) -> bool
    requires whole { length numbers.now ≡ NUMBERS }
    requires inside { i < STACK_WORDS }
    ensures yes { result ≡ true → AreOff (flags_of numbers.now) i count }
    ensures no { result ≡ false → AreOff (flags_of numbers.now) i count → ⊥ }
{
    if count <= NUMBER_BITS - i % NUMBER_BITS {
        are_off_in_number(numbers, i, count)
    } else {
        are_off_by_word(numbers, i, count)
    }
}

/// The same for bits in one number.
#[inline(always)]
fn are_off_in_number(numbers: &[u64], i: usize, count: usize) -> bool
    requires whole { length numbers.now ≡ NUMBERS }
    requires inside { i < STACK_WORDS }
    requires short { count ≤ NUMBER_BITS - i % NUMBER_BITS }
    ensures yes { result ≡ true → AreOff (flags_of numbers.now) i count }
    ensures no { result ≡ false → AreOff (flags_of numbers.now) i count → ⊥ }
{
    lowest_off(numbers[i / NUMBER_BITS] >> (i % NUMBER_BITS), count)
}

/// Whether the lowest `count` bits of a number are clear.
#[inline(always)]
#[tactic(auto, using(crate::proofs::FlagLemmas::bits_zero))]
fn lowest_off(number: u64, count: usize) -> bool
    requires { count ≤ NUMBER_BITS }
    ensures yes { result ≡ true → (k : ℕ) → k < count → bit_at number k ≡ 0 }
    ensures no { result ≡ false → ((k : ℕ) → k < count → bit_at number k ≡ 0) → ⊥ }
{
    count <= number.trailing_zeros() as usize
}

/// The same, word by word.
#[inline(never)]
fn are_off_by_word(numbers: &[u64], i: usize, count: usize) -> bool
    requires whole { length numbers.now ≡ NUMBERS }
    requires inside { i < STACK_WORDS }
    ensures yes { result ≡ true → AreOff (flags_of numbers.now) i count }
    ensures no { result ≡ false → AreOff (flags_of numbers.now) i count → ⊥ }
{
    if count > STACK_WORDS - i {
        return false;
    }
    for k in 0..count {
        if flag(numbers, i + k) {
            return false;
        }
    }
    true
}

/// Sets the bit of the word at `a`.
fn guard_word(numbers: &mut [u64], clear: &mut [usize], empty: &mut usize, a: u32)
    requires flags { AreKept numbers.old clear.old empty.old }
    requires aligned { a % 4 ≡ 0 }
    requires low { STACK_START ≤ a }
    requires high { a < STACK_END }
    ensures set { flagged_words STACK_START (flags_of numbers.new) ≡ insert_sorted a (flagged_words STACK_START (flags_of numbers.old)) }
    ensures flags { AreKept numbers.new clear.new empty.new }
{
    let i = ((a - STACK_START) / 4) as usize;
    set_bit(numbers, i);
    let number = i / NUMBER_BITS;
    let home = number / HOME_NUMBERS;
    let lowest = number % HOME_NUMBERS;
    if lowest < clear[home] {
        clear[home] = lowest;
        *empty = home.min(*empty);
    }
}

/// Sets the bit of a word.
fn set_bit(numbers: &mut [u64], i: usize)
    requires { i / NUMBER_BITS < length numbers.old }
    ensures flags { flags_of numbers.new ≡ slice_set (flags_of numbers.old) i true }
    ensures there { (k : ℕ) → k ≢ i / NUMBER_BITS → slice_index numbers.new k ≡ slice_index numbers.old k }
{
    numbers[i / NUMBER_BITS] |= 1 << (i % NUMBER_BITS);
}

/// How many words of the stack begin below `a`.
fn words_below(a: u32) -> usize
    ensures within { result ≤ STACK_WORDS }
    ensures below { (i : ℕ) → i < result → STACK_START + 4 * i < a }
    ensures rest { (i : ℕ) → result ≤ i → i < STACK_WORDS → a ≤ STACK_START + 4 * i }
{
    if a < STACK_START {
        return 0;
    }
    (((a - STACK_START) as usize + 3) / 4).min(STACK_WORDS)
}

/// Clears the bits of the words below `a`, from the home that begins at `low` on.
///
/// Homes above that of `a` have no word below it. Homes between `low` and it are mostly empty; one test skips them.
fn release(numbers: &mut [u64], clear: &mut [usize], empty: &mut usize, low: u32, a: u32)
    requires flags { AreKept numbers.old clear.old empty.old }
    requires inside { STACK_START ≤ low }
    requires below { low < STACK_END }
    requires starts { (low - STACK_START) % HOME_SIZE ≡ 0 }
    ensures kept { (high : ℕ) → flagged_words STACK_START (flags_of numbers.new) ≡ filter (stays_guarded (low, high) a) (flagged_words STACK_START (flags_of numbers.old)) }
    ensures flags { AreKept numbers.new clear.new empty.new }
{
    let first = ((low - STACK_START) / HOME_SIZE) as usize;
    let end = words_below(a);
    let last = end / HOME_WORDS;
    if last < first {
        return;
    }
    release_homes_below(numbers, clear, empty, first, last);
    if last < HOMES {
        clear[last] = release_in(numbers, clear[last], last, end);
    }
}

/// Clears all bits of the homes from `first` up to `last`. They mostly have none.
#[inline(always)]
fn release_homes_below(
    numbers: &mut [u64],
    clear: &mut [usize],
    empty: &mut usize,
    first: usize,
    last: usize,
)
    requires flags { AreKept numbers.old clear.old empty.old }
    requires rises { first ≤ last }
    requires within { last ≤ HOMES }
    ensures released { ReleasesFlags numbers.old numbers.new (HOME_WORDS * first) (HOME_WORDS * last) }
    ensures flags { AreKept numbers.new clear.new empty.new }
{
    if first.max(*empty) < last {
        release_homes(numbers, clear, first, last);
        if first <= *empty {
            *empty = last;
        }
    }
}

/// The same, home by home.
#[cold]
#[inline(never)]
fn release_homes(numbers: &mut [u64], clear: &mut [usize], first: usize, last: usize)
    requires flags { AreFlags numbers.old clear.old }
    requires rises { first ≤ last }
    requires within { last ≤ HOMES }
    ensures released { ReleasesFlags numbers.old numbers.new (HOME_WORDS * first) (HOME_WORDS * last) }
    ensures flags { AreFlags numbers.new clear.new }
    ensures passed { (home : ℕ) → first ≤ home → home < last → slice_index clear.new home ≡ HOME_NUMBERS }
    ensures others { (home : ℕ) → ((home < first) ⊎ (last ≤ home)) → slice_index clear.new home ≡ slice_index clear.old home }
{
    for home in first..last {
        release_home(numbers, clear, home);
    }
}

/// Clears all bits of a home.
fn release_home(numbers: &mut [u64], clear: &mut [usize], home: usize)
    requires home { home < HOMES }
    requires flags { AreFlags numbers.old clear.old }
    ensures released { ReleasesFlags numbers.old numbers.new (HOME_WORDS * home) (HOME_WORDS * (home + 1)) }
    ensures flags { AreFlags numbers.new clear.new }
    ensures passed { slice_index clear.new home ≡ HOME_NUMBERS }
    ensures others { (other : ℕ) → other ≢ home → slice_index clear.new other ≡ slice_index clear.old other }
{
    if clear[home] < HOME_NUMBERS {
        clear_home(numbers, home, clear[home]);
        clear[home] = HOME_NUMBERS;
    }
}

/// Sets the numbers of a home to 0; its lowest `clear` are 0 already.
fn clear_home(numbers: &mut [u64], home: usize, clear: usize)
    requires home { home < HOMES }
    requires whole { length numbers.old ≡ NUMBERS }
    requires clear { IsClear numbers.old home clear }
    ensures released { ReleasesFlags numbers.old numbers.new (HOME_WORDS * home) (HOME_WORDS * (home + 1)) }
    ensures clear { IsClear numbers.new home HOME_NUMBERS }
    ensures others { (k : ℕ) → k / HOME_NUMBERS ≢ home → slice_index numbers.new k ≡ slice_index numbers.old k }
{
    let first = HOME_NUMBERS * home;
    clear_whole(numbers, first + clear, first + HOME_NUMBERS);
}

/// Clears the bits of a home below the word `end`, and gives how many of its lowest numbers are 0 then.
#[inline(always)]
fn release_in(numbers: &mut [u64], clear: usize, home: usize, end: usize) -> usize
    requires home { home < HOMES }
    requires low { HOME_WORDS * home ≤ end }
    requires high { end < HOME_WORDS * (home + 1) }
    requires whole { length numbers.old ≡ NUMBERS }
    requires clear { IsClear numbers.old home clear }
    ensures released { ReleasesFlags numbers.old numbers.new (HOME_WORDS * home) end }
    ensures clear { IsClear numbers.new home result }
    ensures empty { clear ≡ HOME_NUMBERS → result ≡ HOME_NUMBERS }
    ensures others { (k : ℕ) → k / HOME_NUMBERS ≢ home → slice_index numbers.new k ≡ slice_index numbers.old k }
{
    let first = HOME_NUMBERS * home;
    if end <= (first + clear) * NUMBER_BITS {
        return clear;
    }
    clear_between(numbers, first + clear, end);
    end / NUMBER_BITS - first
}

/// Clears the bits from the number `from` on, up to the word `end`.
#[inline(always)]
fn clear_between(numbers: &mut [u64], from: usize, end: usize)
    requires whole { length numbers.old ≡ NUMBERS }
    requires rises { from ≤ end / NUMBER_BITS }
    requires within { end < STACK_WORDS }
    ensures { ClearsBits numbers.old numbers.new from end }
{
    let part = end / NUMBER_BITS;
    clear_whole(numbers, from, part);
    numbers[part] = bits_from(numbers[part], end % NUMBER_BITS);
}

/// Sets the numbers from `from` up to `to` to 0.
#[inline(always)]
fn clear_whole(numbers: &mut [u64], from: usize, to: usize)
    requires { to ≤ length numbers.old }
    ensures clear { (k : ℕ) → from ≤ k → k < to → slice_index numbers.new k ≡ 0 }
    ensures rest { (k : ℕ) → ((k < from) ⊎ (to ≤ k)) → slice_index numbers.new k ≡ slice_index numbers.old k }
{
    for k in from..to {
        numbers[k] = 0;
    }
}

/// A number without its bits before `from`.
#[inline(always)]
#[tactic(auto, using(crate::proofs::FlagLemmas::masked, crate::proofs::FlagLemmas::unmasked, std::proofs::lemmas::Nat::and_le_l))]
fn bits_from(number: u64, from: usize) -> u64
    requires { from < NUMBER_BITS }
    ensures bits { (j : ℕ) → j < NUMBER_BITS → bit_at result j ≡ (if nat_lt j from then 0 else bit_at number j) }
    ensures all { from ≡ 0 → result ≡ number }
    ensures less { result ≤ number }
{
    number & (u64::MAX << from)
}
