//! The words of a question: words separated by one space, most of which are numbers.
ghost use Rattle.std.specs.Prelude.{◌≡◌, ◌<◌, ◌↔◌, length, IsOk, IfOk, slice_get, Some, []};
ghost use Rattle.test_rows.specs.Words.{word_in_front, words_after};
ghost use Rattle.std.specs.Str.Parse.{ParsesUnsigned};

use crate::unanswered::Unanswered;
use std::alloc::Global;

/// The number of a word in hexadecimal digits. `NotNumber` if it is none of 32 bits.
pub fn number(word: &str) -> Result<u32, Unanswered>
    ensures { ParsesUnsigned 32 16 word.now result }
{
    match u32::from_str_radix(word, 16) {
        Ok(number) => Ok(number),
        Err(_why) => Err(Unanswered::NotNumber),
    }
}

/// The number of a word in decimal digits. `NotNumber` if it is none of 32 bits.
pub fn decimal(word: &str) -> Result<u32, Unanswered>
    ensures { ParsesUnsigned 32 10 word.now result }
{
    match u32::from_str_radix(word, 10) {
        Ok(number) => Ok(number),
        Err(_why) => Err(Unanswered::NotNumber),
    }
}

/// The first word of a question, and the rest.
pub fn first_word(question: &str) -> (&str, &str)
    ensures first { result.0.now ≡ word_in_front question.now }
    ensures rest { result.1.now ≡ words_after question.now }
{
    match question.split_once(' ') {
        Some(parts) => parts,
        None => (question, ""),
    }
}

/// The numbers of words in hexadecimal digits; none for no words. `NotNumber` if a word is none of 32 bits.
pub fn numbers(alloc: Global, words: &str) -> Result<Vec<u32>, Unanswered>
    ensures none { words.now ≡ [] → IfOk result (λ numbers. numbers.items ≡ []) }
{
    let mut numbers = Vec::new(alloc);
    if words.is_empty() {
        return Ok(numbers);
    }
    for word in words.split(' ') {
        numbers.push(number(word)?)?;
    }
    Ok(numbers)
}

/// The number with an index among those given. `NoWord` if there are fewer.
pub fn number_at(given: &[u32], place: usize) -> Result<u32, Unanswered>
    ensures there { IsOk result ↔ (place < length given.now) }
    ensures value { IfOk result (λ number. slice_get given.now place ≡ Some number) }
{
    match given.get(place) {
        Some(number) => Ok(*number),
        None => Err(Unanswered::NoWord),
    }
}
