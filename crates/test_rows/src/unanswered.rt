//! Why a question has no answer.
ghost use Rattle.std.specs.Prelude.{◌≡◌, IfOk, Ok};
ghost use Rattle.test_rows.specs.Refusals.{IsWantOfMemory};

use std::alloc::{AllocError, AllocFailed, Global};
use std::io::{Error, ErrorKind};

/// Why a question has no answer. All but the last are written in place of the answer.
#[derive(Drop)]
pub enum Unanswered {
    /// A word should be a number, and is none or none of 32 bits.
    NotNumber,
    /// The question ends before a word that it needs.
    NoWord,
    /// The question asks for something unknown.
    NotKnown,
    /// The question can't be asked, for this reason, which is written in place of the answer.
    Because(&'static str),
    /// Memory or a file failed; the row isn't judged.
    Failed(Error),
}

impl From<AllocError> for Unanswered {
    ghost from_gives = { λ _ kept. IsWantOfMemory kept };

    fn from(fault: AllocError) -> Unanswered {
        Unanswered::Failed(Error::from(fault))
    }
}

impl<T: Drop> From<AllocFailed<T>> for Unanswered {
    ghost from_gives = { λ _ kept. IsWantOfMemory kept };

    fn from(fault: AllocFailed<T>) -> Unanswered {
        Unanswered::Failed(Error::from(AllocError::from(fault)))
    }
}

impl From<Error> for Unanswered {
    ghost use Rattle.std.specs.Prelude.{◌≡◌};
    ghost use Rattle.test_rows.specs.declared.unanswered.Unanswered.TheVariants.{Failed};

    ghost from_gives = { λ fault kept. kept ≡ Failed fault };

    fn from(fault: Error) -> Unanswered {
        Unanswered::Failed(fault)
    }
}

/// The reason that no memory is left.
pub fn want_of_memory() -> Unanswered
    ensures { IsWantOfMemory result }
{
    Unanswered::Failed(Error::from(ErrorKind::OutOfMemory))
}

/// The text of an answer, or what is written in its place.
pub(crate) fn text_of(alloc: Global, answer: Result<String, Unanswered>) -> Result<String, Error>
    ensures { IfOk answer (λ text. result ≡ Ok text) }
{
    let text = match answer {
        Ok(text) => return Ok(text),
        Err(Unanswered::Failed(fault)) => return Err(fault),
        Err(Unanswered::NotNumber) => "a word is no number",
        Err(Unanswered::NoWord) => "a word is missing",
        Err(Unanswered::NotKnown) => "nothing is asked",
        Err(Unanswered::Because(why)) => why,
    };
    Ok(format!(in alloc; "{text}")?)
}
