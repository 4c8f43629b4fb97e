//! The words of `ehabi_audit` (docs/guide/audit.md, "The program").
ghost use Rattle.std.specs.Borrow.{Bor};
ghost use Rattle.std.specs.Prelude.{◌≡◌, ℕ, List, option_map};
ghost use Rattle.audit_top.specs.Words.{is_name, name_of};
ghost use Rattle.cmd_answers.specs.Words.{texts};

/// The byte that no name begins with: such words are reserved for options.
pub const HYPHEN: u8 = b'-';

/// Whether a word is a name: it isn't empty, and doesn't begin with `-`.
fn is_name(word: &str) -> bool
    ensures { result ≡ is_name word.now }
{
    match word.as_bytes() {
        [] => false,
        [first, ..] => *first != HYPHEN,
    }
}

/// The name of the file to audit, if the words are exactly one name.
#[tactic(auto, unfolding(crate::specs::Words::name_of))]
pub fn name_of<'a>(words: &[&'a str]) -> Option<&'a str>
    ensures { option_map (λ (name : Bor (List ℕ)). name.now) result ≡ name_of (texts words.now) }
{
    match words {
        [name] => {
            if !is_name(name) {
                return None;
            }
            Some(name)
        }
        _ => None,
    }
}
