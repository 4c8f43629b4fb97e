//! Names of an object's symbols (docs/rules/sources.md).
ghost use Rattle.std.specs.Prelude.{◌≡◌, IfOk};
ghost use Rattle.asm_relocatable.specs.Names.{is_local};

use eh_word::Name;
use std::alloc::{AllocError, Global};

/// A copy of a name. Err if memory runs out.
pub fn copy_name(alloc: Global, name: &Name) -> Result<Name, AllocError>
    ensures { IfOk result (λ n. n ≡ name.now) }
{
    Ok(Name::of_vec(Vec::from_slice(alloc, name.bytes())?))
}

/// Whether a name is local, that is, begins with `.L`.
pub fn is_local(name: &Name) -> bool
    ensures { result ≡ is_local name.now }
{
    name.bytes().starts_with(b".L")
}
