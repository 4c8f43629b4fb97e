//! Links objects into the parts of an image (docs/rules/linking.md).
ghost use Rattle.std.specs.Prelude.{◌≡◌, ◌⊎◌, ℕ, List, [], map, Some, None, Result, Ok, Err, MatchResult, IfOk, OnOk, IfErr};
ghost use Rattle.std.specs.List.{list_any};
ghost use Rattle.std.specs.Option.{option_map};
ghost use Rattle.eh_word.specs.Names.{same_bytes};
ghost use Rattle.elf_write.specs.declared.parts.ImageParts.{ImageParts};
ghost use Rattle.eh_link.specs.declared.fault.LinkFault.{LinkFault};
ghost use Rattle.eh_link.specs.declared.fault.LinkFault.TheVariants.{OutOfMemory, Duplicate, Undefined};
ghost use Rattle.eh_link.specs.Layout.{Rises};
ghost use Rattle.eh_link.specs.Symbols.{has_global, duplicate_of, first_undefined};
ghost use Rattle.eh_link.specs.Fields.{fill_object};
ghost use Rattle.eh_link.specs.Linked.{entry_of, parts_at, unless_misnamed, link_result};

use crate::fault::LinkFault;
use crate::fill::{FilledSections, fill_all};
use crate::index::index_of;
use crate::names::{NameSet, duplicate, entry_meaning, first_undefined, has_entry};
use crate::places::{ImageLayout, PlacedObject, lay_out, place};
use crate::segments::segments_of;
use crate::symbols::symbols_of;
use asm_relocatable::name::copy_name;
use asm_relocatable::object::Object;
use elf_write::parts::{ImageParts, OwnSegments, OwnSymbols};
use std::alloc::{AllocError, Global};

/// The address of the entry, bit 0 clear.
fn entry_of(name: &[u8], all: &[PlacedObject]) -> u32
    ensures { result ≡ entry_of name.now all.now }
{
    match entry_meaning(name, all) {
        Some(meaning) => meaning.address - meaning.address % 2,
        None => 0,
    }
}

/// Duplicate if a name has global labels in two objects. Collects all global names in `names`.
fn check_duplicate<'a>(
    alloc: Global,
    objects: &'a [Object],
    names: &mut NameSet<'a>,
) -> Result<(), LinkFault>
    requires { names.old ≡ [] }
    ensures ok { OnOk result (duplicate_of objects.now ≡ None) }
    ensures names { OnOk result ((q : List ℕ) → list_any (same_bytes q) names.new ≡ list_any (has_global q) objects.now) }
    ensures err { IfErr result (λ fault. (fault ≡ OutOfMemory) ⊎ (option_map Duplicate (duplicate_of objects.now) ≡ Some fault)) }
{
    match duplicate(objects, names)? {
        Some(name) => Err(LinkFault::Duplicate(copy_name(alloc, name)?)),
        None => Ok(()),
    }
}

/// Undefined if the name of a relocation has no label. `global` are all global names.
fn check_undefined(alloc: Global, objects: &[Object], global: &NameSet<'_>) -> Result<(), LinkFault>
    requires { (q : List ℕ) → list_any (same_bytes q) global.now ≡ list_any (has_global q) objects.now }
    ensures ok { OnOk result (first_undefined objects.now objects.now ≡ None) }
    ensures err { IfErr result (λ fault. (fault ≡ OutOfMemory) ⊎ (option_map Undefined (first_undefined objects.now objects.now) ≡ Some fault)) }
{
    match first_undefined(alloc, objects, global)? {
        Some(name) => Err(LinkFault::Undefined(copy_name(alloc, name)?)),
        None => Ok(()),
    }
}

/// Duplicate, else Undefined, if either holds of the names.
fn check_names(alloc: Global, objects: &[Object]) -> Result<(), LinkFault>
    ensures ok { OnOk result ((later : Result ImageParts LinkFault) → unless_misnamed objects.now later ≡ later) }
    ensures err { IfErr result (λ fault. (fault ≡ OutOfMemory) ⊎ ((later : Result ImageParts LinkFault) → unless_misnamed objects.now later ≡ Err fault)) }
{
    let mut names = NameSet::new(alloc);
    check_duplicate(alloc, objects, &mut names)?;
    check_undefined(alloc, objects, &names)
}

/// The parts of the image, given the objects after relocation.
fn parts_at(
    alloc: Global,
    layout: ImageLayout,
    all: &[PlacedObject],
    filled: &[FilledSections],
    entry: &[u8],
) -> Result<ImageParts, AllocError>
    requires rises { Rises layout }
    requires filled { filled.now ≡ map (fill_object all.now) all.now }
    ensures { IfOk result (λ parts. parts ≡ parts_at layout all.now entry.now) }
{
    let index = index_of(alloc, layout.text_end, layout.index_start, all)?;
    Ok(ImageParts {
        entry: entry_of(entry, all),
        segments: OwnSegments::of_vec(segments_of(alloc, layout, filled, &index)?),
        symbols: OwnSymbols::of_vec(symbols_of(alloc, layout, all)?),
        index: (layout.index_start, layout.code_end - layout.index_start),
    })
}

/// Links objects into the parts of an image whose entry is the global function with this name. The first segment, at
/// 0x8000, has the text, read-only data, exception tables and exception index (IHI 0038). The second, at the next
/// multiple of 4,096, has the data. Relocations are applied by the Arm ELF standard (IHI 0044).
///
/// Err with the first of these: Duplicate for the first name that is global in two objects, Undefined for the first
/// relocation whose name has no label, NoEntry, TooLarge for more than 1,048,576 bytes of memory, RelocationRange for
/// the lowest address of a branch that can't reach. Err also if memory runs out.
#[tactic(auto, unfolding(crate::specs::Linked::link_result, crate::specs::Linked::parts_of))]
pub fn link(alloc: Global, objects: &[Object], entry: &[u8]) -> Result<ImageParts, LinkFault>
    ensures { MatchResult result (λ parts. link_result objects.now entry.now ≡ Ok parts) (λ fault. (fault ≡ OutOfMemory) ⊎ (link_result objects.now entry.now ≡ Err fault)) }
{
    check_names(alloc, objects)?;
    if !has_entry(entry, objects) {
        return Err(LinkFault::NoEntry);
    }
    let Some(layout) = lay_out(objects) else {
        return Err(LinkFault::TooLarge);
    };
    let all = place(alloc, layout, objects)?;
    let (filled, unreachable) = fill_all(alloc, &all)?;
    if let Some(place) = unreachable {
        return Err(LinkFault::RelocationRange(place));
    }
    Ok(parts_at(alloc, layout, &all, &filled, entry)?)
}
