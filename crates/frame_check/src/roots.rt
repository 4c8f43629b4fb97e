//! The types that an image's exceptions may have. docs/rules/acceptance.md, "Types".
ghost use Rattle.std.specs.Prelude.{◌≡◌, ◌++◌, [], if◌then◌else◌, IfOk, OnOk};
ghost use Rattle.std.specs.List.{flat_map, range_with_len};
ghost use Rattle.eh_desc.specs.Grammar.{type_in};
ghost use Rattle.frame_check.specs.Roots.{type_at, spec_root, catch_types, kind_types, item_types, entry_types, same_body, same_entry, roots_of};

use eh_desc::{CatchType, Desc, DescFault, DescKind, Descs, spec_type};
use eh_index::{Entry, EntryBody, Index};
use std::alloc::{AllocError, Global};

/// Adds a type; does nothing for 0.
fn add_type(roots: &mut Vec<u32>, ty: u32) -> Result<(), AllocError>
    ensures { OnOk result (roots.new.items ≡ roots.old.items ++ type_at ty) }
{
    if ty != 0 {
        roots.push(ty)?;
    }
    Ok(())
}

/// Adds the type of a catch.
fn add_catch(roots: &mut Vec<u32>, ty: CatchType) -> Result<(), AllocError>
    ensures { OnOk result (roots.new.items ≡ roots.old.items ++ catch_types ty) }
{
    match ty {
        CatchType::All | CatchType::AllFails => Ok(()),
        CatchType::One(ty) => add_type(roots, ty),
    }
}

/// Adds a type of a specification, if there is one.
fn add_spec_root(roots: &mut Vec<u32>, ty: Option<u32>) -> Result<(), AllocError>
    ensures { OnOk result (roots.new.items ≡ roots.old.items ++ spec_root ty) }
{
    match ty {
        None => Ok(()),
        Some(ty) => add_type(roots, ty),
    }
}

/// Adds the first `count` types of a specification; none for another descriptor.
fn add_listed_types(
    roots: &mut Vec<u32>,
    index: &Index,
    d: &Desc,
    count: u32,
) -> Result<(), AllocError>
    ensures { OnOk result (roots.new.items ≡ roots.old.items ++ flat_map (λ i. spec_root (type_in index.now.segments d.now.kind i)) (range_with_len 0 count)) }
{
    for i in 0..count {
        add_spec_root(roots, spec_type(index, d, i))?;
    }
    Ok(())
}

/// Adds the types that a descriptor names.
fn add_kind(roots: &mut Vec<u32>, index: &Index, d: &Desc) -> Result<(), AllocError>
    ensures { OnOk result (roots.new.items ≡ roots.old.items ++ kind_types index.now.segments d.now.kind) }
{
    match d.kind {
        DescKind::Cleanup { .. } => Ok(()),
        DescKind::Catch { ty, .. } => add_catch(roots, ty),
        DescKind::Spec { count, .. } => add_listed_types(roots, index, d, count),
    }
}

fn add_item(
    roots: &mut Vec<u32>,
    index: &Index,
    item: Result<Desc, DescFault>,
) -> Result<(), AllocError>
    ensures { OnOk result (roots.new.items ≡ roots.old.items ++ item_types index.now.segments item) }
{
    match item {
        Ok(d) => add_kind(roots, index, &d),
        Err(_) => Ok(()),
    }
}

fn add_items(roots: &mut Vec<u32>, index: &Index, descs: Descs) -> Result<(), AllocError>
    ensures { OnOk result (roots.new.items ≡ roots.old.items ++ flat_map (item_types index.now.segments) descs.entry) }
{
    for item in descs {
        add_item(roots, index, item)?;
    }
    Ok(())
}

/// Adds the types that the descriptors of an entry name.
fn add_entry(roots: &mut Vec<u32>, index: &Index, e: Option<Entry>) -> Result<(), AllocError>
    ensures { OnOk result (roots.new.items ≡ roots.old.items ++ entry_types index.now e) }
{
    match e {
        None => Ok(()),
        Some(e) => add_items(roots, index, Descs::of(index, &e)),
    }
}

fn is_same_body(a: EntryBody, b: EntryBody) -> bool
    ensures { result ≡ same_body a b }
{
    a == b
}

fn is_same_entry(a: Option<Entry>, b: Option<Entry>) -> bool
    ensures { result ≡ same_entry a b }
{
    match (a, b) {
        (None, None) => true,
        (Some(a), Some(b)) => a.start == b.start && is_same_body(a.body, b.body),
        (None, Some(_)) | (Some(_), None) => false,
    }
}

/// As `add_entry`, unless it is the same entry as the one before.
fn add_other(
    roots: &mut Vec<u32>,
    index: &Index,
    before: Option<Entry>,
    e: Option<Entry>,
) -> Result<(), AllocError>
    ensures { OnOk result (roots.new.items ≡ roots.old.items ++ (if same_entry before e then [] else entry_types index.now e)) }
{
    if is_same_entry(before, e) {
        Ok(())
    } else {
        add_entry(roots, index, e)
    }
}

/// The types that the descriptors of an image's functions name, function by function, and then its type symbols. An entry that covers
/// several consecutive functions is read once.
#[tactic(auto, unfolding(crate::specs::Roots::roots_of))]
pub fn roots_of(alloc: Global, index: &Index) -> Result<Vec<u32>, AllocError>
    ensures { IfOk result (λ roots. roots.items ≡ roots_of index.now) }
{
    let image = index.image();
    let mut roots = Vec::new(alloc);
    let mut before = None;
    for f in image.functions() {
        let entry = index.find(f.start());
        add_other(&mut roots, index, before, entry)?;
        before = entry;
    }
    roots.extend_from_slice(image.type_symbols())?;
    Ok(roots)
}
