//! The addresses of names, and names that are defined twice or not at all (docs/rules/linking.md).
ghost use Rattle.std.specs.Prelude.{◌≡◌, ◌||◌, List, ℕ, [], None, Some, IfOk, OnOk, find, not, if◌then◌else◌};
ghost use Rattle.std.specs.List.{list_any};
ghost use Rattle.std.specs.Map.{lookup};
ghost use Rattle.std.specs.Option.{option_or, option_map};
ghost use Rattle.eh_word.specs.Names.{same_bytes};
ghost use Rattle.eh_link.specs.Symbols.{has_label, has_global, is_label, is_global, is_entry, has_entry, global_names, field_names, duplicate_of, first_undefined, symbol_address, meaning, first_label, first_in, look_up};

use crate::places::{Addresses, PlacedObject, address_at, address_in};
use asm_relocatable::object::{ObjSymbol, Object};
use eh_word::Name;
use indexmap::{IndexMap, IndexSet};
use std::alloc::{AllocError, Global};
use std::marker::Model;

/// The meaning of a name.
#[derive(Clone, Copy)]
pub struct Meaning {
    /// The address of its label, in bytes.
    pub address: u32,
    /// Whether the label is a function.
    pub function: bool,
}

/// A set of borrowed names. Contracts see a list.
#[derive(Drop)]
pub struct NameSet<'a> {
    names: IndexSet<&'a [u8]>,
}

impl<'a> Model for NameSet<'a> {
    ghost use Rattle.std.specs.Prelude.{List, ℕ, map};

    ghost Value = { List (List ℕ) };

    ghost view = { λ set. map (λ name. name.now) set.names.keys };
}

impl<'a> NameSet<'a> {
    /// No names.
    pub(crate) fn new(alloc: Global) -> NameSet<'a>
        ensures { result ≡ [] }
    {
        NameSet {
            names: IndexSet::new(alloc),
        }
    }

    /// No names, with room for some.
    fn with_capacity(alloc: Global, names: usize) -> Result<NameSet<'a>, AllocError>
        ensures { IfOk result (λ set. set ≡ []) }
    {
        Ok(NameSet {
            names: IndexSet::with_capacity(alloc, names)?,
        })
    }

    /// Whether a name is in the set.
    pub(crate) fn contains(&self, name: &Name) -> bool
        ensures { result ≡ list_any (same_bytes name.now) self.now }
    {
        self.names.contains(name.bytes())
    }

    /// Adds a name.
    pub(crate) fn add(&mut self, name: &'a Name) -> Result<(), AllocError>
        ensures { OnOk result ((q : List ℕ) → list_any (same_bytes q) self.new ≡ (list_any (same_bytes q) self.old || same_bytes q name.now)) }
    {
        self.names.insert(name.bytes())?;
        Ok(())
    }
}

/// A map from borrowed names to their meanings. Contracts see a list of pairs.
#[derive(Drop)]
pub struct Meanings<'a> {
    by_name: IndexMap<&'a [u8], Meaning>,
}

impl<'a> Model for Meanings<'a> {
    ghost use Rattle.std.specs.Prelude.{List, ℕ, map};
    ghost use Rattle.eh_link.specs.declared.names.Meaning.{Meaning};

    ghost Value = { List (List ℕ × Meaning) };

    ghost view = { λ meanings. map (λ entry. (entry.0.now, entry.1)) meanings.by_name.entries };
}

impl<'a> Meanings<'a> {
    /// No names.
    fn new(alloc: Global) -> Meanings<'a>
        ensures { result ≡ [] }
    {
        Meanings {
            by_name: IndexMap::new(alloc),
        }
    }

    /// No names, with room for some.
    fn with_capacity(alloc: Global, names: usize) -> Result<Meanings<'a>, AllocError>
        ensures { IfOk result (λ meanings. meanings ≡ []) }
    {
        Ok(Meanings {
            by_name: IndexMap::with_capacity(alloc, names)?,
        })
    }

    /// The meaning of a name, or None.
    pub(crate) fn get(&self, name: &Name) -> Option<Meaning>
        ensures { result ≡ lookup (same_bytes name.now) self.now }
    {
        self.by_name.get(name.bytes()).copied()
    }

    /// Adds the meaning of a name, unless it has one.
    fn add(&mut self, name: &'a Name, meaning: Meaning) -> Result<(), AllocError>
        ensures { OnOk result ((q : List ℕ) → lookup (same_bytes q) self.new ≡ option_or (lookup (same_bytes q) self.old) (if same_bytes q name.now then Some meaning else None)) }
    {
        self.by_name.entry(name.bytes())?.or_insert(meaning);
        Ok(())
    }
}

/// The meaning of a name by the labels of its object, else by the global labels.
pub(crate) fn look_up(own: &Meanings<'_>, global: &Meanings<'_>, name: &Name) -> Option<Meaning>
    ensures { result ≡ look_up own.now global.now name.now }
{
    match own.get(name) {
        Some(meaning) => Some(meaning),
        None => global.get(name),
    }
}

// ---- names that are defined twice or not at all

/// Adds the names of an object's labels.
fn add_labels<'a>(names: &mut NameSet<'a>, object: &'a Object) -> Result<(), AllocError>
    ensures { OnOk result ((q : List ℕ) → list_any (same_bytes q) names.new ≡ (list_any (same_bytes q) names.old || has_label q object.now)) }
{
    for symbol in object.symbols.as_slice() {
        names.add(&symbol.name)?;
    }
    Ok(())
}

/// Adds the names of an object's global labels.
fn add_globals<'a>(names: &mut NameSet<'a>, object: &'a Object) -> Result<(), AllocError>
    ensures { OnOk result ((q : List ℕ) → list_any (same_bytes q) names.new ≡ (list_any (same_bytes q) names.old || has_global q object.now)) }
{
    for symbol in object.symbols.as_slice() {
        if symbol.global {
            names.add(&symbol.name)?;
        }
    }
    Ok(())
}

/// The first global name of an object that is in a set.
#[tactic(auto, using(crate::proofs::Steps::finds))]
fn shared_name<'a>(object: &'a Object, later: &NameSet<'_>) -> Option<&'a Name>
    ensures { option_map (λ name. name.now) result ≡ find (λ name. list_any (same_bytes name) later.now) (global_names object.now) }
{
    for symbol in object.symbols.as_slice() {
        if symbol.global && later.contains(&symbol.name) {
            return Some(&symbol.name);
        }
    }
    None
}

/// The first name that has global labels in two objects. Collects all global names in `names`.
pub(crate) fn duplicate<'a>(
    objects: &'a [Object],
    names: &mut NameSet<'a>,
) -> Result<Option<&'a Name>, AllocError>
    requires { names.old ≡ [] }
    ensures found { IfOk result (λ o. option_map (λ name. name.now) o ≡ duplicate_of objects.now) }
    ensures names { OnOk result ((q : List ℕ) → list_any (same_bytes q) names.new ≡ list_any (has_global q) objects.now) }
{
    let mut found = None;
    for i in (0..objects.len()).rev() {
        let object = &objects[i];
        found = shared_name(object, names).or(found);
        add_globals(names, object)?;
    }
    Ok(found)
}

/// The first relocation name of an object that is neither in `own` nor in `global`.
fn first_in_neither<'a>(
    object: &'a Object,
    own: &NameSet<'_>,
    global: &NameSet<'_>,
) -> Option<&'a Name>
    ensures { option_map (λ name. name.now) result ≡ find (λ name. not (list_any (same_bytes name) own.now || list_any (same_bytes name) global.now)) (field_names object.now) }
{
    for reloc in object.relocs.as_slice() {
        if !own.contains(&reloc.name) && !global.contains(&reloc.name) {
            return Some(&reloc.name);
        }
    }
    None
}

/// The first relocation name of an object that is neither one of its labels nor in `global`.
fn first_undefined_in<'a>(
    alloc: Global,
    object: &'a Object,
    global: &NameSet<'_>,
) -> Result<Option<&'a Name>, AllocError>
    ensures { IfOk result (λ o. option_map (λ name. name.now) o ≡ find (λ name. not (has_label name object.now || list_any (same_bytes name) global.now)) (field_names object.now)) }
{
    let mut own = NameSet::with_capacity(alloc, object.symbols.len())?;
    add_labels(&mut own, object)?;
    Ok(first_in_neither(object, &own, global))
}

/// The first relocation name that has no label.
pub(crate) fn first_undefined<'a>(
    alloc: Global,
    objects: &'a [Object],
    global: &NameSet<'_>,
) -> Result<Option<&'a Name>, AllocError>
    requires { (q : List ℕ) → list_any (same_bytes q) global.now ≡ list_any (has_global q) objects.now }
    ensures { IfOk result (λ o. option_map (λ name. name.now) o ≡ first_undefined objects.now objects.now) }
{
    for object in objects {
        let found = first_undefined_in(alloc, object, global)?;
        if found.is_some() {
            return Ok(found);
        }
    }
    Ok(None)
}

// ---- the meanings of names

/// The address of a symbol, given the addresses of its object's sections.
pub(crate) fn symbol_address(at: Addresses, symbol: &ObjSymbol) -> u32
    ensures { result ≡ symbol_address at symbol.now }
{
    address_at(address_in(symbol.section, at), symbol.offset)
}

/// The meaning of a symbol.
fn meaning_at(at: Addresses, symbol: &ObjSymbol) -> Meaning
    ensures { result ≡ meaning at symbol.now }
{
    Meaning {
        address: symbol_address(at, symbol),
        function: symbol.function,
    }
}

/// Adds the meanings of an object's labels.
fn add_own_meanings<'a>(
    own: &mut Meanings<'a>,
    placed: &'a PlacedObject<'_>,
) -> Result<(), AllocError>
    ensures { OnOk result ((q : List ℕ) → lookup (same_bytes q) own.new ≡ option_or (lookup (same_bytes q) own.old) (first_label (is_label q) placed.now)) }
{
    for symbol in placed.object.symbols.as_slice() {
        own.add(&symbol.name, meaning_at(placed.at, symbol))?;
    }
    Ok(())
}

/// The meanings of an object's labels.
pub(crate) fn own_meanings<'a>(
    alloc: Global,
    placed: &'a PlacedObject<'_>,
) -> Result<Meanings<'a>, AllocError>
    ensures { IfOk result (λ own. (q : List ℕ) → lookup (same_bytes q) own ≡ first_label (is_label q) placed.now) }
{
    let mut own = Meanings::with_capacity(alloc, placed.object.symbols.len())?;
    add_own_meanings(&mut own, placed)?;
    Ok(own)
}

/// Adds the meanings of an object's global labels.
#[tactic(auto, using(crate::proofs::Steps::finds))]
fn add_global_meanings<'a>(
    global: &mut Meanings<'a>,
    placed: &'a PlacedObject<'_>,
) -> Result<(), AllocError>
    ensures { OnOk result ((q : List ℕ) → lookup (same_bytes q) global.new ≡ option_or (lookup (same_bytes q) global.old) (first_label (is_global q) placed.now)) }
{
    for symbol in placed.object.symbols.as_slice() {
        if symbol.global {
            global.add(&symbol.name, meaning_at(placed.at, symbol))?;
        }
    }
    Ok(())
}

/// The meanings of all global labels.
#[tactic(auto, using(crate::proofs::Steps::finds))]
pub(crate) fn global_meanings<'a>(
    alloc: Global,
    all: &'a [PlacedObject<'_>],
) -> Result<Meanings<'a>, AllocError>
    ensures { IfOk result (λ global. (q : List ℕ) → lookup (same_bytes q) global ≡ first_in (is_global q) all.now) }
{
    let mut global = Meanings::new(alloc);
    for placed in all {
        add_global_meanings(&mut global, placed)?;
    }
    Ok(global)
}

// ---- the entry

/// Whether a symbol is the global function of this name.
fn is_entry(name: &[u8], symbol: &ObjSymbol) -> bool
    ensures { result ≡ is_entry name.now symbol.now }
{
    symbol.function && symbol.global && name == symbol.name.bytes()
}

/// Whether an object has a global function with a name.
fn has_entry_in(name: &[u8], object: &Object) -> bool
    ensures { result ≡ list_any (is_entry name.now) object.now.symbols }
{
    object
        .symbols
        .as_slice()
        .iter()
        .any(|symbol| is_entry(name, symbol))
}

/// Whether any object has a global function with a name.
pub(crate) fn has_entry(name: &[u8], objects: &[Object]) -> bool
    ensures { result ≡ has_entry name.now objects.now }
{
    objects.iter().any(|object| has_entry_in(name, object))
}

/// The first global function of an object with a name.
fn entry_in(name: &[u8], placed: &PlacedObject) -> Option<Meaning>
    ensures { result ≡ first_label (is_entry name.now) placed.now }
{
    let symbols = placed.object.symbols.as_slice();
    let found = symbols.iter().find(|symbol| is_entry(name, symbol))?;
    Some(meaning_at(placed.at, found))
}

/// The first global function of all objects with a name.
#[tactic(auto, using(crate::proofs::Steps::finds))]
pub(crate) fn entry_meaning(name: &[u8], all: &[PlacedObject]) -> Option<Meaning>
    ensures { result ≡ first_in (is_entry name.now) all.now }
{
    for placed in all {
        let found = entry_in(name, placed);
        if found.is_some() {
            return found;
        }
    }
    None
}
