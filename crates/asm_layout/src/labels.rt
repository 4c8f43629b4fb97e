//! The labels of a source, and what directives say about them (docs/rules/sources.md).
ghost use Rattle.std.specs.Prelude.{◌≡◌, [], ◌++◌, map, IfOk, OnOk, None, Some};
ghost use Rattle.asm_statements.specs.declared.statement.StmtKind.TheVariants.{Size};
ghost use Rattle.asm_layout.specs.Faults.{first_of_all};
ghost use Rattle.asm_layout.specs.Labels.{find, is_among, size_between, label_unless, labels_in, label_places, duplicates_from, stmt_of};
ghost use Rattle.asm_layout.specs.LabelSteps.{blank_label, label_with_size, entry_after, labels_after, defines_again, entry_with_type, entry_global, label_with_directive, label_with_directives};

use crate::fault::{AsmFault, AsmWhat, first_if};
use crate::placed::PlacedStmt;
use asm_relocatable::name::copy_name;
use asm_relocatable::place::Place;
use asm_statements::{Stmt, StmtKind};
use eh_word::Name;
use indexmap::IndexMap;
use indexmap::map::Entry;
use std::alloc::{AllocError, Global};
use std::marker::Model;

/// A label, with what the directives on its name say.
#[derive(Clone, Copy)]
pub struct Label {
    /// Where the label is.
    pub place: Place,
    /// The size that `.size` gave it, in bytes; else 0.
    pub size: u64,
    /// Whether the last `.type` of its name says function.
    pub function: bool,
    /// Whether a `.global` names it.
    pub global: bool,
}

/// The number of bytes from a label to a later place of its section; 0 for any other place.
fn size_between(label: Place, end: Place) -> u64
    ensures { result ≡ size_between (Some label) end }
{
    if label.section == end.section {
        end.offset.saturating_sub(label.offset)
    } else {
        0
    }
}

/// The labels of a source by name, in the order of the text. Contracts see a list of names and labels.
#[derive(Drop)]
pub struct Labels {
    map: IndexMap<Name, Label>,
}

impl Model for Labels {
    ghost use Rattle.std.specs.Prelude.{List, ℕ};
    ghost use Rattle.asm_layout.specs.declared.labels.Label.{Label};

    ghost Value = { List (List ℕ × Label) };

    ghost view = { λ labels. labels.map.entries };
}

impl Labels {
    /// No labels.
    fn new(alloc: Global) -> Labels
        ensures { result ≡ [] }
    {
        Labels {
            map: IndexMap::new(alloc),
        }
    }

    /// The place of the label with a name, or None.
    pub fn place_named(&self, name: &Name) -> Option<Place>
        ensures { result ≡ find name.now (label_places self.now) }
    {
        match self.map.get(name) {
            Some(label) => Some(label.place),
            None => None,
        }
    }

    /// The names and labels, in the order of the text.
    pub fn into_map(self) -> IndexMap<Name, Label>
        ensures { result.entries ≡ self }
    {
        self.map
    }

    /// Adds a label unless its name is taken. Gives whether the name was taken.
    fn define(&mut self, alloc: Global, name: &Name, place: Place) -> Result<bool, AllocError>
        ensures there { IfOk result (λ there. there ≡ is_among name.now (label_places self.old)) }
        ensures labels { OnOk result (self.new
            ≡ self.old ++ map blank_label (label_unless (is_among name.now (label_places self.old)) name.now place)) }
    {
        match self.map.entry(copy_name(alloc, name)?)? {
            Entry::Occupied(_) => Ok(true),
            Entry::Vacant(entry) => {
                entry.insert(Label {
                    place,
                    size: 0,
                    function: false,
                    global: false,
                });
                Ok(false)
            }
        }
    }

    /// Processes a `.size` at a place: it gives a size to its label, if that is earlier in the same section.
    fn end(&mut self, name: &Name, end: Place)
        ensures { self.new ≡ map (entry_after (label_places self.old) (Size name.now) end) self.old }
    {
        if let Some(label) = self.map.get_mut(name) {
            label.size = size_between(label.place, end);
        }
    }

    /// Processes a statement at its place. Gives whether it is a label whose name is taken.
    fn take(&mut self, alloc: Global, kind: &StmtKind, place: Place) -> Result<bool, AllocError>
        ensures again { IfOk result (λ again. again ≡ defines_again (label_places self.old) kind.now) }
        ensures labels { OnOk result (self.new ≡ labels_after self.old kind.now place) }
    {
        match kind {
            StmtKind::Label(name) => self.define(alloc, name, place),
            StmtKind::Size(name) => {
                self.end(name, place);
                Ok(false)
            }
            _ => Ok(false),
        }
    }

    /// Sets whether a label is a function, as `.type` says.
    fn set_function(&mut self, name: &Name, function: bool)
        ensures { self.new ≡ map (entry_with_type name.now function) self.old }
    {
        if let Some(label) = self.map.get_mut(name) {
            label.function = function;
        }
    }

    /// Marks a label as global.
    fn set_global(&mut self, name: &Name)
        ensures { self.new ≡ map (entry_global name.now) self.old }
    {
        if let Some(label) = self.map.get_mut(name) {
            label.global = true;
        }
    }

    /// Processes a `.type` or a `.global`.
    fn apply_directive(&mut self, kind: &StmtKind)
        ensures { self.new ≡ map (label_with_directive kind.now) self.old }
    {
        match kind {
            StmtKind::TypeFunction(name) => self.set_function(name, true),
            StmtKind::TypeObject(name) => self.set_function(name, false),
            StmtKind::Global(name) => self.set_global(name),
            _ => {}
        }
    }

    /// Processes all `.type` and `.global` directives.
    pub(crate) fn apply_directives(&mut self, stmts: &[Stmt])
        ensures { self.new ≡ map (label_with_directives stmts.now) self.old }
    {
        for stmt in stmts {
            self.apply_directive(&stmt.kind);
        }
    }
}

/// Labels with their sizes, and the first label whose name was taken.
#[derive(Drop)]
pub(crate) struct DefinedLabels {
    /// The labels.
    pub labels: Labels,
    /// The refusal of the first label whose name was taken.
    pub duplicate: Option<AsmFault>,
}

/// The labels of statements with their sizes, before `.type` and `.global`.
pub(crate) fn define_labels(
    alloc: Global,
    placed: &[PlacedStmt<'_>],
) -> Result<DefinedLabels, AllocError>
    ensures labels { IfOk result (λ defined. defined.labels ≡ map (label_with_size placed.now) (labels_in [] placed.now)) }
    ensures duplicate { IfOk result (λ defined. defined.duplicate ≡ first_of_all None (duplicates_from [] (map stmt_of placed.now))) }
{
    let mut labels = Labels::new(alloc);
    let mut duplicate = None;
    for one in placed {
        let again = labels.take(alloc, &one.stmt.kind, one.at)?;
        duplicate = first_if(duplicate, again, one.stmt.line, AsmWhat::DuplicateLabel);
    }
    Ok(DefinedLabels { labels, duplicate })
}
