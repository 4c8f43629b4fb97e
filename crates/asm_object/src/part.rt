//! A section as it grows: its bytes and its relocations (docs/rules/sources.md).
ghost use Rattle.std.specs.Prelude.{◌≡◌, ◌++◌, [], flat_map, map, OnOk};
ghost use Rattle.byteorder.specs.Endian.{little_bytes};
ghost use Rattle.asm_layout.specs.Given.{bytes_of, data_value};
ghost use Rattle.asm_layout.specs.Labels.{label_places};
ghost use Rattle.asm_layout.specs.Words.{low_word, word_of};
ghost use Rattle.asm_object.specs.Bytes.{word_bytes};
ghost use Rattle.asm_object.specs.Values.{section_word, low_or_zero, link_of, number};
ghost use Rattle.asm_object.specs.Instructions.{branch_link};
ghost use Rattle.asm_object.specs.Pieces.{relocs_of, word_relocs, words_bytes, udf_half, code_bytes_of, fields_bytes, bytes_of_data, data_bytes, fields_relocs, relocs_of_data, data_relocs};
ghost use Rattle.asm_object.specs.Built.{part_with, no_part};

use crate::bytes::{push_code, push_field, push_half};
use crate::code::{EncodeResult, branch_link};
use crate::value::{Link, link_of, number, section_word};
use asm_layout::given::{Data, Width};
use asm_layout::labels::Labels;
use asm_layout::sort::given;
use asm_layout::word::{Word, Words, low_number, low_part, word_of};
use asm_layout::{
    bare_form, branch_form, computed_form, data_form, local_form, name_form, nameless_form,
    reader_form, wide_form,
};
use asm_relocatable::object::{Octets, Reloc, Relocs};
use asm_relocatable::place::{Place, Section};
use asm_statements::{Expr, Exprs, ExprsRef, StmtKind};
use std::alloc::{AllocError, Global};

/// Appends the relocation of a place, if it has one.
fn push_link(relocs: &mut Relocs, at: Place, link: Option<Link>) -> Result<(), AllocError>
    ensures { OnOk result (relocs.new ≡ relocs.old ++ relocs_of at link) }
{
    if let Some(link) = link {
        relocs.push(Reloc {
            section: at.section,
            offset: low_part(at.offset),
            kind: link.kind,
            name: link.name,
            addend: link.addend,
        })?;
    }
    Ok(())
}

/// Appends numbers as fields.
fn push_plain(bytes: &mut Octets, width: Width, numbers: &[i64]) -> Result<(), AllocError>
    ensures { OnOk result (bytes.new ≡ bytes.old ++ flat_map (λ n. little_bytes (bytes_of width) (low_word n)) numbers.now) }
{
    for n in numbers {
        push_field(bytes, width, low_number(i128::from(*n)))?;
    }
    Ok(())
}

/// Appends the numbers of expressions as fields.
fn push_numbers(
    bytes: &mut Octets,
    labels: &Labels,
    width: Width,
    fields: &[Expr],
) -> Result<(), AllocError>
    ensures { OnOk result (bytes.new ≡ bytes.old ++ flat_map (λ field. little_bytes (bytes_of width) (low_or_zero (number (label_places labels.now) field))) fields.now) }
{
    for field in fields {
        push_field(bytes, width, low_number(number(labels, field).unwrap_or(0)))?;
    }
    Ok(())
}

/// The halfword of a `udf`; None for any other statement.
fn udf_half(kind: &StmtKind) -> Option<u32>
    ensures { result ≡ udf_half kind.now }
{
    match kind {
        StmtKind::Udf { imm } => Some(0xde00 + u32::from(u8::try_from(*imm).unwrap_or(0))),
        computed_form!()
        | nameless_form!()
        | reader_form!()
        | wide_form!()
        | branch_form!()
        | local_form!()
        | data_form!()
        | StmtKind::Align(_)
        | name_form!()
        | bare_form!() => None,
    }
}

/// The bytes and the relocations of a section so far.
#[derive(Drop)]
pub struct Part {
    /// The bytes.
    pub bytes: Octets,
    /// The relocations, ascending by offset.
    pub relocs: Relocs,
}

impl Part {
    /// An empty section.
    pub fn new(alloc: Global) -> Part
        ensures { result ≡ no_part }
    {
        Part {
            bytes: Octets::new(alloc),
            relocs: Relocs::new(alloc),
        }
    }

    /// Appends a word at a place.
    fn push_word(&mut self, labels: &Labels, at: Place, word: Word) -> Result<(), AllocError>
        ensures { OnOk result (self.new ≡ part_with self.old (word_bytes (section_word (label_places labels.now) word)) (relocs_of at (link_of word))) }
    {
        self.bytes.push_word(section_word(labels, &word))?;
        push_link(&mut self.relocs, at, link_of(word))
    }

    /// Appends the words of a list, from a place on.
    #[tactic(auto, unfolding(crate::specs::Pieces::word_relocs))]
    fn push_words(
        &mut self,
        alloc: Global,
        labels: &Labels,
        at: Place,
        words: &[Expr],
    ) -> Result<(), AllocError>
        ensures { OnOk result (self.new ≡ part_with self.old (words_bytes (label_places labels.now) (map word_of words.now)) (word_relocs at.section at.offset (map word_of words.now))) }
    {
        let mut offset = at.offset;
        for expr in words {
            let word = word_of(alloc, expr)?;
            let place = Place {
                section: at.section,
                offset,
            };
            self.push_word(labels, place, word)?;
            offset = offset.saturating_add(4);
        }
        Ok(())
    }

    /// Appends the words of a literal pool, from a place of the text on.
    #[tactic(auto, unfolding(crate::specs::Pieces::word_relocs))]
    pub fn push_pool(&mut self, labels: &Labels, from: u64, words: Words) -> Result<(), AllocError>
        ensures { OnOk result (self.new ≡ part_with self.old (words_bytes (label_places labels.now) words) (word_relocs Section.Text from words)) }
    {
        let mut offset = from;
        for word in words.into_vec() {
            let place = Place {
                section: Section::Text,
                offset,
            };
            self.push_word(labels, place, word)?;
            offset = offset.saturating_add(4);
        }
        Ok(())
    }

    /// Appends expressions as fields, from a place on.
    fn push_mixed(
        &mut self,
        alloc: Global,
        labels: &Labels,
        at: Place,
        width: Width,
        fields: &[Expr],
    ) -> Result<(), AllocError>
        ensures { OnOk result (self.new ≡ part_with self.old (fields_bytes (label_places labels.now) width fields.now) (fields_relocs width fields.now at)) }
    {
        if width.takes_addresses() {
            return self.push_words(alloc, labels, at, fields);
        }
        push_numbers(&mut self.bytes, labels, width, fields)
    }

    /// Appends fields, from a place on.
    fn push_fields(
        &mut self,
        alloc: Global,
        labels: &Labels,
        at: Place,
        width: Width,
        fields: &Exprs,
    ) -> Result<(), AllocError>
        ensures { OnOk result (self.new ≡ part_with self.old (fields_bytes (label_places labels.now) width fields.now) (fields_relocs width fields.now at)) }
    {
        match fields.as_exprs_ref() {
            ExprsRef::Numbers(numbers) => push_plain(&mut self.bytes, width, numbers),
            ExprsRef::Mixed(fields) => self.push_mixed(alloc, labels, at, width, fields),
        }
    }

    /// Appends data at a place.
    fn push_given(
        &mut self,
        alloc: Global,
        labels: &Labels,
        at: Place,
        given: Data<'_>,
    ) -> Result<(), AllocError>
        ensures { OnOk result (self.new ≡ part_with self.old (bytes_of_data (label_places labels.now) (Some (data_value given.entry))) (relocs_of_data (Some (data_value given.entry)) at)) }
    {
        match given {
            Data::Fields(width, fields) => self.push_fields(alloc, labels, at, width, fields),
            Data::Text { text, closed } => {
                self.bytes.extend_from_slice(text)?;
                if closed { self.bytes.push(0) } else { Ok(()) }
            }
            Data::Zeros(n) => self.bytes.push_zeros(usize::try_from(n).unwrap_or(0)),
        }
    }

    /// Appends the bytes of a statement that is no instruction.
    pub fn push_data(
        &mut self,
        alloc: Global,
        labels: &Labels,
        at: Place,
        kind: &StmtKind,
    ) -> Result<(), AllocError>
        ensures { OnOk result (self.new ≡ part_with self.old (data_bytes (label_places labels.now) kind.now) (data_relocs kind.now at)) }
    {
        match given(kind) {
            Some(found) => self.push_given(alloc, labels, at, found),
            None => Ok(()),
        }
    }

    /// Appends the bytes of an instruction at a place. `code` is the result of the encoder.
    pub fn push_instruction(
        &mut self,
        alloc: Global,
        labels: &Labels,
        at: Place,
        kind: &StmtKind,
        code: EncodeResult,
    ) -> Result<(), AllocError>
        ensures { OnOk result (self.new ≡ part_with self.old (code_bytes_of kind.now code) (relocs_of at (branch_link (label_places labels.now) kind.now))) }
    {
        if let Some(half) = udf_half(kind) {
            push_half(&mut self.bytes, half)?;
        }
        match code {
            Some(Ok(code)) => push_code(&mut self.bytes, code)?,
            Some(Err(_)) | None => {}
        }
        push_link(&mut self.relocs, at, branch_link(alloc, labels, kind)?)
    }
}
