//! Laws on sources that are assembled and linked, in terms of the source and of a run (docs/rules/sources.md,
//! docs/rules/linking.md).
#![tactic(auto)]

ghost use Rattle.link_laws.specs.AssembledLaw.{AssembledFieldsStandAlone};
ghost use Rattle.link_laws.specs.BranchLaw.{BranchesLead, CondBranchesLead, CallsLead, WideBranchesLead, ZeroBranchesLead, AddressesLead, LoadsLead};
ghost use Rattle.link_laws.specs.MeaningLaw.{NamesHaveMeanings};
ghost use Rattle.link_laws.specs.LabelLaw.{LabelsAreSymbols, MeaningsAreOfLabels};
ghost use Rattle.link_laws.specs.JoinedLaw.{WordsAreSums};
ghost use Rattle.link_laws.specs.FilledLaw.{FieldsAreFilled};
ghost use Rattle.link_laws.specs.SaidLaw.{WordsSay, HalvesSay, BytesSay, TextsSay, ZeroedTextsSay, SpacesSay};
ghost use Rattle.link_laws.specs.EntryLaw.{MarksAreMapped, EntriesAreFunctions};
ghost use Rattle.link_laws.specs.SymbolsLaw.{DataIsMarked, IndexesAreMarked, NoOtherSymbols};
ghost use Rattle.link_laws.specs.RightsLaw.{SegmentsHaveRights};
ghost use Rattle.link_laws.specs.PoolLaw.{LoadsReadValues};
ghost use Rattle.link_laws.specs.TargetLaw.{JumpsLeadTo, CondJumpsLeadTo, CallsLeadTo, WideJumpsLeadTo, ZeroJumpsLeadTo, AddressesLeadTo, LoadsLeadTo};

/// A branch to a label in the text of its own source, an `adr` or a `ldr rt, name` leads to the label: the halfwords at
/// its place decode to an instruction that, executed from that place, reaches the label's.
pub fn own_names_lead_to_their_labels()
    ensures branches { BranchesLead }
    ensures conditions { CondBranchesLead }
    ensures calls { CallsLead }
    ensures wide { WideBranchesLead }
    ensures zero { ZeroBranchesLead }
    ensures addresses { AddressesLead }
    ensures loads { LoadsLead }
{}

/// If objects link, the name of each of their relocations has a label.
pub fn names_have_meanings()
    ensures { NamesHaveMeanings }
{}

/// In a linked image a label's address is that of its object's section plus its offset in the section, also in bss. The
/// symbols of the image and the meanings of names agree on it.
pub fn labels_stand_in_their_parts()
    ensures symbols { LabelsAreSymbols }
    ensures meanings { MeaningsAreOfLabels }
{}

/// In an image linked from sources, the word of a `.word name+n` is the address of the name plus n, with bit 0 set if
/// the name is a function.
pub fn words_are_sums()
    ensures { WordsAreSums }
{}

/// No two fields of an assembled object overlap, and each lies in its section. So the laws on single fields hold of
/// every field of a source.
pub fn assembled_fields_stand_alone()
    ensures { AssembledFieldsStandAlone }
{}

/// In an image linked from sources, each relocation of the assembler is applied: its kind is known, its name has a
/// label, and its field holds what the kind says of that label. That is a word that is the label's address, or gives it
/// relative to its own address, or a branch that decodes to the displacement to it.
pub fn fields_are_filled()
    ensures { FieldsAreFilled }
{}

/// In an image linked from sources, the word of each expression of a `.word` is what the expression says, and so are
/// the halfwords and bytes of `.half` and `.byte`. That is a number, the distance of two labels, or the address of a
/// name, relative to the word if the source asks for that. The bytes of texts are there, with a zero byte after
/// `.asciz`, and those of `.space` are zeros.
pub fn numbers_are_as_given()
    ensures words { WordsSay }
    ensures halves { HalvesSay }
    ensures bytes { BytesSay }
    ensures texts { TextsSay }
    ensures zeroed { ZeroedTextsSay }
    ensures spaces { SpacesSay }
{}

/// In an image linked from sources, each branch, `adr` and `ldr rt, name` leads to the label of its name, whether the
/// assembler or the linker set its offset. The halfwords at its address decode to an instruction that, executed from
/// that address, reaches the label's.
pub fn names_lead_to_what_they_mean()
    ensures calls { CallsLeadTo }
    ensures jumps { JumpsLeadTo }
    ensures conditions { CondJumpsLeadTo }
    ensures wide { WideJumpsLeadTo }
    ensures zero { ZeroJumpsLeadTo }
    ensures addresses { AddressesLeadTo }
    ensures loads { LoadsLeadTo }
{}

/// Each mark of an object is a mapping symbol of the linked image, `$t` for code and `$d` for data. The image's entry
/// is the start of a global function with the entry's name.
pub fn marks_and_entry_are_of_objects()
    ensures marks { MarksAreMapped }
    ensures entry { EntriesAreFunctions }
{}

/// If an object has read-only data or exception tables, the image has `$d` at the start of the first object's part of
/// them; it always has one at the start of the index. Every other symbol is a label whose name isn't local, or a mark.
pub fn symbols_are_of_objects()
    ensures parts { DataIsMarked }
    ensures index { IndexesAreMarked }
    ensures others { NoOtherSymbols }
{}

/// The segment with the text is executable and not writable; any other is writable and not executable.
pub fn code_is_apart()
    ensures { SegmentsHaveRights }
{}

/// In an image linked from sources, `ldr rt, =value` loads the value: the word that the instruction addresses is the
/// number, the distance of two labels, or the address of the name.
pub fn loads_read_their_values()
    ensures { LoadsReadValues }
{}
