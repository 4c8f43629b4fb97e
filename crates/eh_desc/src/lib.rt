//! The descriptors of an entry in the exception table, read in place (IHI 0038, "Scope encoding" and "Cleanup, catch and function
//! exception specification descriptors"). docs/rules/unwind-tables.md states the rules.
#![tactic(auto)]

ghost use Rattle.eh_desc.specs.Laws.{DescriptorsFollow, DescriptorsRise, CleanupsHaveNoMark, CatchesMarkTheLength, SpecificationsMarkTheOffset, BothMarksAreRefused};

pub mod descriptor;

pub use descriptor::{CatchType, Desc, DescFault, DescKind, Descs, spec_type};

/// The first descriptor of a table follows the unwind instructions. Each further one is at the address `next` of the one before it. A
/// fault is the last item.
pub fn descriptors_follow()
    ensures { DescriptorsFollow }
{}

/// If the bytes of a table end below the last address, the addresses of its descriptors rise.
pub fn descriptors_rise()
    ensures { DescriptorsRise }
{}

/// The marks of a descriptor tell its kind. Bit 0 of the scope's length marks a catch, and bit 0 of its offset a specification; with
/// neither it is a cleanup, and with both a fault. Bit 31 of a catch's landing pad word marks a catch by reference. Bit 31 of a
/// specification's count means that a landing pad follows the types. Nothing else depends on these bits.
pub fn descriptors_are_marked()
    ensures cleanups { CleanupsHaveNoMark }
    ensures catches { CatchesMarkTheLength }
    ensures specifications { SpecificationsMarkTheOffset }
    ensures both { BothMarksAreRefused }
{}
