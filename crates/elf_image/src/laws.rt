//! Laws of every image in the words of the standard, proved of the definitions by which images are read (docs/rules/elf.md).
ghost use Rattle.elf_image.specs.Laws.{SegmentsAreLoads, FunctionsAreSymbols, MarksDecide, ImagesAreSound};

/// Each program header of a loaded segment (PT_LOAD with memory) gives one segment.
pub fn segments_are_the_headers_to_load()
    ensures { SegmentsAreLoads }
{}

/// A function begins exactly where a symbol says so. Its name is that of the first such symbol. It ends at the least of
/// three: its start plus its size, the next function, and the segment's end.
pub fn functions_are_those_of_the_symbols()
    ensures { FunctionsAreSymbols }
{}

/// The last mapping symbol at or below an address decides whether it is code; of several at one address, the last in
/// the table.
pub fn the_last_mapping_symbol_below_decides()
    ensures { MarksDecide }
{}

/// Every image satisfies `IsSound`.
pub fn images_are_sound()
    ensures { ImagesAreSound }
{}
