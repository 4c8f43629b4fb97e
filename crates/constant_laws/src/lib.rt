//! The constants that definitions cite, each with its value in digits. A definition is only as right as its constants. If a limit, an
//! offset, a code or a gate is changed together with the code, it is refused here (docs/rules/linking.md).
#![tactic(auto)]

ghost use Rattle.constant_laws.specs.Memory.{BusNumbers, StartNumbers, BlockNumbers};
ghost use Rattle.constant_laws.specs.Unwinding.{WordNumbers, CodeNumbers, RecipeNumbers, DescriptorNumbers};
ghost use Rattle.constant_laws.specs.TypesOf.{TypeNumbers, MatchNumbers};
ghost use Rattle.constant_laws.specs.Images.{ImageNumbers, WriterNumbers};
ghost use Rattle.constant_laws.specs.Core.{CoreNumbers};
ghost use Rattle.constant_laws.specs.Gates.{PlainGateNumbers, GateNumbers, KeptNumbers, TraceNumbers};
ghost use Rattle.constant_laws.specs.Checker.{FactNumbers, FlowGraphNumbers, ReachNumbers};
ghost use Rattle.constant_laws.specs.Sources.{ReaderNumbers, DirectiveNumbers, LayoutNumbers, ObjectNumbers};
ghost use Rattle.constant_laws.specs.Linked.{LinkNumbers, GeneratorNumbers};
ghost use Rattle.constant_laws.specs.Gnu.{GnuTableNumbers, DescriptorByteNumbers, GnuImageNumbers, GnuTranslationNumbers};
ghost use Rattle.constant_laws.specs.Threads.{ThreadNumbers, AuditNumbers};

/// The memory map: stack, pool, slots, images and pages.
pub fn bus_numbers()
    ensures { BusNumbers }
{}

/// Where raw code begins, and how an image says that it is of the second profile.
pub fn start_numbers()
    ensures { StartNumbers }
{}

/// Slots of exceptions: their number, the offsets of their words, and their states.
pub fn block_numbers()
    ensures { BlockNumbers }
{}

/// ULEB128: the number of bytes, and their parts.
pub fn word_numbers()
    ensures { WordNumbers }
{}

/// Unwinding instructions, index rows and table words.
pub fn code_numbers()
    ensures { CodeNumbers }
{}

/// The limits of a recipe.
pub fn recipe_numbers()
    ensures { RecipeNumbers }
{}

/// The two special type words, and the greatest number of types in an exception specification.
pub fn descriptor_numbers()
    ensures { DescriptorNumbers }
{}

/// Types: the offsets of their words, the length of a name, and the number of paths to bases.
pub fn type_numbers()
    ensures { TypeNumbers }
{}

/// The names and flags that matching uses.
pub fn match_numbers()
    ensures { MatchNumbers }
{}

/// Sizes, codes and limits of ELF images.
pub fn image_numbers()
    ensures { ImageNumbers }
{}

/// Further constants of written files.
pub fn writer_numbers()
    ensures { WriterNumbers }
{}

/// The numbers of registers, operations, accesses and conditions.
pub fn core_numbers()
    ensures { CoreNumbers }
{}

/// The gates that every machine has, and what gate 2 answers at the end of the input.
pub fn plain_gate_numbers()
    ensures { PlainGateNumbers }
{}

/// The gates of exceptions.
pub fn gate_numbers()
    ensures { GateNumbers }
{}

/// The number of words recorded before an instruction that may overwrite them.
pub fn kept_numbers()
    ensures { KeptNumbers }
{}

/// How many events are kept and written, and how much of each.
pub fn trace_numbers()
    ensures { TraceNumbers }
{}

/// The deepest frame, the registers that a call and a gate change, and the number of saves in a prologue.
pub fn fact_numbers()
    ensures { FactNumbers }
{}

/// The top byte of UDF.
pub fn flow_graph_numbers()
    ensures { FlowGraphNumbers }
{}

/// The number of instructions of a function that are reached.
pub fn reach_numbers()
    ensures { ReachNumbers }
{}

/// Registers, lines and numbers in sources.
pub fn reader_numbers()
    ensures { ReaderNumbers }
{}

/// The limits of directives, and the size of an entry.
pub fn directive_numbers()
    ensures { DirectiveNumbers }
{}

/// Which numbers fit their fields, and the size of a section.
pub fn layout_numbers()
    ensures { LayoutNumbers }
{}

/// Relocation codes, the reach of a literal pool, and the filling of code.
pub fn object_numbers()
    ensures { ObjectNumbers }
{}

/// The addresses of an image's segments, and their sizes.
pub fn link_numbers()
    ensures { LinkNumbers }
{}

/// The constants of generated programs.
pub fn generator_numbers()
    ensures { GeneratorNumbers }
{}

/// GNU tables: their encodings, and the most actions and words that are followed.
pub fn gnu_table_numbers()
    ensures { GnuTableNumbers }
{}

/// The number of code bytes in a table, and the size of a scope.
pub fn descriptor_byte_numbers()
    ensures { DescriptorByteNumbers }
{}

/// The number of bytes of call-site tables in an image.
pub fn gnu_image_numbers()
    ensures { GnuImageNumbers }
{}

/// Rewritten images: the start of the new segment, the greatest length of a file, and the symbol that is kept beside the vtables.
pub fn gnu_translation_numbers()
    ensures { GnuTranslationNumbers }
{}

/// The size of a thread's home, and the number of tags.
pub fn thread_numbers()
    ensures { ThreadNumbers }
{}

/// The size of a halfword, as an audit counts code.
pub fn audit_numbers()
    ensures { AuditNumbers }
{}
