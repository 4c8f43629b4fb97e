//! The vtables of the kinds of type information, into which a type's first word points (Itanium C++ ABI, "Run-Time Type Information"). In
//! the images of rows they begin at 8010, 16 bytes each.
use crate::Unanswered;
use crate::images::draft::Draft;
use elf_write::parts::SymbolKind;

/// The names and addresses of the vtables' symbols.
const VTABLES: [(&str, u32); 5] = [
    ("_ZTVN10__cxxabiv123__fundamental_type_infoE", 0x8010),
    ("_ZTVN10__cxxabiv117__class_type_infoE", 0x8020),
    ("_ZTVN10__cxxabiv120__si_class_type_infoE", 0x8030),
    ("_ZTVN10__cxxabiv121__vmi_class_type_infoE", 0x8040),
    ("_ZTVN10__cxxabiv119__pointer_type_infoE", 0x8050),
];

/// The first word of a type, by the name of its kind; `other` points into no vtable. None for other names.
pub fn first_word_of(kind: &str) -> Option<u32> {
    match kind {
        "fundamental" => Some(0x8018),
        "class" => Some(0x8028),
        "single" => Some(0x8038),
        "many" => Some(0x8048),
        "pointer" => Some(0x8058),
        "other" => Some(0x1234),
        _ => None,
    }
}

/// Adds the vtables' symbols. Err without memory.
pub fn put_vtables(draft: &mut Draft) -> Result<(), Unanswered> {
    for (name, address) in VTABLES {
        draft.put_symbol(name, address, 16, SymbolKind::Object)?;
    }
    Ok(())
}
