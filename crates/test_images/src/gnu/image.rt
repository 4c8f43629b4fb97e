//! Images of one function with a table, given by the table's bytes, and why its entry is refused.
use eh_index::Index;
use elf_image::image::Image;
use elf_write::parts::SymbolKind;
use gnu_lsda::{EntryFault, Generic, personality_symbol};
use std::alloc::Global;
use test_rows::images::{Draft, open_image, open_image_in};
use test_rows::{Text, Unanswered};

/// The address of the table.
const TABLE: u32 = 0x9000;

/// The rows of the index at 8100: the function at 8000 with its table, and from 801C on nothing that can be unwound.
static ROWS: [u8; 16] = [
    0x00, 0xFF, 0xFF, 0x7F, 0xFC, 0x0E, 0x00, 0x00, 0x14, 0xFF, 0xFF, 0x7F, 0x01, 0x00, 0x00, 0x00,
];

/// A question on the index of an image.
pub trait OfIndex {
    /// Appends the answer.
    fn tell(&self, text: &mut Text, index: &Index);
}

/// Makes the parts of an image with a table.
fn put_parts(draft: &mut Draft, table: &[u8]) -> Result<(), Unanswered> {
    draft.set_entry(0x8000);
    draft.set_index(0x8100, 16);
    draft.put_symbol("_start", 0x8000, 0x1C, SymbolKind::Function)?;
    draft.put_symbol("__gxx_personality_v0", 0x8040, 4, SymbolKind::Function)?;
    draft.begin_segment(0x8000, 0x200, false)?;
    draft.put_bytes(0x8100, &ROWS)?;
    draft.begin_segment(TABLE, (table.len() % 0x1_0000_0000) as u32, false)?;
    draft.put_bytes(TABLE, table)?;
    draft.begin_segment(0xA000, 0x100, true)
}

/// The file of an image with a function at 8000 and its table at 9000, in a segment of the table's own. The C++ personality routine is at
/// 8040. Memory from 8000 to 8200 is read-only, and memory from A000 to A100 writable.
pub fn file_of(alloc: Global, table: &[u8]) -> Result<Vec<u8>, Unanswered> {
    let mut draft = Draft::new(alloc);
    match put_parts(&mut draft, table) {
        Ok(()) => draft.into_file(),
        Err(why) => Err(why),
    }
}

/// Answers a question on the index of a file's image.
fn tell_of_file<T: OfIndex>(text: &mut Text, file: &[u8], asked: &T) {
    if let Some(image) = open_image_in(text, file) {
        match Index::read(&image) {
            Ok(index) => asked.tell(text, &index),
            Err(_fault) => text.refuse(Unanswered::Because("no index")),
        }
    }
}

/// Answers a question on the index of an image's file, or appends why there is no file.
pub fn tell_of<T: OfIndex>(text: &mut Text, made: Result<Vec<u8>, Unanswered>, asked: &T) {
    if let Some(file) = text.taken(made) {
        tell_of_file(text, &file, asked);
    }
}

/// The entry of the first row, if it is generic.
pub fn entry_of<'a>(index: &Index<'_, 'a>) -> Option<Generic<'a>> {
    if index.is_empty() {
        None
    } else {
        Generic::of(index, 0)
    }
}

/// The name of the reason why an entry is refused.
fn name_of(fault: Option<EntryFault>) -> &'static str {
    match fault {
        None => "none",
        Some(EntryFault::Personality) => "Personality",
        Some(EntryFault::Short) => "Short",
        Some(EntryFault::Format) => "Format",
        Some(EntryFault::Order) => "Order",
        Some(EntryFault::Filter) => "Filter",
        Some(EntryFault::Chain) => "Chain",
        Some(EntryFault::TooLong) => "TooLong",
    }
}

/// Why the first entry of an image is refused.
fn fault_in(image: &Image) -> &'static str {
    let Ok(index) = Index::read(image) else {
        return "no index";
    };
    match entry_of(&index) {
        None => "not generic",
        Some(entry) => name_of(entry.fault(image, personality_symbol(image))),
    }
}

/// Why the entry with a table's bytes is refused.
pub fn fault_of(alloc: Global, table: &[u8]) -> Result<&'static str, Unanswered> {
    let file = file_of(alloc, table)?;
    let image = open_image(alloc, &file)?;
    Ok(fault_in(&image))
}
