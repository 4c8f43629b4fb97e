//! What `build` writes, compared with the parts that the sources link to.
use elf_image::{Image, Segment, read_image};
use elf_write::{ImageParts, OwnSegment, OwnSymbol, SymbolKind};
use std::alloc::Global;

fn is_segment(segment: &Segment, own: &OwnSegment) -> bool {
    segment.start() == own.start
        && segment.bytes() == own.bytes.as_slice()
        && segment.size() == own.size
        && segment.may_write() == own.write
        && segment.may_execute() == own.exec
}

fn are_segments(image: &Image, parts: &ImageParts) -> bool {
    let own = parts.segments.as_slice();
    image.segments().len() == own.len()
        && image
            .segments()
            .iter()
            .zip(own)
            .all(|(segment, own)| is_segment(segment, own))
}

fn is_index(image: &Image, parts: &ImageParts) -> bool {
    let (start, size) = parts.index;
    image.index_start() == start && image.index_bytes().len() as u64 == u64::from(size)
}

/// Whether an image has a label's address, and code or data from a mapping symbol on.
fn has_symbol(image: &Image, symbol: &OwnSymbol) -> bool {
    match symbol.kind {
        SymbolKind::Function | SymbolKind::Object => image.symbol(symbol.name.bytes())
            == Some(symbol.value),
        SymbolKind::Code => image.is_code(symbol.value),
        SymbolKind::Words => !image.is_code(symbol.value),
    }
}

/// The end of a function: the end of its size, the end of its segment, or the start of the next function, whichever comes first.
fn end_of(parts: &ImageParts, function: &OwnSymbol) -> u64 {
    let start = u64::from(function.value);
    let mut end = start + u64::from(function.size);
    if function.size == 0 {
        end = u64::MAX;
    }
    for segment in parts.segments.as_slice() {
        let above = u64::from(segment.start) + u64::from(segment.size);
        if start < above {
            end = end.min(above);
        }
    }
    for other in parts.symbols.as_slice() {
        if other.kind == SymbolKind::Function && function.value < other.value {
            end = end.min(u64::from(other.value));
        }
    }
    end
}

/// Whether an image has a function under its name, from its start to its end.
fn has_function(image: &Image, parts: &ImageParts, own: &OwnSymbol) -> bool {
    let Some(number) = image.function_of(own.value) else {
        return false;
    };
    match image.functions().get(number) {
        Some(function) => function.start() == own.value
            && function.name == own.name.bytes()
            && u64::from(function.end) == end_of(parts, own),
        None => false,
    }
}

/// Whether the functions of an image are those of parts, no two of which begin at one address.
fn are_functions(image: &Image, parts: &ImageParts) -> bool {
    let mut count = 0usize;
    for symbol in parts.symbols.as_slice() {
        if symbol.kind == SymbolKind::Function {
            if !has_function(image, parts, symbol) {
                return false;
            }
            count = count.saturating_add(1);
        }
    }
    image.functions().len() == count
}

/// Whether the types of an image are those of the parts, in the same order.
fn are_types(image: &Image, parts: &ImageParts) -> bool {
    let mut rest = image.type_symbols();
    for symbol in parts.symbols.as_slice() {
        if symbol.name.bytes().starts_with(b"_ZTI") {
            match rest.split_first() {
                Some((first, more)) if *first == symbol.value => rest = more,
                _ => return false,
            }
        }
    }
    rest.is_empty()
}

/// Whether bytes are read as the image of parts whose labels have distinct names.
pub fn is_image_of(alloc: Global, bytes: &[u8], parts: &ImageParts) -> bool {
    let Ok(image) = read_image(alloc, bytes) else {
        return false;
    };
    image.entry() == parts.entry
        && is_index(&image, parts)
        && are_segments(&image, parts)
        && are_functions(&image, parts)
        && are_types(&image, parts)
        && parts
            .symbols
            .as_slice()
            .iter()
            .all(|symbol| has_symbol(&image, symbol))
}
