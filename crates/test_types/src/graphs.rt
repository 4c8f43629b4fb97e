//! Type graphs of images, or why there are none.
use crate::answers::say_number;
use eh_types::{TypeFault, TypeGraph};
use elf_image::image::Image;
use test_rows::Text;

/// The graph of the types at addresses of an image. If there is none, the reason is appended.
pub fn graph_in<'a>(text: &mut Text, image: &Image<'a>, roots: &[u32]) -> Option<TypeGraph<'a>> {
    match TypeGraph::read(text.alloc(), image, roots) {
        Ok(graph) => Some(graph),
        Err(fault) => {
            say_fault(text, fault);
            None
        }
    }
}

fn say_fault(text: &mut Text, fault: TypeFault) {
    match fault_name(fault) {
        Some((name, a)) => say_number(text, name, a),
        None => text.want_memory(),
    }
}

/// The name of a refusal and the address of its type; None for lack of memory.
fn fault_name(fault: TypeFault) -> Option<(&'static str, u32)> {
    match fault {
        TypeFault::Unreadable(a) => Some(("unreadable", a)),
        TypeFault::Writable(a) => Some(("writable", a)),
        TypeFault::NameTooLong(a) => Some(("too long a name", a)),
        TypeFault::Cyclic(a) => Some(("cyclic", a)),
        TypeFault::TooManyPaths(a) => Some(("too many paths", a)),
        TypeFault::OutOfMemory => None,
    }
}
