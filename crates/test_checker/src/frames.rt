//! The facts of functions in images: which functions have valid facts, and which cause is found at which address.
use crate::causes::say_cause;
use crate::prologues::prologue_of;
use crate::source::count_of;
use eh_index::Index;
use frame_facts::Prologue;
use frame_flow::{FrameFault, FramedFunction, solve};
use frame_graph::FlowGraph;
use frame_reach::reach;
use run_images::profile::profile_of;
use std::alloc::Global;
use test_rows::images::{image_by, open_image_in};
use test_rows::{Telling, Text, Unanswered, first_word};

const START: u32 = 0x8000;

/// An image of a function with its code, a leaf `bx lr` at 8080, the words of a table at 9000, and the index at 9100 with a row for each
/// function. The first function's row has the given word.
const IMAGE: &str =
    "entry 8000 ; thumb 8000 ; function _start 8000 2 ; function leaf 8080 2 ; index 9100 10 ; segment 8000 2000 ; code 8000 {} ; code 8080 4770 0 ; words 9000 {} ; words 9100 >8000 {} >8080 80B0B0B0";

/// Questions on functions at 8000.
pub struct Frames;

impl Telling for Frames {
    /// `ENTRY ; SAVES ; PADS ; HALFWORDS`: ENTRY is the second word of the function's row, followed by the words of a table at 9000; PADS
    /// has a letter for each halfword, `p` for a landing pad.
    fn tell(&self, text: &mut Text, question: &str) {
        let (entry, rest) = question.split_once(" ; ").unwrap_or((question, ""));
        let (saves, rest) = rest.split_once(" ; ").unwrap_or((rest, ""));
        let (pads, code) = rest.split_once(" ; ").unwrap_or((rest, ""));
        let (word, table) = first_word(entry);
        let prologue = prologue_of(text, saves);
        let end = START.saturating_add(count_of(code).saturating_mul(2));
        if let Some(file) = image_by(text, IMAGE, &[code, table, word]) {
            say_file(text, file.as_slice(), end, prologue, pads);
        }
    }
}

/// Which halfwords are landing pads, by letters; None if memory was lacking.
fn pads_of(alloc: Global, letters: &str) -> Option<Vec<bool>> {
    let mut pads = Vec::new(alloc);
    for letter in letters.as_bytes() {
        pads.push(*letter == b'p').ok()?;
    }
    Some(pads)
}

/// Appends what the facts of the first function say. It ends at `end`.
fn say_file(text: &mut Text, file: &[u8], end: u32, prologue: Prologue, pads: &str) {
    let Some(image) = open_image_in(text, file) else {
        return;
    };
    match Index::read(&image) {
        Ok(index) => {
            let flow_graph = FlowGraph::new(&index, profile_of(&image), START, end);
            say_function(text, &flow_graph, prologue, pads);
        }
        Err(_fault) => text.refuse(Unanswered::Because("no index")),
    }
}

fn say_function(text: &mut Text, flow_graph: &FlowGraph, prologue: Prologue, pads: &str) {
    match pads_of(text.alloc(), pads) {
        Some(pads) => say_solved(text, flow_graph, prologue, pads.as_slice()),
        None => text.want_memory(),
    }
}

fn say_solved(text: &mut Text, flow_graph: &FlowGraph, prologue: Prologue, pads: &[bool]) {
    if flow_graph.start() >= flow_graph.end() {
        return text.refuse(Unanswered::NoWord);
    }
    match reach(text.alloc(), flow_graph) {
        Ok(reached) => {
            let framed = FramedFunction::new(flow_graph, &prologue, pads, reached.reached());
            say_solution(text, solve(text.alloc(), &framed));
        }
        Err(_fault) => text.refuse(Unanswered::Because("not reached")),
    }
}

fn say_solution(text: &mut Text, solution: Result<(), FrameFault>) {
    match solution {
        Ok(()) => text.say("fine"),
        Err(FrameFault::Stands(place, cause)) => {
            say_cause(text, cause);
            text.say(" at ");
            text.say_decimal(place);
        }
        Err(FrameFault::OutOfMemory) => text.want_memory(),
    }
}
