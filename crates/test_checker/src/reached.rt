//! What is reached in functions at 9000 of images, which halfwords are branch targets and landing pads, and the prologue.
use crate::prologues::say_saves;
use crate::source::count_of;
use eh_index::Index;
use frame_graph::FlowGraph;
use frame_reach::{ReachFault, ReachMarks, reach};
use run_images::profile::profile_of;
use test_rows::images::{image_of_text, open_image_in};
use test_rows::{Telling, Text, Unanswered, first_word};

const CODE: u32 = 0x9000;

/// A question about a function.
#[derive(Clone, Copy)]
enum Ask {
    /// Its halfwords, and its prologue.
    Places,
    /// How many of its halfwords are reached.
    Count,
    /// Whether a row of the index splits it.
    Split,
}

/// Questions on functions.
pub struct Reaching;

impl Telling for Reaching {
    fn tell(&self, text: &mut Text, question: &str) {
        let (what, rest) = first_word(question);
        let (rows, code) = rest.split_once(" ; ").unwrap_or(("-", rest));
        match what {
            "reach" => say_function(text, rows, code, Ask::Places),
            "nops" => say_nops(text, code),
            "split" => say_split(text, rows, code),
            _ => text.refuse(Unanswered::NotKnown),
        }
    }
}

/// `reach [ROWS ;] HALFWORDS`: the answer for the function with these halfwords.
fn say_function(text: &mut Text, rows: &str, code: &str, ask: Ask) {
    if let Some(file) = file_of(text, rows, code) {
        say_file(text, file.as_slice(), count_of(code), ask);
    }
}

/// `nops COUNT`: how many halfwords are reached of COUNT nops and a return.
fn say_nops(text: &mut Text, count: &str) {
    let mut code = Text::new(text.alloc());
    for _ in 0..text.decimal(count) {
        code.say("BF00 ");
    }
    code.say("4770");
    if let Some(code) = text.taken(code.finish()) {
        say_function(text, "-", code.as_str(), Ask::Count);
    }
}

/// `split ROWS ; HALFWORDS`: whether a row splits the function with these halfwords, and how many halfwords of an empty one are reached.
fn say_split(text: &mut Text, rows: &str, code: &str) {
    if let Some(file) = file_of(text, rows, code) {
        say_file(text, file.as_slice(), count_of(code), Ask::Split);
        text.say(", ");
        say_file(text, file.as_slice(), 0, Ask::Count);
        text.say(" of none");
    }
}

/// The words of a table at 8000, and those of the index. `-` gives none, `table WORD..` a row that leads to a table, and all else the words
/// of rows.
fn table_and_rows(rows: &str) -> (&str, &str) {
    if rows == "-" {
        return ("", "");
    }
    match rows.strip_prefix("table ") {
        Some(table) => (table, ">9000 >8000"),
        None => ("", rows),
    }
}

/// The file of an image with code at 0x9000, and index rows at 0x8100.
fn file_of<'a>(text: &mut Text, rows: &'a str, code: &'a str) -> Option<Vec<u8>> {
    let (table, rows) = table_and_rows(rows);
    let mut image = Text::new(text.alloc());
    image.say("entry 9000 ; thumb 9000 ; function f 9000 2 ; segment 8000 10000 ; index 8100 ");
    image.say_hex(count_of(rows).saturating_mul(4));
    image.fill(
        " ; words 8000 {} ; words 8100 {} ; code 9000 {}",
        &[table, rows, code],
    );
    image_of_text(text, image)
}

/// Appends the answer for the function with so many halfwords.
fn say_file(text: &mut Text, file: &[u8], count: u32, ask: Ask) {
    let Some(image) = open_image_in(text, file) else {
        return;
    };
    match Index::read(&image) {
        Ok(index) => {
            let end = CODE.saturating_add(count.saturating_mul(2));
            let flow_graph = FlowGraph::new(&index, profile_of(&image), CODE, end);
            say_graph(text, &flow_graph, count, ask);
        }
        Err(_fault) => text.refuse(Unanswered::Because("no index")),
    }
}

fn say_graph(text: &mut Text, flow_graph: &FlowGraph, count: u32, ask: Ask) {
    match reach(text.alloc(), flow_graph) {
        Ok(reached) => match ask {
            Ask::Places => say_reached(text, flow_graph, &reached, count),
            Ask::Count => say_count(text, reached.places().len()),
            Ask::Split => text.say(if reached.splits(flow_graph) {
                "split"
            } else {
                "whole"
            }),
        },
        Err(ReachFault::TooLong) => text.say("too long"),
        Err(ReachFault::OutOfMemory) => text.want_memory(),
    }
}

/// Appends how many halfwords are reached.
fn say_count(text: &mut Text, places: usize) {
    text.say_count(places);
    text.say(if places == 1 { " place" } else { " places" });
}

/// The letter of a halfword: `r` if it is reached, `t` if it is a branch target too, `p` if it is a landing pad, and `-` otherwise.
fn letter(reached: &ReachMarks, place: u32) -> &'static str {
    match (
        reached.is_reached(place),
        reached.is_target(place),
        reached.is_pad(place),
    ) {
        (true, false, false) => "r",
        (true, true, false) => "t",
        (true, true, true) => "p",
        (false, false, false) => "-",
        _ => "?",
    }
}

/// Appends what is found in a function: its halfwords as letters, its prologue, and the reached ones in the order in which they were found.
fn say_reached(text: &mut Text, flow_graph: &FlowGraph, reached: &ReachMarks, count: u32) {
    for place in 0..count {
        text.say(letter(reached, place));
    }
    let prologue = reached.prologue(flow_graph);
    text.say(", to ");
    text.say_hex(prologue.end);
    text.say(", saves ");
    say_saves(text, &prologue);
    text.say(", places");
    for place in reached.places() {
        text.say(" ");
        text.say_decimal(*place);
    }
}
