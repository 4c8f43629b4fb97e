//! The two phases, row by row of the rules in docs/rules/phases-and-exceptions.md. Types aren't read, so each type matches itself alone.
use crate::starts::{FORM, PhaseStart, flood, lay_frames, start_of};
use crate::unwinding::say_changed;
use eh_bytecode::Vrs;
use eh_index::Index;
use eh_match::Match;
use eh_phase::{Barrier, Entered, Found, Goal, Tables, Thrown, advance, search};
use eh_types::TypeGraph;
use elf_image::image::Image;
use mem_buses::flat::FlatBus;
use test_rows::images::{image_by, open_image_in};
use test_rows::{Text, Unanswered, first_word};
use test_types::answers::say_number;
use test_types::graphs::graph_in;
use test_types::stack::memory;
use thumb_core::ends::Cause;

/// The address of the thrown object.
const OBJECT: u32 = 0x3800_0080;

/// A question about a phase, and where the phase begins.
#[derive(Drop)]
struct Asked<'q> {
    words: &'q str,
    start: PhaseStart,
}

/// `search TYPE [LIMIT] from SP LR SITE over TABLE`: what phase 1 finds for an object of a type; `flooded ..`: the same over a stack full
/// of return addresses. `advance NEXT FRAME DESCRIPTOR from SP LR SITE over TABLE`: what phase 2 enters on its way to a barrier.
pub fn tell(text: &mut Text, question: &str) {
    let (from, table) = text.around(question, " over ");
    let (words, start) = text.around(from, " from ");
    let start = start_of(text, start);
    if let Some(file) = image_by(text, FORM, &[table]) {
        tell_of_file(text, &file, &Asked { words, start });
    }
}

fn tell_of_file(text: &mut Text, file: &[u8], asked: &Asked) {
    if let Some(image) = open_image_in(text, file) {
        tell_of_image(text, &image, asked);
    }
}

fn tell_of_image(text: &mut Text, image: &Image, asked: &Asked) {
    if let Some(types) = graph_in(text, image, &[]) {
        tell_with_types(text, image, &types, asked);
    }
}

fn tell_with_types<'i, 'a>(
    text: &mut Text,
    image: &'i Image<'a>,
    types: &'i TypeGraph<'a>,
    asked: &Asked,
) {
    match Index::read(image) {
        Ok(index) => tell_of_tables(text, &Tables { index, types }, asked),
        Err(_fault) => text.refuse(Unanswered::Because("no index")),
    }
}

/// Answers a question over a memory that has the frames of the throw, or is flooded.
fn tell_of_tables(text: &mut Text, tables: &Tables, asked: &Asked) {
    let (what, words) = first_word(asked.words);
    if let Some(mut bus) = memory(text) {
        lay_stack(text, &mut bus, what);
        say_asked(text, tables, &bus, &asked.start, what, words);
    }
}

fn lay_stack(text: &mut Text, bus: &mut FlatBus, what: &str) {
    if what == "flooded" {
        flood(bus, 0x8075);
    } else {
        lay_frames(text, bus);
    }
}

fn say_asked(
    text: &mut Text,
    tables: &Tables,
    bus: &FlatBus,
    start: &PhaseStart,
    what: &str,
    words: &str,
) {
    match what {
        "search" | "flooded" => say_searched(text, tables, bus, start, words),
        "advance" => say_advanced(text, tables, bus, start, words),
        _ => text.refuse(Unanswered::NotKnown),
    }
}

/// `TYPE [LIMIT]`: the limit of the search, if there is one.
fn limit_of(text: &mut Text, word: &str) -> Option<u32> {
    if word.is_empty() {
        None
    } else {
        Some(text.hex(word))
    }
}

fn say_searched(text: &mut Text, tables: &Tables, bus: &FlatBus, start: &PhaseStart, words: &str) {
    let (ty, limit) = text.first_hex(words);
    let limit = limit_of(text, limit);
    let what = Thrown { object: OBJECT, ty };
    let found = search(tables, bus, &start.vrs, start.site, &what, limit);
    say_found(text, &found);
}

fn say_found(text: &mut Text, found: &Found) {
    match found {
        Found::Barrier(barrier) => say_barrier(text, barrier),
        Found::Terminate(cause) => text.say(name_of(*cause)),
        Found::ObjectRead(a) => say_number(text, "unreadable", *a),
    }
}

fn say_barrier(text: &mut Text, barrier: &Barrier) {
    let (sp, desc, site) = (barrier.sp, barrier.desc, barrier.site);
    write!(text, "barrier {desc:X} of the frame {sp:X} at {site:X}, ");
    text.say(hit_of(barrier.hit));
}

fn hit_of(hit: Match) -> &'static str {
    match hit {
        Match::Object(OBJECT) => "the object",
        _ => "another match",
    }
}

/// The name of the cause why there is no landing.
fn name_of(cause: Cause) -> &'static str {
    match cause {
        Cause::NoHandler => "terminate: no handler",
        Cause::CannotUnwind => "terminate: cannot unwind",
        Cause::NoThrow => "terminate: no throw allowed",
        Cause::LeavesCleanup => "terminate: leaves a cleanup",
        Cause::Unexpected => "terminate: unexpected",
        Cause::NothingCaught => "terminate: nothing caught",
        Cause::PoolFull => "terminate: pool full",
        Cause::Called => "terminate: called",
    }
}

/// `NEXT FRAME DESCRIPTOR`: the descriptor at which phase 2 goes on, and the barrier to reach.
fn say_advanced(text: &mut Text, tables: &Tables, bus: &FlatBus, start: &PhaseStart, words: &str) {
    let (next, words) = text.first_hex(words);
    let (sp, desc) = text.first_hex(words);
    let desc = text.hex(desc);
    let goal = Goal { sp, desc };
    let entered = advance(tables, bus, &start.vrs, start.site, next, &goal);
    say_entered(text, &entered);
    if let Some(vrs) = registers_of(&entered) {
        say_changed(text, &start.vrs.r, &vrs.r);
    }
}

/// Appends what is entered.
fn say_entered(text: &mut Text, entered: &Entered) {
    match entered {
        Entered::Cleanup {
            pad,
            next,
            site,
            ..
        } => say_cleanup(text, *pad, *next, *site),
        Entered::Catch { pad, .. } => say_number(text, "catch", *pad),
        Entered::Spec { pad, .. } => say_number(text, "specification", *pad),
        Entered::Unexpected => text.say("unexpected"),
        Entered::Terminate(cause) => text.say(name_of(*cause)),
    }
}

/// Appends a cleanup, and where phase 2 goes on.
fn say_cleanup(text: &mut Text, pad: u32, next: u32, site: u32) {
    write!(text, "cleanup {pad:X}, then {next:X} at {site:X}");
}

/// The registers with which a landing pad is entered.
fn registers_of(entered: &Entered) -> Option<&Vrs> {
    match entered {
        Entered::Cleanup { vrs, .. } | Entered::Catch { vrs, .. } | Entered::Spec { vrs, .. } => {
            Some(vrs)
        }
        Entered::Unexpected | Entered::Terminate(_) => None,
    }
}
