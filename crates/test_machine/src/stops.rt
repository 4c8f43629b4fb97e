//! A run in parts is, at each stop, in the state of the run in one part.
use crate::answers;
use crate::desk::Desk;
use eh_cxa::layout::{
    BARRIER_DESCRIPTOR, BARRIER_OBJECT, BARRIER_POINTER, BARRIER_SP, CLEANUP_NEXT, CLEANUP_SITE,
    CLEANUP_SP, COUNT, DESTRUCTOR, NEXT_CAUGHT, NEXT_CLEANUP, SIZE, STATE, TYPE,
};
use std::alloc::Global;
use test_rows::Unanswered;
use thumb_core::ends::End;

/// The words of a slot that the gates read.
pub static WORDS: [u32; 14] = [
    STATE,
    SIZE,
    TYPE,
    DESTRUCTOR,
    COUNT,
    NEXT_CAUGHT,
    BARRIER_SP,
    BARRIER_OBJECT,
    BARRIER_DESCRIPTOR,
    BARRIER_POINTER,
    CLEANUP_NEXT,
    CLEANUP_SP,
    CLEANUP_SITE,
    NEXT_CLEANUP,
];

fn are_words(a: &Desk, b: &Desk) -> bool {
    for k in &WORDS {
        if a.word(0, *k) != b.word(0, *k) {
            return false;
        }
    }
    true
}

/// Whether two runs are in the same state: ends, registers, heads, what is left of the budget, words of the first slot, events and output.
fn is_same(a: &Desk, b: &Desk) -> bool {
    a.end == b.end
        && a.machine.core == b.machine.core
        && a.machine.left == b.machine.left
        && are_words(a, b)
        && a.machine.events().kept() == b.machine.events().kept()
        && a.out.written.as_slice() == b.out.written.as_slice()
}

/// Whether a run is in the state of a run of so many events in one part. If that one ends sooner, it gets the greatest budget that is
/// tried.
fn stands_at(alloc: Global, desk: &Desk, given: u64, most: u64) -> Result<bool, Unanswered> {
    let mut whole = Desk::start(alloc, desk.machine.accepted)?;
    whole.go(alloc, given.min(most));
    Ok(is_same(desk, &whole))
}

/// `stops FIRST MOST`: does a run in parts, the first of FIRST events and the others of one to eight, up to MOST events. Says how it ends,
/// or the first stop where it isn't in the state of the run in one part.
pub fn stops(alloc: Global, desk: &mut Desk, given: &[u32]) -> Result<String, Unanswered> {
    let [first, most] = given else {
        return Err(Unanswered::NoWord);
    };
    let mut more = u64::from(*first);
    let mut gone = 0u64;
    for k in 0..u64::from(*most) {
        gone = gone.saturating_add(more);
        desk.go(alloc, more);
        if !stands_at(alloc, desk, gone, u64::from(*most))? {
            return Ok(format!(in alloc; "another state behind {gone:X}")?);
        }
        if desk.end != End::Budget {
            break;
        }
        more = (u64::from(*first).saturating_add(k) % 8).saturating_add(1);
    }
    Ok(answers::end(alloc, desk.end)?)
}
