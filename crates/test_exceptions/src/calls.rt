//! The calls that a row can ask for, by their names, each with its answer.
use crate::answers;
use crate::words::{self, PoolState};
use eh_cxa::pool::{slot_of_block, slot_of_object};
use eh_cxa::{
    BarrierWords, CleanupWords, allocate, barrier, begin_catch, begin_cleanup, end_catch,
    end_cleanup, free, innermost_sp, land, may_rethrow, may_throw, object_size, rethrow,
    set_barrier, start_throw, thrown,
};
use test_rows::{Text, Unanswered, number_at};

/// Appends the answer to a call.
pub fn tell(text: &mut Text, pool: &mut PoolState, what: &str, given: &[u32]) {
    match what {
        "allocate" => ask_allocate(text, pool, given),
        "fill" => ask_fill(text, pool, given),
        "size" => size(text, pool, given),
        "free" => ask_free(text, pool, given),
        "may-throw" => throwable(text, pool, given),
        "throw" => throws(text, pool, given),
        "barrier" => ask_barrier(text, pool, given),
        "barrier-of" => barrier_of(text, pool, given),
        "thrown" => ask_thrown(text, pool, given),
        "land" => lands(text, pool, given),
        "catch" => catches(text, pool, given),
        "end-catch" => leaves(text, pool),
        _ => tell_other(text, pool, what, given),
    }
}

/// Appends the answer to one of the other calls.
fn tell_other(text: &mut Text, pool: &mut PoolState, what: &str, given: &[u32]) {
    match what {
        "may-rethrow" => throwable_again(text, pool),
        "rethrow" => throws_again(text, pool),
        "cleanup" => cleans(text, pool, given),
        "end-cleanup" => ask_end_cleanup(text, pool, given),
        "landing-sp" => landing_sp(text, pool),
        "put" => words::put_word(text, pool, given),
        "slot" => words::slot(text, pool, given),
        "heads" => words::heads(text, pool, given),
        "globals" => words::globals(text, pool),
        "word" => words::word(text, pool, given),
        "at" => words::all_at(text, pool, given),
        "load" => words::load(text, pool, given),
        "store" => words::store(text, pool, given),
        _ => text.refuse(Unanswered::NotKnown),
    }
}

/// The first number given.
fn first(text: &mut Text, given: &[u32]) -> Option<u32> {
    text.taken(number_at(given, 0))
}

/// `allocate SIZE`: the address of the object.
fn ask_allocate(text: &mut Text, pool: &mut PoolState, given: &[u32]) {
    if let Some(size) = first(text, given) {
        answers::address(text, allocate(&mut pool.bus, size));
    }
}

/// `fill SIZE`: allocates 64 objects.
fn ask_fill(text: &mut Text, pool: &mut PoolState, given: &[u32]) {
    for _ in 0..64 {
        ask_allocate(text, pool, given);
    }
}

/// The size of an object at an address.
fn size_at(text: &mut Text, pool: &PoolState, object: u32) {
    match slot_of_object(object) {
        Some(_slot) => answers::word(text, object_size(&pool.bus, object)),
        None => text.refuse(Unanswered::NotKnown),
    }
}

/// `size OBJECT`: the size of an object.
fn size(text: &mut Text, pool: &PoolState, given: &[u32]) {
    if let Some(object) = first(text, given) {
        size_at(text, pool, object);
    }
}

/// `free OBJECT`: gives back an object; whether it may be.
fn ask_free(text: &mut Text, pool: &mut PoolState, given: &[u32]) {
    if let Some(object) = first(text, given) {
        answers::done(text, free(&mut pool.bus, object));
    }
}

/// `may-throw OBJECT`: whether it may be thrown.
fn throwable(text: &mut Text, pool: &PoolState, given: &[u32]) {
    if let Some(object) = first(text, given) {
        answers::done(text, may_throw(&pool.bus, object));
    }
}

/// `throw OBJECT TYPE DESTRUCTOR`: the address of its control block.
fn throws(text: &mut Text, pool: &mut PoolState, given: &[u32]) {
    let [object, ty, destructor] = given else {
        return text.refuse(Unanswered::NoWord);
    };
    let block = start_throw(&mut pool.bus, &mut pool.globals, *object, *ty, *destructor);
    answers::address(text, block);
}

/// `barrier BLOCK SP OBJECT DESCRIPTOR POINTER`: writes the barrier of a throw.
fn ask_barrier(text: &mut Text, pool: &mut PoolState, given: &[u32]) {
    let [block, sp, object, desc, pointer] = given else {
        return text.refuse(Unanswered::NoWord);
    };
    let words = BarrierWords {
        sp: *sp,
        object: *object,
        desc: *desc,
        pointer: *pointer,
    };
    match slot_of_block(*block) {
        Some(_slot) => set_barrier(&mut pool.bus, *block, &words),
        None => text.refuse(Unanswered::NotKnown),
    }
}

/// The words of the barrier at a control block.
fn barrier_at(text: &mut Text, pool: &PoolState, block: u32) {
    if let Some(_slot) = slot_of_block(block) {
        let words = barrier(&pool.bus, block);
        answers::words(text, &[words.sp, words.object, words.desc, words.pointer]);
    } else {
        text.refuse(Unanswered::NotKnown);
    }
}

/// `barrier-of BLOCK`: the words of the barrier of a throw.
fn barrier_of(text: &mut Text, pool: &PoolState, given: &[u32]) {
    if let Some(block) = first(text, given) {
        barrier_at(text, pool, block);
    }
}

/// The object of the control block at an address, and its type.
fn say_thrown_at(text: &mut Text, pool: &PoolState, block: u32) {
    if let Some(_slot) = slot_of_block(block) {
        let (object, ty) = thrown(&pool.bus, block);
        answers::words(text, &[object, ty]);
    } else {
        text.refuse(Unanswered::NotKnown);
    }
}

/// `thrown BLOCK`: the object of a control block, and its type.
fn ask_thrown(text: &mut Text, pool: &PoolState, given: &[u32]) {
    if let Some(block) = first(text, given) {
        say_thrown_at(text, pool, block);
    }
}

/// A handler is entered, for the exception with the control block at an address.
fn lands_at(text: &mut Text, pool: &mut PoolState, block: u32) {
    match slot_of_block(block) {
        Some(_slot) => land(&mut pool.bus, block),
        None => text.refuse(Unanswered::NotKnown),
    }
}

/// `land BLOCK`: enters a handler.
fn lands(text: &mut Text, pool: &mut PoolState, given: &[u32]) {
    if let Some(block) = first(text, given) {
        lands_at(text, pool, block);
    }
}

/// `catch BLOCK`: the pointer that the handler is given.
fn catches(text: &mut Text, pool: &mut PoolState, given: &[u32]) {
    if let Some(block) = first(text, given) {
        let caught = begin_catch(&mut pool.bus, &mut pool.globals, block);
        answers::address(text, caught);
    }
}

/// `end-catch`: the object to be destroyed and its destructor.
fn leaves(text: &mut Text, pool: &mut PoolState) {
    let handed = end_catch(&mut pool.bus, &mut pool.globals);
    answers::say_handed_out(text, handed);
}

/// `may-rethrow`: the control block that a rethrow would throw.
fn throwable_again(text: &mut Text, pool: &PoolState) {
    let block = may_rethrow(&pool.bus, &pool.globals);
    answers::address(text, block);
}

/// `rethrow`: the control block that is thrown again.
fn throws_again(text: &mut Text, pool: &mut PoolState) {
    let block = rethrow(&mut pool.bus, &mut pool.globals);
    answers::address(text, block);
}

/// `cleanup BLOCK NEXT SP SITE`: begins a cleanup of a throw.
fn cleans(text: &mut Text, pool: &mut PoolState, given: &[u32]) {
    let [block, next, sp, site] = given else {
        return text.refuse(Unanswered::NoWord);
    };
    let words = CleanupWords {
        next: *next,
        sp: *sp,
        site: *site,
    };
    match slot_of_block(*block) {
        Some(_slot) => begin_cleanup(&mut pool.bus, &mut pool.globals, *block, &words),
        None => text.refuse(Unanswered::NotKnown),
    }
}

/// `end-cleanup SP`: the control block of the innermost cleanup, and its words.
fn ask_end_cleanup(text: &mut Text, pool: &mut PoolState, given: &[u32]) {
    if let Some(sp) = first(text, given) {
        let ended = end_cleanup(&mut pool.bus, &mut pool.globals, sp);
        answers::say_ended_cleanup(text, ended);
    }
}

/// `landing-sp`: the landing sp of the innermost cleanup.
fn landing_sp(text: &mut Text, pool: &PoolState) {
    match innermost_sp(&pool.bus, &pool.globals) {
        Some(sp) => answers::word(text, sp),
        None => answers::say(text, "none"),
    }
}
