//! Answers in words. Numbers are hexadecimal, and a call that says nothing has no answer. The answers of two calls are separated by `; `.
use eh_cxa::{CleanupWords, CxaFault};
use test_rows::Text;

/// Appends a text, after the answers of the calls before it.
pub fn say(text: &mut Text, answer: &str) {
    text.say_between("; ");
    text.say(answer);
}

/// Appends a word in hexadecimal digits, after the answers of the calls before it.
pub fn word(text: &mut Text, word: u32) {
    text.say_between("; ");
    text.say_hex(word);
}

/// Appends words with blanks between them.
pub fn words(text: &mut Text, words: &[u32]) {
    let [first, more @ ..] = words else {
        return;
    };
    word(text, *first);
    for word in more {
        text.say(" ");
        text.say_hex(*word);
    }
}

/// Appends why a call is refused.
pub fn fault(text: &mut Text, fault: CxaFault) {
    text.say_between("; ");
    text.show(&fault);
}

/// Appends whether a call is done.
pub fn done(text: &mut Text, done: Result<(), CxaFault>) {
    match done {
        Ok(()) => say(text, "done"),
        Err(why) => fault(text, why),
    }
}

/// Appends an address, or why there is none.
pub fn address(text: &mut Text, given: Result<u32, CxaFault>) {
    match given {
        Ok(a) => word(text, a),
        Err(why) => fault(text, why),
    }
}

/// Appends an object to be destroyed and its destructor, or why there is none.
pub fn say_handed_out(text: &mut Text, given: Result<(u32, u32), CxaFault>) {
    match given {
        Ok((object, destructor)) => words(text, &[object, destructor]),
        Err(why) => fault(text, why),
    }
}

/// Appends the control block of a cleanup that ended, with the next descriptor, sp and site; or why there is none.
pub fn say_ended_cleanup(text: &mut Text, given: Result<(u32, CleanupWords), CxaFault>) {
    match given {
        Ok((block, cleanup)) => words(text, &[block, cleanup.next, cleanup.sp, cleanup.site]),
        Err(why) => fault(text, why),
    }
}
