//! Rows `PLACES : ANSWER` and `PLACES VALUES : ANSWER`. PLACES is a number or `FROM-TO`; VALUES are numbers separated by blanks, or `any`.
//! If several rows name a place and a value, the first one counts. Other lines are comments on the rows.
use std::alloc::{AllocError, Global};

/// A row.
#[derive(Clone, Copy)]
pub struct Rule<'a> {
    from: usize,
    to: usize,
    values: &'a str,
    answer: &'a str,
}

fn places_of(text: &str) -> Option<(usize, usize)> {
    let (from, to) = text.split_once('-').unwrap_or((text, text));
    Some((from.parse().ok()?, to.parse().ok()?))
}

/// The row that a line is. None if it is no row.
fn rule_of(line: &str) -> Option<Rule<'_>> {
    let (question, answer) = line.split_once(" : ")?;
    let (places, values) = question.split_once(' ').unwrap_or((question, "any"));
    let (from, to) = places_of(places)?;
    Some(Rule {
        from,
        to,
        values,
        answer,
    })
}

impl Rule<'_> {
    fn names_value(&self, value: u8) -> bool {
        self.values == "any"
            || self
                .values
                .split(' ')
                .any(|word| word.parse().ok() == Some(value))
    }

    fn names(&self, place: usize, value: u8) -> bool {
        self.from <= place && place <= self.to && self.names_value(value)
    }
}

/// The rows of a text. `AllocError` if there was no memory.
pub fn rules_of(alloc: Global, text: &str) -> Result<Vec<Rule<'_>>, AllocError> {
    let mut rules = Vec::new(alloc);
    for line in text.lines() {
        if let Some(rule) = rule_of(line) {
            rules.push(rule)?;
        }
    }
    Ok(rules)
}

/// The answer of the first row that names a place and a value.
pub fn rule_text<'a>(rules: &[Rule<'a>], place: usize, value: u8) -> Option<&'a str> {
    for rule in rules {
        if rule.names(place, value) {
            return Some(rule.answer);
        }
    }
    None
}
