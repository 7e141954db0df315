//! How an answer is compared with the expected one.

use crate::encoded::{Names, digits, encoded};
use crate::items::words;
use std::alloc::{AllocError, Global};

/// How an answer is compared.
#[derive(Clone, Copy, Drop)]
enum Comparison {
    /// It is what is expected.
    Whole,
    /// It has the expected parts, one after the other, perhaps with more between them.
    Parts,
    /// It doesn't have what is said.
    Lack,
    /// Its counts are those that are named, or within their limits.
    Counts,
}

/// An expected answer, and how it is compared.
#[derive(Drop)]
pub struct Expected {
    pub text: String,
    comparison: Comparison,
}

/// What is between two parts of an answer.
const BETWEEN: &str = " .. ";

/// The question whose answer is compared: that of `has` is the value.
pub fn question_of(question: &str) -> &str {
    if question == "has" {
        return "value";
    }
    let question = question.strip_suffix(" has").unwrap_or(question);
    question.strip_suffix(" lacks").unwrap_or(question)
}

/// Whether bytes are expected as the answer to a question.
fn has_bytes(question: &str, expected: &str) -> bool {
    let first = question.split(' ').next().unwrap_or("");
    (first == "written" || first == "finished")
        && expected != "same"
        && !expected.starts_with("refused:")
}

/// How the answer to a question is compared.
fn comparison_of(question: &str, expected: &str) -> Comparison {
    if question.starts_with("comparisons ") && !expected.starts_with("refused:") {
        Comparison::Counts
    } else if question == "has" || question.ends_with(" has") {
        Comparison::Parts
    } else if question.ends_with(" lacks") {
        Comparison::Lack
    } else {
        Comparison::Whole
    }
}

/// Whether a text has these parts, one after the other.
fn has_parts(text: &str, parts: &str) -> bool {
    let mut rest = text;
    for part in parts.split(BETWEEN) {
        match rest.split_once(part) {
            Some((_, after)) => rest = after,
            None => return false,
        }
    }
    true
}

/// Adds the digits of the bytes that a part encodes to a text, and answers whether it encodes any.
fn add_digits(
    alloc: Global,
    names: &Names,
    part: &str,
    text: &mut String,
) -> Result<bool, AllocError> {
    let Some(bytes) = encoded(alloc, names, part)? else {
        return Ok(false);
    };
    if !text.is_empty() {
        text.push_str(BETWEEN)?;
    }
    text.push_str(&digits(alloc, &bytes)?)?;
    Ok(true)
}

/// The digits of the bytes that each part encodes; None where one encodes none.
fn digits_of_parts(
    alloc: Global,
    names: &Names,
    parts: &str,
) -> Result<Option<String>, AllocError> {
    let mut text = String::new(alloc);
    for part in parts.split(BETWEEN) {
        if !add_digits(alloc, names, part, &mut text)? {
            return Ok(None);
        }
    }
    Ok(Some(text))
}

/// Whether a number is as it is expected: `3`, `at most 3`, or `1 to 3`.
fn is_within(expected: &str, number: &str) -> bool {
    let given = number.parse::<u64>().unwrap_or(u64::MAX);
    if let Some(limit) = expected.strip_prefix("at most ") {
        return given <= limit.parse::<u64>().unwrap_or(0);
    }
    match expected.split_once(" to ") {
        Some((least, most)) => {
            least.parse::<u64>().unwrap_or(u64::MAX) <= given
                && given <= most.parse::<u64>().unwrap_or(0)
        },
        None => expected == number,
    }
}

/// Whether a number, or both ends of a range of numbers as `1..3`, are as expected.
fn are_within(expected: &str, numbers: &str) -> bool {
    match numbers.split_once("..") {
        Some((least, most)) => is_within(expected, least) && is_within(expected, most),
        None => is_within(expected, numbers),
    }
}

/// The name of a count, and its number or limit.
fn parts_of(count: &str) -> (&str, &str) {
    count.split_once(' ').unwrap_or((count, ""))
}

/// Whether a count has the name of an expected one, and is as it is expected.
fn is_count(expected: &str, given: &str) -> bool {
    let (name, limit) = parts_of(expected);
    let (other, number) = parts_of(given);
    name == other && are_within(limit, number)
}

/// Whether each given count that no expected one names is as it is expected of the others.
fn are_others(expected: &str, limit: &str, given: &str) -> bool {
    given.split(", ").all(|count| {
        let (name, number) = parts_of(count);
        let is_named = expected.split(", ").any(|other| parts_of(other).0 == name);
        is_named || are_within(limit, number)
    })
}

/// Whether each expected count is among those that were given; `others 0` is said of those that aren't named.
fn are_counts(expected: &str, given: &str) -> bool {
    expected.split(", ").all(|count| match count.strip_prefix("others ") {
        Some(limit) => are_others(expected, limit, given),
        None => given.split(", ").any(|other| is_count(count, other)),
    })
}

impl Expected {
    /// What is expected as the answer to a question; None where bytes are expected that no words encode.
    pub fn new(
        alloc: Global,
        names: &Names,
        question: &str,
        expected: &str,
    ) -> Result<Option<Expected>, AllocError> {
        let comparison = comparison_of(question, expected);
        let text = if has_bytes(question, expected) {
            digits_of_parts(alloc, names, expected)?
        } else {
            Some(words(alloc, expected)?)
        };
        match text {
            Some(text) => Ok(Some(Expected { text, comparison })),
            None => Ok(None),
        }
    }

    /// Whether an answer is as expected.
    pub fn agrees(&self, given: &str) -> bool {
        let expected = self.text.as_str();
        match self.comparison {
            Comparison::Whole => expected == given,
            Comparison::Parts => has_parts(given, expected),
            Comparison::Lack => !given.contains(expected),
            Comparison::Counts => are_counts(expected, given),
        }
    }
}
