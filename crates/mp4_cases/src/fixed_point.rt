//! What numbers in fixed point answer.

use crate::refusals::Answer;
use mp4_codec::{FixedPointI8, FixedPointU8, FixedPointU16};
use std::alloc::Global;
use std::fmt;
use std::fmt::{Debug, Display, Write};

/// An unsigned number that is written in hexadecimal digits, so many at least.
#[derive(Clone, Copy)]
struct Hex {
    number: u32,
    digits: usize,
}

impl Hex {
    fn of_four(number: u16) -> Self {
        Hex {
            number: u32::from(number),
            digits: 4,
        }
    }

    fn of_eight(number: u32) -> Self {
        Hex { number, digits: 8 }
    }
}

impl Display for Hex {
    fn fmt<W: Write>(&self, f: &mut fmt::Formatter<W>) -> fmt::Result {
        let Hex { number, digits } = *self;
        write!(f, "{number:0digits$x}")
    }
}

/// What a number answers to a question: itself, its whole part, its bits, or the bits of its whole part; None where
/// that is no question.
fn answer<N: Debug, W: Display, B: Display>(
    alloc: Global,
    number: &N,
    whole: &W,
    raw: &B,
    raw_of_whole: &B,
    question: &str,
) -> Answer {
    let answer = match question {
        "value" => format!(in alloc; "{number:?}"),
        "whole" => format!(in alloc; "{whole}"),
        "raw" => format!(in alloc; "{raw}"),
        "raw of the whole" => format!(in alloc; "{raw_of_whole}"),
        _ => return Ok(None),
    };
    answer.map(Some)
}

/// What an unsigned number of 8 and 8 bits answers to a question; None where that is no question.
pub fn answer_of_u8(alloc: Global, bytes: &[u8], question: &str) -> Answer {
    let [high, low] = bytes else {
        return Ok(None);
    };
    let number = FixedPointU8::new_raw(u16::from_be_bytes([*high, *low]));
    let whole = number.value();
    let raw = Hex::of_four(number.raw_value());
    let raw_of_whole = Hex::of_four(FixedPointU8::new(whole).raw_value());
    answer(alloc, &number, &whole, &raw, &raw_of_whole, question)
}

/// What a signed number of 8 and 8 bits answers to a question; None where that is no question.
pub fn answer_of_i8(alloc: Global, bytes: &[u8], question: &str) -> Answer {
    let [high, low] = bytes else {
        return Ok(None);
    };
    let number = FixedPointI8::new_raw(i16::from_be_bytes([*high, *low]));
    let whole = number.value();
    let raw = number.raw_value();
    let raw_of_whole = FixedPointI8::new(whole).raw_value();
    answer(alloc, &number, &whole, &raw, &raw_of_whole, question)
}

/// What an unsigned number of 16 and 16 bits answers to a question; None where that is no question.
pub fn answer_of_u16(alloc: Global, bytes: &[u8], question: &str) -> Answer {
    let [a, b, c, d] = bytes else {
        return Ok(None);
    };
    let number = FixedPointU16::new_raw(u32::from_be_bytes([*a, *b, *c, *d]));
    let whole = number.value();
    let raw = Hex::of_eight(number.raw_value());
    let raw_of_whole = Hex::of_eight(FixedPointU16::new(whole).raw_value());
    answer(alloc, &number, &whole, &raw, &raw_of_whole, question)
}
