//! The rules of narrowing by their names.

use crate::rules::Answer;
use crate::words::Words;
use uz_range::{narrow, narrow_bit, narrow_pair, narrow_pair_result, narrow_result, narrow_value};
use uz_schedule::{Span, Wide};

/// What the rule of a row leaves; None where the rule is given something else.
pub(crate) fn narrowed(name: &str, words: &mut Words) -> Option<Answer> {
    if name == "narrow_bit" {
        return of_bit(words);
    }
    let flag = words.flag()?;
    let is_set = words.is_set()?;
    match name {
        "narrow" => of_bytes(flag, is_set, words),
        "narrow_pair" => of_pairs(flag, is_set, words),
        "narrow_result" => of_result(flag, is_set, words),
        "narrow_pair_result" => of_pair_result(flag, is_set, words),
        _ => Some(left(narrow_value(flag, is_set, words.span()?))),
    }
}

fn left(range: Option<Span>) -> Answer {
    match range {
        Some(range) => Answer::Span(range),
        None => Answer::Nothing,
    }
}

fn left_wide(range: Option<Wide>) -> Answer {
    match range {
        Some(range) => Answer::Wide(range),
        None => Answer::Nothing,
    }
}

fn of_bytes(flag: u8, is_set: bool, words: &mut Words) -> Option<Answer> {
    let a = words.span()?;
    let b = words.span()?;
    match narrow(flag, is_set, a, b) {
        Some(left) => Some(Answer::Spans(left.0, left.1)),
        None => Some(Answer::Nothing),
    }
}

fn of_pairs(flag: u8, is_set: bool, words: &mut Words) -> Option<Answer> {
    let a = words.wide()?;
    let b = words.wide()?;
    match narrow_pair(flag, is_set, a, b) {
        Some(left) => Some(Answer::Wides(left.0, left.1)),
        None => Some(Answer::Nothing),
    }
}

fn of_result(flag: u8, is_set: bool, words: &mut Words) -> Option<Answer> {
    let old = words.span()?;
    let k = words.byte()?;
    Some(left(narrow_result(flag, is_set, old, k, words.span()?)))
}

fn of_pair_result(flag: u8, is_set: bool, words: &mut Words) -> Option<Answer> {
    let old = words.wide()?;
    let k = words.number()?;
    Some(left_wide(narrow_pair_result(flag, is_set, old, k, words.wide()?)))
}

fn of_bit(words: &mut Words) -> Option<Answer> {
    let bit = words.byte()?;
    let is_set = words.is_set()?;
    if bit >= 8 {
        return None;
    }
    Some(left(narrow_bit(bit, is_set, words.span()?)))
}
