//! The rules by their names.

use crate::narrowing::narrowed;
use crate::words::Words;
use uz_range::{
    Form, Ranged, WideRanged, and, asr, bld, bst, chained, com, difference, high, hull, low, lsr,
    negate, or, pair_add, pair_sub, product, ror, same_and, same_sub, same_xor, step_down, step_up,
    sum, swap, xor,
};
use uz_schedule::{Bit, Span, Wide};

/// What a rule answers.
#[derive(Drop)]
pub(crate) enum Answer {
    /// A byte and flags.
    Byte(Ranged),
    /// A pair and flags.
    Pair(WideRanged),
    /// A byte alone.
    Span(Span),
    /// A pair alone.
    Wide(Wide),
    /// A flag.
    Flag(Bit),
    /// What is left of two bytes.
    Spans(Span, Span),
    /// What is left of two pairs.
    Wides(Wide, Wide),
    /// Nothing is left.
    Nothing,
}

/// What the rule of a row answers; None where there is no such rule, or it is given something else.
pub(crate) fn ask(words: &mut Words) -> Option<Answer> {
    let name = words.word();
    match name {
        "sum" | "difference" | "chained" => Some(Answer::Byte(of_sums(name, words)?)),
        "and" | "or" | "xor" => Some(Answer::Byte(of_two(name, words)?)),
        "same_xor" => Some(Answer::Byte(same_xor())),
        "same_sub" => Some(Answer::Byte(same_sub())),
        "ror" => Some(Answer::Byte(of_rotation(words)?)),
        "mul" | "muls" | "mulsu" | "fmul" | "fmuls" | "fmulsu" => {
            Some(Answer::Pair(of_product(name, words)?))
        }
        "pair_add" | "pair_sub" => Some(Answer::Pair(of_pair(name, words)?)),
        "narrow"
        | "narrow_pair"
        | "narrow_result"
        | "narrow_pair_result"
        | "narrow_value"
        | "narrow_bit" => narrowed(name, words),
        "swap" | "bld" | "bst" | "hull" | "low" | "high" => without_flags(name, words),
        _ => Some(Answer::Byte(of_one(name, words)?)),
    }
}

fn of_sums(name: &str, words: &mut Words) -> Option<Ranged> {
    let a = words.span()?;
    let b = words.span()?;
    let carry = words.bit()?;
    match name {
        "sum" => Some(sum(a, b, carry)),
        "difference" => Some(difference(a, b, carry)),
        _ => Some(chained(words.bit()?, difference(a, b, carry))),
    }
}

fn of_two(name: &str, words: &mut Words) -> Option<Ranged> {
    let a = words.span()?;
    let b = words.span()?;
    match name {
        "and" => Some(and(a, b)),
        "or" => Some(or(a, b)),
        _ => Some(xor(a, b)),
    }
}

fn of_rotation(words: &mut Words) -> Option<Ranged> {
    let a = words.span()?;
    Some(ror(a, words.bit()?))
}

fn of_one(name: &str, words: &mut Words) -> Option<Ranged> {
    let a = words.span()?;
    match name {
        "negate" => Some(negate(a)),
        "step_up" => Some(step_up(a)),
        "step_down" => Some(step_down(a)),
        "com" => Some(com(a)),
        "same_and" => Some(same_and(a)),
        "lsr" => Some(lsr(a)),
        "asr" => Some(asr(a)),
        _ => None,
    }
}

fn of_product(name: &str, words: &mut Words) -> Option<WideRanged> {
    let a = words.span()?;
    let b = words.span()?;
    let form = match name {
        "mul" => Form::Mul,
        "muls" => Form::Muls,
        "mulsu" => Form::Mulsu,
        "fmul" => Form::Fmul,
        "fmuls" => Form::Fmuls,
        _ => Form::Fmulsu,
    };
    Some(product(a, b, form))
}

fn of_pair(name: &str, words: &mut Words) -> Option<WideRanged> {
    let a = words.wide()?;
    let k = words.byte()?;
    match name {
        "pair_add" => Some(pair_add(a, k)),
        _ => Some(pair_sub(a, k)),
    }
}

fn without_flags(name: &str, words: &mut Words) -> Option<Answer> {
    match name {
        "low" => Some(Answer::Span(low(words.wide()?))),
        "high" => Some(Answer::Span(high(words.wide()?))),
        "swap" => Some(Answer::Span(swap(words.span()?))),
        "hull" => {
            let low = words.span()?;
            Some(Answer::Wide(hull(low, words.span()?)))
        }
        _ => of_a_bit(name, words),
    }
}

fn of_a_bit(name: &str, words: &mut Words) -> Option<Answer> {
    let a = words.span()?;
    let bit = words.byte()?;
    if bit >= 8 {
        return None;
    }
    match name {
        "bst" => Some(Answer::Flag(bst(a, bit))),
        _ => Some(Answer::Span(bld(a, bit, words.bit()?))),
    }
}
