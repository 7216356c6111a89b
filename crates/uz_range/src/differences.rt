//! Narrowing of two numbers by a flag of the first less the second. Numbers lie below twice `half`.

ghost use Rattle.std.specs.Prelude.{◌≡◌, ◌<◌, ◌≤◌};
ghost use Rattle.uz_range.specs.Narrowing.{below as below_ends, not_below as not_below_ends, by_carry as by_carry_ends};
ghost use Rattle.uz_range.specs.Narrowing.{shared as shared_ends, without as without_end, apart as apart_ends};
ghost use Rattle.uz_range.specs.Narrowing.{by_zero as by_zero_ends, of_one_sign as of_one_sign_ends};
ghost use Rattle.uz_range.specs.Narrowing.{of_two_signs as of_two_signs_ends, by_sign as by_sign_ends, narrowed as narrowed_ends, BothLieIn};

use crate::empty_ranges::{between, both, common, either, lower, upper};
use uz_schedule::Wide;

/// What a flag of their difference, by its bit in SREG, leaves of the ranges of two numbers.
pub fn narrowed(half: u16, flag: u8, is_set: bool, a: Wide, b: Wide) -> Option<(Wide, Wide)>
    requires { 0 < half }
    ensures row { result ≡ narrowed_ends half flag is_set a b }
    ensures inside { a.lo ≤ a.hi → b.lo ≤ b.hi → BothLieIn a b result }
{
    if flag == 0 {
        by_carry(is_set, a, b)
    } else if flag == 1 {
        by_zero(is_set, a, b)
    } else if flag == 4 {
        by_sign(half, is_set, a, b)
    } else {
        Some((a, b))
    }
}

/// The first is below the second.
fn below(a: Wide, b: Wide) -> Option<(Wide, Wide)>
    ensures { result ≡ below_ends a b }
{
    if a.lo() < b.hi() {
        Some((
            Wide::between(a.lo(), a.hi().min(b.hi() - 1)),
            Wide::between(b.lo().max(a.lo() + 1), b.hi()),
        ))
    } else {
        None
    }
}

/// The first isn't below the second.
fn not_below(a: Wide, b: Wide) -> Option<(Wide, Wide)>
    ensures { result ≡ not_below_ends a b }
{
    if b.lo() <= a.hi() {
        Some((
            Wide::between(a.lo().max(b.lo()), a.hi()),
            Wide::between(b.lo(), b.hi().min(a.hi())),
        ))
    } else {
        None
    }
}

/// By flag C.
fn by_carry(is_set: bool, a: Wide, b: Wide) -> Option<(Wide, Wide)>
    ensures { result ≡ by_carry_ends is_set a b }
{
    if is_set { below(a, b) } else { not_below(a, b) }
}

/// The two are equal.
fn shared(a: Wide, b: Wide) -> Option<(Wide, Wide)>
    ensures { result ≡ shared_ends a b }
{
    both(common(a, b), common(a, b))
}

/// A range without `v`, where that is one of its ends.
fn without(v: u16, a: Wide) -> Option<Wide>
    ensures { result ≡ without_end v a }
{
    if a.lo() == v {
        if v < a.hi() {
            between(v + 1, a.hi())
        } else {
            None
        }
    } else if a.hi() == v {
        Some(Wide::between(a.lo(), v - 1))
    } else {
        Some(a)
    }
}

/// The two differ.
fn apart(a: Wide, b: Wide) -> Option<(Wide, Wide)>
    ensures { result ≡ apart_ends a b }
{
    if b.lo() == b.hi() {
        both(without(b.lo(), a), Some(b))
    } else if a.lo() == a.hi() {
        both(Some(a), without(a.lo(), b))
    } else {
        Some((a, b))
    }
}

/// By flag Z.
fn by_zero(is_set: bool, a: Wide, b: Wide) -> Option<(Wide, Wide)>
    ensures { result ≡ by_zero_ends is_set a b }
{
    if is_set { shared(a, b) } else { apart(a, b) }
}

/// By flag S, for numbers of one sign.
fn of_one_sign(is_set: bool, parts: Option<(Wide, Wide)>) -> Option<(Wide, Wide)>
    ensures { result ≡ of_one_sign_ends is_set parts }
{
    match parts {
        Some(parts) => by_carry(is_set, parts.0, parts.1),
        None => None,
    }
}

/// By flag S, for a negative number and one that isn't.
fn of_two_signs(half: u16, is_set: bool, a: Wide, b: Wide) -> Option<(Wide, Wide)>
    requires { 0 < half }
    ensures { result ≡ of_two_signs_ends half is_set a b }
{
    if is_set {
        both(upper(half, a), lower(half, b))
    } else {
        both(lower(half, a), upper(half, b))
    }
}

/// By flag S.
fn by_sign(half: u16, is_set: bool, a: Wide, b: Wide) -> Option<(Wide, Wide)>
    requires { 0 < half }
    ensures { result ≡ by_sign_ends half is_set a b }
{
    let positive = of_one_sign(is_set, both(lower(half, a), lower(half, b)));
    let negative = of_one_sign(is_set, both(upper(half, a), upper(half, b)));
    either(either(positive, negative), of_two_signs(half, is_set, a, b))
}
