//! Results that are covered: one value of a register after another is looked for in the named successors.

ghost use Rattle.std.specs.Prelude.{◌≡◌, ◌<◌, ◌-◌, Some, suc};
ghost use Rattle.uz_schedule.specs.WellFormed.{WellFormed};
ghost use Rattle.uz_rules.specs.Cover.{all_from, at_value, covered_by};
ghost use Rattle.uz_rules.specs.Local.{passes};
ghost use Rattle.uz_rules.specs.Successors.{lies_in_any};

use crate::successors::lies_in_any;
use uz_schedule::{Cert, Instance, Point, Span, Val};
use uz_transfer::{set_val, span_at};

/// The most values, less one, that a register of a cover may have.
const MOST_APART: u8 = 63;

/// Whether a result with this value of a register lies in an instance of a named successor. The value stands in the result while it is
/// looked for, and what stood there again afterwards.
fn lies_at(cert: &Cert, next: &[u32], r: u8, v: u8, at: &mut Instance) -> bool
    requires fits { WellFormed cert.now }
    requires register { r < 32 }
    ensures lies { result ≡ lies_in_any cert.now next.now (at_value r v at.old) }
    ensures stays { at.new ≡ at.old }
{
    let old = at.regs[r as usize];
    let pairs = at.pairs;
    set_val(at, r, Val::Range(Span::single(v)));
    let lies = lies_in_any(cert, next, at);
    at.regs[r as usize] = old;
    at.pairs = pairs;
    lies
}

/// Whether it does with each of these values.
#[tactic(auto, using(crate::proofs::CoverLaws::all_none, crate::proofs::CoverLaws::all_failed, crate::proofs::CoverLaws::all_more))]
fn lies_at_each(cert: &Cert, next: &[u32], r: u8, first: u8, last: u8, at: &mut Instance) -> bool
    requires fits { WellFormed cert.now }
    requires register { r < 32 }
    ensures lies { result ≡ all_from (λ v. lies_in_any cert.now next.now (at_value r v at.old)) first (suc last - first) }
    ensures stays { at.new ≡ at.old }
{
    let end = last as u16 + 1;
    for value in first as u16..end {
        if !lies_at(cert, next, r, value as u8, at) {
            return false;
        }
    }
    true
}

/// Whether it does with each value that the register may have, where those are few.
fn lies_at_all(cert: &Cert, next: &[u32], r: u8, at: &mut Instance) -> bool
    requires fits { WellFormed cert.now }
    requires register { r < 32 }
    ensures lies { result ≡ covered_by cert.now next.now (Some r) at.old }
    ensures stays { at.new ≡ at.old }
{
    let range = span_at(at, r as usize);
    range.hi() - range.lo() <= MOST_APART && lies_at_each(cert, next, r, range.lo(), range.hi(), at)
}

/// Whether a result is covered by the values of a point's register, where it names one.
fn is_covered(cert: &Cert, point: &Point, at: &mut Instance) -> bool
    requires fits { WellFormed cert.now }
    ensures covered { result ≡ covered_by cert.now point.now.next.items point.now.split at.old }
    ensures stays { at.new ≡ at.old }
{
    match point.split {
        Some(r) => r < 32 && lies_at_all(cert, point.next.as_slice(), r, at),
        None => false,
    }
}

/// Whether a result of a point's instance lies in an instance of a named successor, or is covered.
pub(crate) fn lies_or_is_covered(cert: &Cert, point: &Point, at: &mut Instance) -> bool
    requires fits { WellFormed cert.now }
    ensures passes { result ≡ passes cert.now point.now.next.items point.now.split (Some at.old) }
    ensures stays { at.new ≡ at.old }
{
    lies_in_any(cert, point.next.as_slice(), at) || is_covered(cert, point, at)
}
