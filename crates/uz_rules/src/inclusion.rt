//! When one instance lies in another, and when a handler has restored what it interrupted.

ghost use Rattle.std.specs.Prelude.{◌≡◌, ◌<◌, ◌&&◌, not, length, nat_eq};
ghost use Rattle.uz_transfer.specs.Values.{value_at, flag_at, pair_at, span_at};
ghost use Rattle.uz_transfer.specs.Memory.{is_old};
ghost use Rattle.uz_transfer.specs.Refusals.{range_inside};
ghost use Rattle.uz_rules.specs.Inside.{value_inside, flag_inside, all_below, same_kind, same_timer, same_place};
ghost use Rattle.uz_rules.specs.Inside.{registers_inside, pairs_inside, flags_inside, slots_inside, cells_inside};
ghost use Rattle.uz_rules.specs.Inside.{contents_inside, known_inside, inside, is_old_register, restored};
ghost use Rattle.uz_rules.specs.Inside.{compared_inside, tells_nothing};
ghost use Rattle.uz_rules.specs.FactInclusion.{timer_inside};

use uz_schedule::{Bit, Compared, Instance, Kind, Point, Span, Val, Wide};

/// Whether a range of bytes lies in another.
pub(crate) fn span_inside(a: &Span, b: &Span) -> bool
    ensures { result ≡ range_inside a.now b.now }
{
    b.lo() <= a.lo() && a.hi() <= b.hi()
}

/// Whether a range of pairs lies in another.
pub(crate) fn wide_inside(a: &Wide, b: &Wide) -> bool
    ensures { result ≡ range_inside a.now b.now }
{
    b.lo() <= a.lo() && a.hi() <= b.hi()
}

/// Whether what is known of a byte lies in what is known elsewhere.
pub(crate) fn value_inside(a: &Val, b: &Val) -> bool
    ensures { result ≡ value_inside a.now b.now }
{
    match (a, b) {
        (Val::Range(a), Val::Range(b)) => span_inside(a, b),
        (Val::Old(_) | Val::OldFlags, Val::Range(b)) => span_inside(&Span::between(0, 255), b),
        (Val::Old(r), Val::Old(s)) => r == s,
        (Val::OldFlags, Val::OldFlags) => true,
        _ => false,
    }
}

/// Whether what is known of a flag lies in what is known elsewhere.
fn flag_inside(a: Bit, b: Bit) -> bool
    ensures { result ≡ flag_inside a b }
{
    match (a, b) {
        (_, Bit::Free) | (Bit::Zero, Bit::Zero) | (Bit::One, Bit::One) | (Bit::Old, Bit::Old) =>
            true,
        _ => false,
    }
}

/// Whether two instances have one kind.
pub(crate) fn same_kind(a: Kind, b: Kind) -> bool
    ensures { result ≡ same_kind a b }
{
    match (a, b) {
        (Kind::Main, Kind::Main) | (Kind::Handler, Kind::Handler) | (Kind::Alone, Kind::Alone) =>
            true,
        _ => false,
    }
}

/// Whether what is known of the timer besides its clock and TEMP is one: whether a match is pending, and OCR1A.
fn same_timer(a: &Instance, b: &Instance) -> bool
    ensures { result ≡ same_timer a.now b.now }
{
    a.pending == b.pending && a.top == b.top
}

/// Whether what is known of the timer besides its clock lies in what a point says of it: one pending match or none, one OCR1A, and
/// the range of TEMP in the point's.
pub(crate) fn timer_inside(point: &Point, at: &Instance) -> bool
    ensures { result ≡ timer_inside point.now at.now }
{
    (at.pending == point.pending && at.top == point.top) && span_inside(&at.temp, &point.temp)
}

/// Whether two instances stand at one place: kind, pc, line and clock, and what is known of the timer.
fn same_place(a: &Instance, b: &Instance) -> bool
    ensures { result ≡ same_place a.now b.now }
{
    same_kind(a.kind, b.kind)
        && (a.pc == b.pc && (a.line == b.line && (a.clock == b.clock && same_timer(a, b))))
}

/// Whether the registers lie in others.
#[tactic(auto, using(crate::proofs::Below::below_none, crate::proofs::Below::below_more))]
fn registers_inside(a: &[Val; 32], b: &[Val; 32]) -> bool
    ensures { result ≡ registers_inside a.now b.now }
{
    let mut within = true;
    for r in 0..32usize {
        let lies = value_inside(&a[r], &b[r]);
        within = within && lies;
    }
    within
}

/// Whether the pairs X, Y and Z lie in others.
#[tactic(auto, using(crate::proofs::Below::below_none, crate::proofs::Below::below_more))]
fn pairs_inside(a: &[Wide; 3], b: &[Wide; 3]) -> bool
    ensures { result ≡ pairs_inside a.now b.now }
{
    let mut within = true;
    for k in 0..3usize {
        let lies = wide_inside(&a[k], &b[k]);
        within = within && lies;
    }
    within
}

/// What is known of a flag, 0 to 6.
fn flag(flags: &[Bit; 7], k: usize) -> Bit
    requires { k < 7 }
    ensures { result ≡ flag_at flags.now k }
{
    flags[k]
}

/// Whether the flags lie in others.
#[tactic(auto, using(crate::proofs::Below::below_none, crate::proofs::Below::below_more))]
pub(crate) fn flags_inside(a: &[Bit; 7], b: &[Bit; 7]) -> bool
    ensures { result ≡ flags_inside a.now b.now }
{
    let mut within = true;
    for k in 0..7usize {
        let lies = flag_inside(flag(a, k), flag(b, k));
        within = within && lies;
    }
    within
}

/// Whether the first bytes of a stack lie in those of another, as deep.
#[tactic(auto, using(crate::proofs::Below::below_none, crate::proofs::Below::below_more))]
fn values_inside(a: &[Val], b: &[Val]) -> bool
    requires { length a.now ≡ length b.now }
    ensures { result ≡ all_below (length a.now) (λ i. value_inside (value_at a.now i) (value_at b.now i)) }
{
    let mut within = true;
    for i in 0..a.len() {
        let lies = value_inside(&a[i], &b[i]);
        within = within && lies;
    }
    within
}

/// Whether the bytes of a stack lie in those of another, which is as deep.
fn slots_inside(a: &[Val], b: &[Val]) -> bool
    ensures { result ≡ slots_inside a.now b.now }
{
    a.len() == b.len() && values_inside(a, b)
}

/// Whether the ranges of cells lie in others, as many.
#[tactic(auto, using(crate::proofs::Below::below_none, crate::proofs::Below::below_more))]
fn spans_inside(a: &[Span], b: &[Span]) -> bool
    requires { length a.now ≡ length b.now }
    ensures { result ≡ all_below (length a.now) (λ j. range_inside (span_at a.now j) (span_at b.now j)) }
{
    let mut within = true;
    for j in 0..a.len() {
        let lies = span_inside(&a[j], &b[j]);
        within = within && lies;
    }
    within
}

/// Whether the ranges of cells lie in others, which are as many.
pub(crate) fn cells_inside(a: &[Span], b: &[Span]) -> bool
    ensures { result ≡ cells_inside a.now b.now }
{
    a.len() == b.len() && spans_inside(a, b)
}

/// Whether nothing is known of the last comparison.
fn tells_nothing(c: &Compared) -> bool
    ensures { result ≡ tells_nothing c.now }
{
    matches!(c, Compared::Nothing)
}

/// Whether nothing is known in `b` of the last comparison, or the same as in `a`.
pub(crate) fn compared_inside(a: &Compared, b: &Compared) -> bool
    ensures { result ≡ compared_inside a.now b.now }
{
    tells_nothing(b) || a == b
}

/// Whether what is known in instance `a` of stack, cells, flags, the last comparison, pairs and registers lies in what is known of
/// them in `b`: the stacks are as deep, each range of `a` lies in that of `b`, and what `b` has of interrupted values and of the last
/// comparison is the same in `a`.
fn contents_inside(a: &Instance, b: &Instance) -> bool
    ensures { result ≡ contents_inside a.now b.now }
{
    slots_inside(a.stack.as_slice(), b.stack.as_slice())
        && (cells_inside(a.cells.as_slice(), b.cells.as_slice())
            && (flags_inside(&a.flags, &b.flags)
                && (compared_inside(&a.compared, &b.compared)
                    && (pairs_inside(&a.pairs, &b.pairs) && registers_inside(&a.regs, &b.regs)))))
}

/// Whether what is known in instance `a` lies in what is known in `b`: its contents, and the range of TEMP.
fn known_inside(a: &Instance, b: &Instance) -> bool
    ensures { result ≡ known_inside a.now b.now }
{
    span_inside(&a.temp, &b.temp) && contents_inside(a, b)
}

/// Whether instance `a` lies in `b`: kind, pc, line, clock, pending, top and the depth of the stack are equal, each range of `a`, that
/// of TEMP too, lies in that of `b`, and what `b` has of interrupted values is the same in `a`. Levels aren't compared.
pub fn inside(a: &Instance, b: &Instance) -> bool
    ensures { result ≡ inside a.now b.now }
{
    same_place(a, b) && known_inside(a, b)
}

/// Whether a register has the value with which it was interrupted.
fn is_old_register(r: u8, v: &Val) -> bool
    ensures { result ≡ is_old_register r v.now }
{
    match v {
        Val::Old(q) => r == *q,
        _ => false,
    }
}

/// Whether a flag is the interrupted one.
fn is_old(b: Bit) -> bool
    ensures { result ≡ is_old b }
{
    matches!(b, Bit::Old)
}

/// Whether all registers have the values with which they were interrupted.
#[tactic(auto, using(crate::proofs::Below::below_none, crate::proofs::Below::below_more))]
fn registers_restored(regs: &[Val; 32]) -> bool
    ensures { result ≡ all_below 32 (λ r. is_old_register r (value_at regs.now r)) }
{
    let mut all = true;
    for r in 0..32u8 {
        let old = is_old_register(r, &regs[r as usize]);
        all = all && old;
    }
    all
}

/// Whether all flags are the interrupted ones.
#[tactic(auto, using(crate::proofs::Below::below_none, crate::proofs::Below::below_more))]
fn flags_restored(flags: &[Bit; 7]) -> bool
    ensures { result ≡ all_below 7 (λ k. is_old (flag_at flags.now k)) }
{
    let mut all = true;
    for k in 0..7usize {
        let old = is_old(flag(flags, k));
        all = all && old;
    }
    all
}

/// Whether a handler has restored what it interrupted: each register has its interrupted value, all seven flags are the
/// interrupted ones, nothing is left on the stack, and no match is pending.
pub fn restored(at: &Instance) -> bool
    ensures { result ≡ restored at.now }
{
    at.stack.is_empty()
        && (!at.pending && (flags_restored(&at.flags) && registers_restored(&at.regs)))
}
