//! What is known of registers, pairs and flags, and how an instruction changes it.

ghost use Rattle.std.specs.Prelude.{◌≡◌, ◌<◌, ◌+◌, ◌-◌, ◌*◌, ◌/◌, slice_index_or, false, true, if◌then◌else◌};
ghost use Rattle.uz_range.specs.Answers.{is_single as is_single_range};
ghost use Rattle.uz_transfer.specs.Values.{exact_pair as exact_range, span_of as span_of_val, value_at, flag_at};
ghost use Rattle.uz_transfer.specs.Values.{pair_at, byte_hull as hull_of_bytes, is_pointer as names_pointer};
ghost use Rattle.uz_transfer.specs.Values.{pair_number, pair_range as range_of_pair, with_value, with_pair_range};
ghost use Rattle.uz_transfer.specs.Values.{with_pair_value, with_flag_list, merged_flags as merged};

use uz_range::{high, hull, low};
use uz_schedule::{Bit, Instance, Span, Val, Wide};

/// The range of a byte; an interrupted value may be any byte.
pub(crate) fn span_of(v: &Val) -> Span
    ensures { result ≡ span_of_val v.now }
{
    match v {
        Val::Range(span) => *span,
        _ => Span::between(0, 255),
    }
}

/// Whether a range holds a single byte.
pub(crate) fn is_single(a: &Span) -> bool
    ensures { result ≡ is_single_range a.now }
{
    a.lo() == a.hi()
}

/// Whether a range holds a single number.
pub(crate) fn is_single_wide(a: &Wide) -> bool
    ensures { result ≡ is_single_range a.now }
{
    a.lo() == a.hi()
}

/// What is known of a register.
pub(crate) fn val(at: &Instance, r: u8) -> Val
    requires { r < 32 }
    ensures { result ≡ value_at at.now.regs r }
{
    at.regs[r as usize]
}

/// The range of a register.
pub(crate) fn span(at: &Instance, r: u8) -> Span
    requires { r < 32 }
    ensures { result ≡ span_of_val (value_at at.now.regs r) }
{
    span_of(&at.regs[r as usize])
}

/// What is known of a flag, 0 to 6, among these.
pub(crate) fn flag_of(flags: &[Bit; 7], k: u8) -> Bit
    requires { k < 7 }
    ensures { result ≡ flag_at flags.now k }
{
    flags[k as usize]
}

/// What is known of a flag, 0 to 6.
pub(crate) fn flag(at: &Instance, k: u8) -> Bit
    requires { k < 7 }
    ensures { result ≡ flag_at at.now.flags k }
{
    flag_of(&at.flags, k)
}

/// Whether a register is the low one of X, Y or Z.
pub(crate) fn is_pointer(d: u8) -> bool
    ensures { result ≡ names_pointer d }
{
    d == 26 || d == 28 || d == 30
}

/// The hull of a pair's bytes.
pub(crate) fn byte_hull(regs: &[Val; 32], d: u8) -> Wide
    requires { d < 31 }
    ensures { result ≡ hull_of_bytes regs.now d }
{
    hull(span_of(&regs[d as usize]), span_of(&regs[d as usize + 1]))
}

/// What is known of a pair, by its low register.
pub(crate) fn pair_range(at: &Instance, d: u8) -> Wide
    requires { d < 31 }
    ensures { result ≡ range_of_pair at.now d }
{
    if is_pointer(d) {
        at.pairs[(d as usize - 26) / 2]
    } else {
        byte_hull(&at.regs, d)
    }
}

/// What a step of a pair begins with: its bytes where both are known, else its range.
pub(crate) fn exact_pair(at: &Instance, d: u8) -> Wide
    requires { d < 31 }
    ensures { result ≡ exact_range at.now d }
{
    let hull = byte_hull(&at.regs, d);
    if is_single_wide(&hull) {
        hull
    } else {
        pair_range(at, d)
    }
}

/// A register takes a value, and its pair the hull of its bytes.
pub fn set_val(at: &mut Instance, d: u8, v: Val)
    requires { d < 32 }
    ensures { at.new ≡ with_value d v at.old }
{
    at.regs[d as usize] = v;
    if d >= 26 {
        let number = (d - 26) / 2;
        at.pairs[number as usize] = byte_hull(&at.regs, 26 + 2 * number);
    }
}

/// X, Y or Z takes a range; nothing happens of another pair.
pub(crate) fn set_pair_range(at: &mut Instance, d: u8, range: Wide)
    requires { d < 31 }
    ensures { at.new ≡ with_pair_range d range at.old }
{
    if is_pointer(d) {
        let mut pairs = at.pairs;
        pairs[(d as usize - 26) / 2] = range;
        at.pairs = pairs;
    }
}

/// A pair takes a range, and its bytes theirs.
pub(crate) fn set_pair_val(at: &mut Instance, d: u8, range: Wide)
    requires { d < 31 }
    ensures { at.new ≡ with_pair_value d range at.old }
{
    set_val(at, d, Val::Range(low(range)));
    set_val(at, d + 1, Val::Range(high(range)));
    set_pair_range(at, d, range);
}

/// The old flag where it is kept, else the new one.
fn choose(keep: bool, new: Bit, old: Bit) -> Bit
    ensures { result ≡ (if keep then old else new) }
{
    if keep { old } else { new }
}

/// The flags that an instruction keeps, and the others by its answer.
pub(crate) fn merged_flags(keeps: &[bool; 7], new: &[Bit; 7], old: &[Bit; 7]) -> [Bit; 7]
    ensures { result ≡ merged (λ k. slice_index_or keeps.now k false) new.now old.now }
{
    [
        choose(keeps[0], new[0], old[0]),
        choose(keeps[1], new[1], old[1]),
        choose(keeps[2], new[2], old[2]),
        choose(keeps[3], new[3], old[3]),
        choose(keeps[4], new[4], old[4]),
        choose(keeps[5], new[5], old[5]),
        choose(keeps[6], new[6], old[6]),
    ]
}

/// Flags take an answer's, but for those that are kept.
pub(crate) fn merge_flags(at: &mut Instance, keeps: &[bool; 7], new: &[Bit; 7])
    ensures { at.new ≡ with_flag_list (merged (λ k. slice_index_or keeps.now k false) new.now at.old.flags) at.old }
{
    at.flags = merged_flags(keeps, new, &at.flags);
}
