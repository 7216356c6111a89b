//! What is left of main's registers at an exit of a branch or a skip.

ghost use Rattle.std.specs.Prelude.{◌≡◌, ◌+◌, Some, if◌then◌else◌, slice_set};
ghost use Rattle.uz_range.specs.Narrowing.{both as both_ends, common as common_ends};
ghost use Rattle.uz_transfer.specs.Narrowed.{against_span as against_by, as_asked, byte_span, is_taken, left_at as left_by_test};
ghost use Rattle.uz_transfer.specs.Narrowed.{left_of, narrowed_by as narrowed_by_flag, pair_span, with_both as with_both_left};
ghost use Rattle.uz_transfer.specs.Narrowed.{with_first_pair as with_first_left, with_left, with_one as with_one_left};
ghost use Rattle.uz_transfer.specs.Narrowed.{with_one_pair as with_pair_left, with_pair as with_pair_range, with_span as with_byte_range};
ghost use Rattle.uz_transfer.specs.Values.{is_pointer as names_pointer, pair_number};
ghost use Rattle.uz_schedule.specs.declared.facts.Against.TheVariants.{Register as RegisterOf};
ghost use Rattle.uz_schedule.specs.declared.facts.Val.TheVariants.{Range};
ghost use Rattle.uz_transfer.specs.declared.step.Test.TheVariants.{Bit as BitTest, Flag as FlagTest};

use crate::copies::copy_of;
use crate::step::{Exit, Test};
use crate::values::{is_pointer, span_of};
use uz_range::{
    high, hull, low, narrow, narrow_bit, narrow_pair, narrow_pair_result, narrow_result,
    narrow_value,
};
use uz_schedule::{Against, Compared, Instance, Span, Val, Wide};

/// What is left of an instance at an exit. All but its registers and pairs stays.
#[derive(Drop)]
pub struct Left {
    /// R0 to R31.
    pub regs: [Val; 32],
    /// X, Y and Z.
    pub pairs: [Wide; 3],
}

/// All that an instance has.
fn all_of(at: &Instance) -> Left
    ensures { result ≡ left_of at.now }
{
    let regs = copy_of(&at.regs);
    let pairs = at.pairs;
    Left { regs, pairs }
}

/// The range of a register; any byte where it has an interrupted value, or there is none of this number.
pub fn span_at(at: &Instance, r: usize) -> Span
    ensures { result ≡ byte_span (left_of at.now) r }
{
    match at.regs.get(r) {
        Some(val) => span_of(val),
        None => Span::between(0, 255),
    }
}

/// The range of the second operand of a comparison.
fn against_span(at: &Instance, source: Against) -> Span
    ensures { result ≡ against_by source (left_of at.now) }
{
    match source {
        Against::Register(r) => span_at(at, r as usize),
        Against::Constant(k) => Span::between(k, k),
    }
}

/// The range of a pair.
#[tactic(auto, using(crate::proofs::LeftLemmas::pointer_below))]
fn pair_at(at: &Instance, d: u8) -> Wide
    ensures { result ≡ pair_span (left_of at.now) d }
{
    if is_pointer(d) {
        at.pairs[(d as usize - 26) / 2]
    } else {
        hull(span_at(at, d as usize), span_at(at, d as usize + 1))
    }
}

/// What two ranges share.
fn common(a: Span, b: Span) -> Option<Span>
    ensures { result ≡ common_ends a b }
{
    Span::new(a.lo().max(b.lo()), a.hi().min(b.hi()))
}

/// A register takes a range; nothing happens where there is none of this number.
#[tactic(auto, using(crate::proofs::LeftLemmas::set_past))]
fn set_span(regs: &mut [Val; 32], r: usize, range: Span)
    ensures { regs.new ≡ slice_set regs.old r (Range range) }
{
    if r < 32 {
        regs[r] = Val::Range(range);
    }
}

/// A register takes a range, and its pair stays.
fn with_span(left: Left, r: usize, range: Span) -> Left
    ensures { result ≡ with_byte_range r range left }
{
    let mut left = left;
    set_span(&mut left.regs, r, range);
    left
}

/// X, Y or Z takes a range; nothing happens of another pair.
#[tactic(auto, using(crate::proofs::LeftLemmas::pointer_below))]
fn set_pair(pairs: &mut [Wide; 3], d: u8, range: Wide)
    ensures { pairs.new ≡ (if names_pointer d then slice_set pairs.old (pair_number d) range else pairs.old) }
{
    if is_pointer(d) {
        pairs[(d as usize - 26) / 2] = range;
    }
}

/// X, Y or Z takes a range.
fn with_pair(left: Left, d: u8, range: Wide) -> Left
    ensures { result ≡ with_pair_range d range left }
{
    let mut left = left;
    set_pair(&mut left.pairs, d, range);
    left
}

/// A register is left these bytes.
fn with_one(at: &Instance, r: usize, bytes: Option<Span>) -> Option<Left>
    ensures { result ≡ with_one_left r (left_of at.now) bytes }
{
    match bytes {
        Some(span) => Some(with_span(all_of(at), r, span)),
        None => None,
    }
}

/// The two sides of a comparison are left these bytes.
fn with_both(at: &Instance, d: u8, source: Against, bytes: Option<(Span, Span)>) -> Option<Left>
    ensures { result ≡ with_both_left d source (left_of at.now) bytes }
{
    match bytes {
        Some(sides) => Some(with_sides(at, d, source, sides.0, sides.1)),
        None => None,
    }
}

/// The two sides of a comparison take these ranges.
fn with_sides(at: &Instance, d: u8, source: Against, first: Span, second: Span) -> Left
    ensures { Some result ≡ with_both_left d source (left_of at.now) (Some (first, second)) }
{
    match source {
        Against::Register(r) => with_span(
            with_span(all_of(at), r as usize, second),
            d as usize,
            first,
        ),
        Against::Constant(_) => with_span(all_of(at), d as usize, first),
    }
}

/// A pair takes a range, and its bytes take these.
fn with_bytes(
    at: &Instance,
    d: u8,
    range: Wide,
    lows: Option<Span>,
    highs: Option<Span>,
) -> Option<Left>
    ensures { result ≡ with_both_left d (RegisterOf (d + 1)) (with_pair_range d range (left_of at.now)) (both_ends lows highs) }
{
    match lows {
        Some(low) => match highs {
            Some(high) => Some(with_span(
                with_span(with_pair(all_of(at), d, range), d as usize + 1, high),
                d as usize,
                low,
            )),
            None => None,
        },
        None => None,
    }
}

/// A pair is left this range, and each of its bytes what fits.
fn with_one_pair(at: &Instance, d: u8, range: Option<Wide>) -> Option<Left>
    ensures { result ≡ with_pair_left d (left_of at.now) range }
{
    match range {
        Some(range) => {
            let lows = common(low(range), span_at(at, d as usize));
            let highs = common(high(range), span_at(at, d as usize + 1));
            with_bytes(at, d, range, lows, highs)
        }
        None => None,
    }
}

/// The first of two pairs is left its range.
fn with_first_pair(at: &Instance, d: u8, ranges: Option<(Wide, Wide)>) -> Option<Left>
    ensures { result ≡ with_first_left d (left_of at.now) ranges }
{
    match ranges {
        Some(sides) => with_one_pair(at, d, Some(sides.0)),
        None => None,
    }
}

/// What is left where a flag, C, Z, N, V or S, is set or clear.
fn narrowed_by(at: &Instance, c: Compared, k: u8, is_set: bool) -> Option<Left>
    ensures { result ≡ narrowed_by_flag c k is_set (left_of at.now) }
{
    match c {
        Compared::Nothing => Some(all_of(at)),
        Compared::Byte(d, source) => with_both(
            at,
            d,
            source,
            narrow(k, is_set, span_at(at, d as usize), against_span(at, source)),
        ),
        Compared::Pair(d, low, high) => with_first_pair(
            at,
            d,
            narrow_pair(
                k,
                is_set,
                pair_at(at, d),
                hull(against_span(at, low), span_at(at, high as usize)),
            ),
        ),
        Compared::Result(d, j, old) => with_one(
            at,
            d as usize,
            narrow_result(k, is_set, old, j, span_at(at, d as usize)),
        ),
        Compared::PairResult(d, j, old) => with_one_pair(
            at,
            d,
            narrow_pair_result(k, is_set, old, j, pair_at(at, d)),
        ),
        Compared::Value(d) => with_one(
            at,
            d as usize,
            narrow_value(k, is_set, span_at(at, d as usize)),
        ),
    }
}

/// What a flag or a bit has at an exit, where it has the other value at the other one.
fn as_asked(taken: bool, set: bool) -> bool
    ensures { result ≡ as_asked taken set }
{
    if taken { set } else { !set }
}

/// What a branch leaves.
fn by_flag(at: &Instance, k: u8, set: bool, taken: bool) -> Option<Left>
    ensures { result ≡ left_by_test (FlagTest k set) taken at.now.compared (left_of at.now) }
{
    if k < 5 {
        narrowed_by(at, at.compared, k, as_asked(taken, set))
    } else {
        Some(all_of(at))
    }
}

/// What SBRC or SBRS leaves.
fn by_bit(at: &Instance, r: u8, bit: u8, set: bool, taken: bool) -> Option<Left>
    ensures { result ≡ left_by_test (BitTest r bit set) taken at.now.compared (left_of at.now) }
{
    if bit < 8 {
        with_one(
            at,
            r as usize,
            narrow_bit(bit, as_asked(taken, set), span_at(at, r as usize)),
        )
    } else {
        Some(all_of(at))
    }
}

/// What is left of main's registers at an exit, by what the instruction asks: an instance at an exit has the same bytes and pairs as
/// before it, but for those that can't come there. None: no state goes there. Takes no memory.
pub fn left_at(at: &Instance, test: Test, exit: Exit) -> Option<Left>
    ensures { result ≡ left_by_test test (is_taken exit) at.now.compared (left_of at.now) }
{
    let taken = exit.clocks > 1;
    match test {
        Test::Nothing => Some(all_of(at)),
        Test::Flag(k, set) => by_flag(at, k, set, taken),
        Test::Equal(d, r) => with_both(
            at,
            d,
            Against::Register(r),
            narrow(1, taken, span_at(at, d as usize), span_at(at, r as usize)),
        ),
        Test::Bit(r, bit, set) => by_bit(at, r, bit, set, taken),
    }
}

/// Registers and pairs of an instance become others; the old ones are handed back.
pub fn put_left(at: &mut Instance, left: Left) -> Left
    ensures new { at.new ≡ with_left left at.old }
    ensures old { result ≡ left_of at.old }
{
    let old = all_of(at);
    let Left { regs, pairs } = left;
    at.regs = regs;
    at.pairs = pairs;
    old
}
