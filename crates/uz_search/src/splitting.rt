//! Splits: each result of main goes on in pieces, by the values of one register.

ghost use Rattle.std.specs.Prelude.{◌≡◌, ◌<◌, ◌≤◌, ◌+◌, ◌*◌, ◌++◌, [], true, Some, length};
ghost use Rattle.uz_schedule.specs.declared.facts.Val.TheVariants.{Range};
ghost use Rattle.uz_transfer.specs.Values.{span_of as range_of, value_at, with_value};
ghost use Rattle.uz_search.specs.Following.{split_at as register_at};
ghost use Rattle.uz_search.specs.Pieces.{first_pieces, is_split as is_split_range, piece_from, pieces, pieces_each, pieces_of};
ghost use Rattle.uz_search.specs.Pieces.{split_in as register_in};

use crate::program::Program;
use crate::stuck::is_main;
use arrayvec::ArrayVec;
use std::mem::take;
use uz_rules::Next;
use uz_schedule::{Instance, Span, Val};
use uz_transfer::{copied, set_val};

/// A register of main by whose values the result of an instruction goes on in pieces.
#[derive(Clone, Copy)]
pub struct Split {
    /// The program counter of the instruction.
    pub pc: u16,
    /// The register, 0 to 31.
    pub register: u8,
}

/// The register that is split at a program counter, by the first of the splits that names it.
pub fn split_in(splits: &[Split], pc: u16) -> Option<u8>
    ensures { result ≡ register_in splits.now pc }
{
    'each: for split in splits {
        if split.pc == pc {
            return Some(split.register);
        }
    }
    None
}

/// The register that is split at an instance: one of main.
pub fn split_at(program: &Program, at: &Instance) -> Option<u8>
    ensures { result ≡ register_at program.now at.now }
{
    if is_main(at) {
        split_in(program.splits.as_slice(), at.pc)
    } else {
        None
    }
}

/// The range of a register; any byte where it has an interrupted value.
fn span_of(value: Val) -> Span
    ensures { result ≡ range_of value }
{
    match value {
        Val::Range(range) => range,
        Val::Old(_) | Val::OldFlags => Span::between(0, 255),
    }
}

/// Whether a range has 2 to 64 values.
pub(crate) fn is_split(range: Span) -> bool
    ensures { result ≡ is_split_range range }
{
    range.lo() < range.hi() && range.hi() - range.lo() < 64
}

/// A copy of a result that has a register in a part of its range.
fn piece(known: &Instance, register: u8, lo: u8, hi: u8) -> Instance
    requires register { register < 32 }
    requires order { lo ≤ hi }
    ensures { result ≡ with_value register (Range (record { lo = lo; hi = hi })) known.now }
{
    let mut piece = copied(known);
    set_val(&mut piece, register, Val::Range(Span::between(lo, hi)));
    piece
}

/// Adds the piece from the value `from` on, where the range has it, of at most `most` pieces.
fn push_piece(
    known: &Instance,
    register: u8,
    range: Span,
    most: u16,
    from: u16,
    out: &mut ArrayVec<Instance, 16>,
)
    requires register { register < 32 }
    requires some { 0 < most }
    requires room { length out.old.items < 16 }
    ensures { out.new.items ≡ out.old.items ++ piece_from most register range known.now from }
{
    if from <= u16::from(range.hi()) {
        let last = from + u16::from(range.hi() - range.lo()) / most;
        let hi = u16::from(range.hi()).min(last);
        out.push(piece(known, register, from as u8, hi as u8));
    }
}

/// Adds the pieces of a result, at most `most`.
fn push_pieces(
    known: &Instance,
    register: u8,
    range: Span,
    most: u16,
    out: &mut ArrayVec<Instance, 16>,
)
    requires register { register < 32 }
    requires split { is_split_range range ≡ true }
    requires some { 0 < most }
    requires room { length out.old.items + most ≤ 16 }
    ensures { out.new.items ≡ out.old.items ++ first_pieces most register range known.now most }
{
    let size = u16::from(range.hi() - range.lo()) / most + 1;
    let mut from = u16::from(range.lo());
    'each: for number in 0..most {
        let _ = number; // counted in the invariant alone
        push_piece(known, register, range, most, from, out);
        from += size;
    }
}

/// The range of a register of a result; any byte where there is none of this number.
pub(crate) fn range_at(known: &Instance, register: u8) -> Span
    ensures { result ≡ range_of (value_at known.now.regs register) }
{
    match known.regs.get(usize::from(register)) {
        Some(value) => span_of(*value),
        None => Span::between(0, 255),
    }
}

/// Adds what a result goes on in where a register is split: at most `most` pieces.
fn add_result(known: &Instance, register: u8, most: u16, out: &mut ArrayVec<Instance, 16>)
    requires some { 0 < most }
    requires room { length out.old.items + most ≤ 16 }
    ensures { out.new.items ≡ out.old.items ++ pieces_of most register (range_of (value_at known.now.regs register)) known.now }
{
    let range = range_at(known, register);
    if register < 32 && is_split(range) {
        push_pieces(known, register, range, most, out);
    } else {
        out.push(copied(known));
    }
}

/// Adds what each of these results goes on in: at most `most` pieces.
fn add_results(results: &[Instance], register: u8, most: u16, out: &mut ArrayVec<Instance, 16>)
    requires some { 0 < most }
    requires empty { out.old.items ≡ [] }
    requires room { length results.now * most ≤ 16 }
    ensures { out.new.items ≡ pieces_each most register results.now }
{
    'each: for known in results {
        add_result(known, register, most, out);
    }
}

/// Puts the pieces of results in place of them, by the values of this register. It keeps room for 16 instances, so a search
/// that splits nothing never calls it.
#[inline(never)]
fn put_in_pieces(register: u8, out: &mut ArrayVec<Instance, 16>)
    ensures { out.new.items ≡ pieces (Some register) out.old.items }
{
    let count = out.len() as u16;
    if count > 0 {
        let results = take(out);
        add_results(results.as_slice(), register, 16 / count, out);
    }
}

/// Puts the pieces of results in place of them, where a register is split.
#[inline(always)]
pub(crate) fn split_results(split: Option<u8>, out: &mut ArrayVec<Instance, 16>)
    ensures { out.new.items ≡ pieces split out.old.items }
{
    if let Some(register) = split {
        put_in_pieces(register, out);
    }
}

/// Puts the pieces in which the result of an instance goes on in place of it, where a register is split there. Takes no memory.
pub fn put_pieces(program: &Program, at: &Instance, next: &mut Next)
    ensures pieces { next.new.out.items ≡ pieces (register_at program.now at.now) next.old.out.items }
    ensures emit { next.new.emit ≡ next.old.emit }
    ensures back { next.new.back ≡ next.old.back }
{
    split_results(split_at(program, at), &mut next.out);
}
