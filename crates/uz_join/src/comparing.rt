//! Whether a point says all that an instance says, and whether two points say one thing, field by field: no instance is made of a point.

ghost use Rattle.std.specs.Prelude.{◌≡◌, true};
ghost use Rattle.uz_schedule.specs.Exact.{SameKnown, SamePlace};
ghost use Rattle.uz_schedule.specs.Instances.{instance_of};

use crate::facts_at::{say, say_cells, say_pairs, say_same, say_same_cells, say_same_pairs};
use uz_schedule::{Instance, Point};

/// Whether a point says where an instance stands at a line, and what is known of the timer.
fn says_place(point: &Point, at: &Instance, line: u16, count: u8) -> bool
    ensures { result ≡ true → SamePlace at.now (instance_of point.now line count at.now.clock at.now.level) }
{
    (at.kind == point.kind && at.pc == point.pc)
        && ((at.line == line && at.pending == point.pending)
            && (at.top == point.top && at.temp == point.temp))
}

/// Whether a point says at a line and a count what is known in an instance.
#[tactic(auto, using(crate::proofs::EqualLists::equal_flags, crate::proofs::EqualLists::equal_compared))]
fn says_known(point: &Point, at: &Instance, line: u16, count: u8) -> bool
    ensures { result ≡ true → SameKnown at.now (instance_of point.now line count at.now.clock at.now.level) }
{
    (say(&point.regs, &at.regs, line, count)
        && say_pairs(&point.pairs, &at.regs, &at.pairs, line, count))
        && ((at.flags == point.flags && at.compared == point.compared)
            && (say(point.stack.as_slice(), at.stack.as_slice(), line, count)
                && say_cells(point.cells.as_slice(), at.cells.as_slice(), line, count)))
}

/// Whether a point says at a line and a count all that an instance says, but for its clock and level.
#[tactic(auto, using(crate::proofs::SameFacts::one))]
pub(crate) fn says(point: &Point, at: &Instance, line: u16, count: u8) -> bool
    ensures { result ≡ true → at.now ≡ instance_of point.now line count at.now.clock at.now.level }
{
    says_place(point, at, line, count) && says_known(point, at, line, count)
}

/// Whether two points say of one place at a line, and the same of the timer.
fn same_place(a: &Point, b: &Point, line: u16, of_a: u8, of_b: u8) -> bool
    ensures { result ≡ true → SamePlace (instance_of a.now line of_a 0 0) (instance_of b.now line of_b 0 0) }
{
    let _ = line; // said of in the contract alone
    let _ = of_a; // said of in the contract alone
    let _ = of_b; // said of in the contract alone
    (a.kind == b.kind && a.pc == b.pc)
        && (a.pending == b.pending && (a.top == b.top && a.temp == b.temp))
}

/// Whether two points say that the same is known at a line, each at its count.
#[tactic(auto, using(crate::proofs::EqualLists::equal_flags, crate::proofs::EqualLists::equal_compared))]
fn same_known(a: &Point, b: &Point, line: u16, of_a: u8, of_b: u8) -> bool
    ensures { result ≡ true → SameKnown (instance_of a.now line of_a 0 0) (instance_of b.now line of_b 0 0) }
{
    ((a.flags == b.flags && a.compared == b.compared)
        && say_same_pairs(&a.pairs, &b.pairs, of_a, of_b))
        && (say_same(&a.regs, &b.regs, line, of_a, of_b)
            && (say_same(a.stack.as_slice(), b.stack.as_slice(), line, of_a, of_b)
                && say_same_cells(a.cells.as_slice(), b.cells.as_slice(), line, of_a, of_b)))
}

/// Whether two points say one thing at a line, each at its count, but for clock and level.
#[tactic(auto, using(crate::proofs::SameFacts::one))]
pub(crate) fn say_one(a: &Point, b: &Point, line: u16, of_a: u8, of_b: u8) -> bool
    ensures { result ≡ true → instance_of a.now line of_a 0 0 ≡ instance_of b.now line of_b 0 0 }
{
    same_place(a, b, line, of_a, of_b) && same_known(a, b, line, of_a, of_b)
}
