//! What facts say of bytes, cells and pairs at a line and a count, and whether facts say the same.

ghost use Rattle.std.specs.Prelude.{◌≡◌, ◌<◌, ℕ, List, true, length, map};
ghost use Rattle.uz_schedule.specs.Ends.{Ends};
ghost use Rattle.uz_schedule.specs.Instances.{cell_span, pair_by as pair_by_fact, pair_of, pairs_of, val_of as val_of_fact};
ghost use Rattle.uz_schedule.specs.declared.facts.Val.{Val};

use crate::points::hull_of;
use uz_schedule::{Fact, PairFact, Span, Val, Wide, pair_by, span_of, val_of};

/// Whether a fact says this of a byte at a line and a count.
fn says_byte(fact: &Fact, val: &Val, line: u16, count: u8) -> bool
    ensures { result ≡ true → val_of_fact line count fact.now ≡ val.now }
{
    val_of(fact, line, count) == *val
}

/// Whether facts say these values, as many, at a line and a count.
fn say_each(facts: &[Fact], vals: &[Val], line: u16, count: u8) -> bool
    requires { length facts.now ≡ length vals.now }
    ensures { result ≡ true → map (val_of_fact line count) facts.now ≡ vals.now }
{
    for i in 0..facts.len() {
        if !says_byte(&facts[i], &vals[i], line, count) {
            return false;
        }
    }
    true
}

/// Whether facts say these values at a line and a count.
pub(crate) fn say(facts: &[Fact], vals: &[Val], line: u16, count: u8) -> bool
    ensures { result ≡ true → map (val_of_fact line count) facts.now ≡ vals.now }
{
    facts.len() == vals.len() && say_each(facts, vals, line, count)
}

/// Whether a fact says this range of a cell at a line and a count.
fn says_cell(fact: &Fact, span: Span, line: u16, count: u8) -> bool
    ensures { result ≡ true → cell_span line count fact.now ≡ span }
{
    span_of(&val_of(fact, line, count)) == span
}

/// Whether facts say these ranges of cells, as many, at a line and a count.
fn say_cells_each(facts: &[Fact], spans: &[Span], line: u16, count: u8) -> bool
    requires { length facts.now ≡ length spans.now }
    ensures { result ≡ true → map (cell_span line count) facts.now ≡ spans.now }
{
    for i in 0..facts.len() {
        if !says_cell(&facts[i], spans[i], line, count) {
            return false;
        }
    }
    true
}

/// Whether facts say these ranges of cells at a line and a count.
pub(crate) fn say_cells(facts: &[Fact], spans: &[Span], line: u16, count: u8) -> bool
    ensures { result ≡ true → map (cell_span line count) facts.now ≡ spans.now }
{
    facts.len() == spans.len() && say_cells_each(facts, spans, line, count)
}

/// What a fact says of the pair whose low register is `low`.
fn pair_in(fact: &PairFact, regs: &[Val; 32], low: usize, line: u16, count: u8) -> Wide
    requires { low < 31 }
    ensures { result ≡ pair_of line count regs.now low fact.now }
{
    pair_by(fact, line, count, hull_of(regs, low))
}

/// What facts say of the pairs X, Y and Z.
fn pairs_in(facts: &[PairFact; 3], regs: &[Val; 32], line: u16, count: u8) -> [Wide; 3]
    ensures { result ≡ pairs_of line count regs.now facts.now }
{
    [
        pair_in(&facts[0], regs, 26, line, count),
        pair_in(&facts[1], regs, 28, line, count),
        pair_in(&facts[2], regs, 30, line, count),
    ]
}

/// Whether facts say these pairs, with these registers.
#[tactic(auto, using(crate::proofs::EqualLists::equal_ranges))]
pub(crate) fn say_pairs(
    facts: &[PairFact; 3],
    regs: &[Val; 32],
    pairs: &[Wide; 3],
    line: u16,
    count: u8,
) -> bool
    ensures { result ≡ true → (vals : List Val) → vals ≡ regs.now → pairs.now ≡ pairs_of line count vals facts.now }
{
    pairs_in(facts, regs, line, count) == *pairs
}

/// Whether a fact says of a byte at a line and a count what another says at another count. Two that are alike, as most are, are
/// compared as they stand.
fn says_same(a: &Fact, b: &Fact, line: u16, of_a: u8, of_b: u8) -> bool
    ensures { result ≡ true → val_of_fact line of_a a.now ≡ val_of_fact line of_b b.now }
{
    match (a, b) {
        (Fact::Any, Fact::Any) => true,
        (Fact::Between(one), Fact::Between(other)) => one == other,
        (Fact::Old(one), Fact::Old(other)) => one == other,
        _ => val_of(a, line, of_a) == val_of(b, line, of_b),
    }
}

/// Whether facts, as many as others, say of each byte at a line and a count what those say at another count.
fn say_same_each(a: &[Fact], b: &[Fact], line: u16, of_a: u8, of_b: u8) -> bool
    requires { length a.now ≡ length b.now }
    ensures { result ≡ true → map (val_of_fact line of_a) a.now ≡ map (val_of_fact line of_b) b.now }
{
    for i in 0..a.len() {
        if !says_same(&a[i], &b[i], line, of_a, of_b) {
            return false;
        }
    }
    true
}

/// Whether facts say of each byte at a line and a count what others say at another count.
pub(crate) fn say_same(a: &[Fact], b: &[Fact], line: u16, of_a: u8, of_b: u8) -> bool
    ensures { result ≡ true → map (val_of_fact line of_a) a.now ≡ map (val_of_fact line of_b) b.now }
{
    a.len() == b.len() && say_same_each(a, b, line, of_a, of_b)
}

/// Whether a pair's fact says the same at each count.
fn keeps_by_counts(fact: &PairFact) -> bool
    ensures { result ≡ true → (l c d : ℕ) (bytes : Ends) → pair_by_fact l c bytes fact.now ≡ pair_by_fact l d bytes fact.now }
{
    match fact {
        PairFact::Any | PairFact::Between(_) | PairFact::Line(_, _) => true,
        PairFact::Loop(_, _) => false,
    }
}

/// Whether facts of pairs say at one count what they say at another.
fn pairs_keep(facts: &[PairFact; 3], of_a: u8, of_b: u8) -> bool
    ensures { result ≡ true → (l : ℕ) (regs : List Val) → pairs_of l of_a regs facts.now ≡ pairs_of l of_b regs facts.now }
{
    of_a == of_b
        || (keeps_by_counts(&facts[0])
            && (keeps_by_counts(&facts[1]) && keeps_by_counts(&facts[2])))
}

/// Whether facts of cells say the same ranges at a line, each at its count.
#[tactic(auto, using(crate::proofs::SameFacts::same_spans))]
pub(crate) fn say_same_cells(a: &[Fact], b: &[Fact], line: u16, of_a: u8, of_b: u8) -> bool
    ensures { result ≡ true → map (cell_span line of_a) a.now ≡ map (cell_span line of_b) b.now }
{
    say_same(a, b, line, of_a, of_b)
}

/// Whether facts of pairs say the same, each at its count, whatever the registers are.
#[tactic(auto, using(crate::proofs::SameFacts::same_pairs))]
pub(crate) fn say_same_pairs(a: &[PairFact; 3], b: &[PairFact; 3], of_a: u8, of_b: u8) -> bool
    ensures { result ≡ true → (l : ℕ) (x y : List Val) → x ≡ y → pairs_of l of_a x a.now ≡ pairs_of l of_b y b.now }
{
    a == b && pairs_keep(a, of_a, of_b)
}
