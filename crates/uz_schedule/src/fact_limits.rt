//! The limits of what a point says of bytes, pairs and flags.

ghost use Rattle.std.specs.Prelude.{◌≡◌, ◌↔◌, All, IsTrue, length};
ghost use Rattle.uz_schedule.specs.WellFormed.{BitFits, FactFits, CellFactFits, PairFits};

use crate::range_limits::{is_part, is_wide_part};
use crate::{Bit, Fact, Kind, PairFact};

fn bit_fits(kind: Kind, bit: Bit) -> bool
    ensures { IsTrue result ↔ BitFits kind bit }
{
    match bit {
        Bit::Old => kind == Kind::Handler,
        _ => true,
    }
}

pub fn flags_fit(kind: Kind, flags: &[Bit; 7]) -> bool
    ensures count { length flags.now ≡ 7 }
    ensures fit { IsTrue result ↔ All (BitFits kind) flags.now }
{
    flags.iter().all(|b| bit_fits(kind, *b))
}

fn fact_fits(kind: Kind, fact: &Fact) -> bool
    ensures { IsTrue result ↔ FactFits kind fact.now }
{
    match *fact {
        Fact::Any => true,
        Fact::Between(span) => is_part(&span),
        Fact::Line(a, b) => 1 <= a && a <= 255 && b <= 255,
        Fact::Loop(a, b) => 1 <= a && a <= 255 && b <= 255,
        Fact::Old(r) => kind == Kind::Handler && r < 32,
        Fact::OldFlags => kind == Kind::Handler,
    }
}

fn cell_fact_fits(fact: &Fact) -> bool
    ensures { IsTrue result ↔ CellFactFits fact.now }
{
    match *fact {
        Fact::Any => true,
        Fact::Between(span) => is_part(&span),
        Fact::Line(a, b) => 1 <= a && a <= 255 && b <= 255,
        Fact::Loop(a, b) => 1 <= a && a <= 255 && b <= 255,
        Fact::Old(_) => false,
        Fact::OldFlags => false,
    }
}

fn pair_fits(fact: &PairFact) -> bool
    ensures { IsTrue result ↔ PairFits fact.now }
{
    match *fact {
        PairFact::Any => true,
        PairFact::Between(wide) => is_wide_part(&wide),
        PairFact::Line(a, b) => 1 <= a && a <= 65535 && b <= 65535,
        PairFact::Loop(a, b) => 1 <= a && a <= 65535 && b <= 65535,
    }
}

pub fn registers_fit(kind: Kind, regs: &[Fact; 32]) -> bool
    ensures count { length regs.now ≡ 32 }
    ensures fit { IsTrue result ↔ All (FactFits kind) regs.now }
{
    regs.iter().all(|f| fact_fits(kind, f))
}

pub fn pairs_fit(pairs: &[PairFact; 3]) -> bool
    ensures count { length pairs.now ≡ 3 }
    ensures fit { IsTrue result ↔ All PairFits pairs.now }
{
    pairs.iter().all(|f| pair_fits(f))
}

pub fn slots_fit(kind: Kind, slots: &[Fact]) -> bool
    ensures { IsTrue result ↔ All (FactFits kind) slots.now }
{
    slots.iter().all(|f| fact_fits(kind, f))
}

pub fn cell_facts_fit(cells: &[Fact]) -> bool
    ensures { IsTrue result ↔ All CellFactFits cells.now }
{
    cells.iter().all(|f| cell_fact_fits(f))
}
