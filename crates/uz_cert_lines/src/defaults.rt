//! What is said of registers, pairs, flags and cells where a line says nothing of them.

ghost use Rattle.std.specs.Prelude.{◌≡◌, ◌≤◌, length};
ghost use Rattle.uz_schedule.specs.Tracked.{tracks as tracks_cells};
ghost use Rattle.uz_schedule.specs.WellFormed.{is_default_flag as is_default_bit};
ghost use Rattle.uz_cert_lines.specs.Defaults.{range_fact as fact_of_range, is_default as is_default_fact};
ghost use Rattle.uz_cert_lines.specs.Defaults.{is_any as is_any_fact, is_own as is_own_fact, is_any_pair as is_any_pair_fact};
ghost use Rattle.uz_cert_lines.specs.Defaults.{is_range as is_range_fact};
ghost use Rattle.uz_cert_lines.specs.Items.{default_cells as default_cells_of, default_regs as default_regs_of};
ghost use Rattle.uz_cert_lines.specs.Items.{default_flag as default_flag_of, is_handler as is_handler_kind};

use arrayvec::ArrayVec;
use uz_schedule::{Bit, Cell, Fact, Kind, Owner, PairFact, Span};

/// Each register as it was when the handler was entered.
const OWN: [Fact; 32] = [
    Fact::Old(0),
    Fact::Old(1),
    Fact::Old(2),
    Fact::Old(3),
    Fact::Old(4),
    Fact::Old(5),
    Fact::Old(6),
    Fact::Old(7),
    Fact::Old(8),
    Fact::Old(9),
    Fact::Old(10),
    Fact::Old(11),
    Fact::Old(12),
    Fact::Old(13),
    Fact::Old(14),
    Fact::Old(15),
    Fact::Old(16),
    Fact::Old(17),
    Fact::Old(18),
    Fact::Old(19),
    Fact::Old(20),
    Fact::Old(21),
    Fact::Old(22),
    Fact::Old(23),
    Fact::Old(24),
    Fact::Old(25),
    Fact::Old(26),
    Fact::Old(27),
    Fact::Old(28),
    Fact::Old(29),
    Fact::Old(30),
    Fact::Old(31),
];

/// What registers have by default.
pub(crate) fn default_regs(kind: Kind) -> [Fact; 32]
    ensures { result ≡ default_regs_of kind }
{
    match kind {
        Kind::Main => [Fact::Any; 32],
        Kind::Handler => OWN,
        Kind::Alone => [Fact::Any; 32],
    }
}

/// What each flag has by default.
pub(crate) fn default_flag(kind: Kind) -> Bit
    ensures { result ≡ default_flag_of kind }
{
    match kind {
        Kind::Main => Bit::Free,
        Kind::Handler => Bit::Old,
        Kind::Alone => Bit::Free,
    }
}

/// Whether a kind tracks the cells of an owner.
pub(crate) fn tracks(kind: Kind, owner: Owner) -> bool
    ensures { result ≡ tracks_cells kind owner }
{
    match kind {
        Kind::Main => match owner {
            Owner::Main => true,
            Owner::Handler => false,
        },
        Kind::Handler => match owner {
            Owner::Main => false,
            Owner::Handler => true,
        },
        Kind::Alone => true,
    }
}

/// A range as a fact: the whole range is any byte.
fn range_fact(range: Span) -> Fact
    ensures { result ≡ fact_of_range range }
{
    if range.lo() == 0 && range.hi() == 255 {
        Fact::Any
    } else {
        Fact::Between(range)
    }
}

/// The header's ranges of the cells that a kind tracks.
pub(crate) fn default_cells(kind: Kind, cells: &[Cell]) -> ArrayVec<Fact, 16>
    requires { length cells.now ≤ 16 }
    ensures { result.items ≡ default_cells_of kind cells.now }
{
    let mut facts = ArrayVec::new();
    for cell in cells {
        if tracks(kind, cell.owner) {
            facts.push(range_fact(cell.range));
        }
    }
    facts
}

/// Whether this is the handler.
pub(crate) fn is_handler(kind: Kind) -> bool
    ensures { result ≡ is_handler_kind kind }
{
    match kind {
        Kind::Main => false,
        Kind::Handler => true,
        Kind::Alone => false,
    }
}

/// Whether this is what a register has by default.
pub(crate) fn is_default(kind: Kind, r: u32, fact: &Fact) -> bool
    ensures { result ≡ is_default_fact kind r fact.now }
{
    match kind {
        Kind::Main => is_any(fact),
        Kind::Handler => is_own(r, fact),
        Kind::Alone => is_any(fact),
    }
}

fn is_any(fact: &Fact) -> bool
    ensures { result ≡ is_any_fact fact.now }
{
    match fact {
        Fact::Any => true,
        Fact::Between(_) => false,
        Fact::Line(_, _) => false,
        Fact::Loop(_, _) => false,
        Fact::Old(_) => false,
        Fact::OldFlags => false,
    }
}

fn is_own(r: u32, fact: &Fact) -> bool
    ensures { result ≡ is_own_fact r fact.now }
{
    match fact {
        Fact::Any => false,
        Fact::Between(_) => false,
        Fact::Line(_, _) => false,
        Fact::Loop(_, _) => false,
        Fact::Old(q) => u32::from(*q) == r,
        Fact::OldFlags => false,
    }
}

/// Whether this is what a pair has by default.
pub(crate) fn is_any_pair(fact: &PairFact) -> bool
    ensures { result ≡ is_any_pair_fact fact.now }
{
    match fact {
        PairFact::Any => true,
        PairFact::Between(_) => false,
        PairFact::Line(_, _) => false,
        PairFact::Loop(_, _) => false,
    }
}

/// Whether this is what a flag has by default.
pub(crate) fn is_default_flag(kind: Kind, bit: Bit) -> bool
    ensures { result ≡ is_default_bit kind bit }
{
    match bit {
        Bit::Zero => false,
        Bit::One => false,
        Bit::Free => match kind {
            Kind::Main => true,
            Kind::Handler => false,
            Kind::Alone => true,
        },
        Bit::Old => match kind {
            Kind::Main => false,
            Kind::Handler => true,
            Kind::Alone => false,
        },
    }
}

/// Whether a fact is just this range.
pub(crate) fn is_range(range: Span, fact: &Fact) -> bool
    ensures { result ≡ is_range_fact range fact.now }
{
    match fact {
        Fact::Any => range.lo() == 0 && range.hi() == 255,
        Fact::Between(s) => s.lo() == range.lo() && s.hi() == range.hi(),
        Fact::Line(_, _) => false,
        Fact::Loop(_, _) => false,
        Fact::Old(_) => false,
        Fact::OldFlags => false,
    }
}
