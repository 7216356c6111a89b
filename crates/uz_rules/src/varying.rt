//! Which facts of a point depend on the line or the count. Where an instance is moved to another line and count, only these are
//! looked at.

ghost use Rattle.std.specs.Prelude.{◌≡◌, ◌<◌, ◌≤◌, ◌+◌, ◌++◌, [], ◌∷◌, length};
ghost use Rattle.uz_rules.specs.Moving.{is_steady as says_one, is_steady_pair as pair_says_one, varying_from, IsVarying};

use arrayvec::ArrayVec;
use uz_schedule::{Fact, PairFact, Point};

/// The places of a point's facts that depend on the line or the count, and which of X, Y and Z don't.
#[derive(Drop)]
pub struct Varying {
    /// Of the registers.
    pub registers: ArrayVec<u8, 32>,
    /// Of the bytes of the stack.
    pub stack: ArrayVec<u8, 32>,
    /// Of the cells.
    pub cells: ArrayVec<u8, 32>,
    /// Whether the pair X is the same at each line and count.
    pub x: bool,
    /// Whether the pair Y is.
    pub y: bool,
    /// Whether the pair Z is.
    pub z: bool,
}

impl Varying {
    /// No place is noted, to begin with.
    pub fn none() -> Varying {
        Varying {
            registers: ArrayVec::new(),
            stack: ArrayVec::new(),
            cells: ArrayVec::new(),
            x: false,
            y: false,
            z: false,
        }
    }
}

/// Whether a fact says the same at each line and count.
fn is_steady(fact: &Fact) -> bool
    ensures { result ≡ says_one fact.now }
{
    match fact {
        Fact::Line(_, _) | Fact::Loop(_, _) => false,
        _ => true,
    }
}

/// Whether a pair is the same at each line and count, whose low register is `low`.
fn is_steady_pair(regs: &[Fact; 32], low: usize, fact: &PairFact) -> bool
    requires { low < 31 }
    ensures { result ≡ pair_says_one regs.now low fact.now }
{
    match fact {
        PairFact::Any => is_steady(&regs[low]) && is_steady(&regs[low + 1]),
        PairFact::Between(_) => true,
        _ => false,
    }
}

/// A place is noted, where the fact there depends on the line or the count.
#[tactic(auto, unfolding(crate::specs::Moving::varying_from))]
fn note_place(places: &mut ArrayVec<u8, 32>, fact: &Fact, place: usize)
    requires place { place < 32 }
    requires room { length places.old.items ≤ place }
    ensures noted { places.new.items ≡ places.old.items ++ varying_from place (fact.now ∷ []) }
    ensures room { length places.new.items ≤ place + 1 }
{
    if !is_steady(fact) {
        places.push(place as u8);
    }
}

/// The places of the facts that depend on the line or the count.
fn varying_places(facts: &[Fact]) -> ArrayVec<u8, 32>
    requires { length facts.now ≤ 32 }
    ensures { result.items ≡ varying_from 0 facts.now }
{
    let mut places = ArrayVec::new();
    for place in 0..facts.len() {
        note_place(&mut places, &facts[place], place);
    }
    places
}

/// Which facts of a point depend on the line or the count.
pub fn varying_of(point: &Point) -> Varying
    ensures { IsVarying point.now result }
{
    Varying {
        registers: varying_places(&point.regs),
        stack: varying_places(point.stack.as_slice()),
        cells: varying_places(point.cells.as_slice()),
        x: is_steady_pair(&point.regs, 26, &point.pairs[0]),
        y: is_steady_pair(&point.regs, 28, &point.pairs[1]),
        z: is_steady_pair(&point.regs, 30, &point.pairs[2]),
    }
}
