//! The places that facts speak of: 0 to 31 the registers, 32 to 34 the pairs X, Y and Z. No place tells of another one.

ghost use Rattle.std.specs.Prelude.{◌≡◌};
ghost use Rattle.uz_search.specs.Places.{IsTold, told};

use crate::loosened::is_whole;
use crate::widening::Widening;
use uz_schedule::Wide;

/// How many registers there are.
pub(crate) const REGISTERS: usize = 32;

/// How many pairs there are.
pub(crate) const PAIRS: usize = 3;

/// The place that a fact speaks of, and its range there. None where it says nothing: a register or pair that isn't there,
/// or the whole range of a pair.
pub(crate) fn told_of(fact: &Widening) -> Option<(usize, Wide)>
    ensures told { result ≡ told fact.now }
    ensures fits { IsTold result }
{
    match *fact {
        Widening::Register { register, range } => {
            let place = usize::from(register);
            if place < REGISTERS {
                Some((
                    place,
                    Wide::between(u16::from(range.lo()), u16::from(range.hi())),
                ))
            } else {
                None
            }
        }
        Widening::Pair { pair, range } => {
            let pair = usize::from(pair);
            if pair < PAIRS && !is_whole(range) {
                Some((REGISTERS + pair, range))
            } else {
                None
            }
        }
    }
}
