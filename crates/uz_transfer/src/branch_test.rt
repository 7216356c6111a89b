//! What an instruction asks of main's state, of which each of its exits tells.

ghost use Rattle.std.specs.Prelude.{◌≡◌};
ghost use Rattle.uz_transfer.specs.Narrowed.{asked as asked_by, test_of as test_by};

use crate::comparing::knows_comparisons;
use crate::step::Test;
use uz_core::{Effect, SkipTest};
use uz_schedule::{Head, Instance};

/// What an effect asks.
fn asked(e: Effect) -> Test
    ensures { result ≡ asked_by e }
{
    match e {
        Effect::Branch { flag, set, .. } => Test::Flag(flag, set),
        Effect::SkipIf {
            test: SkipTest::Equal { d, r },
        } => Test::Equal(d, r),
        Effect::SkipIf {
            test: SkipTest::RegisterBit { r, bit, set },
        } => Test::Bit(r, bit, set),
        _ => Test::Nothing,
    }
}

/// What an instruction asks of the state of an instance, where comparisons are known.
pub(crate) fn test_of(head: &Head, e: Effect, at: &Instance) -> Test
    ensures { result ≡ test_by head.now e at.now }
{
    if knows_comparisons(head, at.kind) {
        asked(e)
    } else {
        Test::Nothing
    }
}
