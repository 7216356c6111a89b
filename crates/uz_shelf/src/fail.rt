//! Faults that a test plans for a shelf or a sink in memory.

ghost use Rattle.std.specs.Prelude.{◌≡◌, ◌≤◌, ◌==◌, IsSome, find};
ghost use Rattle.uz_shelf.specs.Faults.{Rose, next_call};
ghost use Rattle.uz_shelf.specs.Planned.{counted, planned_fail};

/// The call of that number fails, counted from 1 over all trait methods of the object.
///
/// Of several entries with one number the first holds. No entry makes a call past number 2^32 - 1 fail.
#[derive(Clone, Copy, PartialEq, Eq)]
pub struct Fail {
    /// The number of the call, from 1.
    pub call: u32,
    /// How many bytes of its piece an `append` or `put` still takes.
    pub keep: u32,
}

/// Counts a call and its planned fault, and answers this, if one is planned.
pub(crate) fn count_call(fails: &[Fail], calls: &mut u32, faults: &mut u64) -> Option<Fail>
    ensures planned { result ≡ planned_fail fails.now calls.old }
    ensures calls { calls.new ≡ next_call calls.old }
    ensures counted { faults.new ≡ counted result faults.old }
    ensures rose { IsSome result → Rose faults.old faults.new }
    ensures least { faults.old ≤ faults.new }
{
    let fail = planned(fails, *calls);
    *calls = calls.saturating_add(1);
    if fail.is_some() {
        *faults = faults.saturating_add(1);
    }
    fail
}

/// The planned fault of the next call, if one is planned, after so many calls.
fn planned(fails: &[Fail], calls: u32) -> Option<Fail>
    ensures { result ≡ planned_fail fails.now calls }
{
    if calls == u32::MAX {
        return None;
    }
    first_of_number(fails, calls + 1)
}

/// The first entry of that number.
fn first_of_number(fails: &[Fail], call: u32) -> Option<Fail>
    ensures { result ≡ find (λ f. f.call == call) fails.now }
{
    for fail in fails {
        if fail.call == call {
            return Some(*fail);
        }
    }
    None
}
