//! Lists of numbers, one behind the other.

ghost use Rattle.std.specs.Prelude.{◌≡◌, ◌+◌, ◌<◌, ◌≤◌, ◌^◌, ℕ, List, IfOk, OnOk, length};
ghost use Rattle.uz_paths.specs.Lists.{AreLists, HasListAt, IsListAt};

use arrayvec::ArrayVec;
use std::alloc::{AllocError, Global};

/// Lists of at most 16 numbers each, one behind the other.
#[derive(Drop)]
pub(crate) struct Lists {
    /// Where each list begins, and where the last one ends.
    pub starts: Vec<u32>,
    /// The numbers of all lists.
    pub numbers: Vec<u32>,
}

/// No list.
pub(crate) fn no_lists(alloc: Global) -> Result<Lists, AllocError>
    ensures { IfOk result (λ lists. AreLists lists 0) }
{
    let mut starts = Vec::new(alloc);
    starts.push(0)?;
    Ok(Lists {
        starts,
        numbers: Vec::new(alloc),
    })
}

/// Puts a list behind others, of which there are `count`.
pub(crate) fn put_list(lists: &mut Lists, count: usize, list: &[u32]) -> Result<(), AllocError>
    requires lists { AreLists lists.old count }
    requires few { count < 2 ^ 27 }
    requires short { length list.now ≤ 16 }
    ensures more { OnOk result (AreLists lists.new (count + 1)) }
    ensures last { OnOk result (IsListAt lists.new count list.now) }
    ensures kept { OnOk result ((i : ℕ) (there : List ℕ) → IsListAt lists.old i there → IsListAt lists.new i there) }
{
    let _ = count; // said of in the contract alone
    lists.numbers.extend_from_slice(list)?;
    lists.starts.push(lists.numbers.len() as u32)?;
    Ok(())
}

/// A copy of numbers.
fn copied(from: &[u32]) -> ArrayVec<u32, 16>
    requires { length from.now ≤ 16 }
    ensures { result.items ≡ from.now }
{
    let mut copy = ArrayVec::new();
    for number in from {
        copy.push(*number);
    }
    copy
}

/// The list of number `i`.
pub(crate) fn list_at(lists: &Lists, i: usize) -> ArrayVec<u32, 16>
    requires { HasListAt lists.now i }
    ensures { (list : List ℕ) → IsListAt lists.now i list → result.items ≡ list }
{
    let from = lists.starts[i] as usize;
    let to = lists.starts[i + 1] as usize;
    copied(&lists.numbers.as_slice()[from..to])
}
