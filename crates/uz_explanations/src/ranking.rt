//! The program counters with most instances.

ghost use Rattle.std.specs.Prelude.{◌≡◌, ◌≤◌, IfOk, OnOk, length, take};
ghost use Rattle.uz_explanations.specs.Ranking.{before as before_of, greatest as greatest_of, most_crowds, placed};

use std::alloc::{AllocError, Global};

/// How many program counters are told of at most.
const MOST_CROWDS: usize = 20;

/// How many instances stand at a program counter.
#[derive(Clone, Copy)]
pub(crate) struct Crowd {
    /// The program counter, a word address.
    pub(crate) pc: u16,
    /// The number of its instances.
    pub(crate) count: u32,
}

/// How many crowds at the begin of a list are greater than this number.
fn before(crowds: &[Crowd], count: u32) -> usize
    ensures { result ≡ before_of count crowds.now }
{
    let mut place = 0;
    for crowd in crowds {
        if crowd.count <= count {
            return place;
        }
        place += 1;
    }
    place
}

/// Puts a crowd behind those that are greater, and keeps the first ones.
fn place(crowds: &mut Vec<Crowd>, crowd: Crowd) -> Result<(), AllocError>
    ensures { OnOk result (crowds.new.items ≡ take most_crowds (placed crowd crowds.old.items)) }
{
    let at = before(crowds.as_slice(), crowd.count);
    crowds.insert(at, crowd)?;
    crowds.truncate(MOST_CROWDS);
    Ok(())
}

/// The program counters with most instances, by how many each one has: most first, and of as many the lower one first.
pub(crate) fn greatest(alloc: Global, counts: &[u32]) -> Result<Vec<Crowd>, AllocError>
    requires { length counts.now ≤ 65536 }
    ensures { IfOk result (λ v. v.items ≡ greatest_of counts.now) }
{
    let mut crowds = Vec::new(alloc);
    let mut pc = counts.len();
    'down: while pc > 0 {
        pc -= 1;
        let count = counts[pc];
        if count > 0 {
            place(
                &mut crowds,
                Crowd {
                    pc: pc as u16,
                    count,
                },
            )?;
        }
    }
    Ok(crowds)
}
