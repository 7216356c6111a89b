//! From hints to a certificate, by the rules of either version.

ghost use Rattle.std.specs.Prelude.{◌≡◌, ◌<◌, ◌^◌, ◌⊎◌, ℕ, true, Err, IfOk, IfErr, IfSome, IsOk, length};
ghost use Rattle.uz_schedule.specs.WellFormed.{WellFormed};
ghost use Rattle.uz_schedule.specs.declared.kinds.RuleVersion.TheVariants.{Two, Three};
ghost use Rattle.uz_check.specs.Acceptance.{Accepts};
ghost use Rattle.uz_paths.specs.Faults.{HintRefusal};
ghost use Rattle.uz_paths.specs.Finding.{only, Cause, CauseBy, NoCause, IsAsked, IsAskedWhole, IsBy};
ghost use Rattle.uz_paths.specs.Either.{is_by_rules as is_refused_by_rules};

use crate::finding::{find_joined, find_split};
use avr_asm::Hint;
use std::alloc::Global;
use uz_hex::Image;
use uz_schedule::{Cert, Instance, Kind, Response, RuleVersion};
use uz_search::{NotFound, Split, candidate};
use uz_transfer::Fail;

/// The most registers that are split.
const MOST_SPLITS: u32 = 64;

/// Whether other rules may find a certificate where these refuse. They don't help where a hint is at fault, or memory lacks.
fn is_by_rules(why: &NotFound) -> bool
    ensures { result ≡ is_refused_by_rules why.now }
{
    match why {
        NotFound::Stuck { .. }
        | NotFound::Split { .. }
        | NotFound::Full { .. }
        | NotFound::NoRest { .. } => true,
        NotFound::Hint { .. } | NotFound::Memory => false,
    }
}

/// Whether a trail ends in main.
fn ends_in_main(trail: &[Instance]) -> bool {
    match trail.last() {
        Some(at) => at.kind == Kind::Main,
        None => false,
    }
}

/// Whether the refusal by version 3 is told: where it stands in main.
fn is_told(why: &NotFound) -> bool {
    match why {
        NotFound::Stuck { trail, .. } => ends_in_main(trail.as_slice()),
        _ => false,
    }
}

/// The refusal that is told where the rules of both versions refuse, the one of version 2 first: that of version 3 where it
/// stands in main. Outside main the versions know the same.
fn told_of(first: NotFound, second: NotFound) -> NotFound
    ensures { (result ≡ first) ⊎ (result ≡ second) }
{
    if is_told(&second) {
        drop(first);
        second
    } else {
        drop(second);
        first
    }
}

/// Whether a split may help: the search is stuck in main at a store to an address that isn't known, or at a jump to one.
fn helps_splitting(why: &NotFound) -> bool {
    match why {
        NotFound::Stuck { trail, why } => {
            (*why == Fail::Store || *why == Fail::Return) && ends_in_main(trail.as_slice())
        }
        _ => false,
    }
}

/// The register that is split next, after these, where a search with them is refused so.
fn next_split(image: &Image, splits: &[Split], why: &NotFound) -> Option<Split>
    ensures { IfSome result (λ s. s.register < 32) }
{
    let split = match why {
        NotFound::Stuck { trail, .. } if helps_splitting(why) => {
            candidate(image, splits, trail.as_slice())
        }
        _ => None,
    };
    match split {
        Some(split) if split.register < 32 => Some(split),
        _ => None,
    }
}

/// Finds a certificate by the rules of version 3 with splits, where those without are refused so: one register more is split each time,
/// where the last search was stuck. None where none helps, or memory lacks.
fn find_by_splits(
    alloc: Global,
    image: &Image,
    hints: &[Hint],
    irq: Response,
    refusal: &NotFound,
) -> Option<Cert>
    requires few { length hints.now < 2 ^ 32 }
    ensures accepted { IfSome result (λ cert. WellFormed cert × Accepts image.now cert) }
    ensures asked { IfSome result (IsAsked image.now irq hints.now) }
{
    let mut splits = Vec::new(alloc);
    let mut next = next_split(image, &[], refusal);
    'tries: for _ in 0..MOST_SPLITS {
        let split = match next {
            Some(split) => split,
            None => break 'tries,
        };
        if splits.push(split).is_err() {
            break 'tries;
        }
        match find_split(alloc, image, hints, irq, splits.as_slice()) {
            Ok(cert) => {
                drop(splits);
                return Some(cert);
            }
            Err(why) => {
                next = next_split(image, splits.as_slice(), &why);
                drop(why);
            }
        }
    }
    drop(splits);
    None
}

/// Finds a certificate by the rules of version 3 with splits, where those of both versions refuse it so without them. Where none is found
/// one of these refusals is told.
fn find_last(
    alloc: Global,
    image: &Image,
    hints: &[Hint],
    irq: Response,
    first: NotFound,
    second: NotFound,
) -> Result<Cert, NotFound>
    requires few { length hints.now < 2 ^ 32 }
    requires first { CauseBy (only Two) image.now irq hints.now first }
    requires second { CauseBy (only Three) image.now irq hints.now second }
    ensures accepted { IfOk result (λ cert. WellFormed cert × Accepts image.now cert) }
    ensures asked { IfOk result (IsAsked image.now irq hints.now) }
    ensures cause { IfErr result (Cause image.now irq hints.now) }
{
    match find_by_splits(alloc, image, hints, irq, &second) {
        Some(cert) => {
            drop(first);
            drop(second);
            Ok(cert)
        }
        None => Err(told_of(first, second)),
    }
}

/// Finds a certificate by the rules of version 3, where those of version 2 refuse it so.
fn find_again(
    alloc: Global,
    image: &Image,
    hints: &[Hint],
    irq: Response,
    first: NotFound,
) -> Result<Cert, NotFound>
    requires few { length hints.now < 2 ^ 32 }
    requires cause { CauseBy (only Two) image.now irq hints.now first }
    requires rules { is_refused_by_rules first ≡ true }
    ensures accepted { IfOk result (λ cert. WellFormed cert × Accepts image.now cert) }
    ensures asked { IfOk result (IsAsked image.now irq hints.now) }
    ensures cause { IfErr result (Cause image.now irq hints.now) }
    ensures complete { NoCause Three image.now irq hints.now → IsOk result ⊎ (result ≡ Err NotFound.Memory) }
    ensures whole { NoCause Three image.now irq hints.now → IfOk result (IsAskedWhole image.now irq hints.now) }
{
    match find_joined(alloc, image, hints, irq, RuleVersion::Three) {
        Ok(cert) => {
            drop(first);
            Ok(cert)
        }
        Err(second) => {
            if is_by_rules(&second) {
                find_last(alloc, image, hints, irq, first, second)
            } else {
                drop(first);
                Err(second)
            }
        }
    }
}

/// Finds a certificate of an image by the hints of its source: as `find` by the rules of version 2, and where these refuse it
/// (Stuck, Split, Full or NoRest), by the rules of version 3. The certificate's header says by which. Where the rules of one
/// version have no cause to refuse it, only want of memory leaves it without one; where those of version 2 have none, they judge
/// it.
///
/// Where version 3 is stuck in main, at a store or a jump whose address isn't known, it tries again with results that go on in pieces by
/// the values of a register, one register more each time, 64 at most. A choice of speed and reach: nothing is said of when it helps, but
/// that where the rules of one version have no cause to refuse it nothing goes on in pieces.
///
/// Where none is found the refusal of version 3, without pieces, is told if its trail ends in main, and else that of version 2. Time is
/// that of `find`, once for each version, and once more for each register.
pub fn find_by_either(
    alloc: Global,
    image: &Image,
    hints: &[Hint],
    irq: Response,
) -> Result<Cert, NotFound>
    requires { length hints.now < 2 ^ 32 }
    ensures accepted { IfOk result (λ cert. WellFormed cert × Accepts image.now cert) }
    ensures asked { IfOk result (IsAsked image.now irq hints.now) }
    ensures cause { IfErr result (Cause image.now irq hints.now) }
    ensures complete { NoCause Two image.now irq hints.now ⊎ NoCause Three image.now irq hints.now
        → IsOk result ⊎ (result ≡ Err NotFound.Memory) }
    ensures whole { NoCause Two image.now irq hints.now ⊎ NoCause Three image.now irq hints.now
        → IfOk result (IsAskedWhole image.now irq hints.now) }
    ensures first { NoCause Two image.now irq hints.now → IfOk result (IsBy Two) }
    ensures hint { (index : ℕ) → HintRefusal image.now irq hints.now index
        → (result ≡ Err (NotFound.Hint index)) ⊎ (result ≡ Err NotFound.Memory) }
{
    match find_joined(alloc, image, hints, irq, RuleVersion::Two) {
        Ok(cert) => Ok(cert),
        Err(first) => {
            if is_by_rules(&first) {
                find_again(alloc, image, hints, irq, first)
            } else {
                Err(first)
            }
        }
    }
}
