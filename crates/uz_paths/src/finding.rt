//! From hints to a certificate.

ghost use Rattle.std.specs.Prelude.{◌≡◌, ◌<◌, ◌^◌, ◌⊎◌, ℕ, Err, IfOk, IfErr, IfSome, IsOk, IsSome, length};
ghost use Rattle.uz_schedule.specs.WellFormed.{WellFormed};
ghost use Rattle.uz_schedule.specs.declared.kinds.RuleVersion.TheVariants.{Two};
ghost use Rattle.uz_check.specs.Acceptance.{Accepts};
ghost use Rattle.uz_paths.specs.Faults.{HintRefusal};
ghost use Rattle.uz_search.specs.Fitting.{ProgramFits};
ghost use Rattle.uz_search.specs.Refusing.{Refusal};
ghost use Rattle.uz_search.specs.Searching.{IsEnded};
ghost use Rattle.uz_join.specs.Joined.{SameButPoints};
ghost use Rattle.uz_paths.specs.Certificate.{IsEntry, ReturnsFromMain};
ghost use Rattle.uz_paths.specs.Splits.{AreRegisters, SplitsFit};
ghost use Rattle.uz_paths.specs.declared.finding.Joining.TheVariants.{LeftOut};
ghost use Rattle.uz_paths.specs.Finding.{instance_limit, only, Cause, CauseBy, NoCause, IsBy, IsFoundBy, IsAsked, IsAskedWhole};

use crate::certificate::{certificate_of, parts_of};
use crate::joined::joined_certificate;
use crate::program::program_of;
use crate::read_hints;
use avr_asm::Hint;
use std::alloc::{AllocError, Global};
use uz_hex::Image;
use uz_join::joined;
use uz_rules::{known_in_itself, place_holds, place_tells};
use uz_schedule::{Cert, Entry, Response, RuleVersion, event_by_line};
use uz_search::{
    Found, NotFound, Program, Split, ended_accepts, ended_falls_once, ended_levels,
    ended_levels_fit, ended_rests_are_quiet, ended_rests_enter, ended_within_limits,
    lies_in_widened, nodes_are_reached, pieces_pass, search,
};

/// The most distinct instances of a search.
const INSTANCE_LIMIT: u32 = 524288;

/// The certificate of an ended search, which is let go while its points are made.
fn certificate(
    alloc: Global,
    image: &Image,
    program: Program,
    entry: Entry,
    found: Found,
) -> Result<Cert, AllocError>
    requires fits { ProgramFits program }
    requires start { IsEntry program entry }
    requires ended { IsEnded image.now program found }
    requires few { length found.nodes.keys < instance_limit }
    requires returns { ReturnsFromMain program found }
    requires splits { SplitsFit program }
    ensures fits { IfOk result WellFormed }
    ensures accepted { IfOk result (Accepts image.now) }
    ensures found { IfOk result (IsFoundBy image.now program entry) }
{
    event_by_line();
    nodes_are_reached();
    ended_falls_once();
    ended_levels_fit();
    ended_rests_are_quiet();
    ended_levels();
    ended_rests_enter();
    ended_within_limits();
    lies_in_widened();
    place_tells();
    place_holds();
    known_in_itself();
    ended_accepts();
    pieces_pass();
    match parts_of(alloc, image, &program, entry, found) {
        Ok(parts) => Ok(certificate_of(program, parts)),
        Err(AllocError) => {
            drop(program);
            Err(AllocError)
        }
    }
}

/// A certificate whose points are joined. None where the joined certificate isn't accepted, or memory lacks.
fn joined_from(alloc: Global, image: &Image, cert: Cert) -> Option<Cert>
    requires fits { WellFormed cert }
    requires accepted { Accepts image.now cert }
    ensures fits { IfSome result WellFormed }
    ensures accepted { IfSome result (Accepts image.now) }
    ensures same { IfSome result (SameButPoints cert) }
{
    match joined(alloc, image, cert) {
        Ok(cert) => Some(cert),
        Err(why) => {
            drop(why);
            None
        }
    }
}

/// Whether points are joined.
#[derive(Clone, Copy)]
enum Joining {
    /// Where the check accepts the joined certificate.
    Tried,
    /// Not at all.
    LeftOut,
}

/// Searches a program, and makes a certificate of what is found. None where its points were let go while they were joined, and the joined
/// certificate isn't accepted.
fn find_by(
    alloc: Global,
    image: &Image,
    program: Program,
    entry: Entry,
    joining: Joining,
) -> Result<Option<Cert>, NotFound>
    requires fits { ProgramFits program }
    requires start { IsEntry program entry }
    requires splits { SplitsFit program }
    ensures accepted { IfOk result (λ o. IfSome o (λ cert. WellFormed cert × Accepts image.now cert)) }
    ensures found { IfOk result (λ o. IfSome o (IsFoundBy image.now program entry)) }
    ensures there { joining ≡ LeftOut → IfOk result IsSome }
    ensures cause { IfErr result (Refusal image.now program instance_limit) }
{
    let found = match search(alloc, image, &program, INSTANCE_LIMIT) {
        Ok(found) => found,
        Err(refusal) => {
            drop(program);
            drop(entry);
            return Err(refusal);
        }
    };
    if joining == Joining::LeftOut {
        return Ok(Some(certificate(alloc, image, program, entry, found)?));
    }
    match joined_certificate(alloc, image, program, &entry, &found) {
        Ok(cert) => {
            drop(found);
            drop(entry);
            Ok(Some(cert))
        }
        Err(program) => {
            let cert = certificate(alloc, image, program, entry, found)?;
            Ok(joined_from(alloc, image, cert))
        }
    }
}

/// Finds a certificate by the hints of a source and the rules of a version. None where its points were let go while they were joined, and
/// the joined certificate isn't accepted.
fn find_as(
    alloc: Global,
    image: &Image,
    hints: &[Hint],
    irq: Response,
    version: RuleVersion,
    joining: Joining,
) -> Result<Option<Cert>, NotFound>
    requires { length hints.now < 2 ^ 32 }
    ensures accepted { IfOk result (λ o. IfSome o (λ cert. WellFormed cert × Accepts image.now cert)) }
    ensures asked { IfOk result (λ o. IfSome o (IsAskedWhole image.now irq hints.now)) }
    ensures version { IfOk result (λ o. IfSome o (IsBy version)) }
    ensures there { joining ≡ LeftOut → IfOk result IsSome }
    ensures cause { IfErr result (CauseBy (only version) image.now irq hints.now) }
    ensures complete { NoCause version image.now irq hints.now → IsOk result ⊎ (result ≡ Err NotFound.Memory) }
    ensures hint { (index : ℕ) → HintRefusal image.now irq hints.now index
        → (result ≡ Err (NotFound.Hint index)) ⊎ (result ≡ Err NotFound.Memory) }
{
    let reading = match read_hints(image, irq, version, hints) {
        Ok(reading) => reading,
        Err(index) => return Err(NotFound::Hint { index }),
    };
    let (program, entry) = program_of(alloc, hints, reading, Vec::new(alloc))?;
    find_by(alloc, image, program, entry, joining)
}

/// Finds a certificate by the hints of a source and the rules of a version. Its points aren't joined.
fn find_alone(
    alloc: Global,
    image: &Image,
    hints: &[Hint],
    irq: Response,
    version: RuleVersion,
) -> Result<Cert, NotFound>
    requires { length hints.now < 2 ^ 32 }
    ensures accepted { IfOk result (λ cert. WellFormed cert × Accepts image.now cert) }
    ensures asked { IfOk result (IsAskedWhole image.now irq hints.now) }
    ensures version { IfOk result (IsBy version) }
    ensures cause { IfErr result (CauseBy (only version) image.now irq hints.now) }
    ensures complete { NoCause version image.now irq hints.now → IsOk result ⊎ (result ≡ Err NotFound.Memory) }
    ensures hint { (index : ℕ) → HintRefusal image.now irq hints.now index
        → (result ≡ Err (NotFound.Hint index)) ⊎ (result ≡ Err NotFound.Memory) }
{
    match find_as(alloc, image, hints, irq, version, Joining::LeftOut) {
        Ok(cert) => Ok(cert.unwrap()),
        Err(why) => Err(why),
    }
}

/// Finds a certificate by the hints of a source and the rules of a version. Its points are joined where the check accepts them so.
pub(crate) fn find_joined(
    alloc: Global,
    image: &Image,
    hints: &[Hint],
    irq: Response,
    version: RuleVersion,
) -> Result<Cert, NotFound>
    requires { length hints.now < 2 ^ 32 }
    ensures accepted { IfOk result (λ cert. WellFormed cert × Accepts image.now cert) }
    ensures asked { IfOk result (IsAskedWhole image.now irq hints.now) }
    ensures version { IfOk result (IsBy version) }
    ensures cause { IfErr result (CauseBy (only version) image.now irq hints.now) }
    ensures complete { NoCause version image.now irq hints.now → IsOk result ⊎ (result ≡ Err NotFound.Memory) }
    ensures hint { (index : ℕ) → HintRefusal image.now irq hints.now index
        → (result ≡ Err (NotFound.Hint index)) ⊎ (result ≡ Err NotFound.Memory) }
{
    match find_as(alloc, image, hints, irq, version, Joining::Tried) {
        Ok(Some(cert)) => Ok(cert),
        Ok(None) => find_alone(alloc, image, hints, irq, version),
        Err(why) => Err(why),
    }
}

/// Finds a certificate by the hints of a source and the rules of version 3, where main's results go on in pieces by the values of these
/// registers. None where its points were let go while they were joined, and the joined certificate isn't accepted.
fn find_split_as(
    alloc: Global,
    image: &Image,
    hints: &[Hint],
    irq: Response,
    splits: &[Split],
    joining: Joining,
) -> Result<Option<Cert>, NotFound>
    requires few { length hints.now < 2 ^ 32 }
    requires registers { AreRegisters splits.now }
    ensures accepted { IfOk result (λ o. IfSome o (λ cert. WellFormed cert × Accepts image.now cert)) }
    ensures asked { IfOk result (λ o. IfSome o (IsAsked image.now irq hints.now)) }
    ensures there { joining ≡ LeftOut → IfOk result IsSome }
{
    let reading = match read_hints(image, irq, RuleVersion::Three, hints) {
        Ok(reading) => reading,
        Err(index) => return Err(NotFound::Hint { index }),
    };
    let copy = match Vec::from_slice(alloc, splits) {
        Ok(copy) => copy,
        Err(AllocError) => {
            drop(reading);
            return Err(NotFound::Memory);
        }
    };
    let (program, entry) = program_of(alloc, hints, reading, copy)?;
    find_by(alloc, image, program, entry, joining)
}

/// Finds a certificate by the hints of a source and the rules of version 3, where main's results go on in pieces by the values of these
/// registers. Its points aren't joined.
fn find_split_alone(
    alloc: Global,
    image: &Image,
    hints: &[Hint],
    irq: Response,
    splits: &[Split],
) -> Result<Cert, NotFound>
    requires few { length hints.now < 2 ^ 32 }
    requires registers { AreRegisters splits.now }
    ensures accepted { IfOk result (λ cert. WellFormed cert × Accepts image.now cert) }
    ensures asked { IfOk result (IsAsked image.now irq hints.now) }
{
    match find_split_as(alloc, image, hints, irq, splits, Joining::LeftOut) {
        Ok(cert) => Ok(cert.unwrap()),
        Err(why) => Err(why),
    }
}

/// Finds a certificate by the hints of a source and the rules of version 3, where main's results go on in pieces by the values of these
/// registers. Its points are joined where the check accepts them so.
pub(crate) fn find_split(
    alloc: Global,
    image: &Image,
    hints: &[Hint],
    irq: Response,
    splits: &[Split],
) -> Result<Cert, NotFound>
    requires few { length hints.now < 2 ^ 32 }
    requires registers { AreRegisters splits.now }
    ensures accepted { IfOk result (λ cert. WellFormed cert × Accepts image.now cert) }
    ensures asked { IfOk result (IsAsked image.now irq hints.now) }
{
    match find_split_as(alloc, image, hints, irq, splits, Joining::Tried) {
        Ok(Some(cert)) => Ok(cert),
        Ok(None) => find_split_alone(alloc, image, hints, irq, splits),
        Err(why) => Err(why),
    }
}

/// Finds a certificate of an image by the hints of its source and the rules of version 2: one that `check` accepts with it, with the
/// header, the lines, the fall and the entry that the hints ask for, where each rest is a return of some trail. Its points are joined
/// line by line and count by count where the check accepts them so. Where none of the causes stands, only want of memory leaves it
/// without one.
///
/// Hint comes exactly where a hint is at fault or start, lines or stack are missing, before all other refusals; Stuck and
/// Split only with trails that show them; Full only with 524,288 distinct instances that lie on trails; NoRest only where runs
/// enter main, and the instances on trails hold no return. Time is linear in the instances and their results. Points are let go while they
/// are joined: where the joined certificate isn't accepted, all is searched again.
pub fn find(alloc: Global, image: &Image, hints: &[Hint], irq: Response) -> Result<Cert, NotFound>
    requires { length hints.now < 2 ^ 32 }
    ensures accepted { IfOk result (λ cert. WellFormed cert × Accepts image.now cert) }
    ensures asked { IfOk result (IsAsked image.now irq hints.now) }
    ensures whole { IfOk result (IsAskedWhole image.now irq hints.now) }
    ensures version { IfOk result (IsBy Two) }
    ensures cause { IfErr result (Cause image.now irq hints.now) }
    ensures cause_by { IfErr result (CauseBy (only Two) image.now irq hints.now) }
    ensures complete { NoCause Two image.now irq hints.now → IsOk result ⊎ (result ≡ Err NotFound.Memory) }
    ensures hint { (index : ℕ) → HintRefusal image.now irq hints.now index
        → (result ≡ Err (NotFound.Hint index)) ⊎ (result ≡ Err NotFound.Memory) }
{
    find_joined(alloc, image, hints, irq, RuleVersion::Two)
}
