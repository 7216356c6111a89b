//! The program that a search is told of by hints.

ghost use Rattle.std.specs.Prelude.{◌≡◌, ◌<◌, ◌≤◌, ◌==◌, ◌++◌, [], ◌∷◌, ℕ, true, IfOk, OnOk, length, map, filter, if◌then◌else◌};
ghost use Rattle.std.specs.BTreeMap.{get};
ghost use Rattle.std.specs.FinMap.{FinMap};
ghost use Rattle.std.specs.Ordering.{nat_cmp};
ghost use Rattle.uz_schedule.specs.Instances.{entry_instance_at};
ghost use Rattle.uz_schedule.specs.Schedule.{half_line, length_of, scanline};
ghost use Rattle.uz_schedule.specs.Tracked.{tracks as tracks_of};
ghost use Rattle.uz_schedule.specs.declared.kinds.Response.{Response as ResponseKind};
ghost use Rattle.uz_search.specs.Widened.{facts_in};
ghost use Rattle.uz_search.specs.Fitting.{ProgramFits};
ghost use Rattle.uz_paths.specs.Faults.{FactPart, FactsFine};
ghost use Rattle.uz_paths.specs.Words.{is_half as is_half_by, length_by};
ghost use Rattle.uz_paths.specs.Reading.{IsReading, ReadingFits, LengthsFit};
ghost use Rattle.uz_paths.specs.Certificate.{IsEntry};
ghost use Rattle.uz_paths.specs.ProgramOf.{widening_of as fact_of_place, hint_facts, facts_for, entry_with};
ghost use Rattle.uz_paths.specs.ProgramOf.{first_state as state_at_first, first_states as states_at_first};
ghost use Rattle.uz_paths.specs.ProgramOf.{AreKindsBy, AreShortened, IsProgramOf};

use crate::{Beginning, Reading};
use arrayvec::ArrayVec;
use avr_asm::Hint;
use std::alloc::{AllocError, Global};
use std::collections::BTreeMap;
use uz_schedule::{
    Bit, Cell, Entry, HALF_LINE, Head, Instance, Kind, LineEvents, Response, SCANLINE, Schedule,
    Sequence, Span, Wide, entry_state, handler_entry, tracks,
};
use uz_search::{Facts, Program, Split, Widening, last_clock};

/// What a fact says of its place.
fn widening_of(place: u8, lo: u16, hi: u16) -> Widening
    requires order { lo ≤ hi }
    requires byte { place < 32 → hi ≤ 255 }
    ensures { result ≡ fact_of_place place lo hi }
{
    if place < 32 {
        Widening::Register {
            register: place,
            range: Span::between(lo as u8, hi as u8),
        }
    } else {
        Widening::Pair {
            pair: place - 32,
            range: Wide::between(lo, hi),
        }
    }
}

/// Puts a fact before those of its program counter.
fn put_fact(
    alloc: Global,
    facts: &mut BTreeMap<u16, Facts>,
    at: u16,
    fact: Widening,
) -> Result<(), AllocError>
    ensures { OnOk result ((pc : ℕ) → facts_in (get nat_cmp facts.new pc)
        ≡ (if at == pc then fact ∷ [] else []) ++ facts_in (get nat_cmp facts.old pc)) }
{
    let here = match facts.remove(&at) {
        Some(here) => here,
        None => Facts::new(alloc)?,
    };
    let more = here.with_first(fact)?;
    match facts.insert(at, more) {
        Ok(before) => {
            drop(before);
            Ok(())
        }
        Err(refused) => Err(refused.into()),
    }
}

/// Puts the fact that a hint is, where it is one, before those of its program counter.
fn put_hint(alloc: Global, facts: &mut BTreeMap<u16, Facts>, hint: &Hint) -> Result<(), AllocError>
    requires { FactPart hint.now }
    ensures { OnOk result ((pc : ℕ) → facts_in (get nat_cmp facts.new pc) ≡ hint_facts pc hint.now ++ facts_in (get nat_cmp facts.old pc)) }
{
    if let Hint::Fact { at, place, lo, hi } = hint {
        put_fact(alloc, facts, *at, widening_of(*place, *lo, *hi))?;
    }
    Ok(())
}

/// The facts of the hints by their program counters, taken from the last hint to the first.
fn facts_of(alloc: Global, hints: &[Hint]) -> Result<BTreeMap<u16, Facts>, AllocError>
    requires { FactsFine hints.now }
    ensures { IfOk result (λ facts. (pc : ℕ) → facts_in (get nat_cmp facts pc) ≡ facts_for pc hints.now) }
{
    let mut facts = BTreeMap::new(alloc);
    let mut left = hints.len();
    'each: while left > 0 {
        left -= 1;
        put_hint(alloc, &mut facts, &hints[left])?;
    }
    Ok(facts)
}

/// The ranges of the cells that a kind tracks.
fn tracked_ranges(cells: &[Cell], kind: Kind) -> ArrayVec<Span, 16>
    requires { length cells.now ≤ 16 }
    ensures { result.items ≡ map (λ c. c.range) (filter (λ c. tracks_of kind c.owner) cells.now) }
{
    let mut ranges = ArrayVec::new();
    for cell in cells {
        if tracks(kind, cell.owner) {
            ranges.push(cell.range);
        }
    }
    ranges
}

/// The entry of a program that starts so; the number of its point isn't known yet.
fn start_entry(head: &Head, start: Beginning, registers: &[Span; 32]) -> Entry
    requires { length head.now.cells.items ≤ 16 }
    ensures { result ≡ entry_with registers.now head.now start 0 }
{
    Entry {
        kind: start.kind,
        id: 0,
        pc: start.pc,
        line: 0,
        clock: 0,
        regs: *registers,
        flags: [Bit::Free; 7],
        stack: ArrayVec::new(),
        cells: tracked_ranges(head.cells.as_slice(), start.kind),
    }
}

/// The handler's first state on line 0, where its interrupt is taken at clock `c` and OCR1A is `top`.
fn first_state(irq: Response, top: u16, firsts: &ArrayVec<Span, 16>, c: u16) -> Instance
    requires { c ≤ 3 }
    ensures { result ≡ state_at_first irq top firsts.now.items c }
{
    handler_entry(firsts, 0, c + irq.clocks(), 1, top)
}

/// Puts the handler's first states on line 0 at the end of the starts, where runs enter main.
fn put_first_states(
    starts: &mut Vec<Instance>,
    kind: Kind,
    irq: Response,
    top: u16,
    firsts: &ArrayVec<Span, 16>,
) -> Result<(), AllocError>
    ensures { OnOk result (starts.new.items ≡ starts.old.items ++ states_at_first kind irq top firsts.now.items) }
{
    match kind {
        Kind::Main => {
            starts.push(first_state(irq, top, firsts, 0))?;
            starts.push(first_state(irq, top, firsts, 1))?;
            starts.push(first_state(irq, top, firsts, 2))?;
            starts.push(first_state(irq, top, firsts, 3))?;
            Ok(())
        }
        Kind::Handler | Kind::Alone => Ok(()),
    }
}

/// The instances at which trails begin.
fn starts_of(
    alloc: Global,
    entry: &Entry,
    irq: Response,
    top: u16,
    firsts: &ArrayVec<Span, 16>,
) -> Result<Vec<Instance>, AllocError>
    ensures { IfOk result (λ starts. starts.items
        ≡ entry_instance_at entry.now 1 ∷ states_at_first entry.now.kind irq top firsts.now.items) }
{
    let mut starts = Vec::new(alloc);
    starts.push(entry_state(entry, 1))?;
    put_first_states(&mut starts, entry.kind, irq, top, firsts)?;
    Ok(starts)
}

/// The two lengths of lines, and a kind without events for each.
fn both_kinds(alloc: Global) -> Result<(Vec<LineEvents>, Vec<u16>), AllocError>
    ensures { IfOk result (λ r. r.1.items ≡ scanline ∷ half_line ∷ []) }
{
    let mut kinds = Vec::new(alloc);
    kinds.push(LineEvents::new(alloc))?;
    kinds.push(LineEvents::new(alloc))?;
    match Vec::from_array(alloc, [SCANLINE, HALF_LINE]) {
        Ok(lengths) => Ok((kinds, lengths)),
        Err(_) => {
            drop(kinds);
            Err(AllocError)
        }
    }
}

/// Makes the lines from one to another, both among them, of the shorter kind.
fn shorten(kinds: &mut [u16], from: u16, to: u16)
    ensures { AreShortened (Hint.Half from to) kinds.old kinds.new }
{
    let end = kinds.len().min(to as usize + 1);
    for line in from as usize..end {
        kinds[line] = 1;
    }
}

/// Makes the lines that a hint names of the shorter kind.
fn put_half(kinds: &mut [u16], hint: &Hint)
    ensures { AreShortened hint.now kinds.old kinds.new }
{
    if let Hint::Half { from, to } = hint {
        shorten(kinds, *from, *to);
    }
}

/// Which of them each of so many lines is of: the shorter one where a hint names it. One walk over the hints, each of
/// which costs the lines that it names.
fn kinds_by(alloc: Global, hints: &[Hint], lines: u16) -> Result<Vec<u16>, AllocError>
    ensures { IfOk result (λ v. AreKindsBy hints.now lines v.items) }
{
    let mut kinds = vec![in alloc; 0; lines as usize]?;
    for hint in hints {
        put_half(kinds.as_mut_slice(), hint);
    }
    Ok(kinds)
}

/// A frame of so many lines, each as long as the hints say, whose events aren't known yet.
fn frame_of(alloc: Global, hints: &[Hint], lines: u16, fall: u16) -> Result<Schedule, AllocError>
    requires { (line : ℕ) → is_half_by line hints.now ≡ true → line < lines }
    ensures lines { IfOk result (λ s. length s.lines ≡ lines) }
    ensures lengths { IfOk result (λ s. (l : ℕ) → length_of s l ≡ length_by hints.now l) }
    ensures fall { IfOk result (λ s. s.fall ≡ fall) }
{
    let (kinds, lengths) = both_kinds(alloc)?;
    let numbers = kinds_by(alloc, hints, lines)?;
    Ok(Schedule {
        kinds: Sequence::from_vec(kinds),
        lengths: Sequence::from_vec(lengths),
        lines: Sequence::from_vec(numbers),
        fall,
    })
}

/// The program that hints tell of, in which these registers are split, with the entry of its certificate.
pub(crate) fn program_of(
    alloc: Global,
    hints: &[Hint],
    reading: Reading,
    splits: Vec<Split>,
) -> Result<(Program, Entry), AllocError>
    requires facts { FactsFine hints.now }
    requires fits { ReadingFits reading }
    requires lengths { LengthsFit hints.now reading }
    ensures fits { IfOk result (λ r. ProgramFits r.0) }
    ensures program { IfOk result (λ r. (image : FinMap nat_cmp ℕ) (irq : ResponseKind) → IsReading image irq hints.now reading
        → IsProgramOf irq hints.now r.0) }
    ensures head { IfOk result (λ r. r.0.head ≡ reading.head) }
    ensures entry { IfOk result (λ r. r.1 ≡ entry_with reading.registers reading.head reading.start 0) }
    ensures start { IfOk result (λ r. IsEntry r.0 r.1) }
    ensures splits { IfOk result (λ r. r.0.splits ≡ splits.items) }
{
    let Reading {
        head,
        size,
        start,
        registers,
        firsts,
    } = reading;
    let facts = match facts_of(alloc, hints) {
        Ok(facts) => facts,
        Err(AllocError) => {
            drop(head);
            drop(splits);
            return Err(AllocError);
        }
    };
    let entry = start_entry(&head, start, &registers);
    let schedule = match frame_of(alloc, hints, size.lines, size.fall) {
        Ok(schedule) => schedule,
        Err(AllocError) => {
            drop(entry);
            drop(facts);
            drop(head);
            drop(splits);
            return Err(AllocError);
        }
    };
    let top = last_clock(&schedule, size.lines - 1);
    let starts = match starts_of(alloc, &entry, head.irq, top, &firsts) {
        Ok(starts) => starts,
        Err(AllocError) => {
            drop(schedule);
            drop(entry);
            drop(facts);
            drop(head);
            drop(splits);
            return Err(AllocError);
        }
    };
    Ok((
        Program {
            head,
            schedule,
            facts,
            starts: Sequence::from_vec(starts),
            splits: Sequence::from_vec(splits),
        },
        entry,
    ))
}
