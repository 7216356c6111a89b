//! A ring of ten words: sync falls at clock 1 and rises at clock 2 of its one line, and three waits fill the rest of the
//! scanline.

ghost use Rattle.std.specs.Prelude.{◌≡◌, ◌-◌, ◌<◌, ◌≤◌, ℕ, IfOk, false, length};
ghost use Rattle.uz_schedule.specs.Ends.{whole_byte};
ghost use Rattle.uz_schedule.specs.Schedule.{length_of, scanline};
ghost use Rattle.uz_schedule.specs.declared.kinds.Kind.TheVariants.{Alone};
ghost use Rattle.uz_search.specs.Fitting.{ProgramFits};

use crate::checked::set_word;
use arrayvec::ArrayVec;
use std::alloc::{AllocError, Global};
use std::collections::BTreeMap;
use table_rows::Row;
use uz_hex::Image;
use uz_schedule::{
    EventKind, Head, Instance, Kind, LineEvents, Response, RuleVersion, SCANLINE, Schedule,
    Sequence, Span, Val,
};
use uz_search::{Found, NotFound, Program, search};
use uz_transfer::Fail;

/// OUT PORTB,r16; OUT PORTB,r17; DEC r18, BRNE to it, twice; LDI r18,94; DEC r18, BRNE to it; RJMP to the begin. So many
/// clocks are 2 + 767 + 767 + 1 + 281 + 2.
const WORDS: [u16; 10] = [
    0xB905, 0xB915, 0x952A, 0xF7F1, 0x952A, 0xF7F1, 0xE52E, 0x952A, 0xF7F1, 0xCFF6,
];

fn image(alloc: Global) -> Result<Image, AllocError> {
    let mut image = Image::empty(alloc)?;
    for at in 0..10u16 {
        set_word(&mut image, at, WORDS[at as usize]);
    }
    Ok(image)
}

/// At word 0 with r16, r17 and r18 equal to 0, 1 and 0.
fn start() -> Instance
    ensures kind { result.kind ≡ Alone }
    ensures line { result.line ≡ 0 }
    ensures clock { result.clock ≡ 0 }
    ensures level { result.level ≡ 1 }
    ensures pending { result.pending ≡ false }
    ensures top { result.top ≡ scanline - 1 }
    ensures temp { result.temp ≡ whole_byte }
{
    let mut regs = [Val::Range(Span::between(0, 255)); 32];
    regs[16] = Val::Range(Span::single(0));
    regs[17] = Val::Range(Span::single(1));
    regs[18] = Val::Range(Span::single(0));
    Instance {
        kind: Kind::Alone,
        pc: 0,
        line: 0,
        clock: 0,
        level: 1,
        regs,
        ..Instance::default()
    }
}

/// One line, a scanline, without events.
#[tactic(auto, using(crate::proofs::Frames::scanline_each))]
fn frame(alloc: Global, fall: u16) -> Result<Schedule, AllocError>
    ensures lines { IfOk result (λ s. length s.lines ≡ 1) }
    ensures lengths { IfOk result (λ s. (l : ℕ) → length_of s l ≡ scanline) }
    ensures fall { IfOk result (λ s. s.fall ≡ fall) }
{
    let mut kinds = Vec::new(alloc);
    kinds.push(LineEvents::new(alloc))?;
    let mut lengths = Vec::new(alloc);
    lengths.push(SCANLINE)?;
    let mut lines = Vec::new(alloc);
    lines.push(0)?;
    Ok(Schedule {
        kinds: Sequence::from_vec(kinds),
        lengths: Sequence::from_vec(lengths),
        lines: Sequence::from_vec(lines),
        fall,
    })
}

#[tactic(auto, using(crate::proofs::Frames::are_lengths))]
fn program(alloc: Global, fall: u16) -> Result<Program, AllocError>
    requires some { 1 ≤ fall }
    requires in_line { fall < scanline }
    ensures { IfOk result ProgramFits }
{
    let mut starts = Sequence::new(alloc);
    starts.push(start())?;
    Ok(Program {
        head: Head {
            irq: Response::Four,
            lo: 256,
            hi: 257,
            main: 0,
            handler: 0,
            cells: ArrayVec::new(),
            version: RuleVersion::Two,
        },
        schedule: frame(alloc, fall)?,
        facts: BTreeMap::new(alloc),
        starts,
        splits: Sequence::new(alloc),
    })
}

/// What a search comes to.
#[derive(Debug, Drop)]
enum Answer {
    /// So many instances, with what is shown at the clocks 1, 2 and 3.
    Found(usize, Option<EventKind>, Option<EventKind>, Option<EventKind>),
    /// A trail of so many instances.
    Stuck(usize, Fail),
    Full(usize),
    Other,
}

/// The event that is shown at a clock.
fn shown(found: &Found, at: usize) -> Option<EventKind> {
    match found.marks.as_slice().get(at) {
        Some(mark) => mark.event(),
        None => None,
    }
}

fn searched(alloc: Global, fall: u16, limit: u32) -> Result<Answer, AllocError> {
    if fall == 0 || fall >= SCANLINE || limit == 0 {
        return Ok(Answer::Other);
    }
    let image = image(alloc)?;
    let program = program(alloc, fall)?;
    match search(alloc, &image, &program, limit) {
        Ok(found) => Ok(Answer::Found(
            found.nodes.len(),
            shown(&found, 1),
            shown(&found, 2),
            shown(&found, 3),
        )),
        Err(NotFound::Stuck { trail, why }) => Ok(Answer::Stuck(trail.len(), why)),
        Err(NotFound::Full { instances }) => Ok(Answer::Full(instances.len())),
        Err(_) => Ok(Answer::Other),
    }
}

/// What a search with this fall and this limit comes to. Each instruction is met once a clock of the first turn; of the
/// second turn three are new, until the flags are as they were.
pub(crate) fn tell(rt: HostRuntime, row: &mut Row) -> anyhow::Result<()> {
    let fall = row.short();
    let limit = row.number();
    println!(rt; "{:?}", searched(rt.alloc(), fall, limit)?)?;
    Ok(())
}
