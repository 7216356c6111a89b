//! Which register is split next where the search of main is stuck: a choice, of which no clause says anything.

use crate::splitting::{Split, is_split, range_at, split_in};
use crate::stuck::{is_main, read_at};
use uz_core::{AddressMode, Effect, JumpTarget, Operand, SkipTest, effect};
use uz_hex::Image;
use uz_schedule::{Against, Compared, Instance};

/// How far a choice goes back on a trail.
const MOST_STEPS: u32 = 400;

/// Registers that are asked for.
#[derive(Drop)]
struct Wanted {
    /// By number, whether the register is one of them.
    are: [bool; 32],
}

/// A split, and the distance of the ends of the register's range.
#[derive(Clone, Copy)]
struct Choice {
    width: u8,
    split: Split,
}

impl Wanted {
    /// None of them.
    fn none() -> Wanted {
        Wanted { are: [false; 32] }
    }

    /// Whether a register is one of them.
    fn has(&self, register: u8) -> bool {
        register < 32 && self.are[usize::from(register)]
    }

    /// Adds a register.
    fn put(&mut self, register: u8) {
        if register < 32 {
            self.are[usize::from(register)] = true;
        }
    }

    /// Takes a register away.
    fn take(&mut self, register: u8) {
        if register < 32 {
            self.are[usize::from(register)] = false;
        }
    }

    /// Adds a register and the next one.
    fn put_pair(&mut self, low: u8) {
        self.put(low);
        self.put(low.saturating_add(1));
    }

    /// Adds the register of an operand.
    fn put_operand(&mut self, source: Operand) {
        if let Operand::Register(register) = source {
            self.put(register);
        }
    }

    /// Adds the pointer of an address.
    fn put_pointer(&mut self, mode: AddressMode) {
        match mode {
            AddressMode::Direct(_) => {}
            AddressMode::Displacement { pointer, offset: _ } => self.put_pair(pointer),
            AddressMode::PostIncrement { pointer } => self.put_pair(pointer),
            AddressMode::PreDecrement { pointer } => self.put_pair(pointer),
        }
    }

    /// Adds the register that another one was compared with.
    fn put_against(&mut self, source: Against) {
        if let Against::Register(register) = source {
            self.put(register);
        }
    }

    /// Adds the registers that a comparison names.
    fn put_compared(&mut self, compared: Compared) {
        match compared {
            Compared::Nothing => {}
            Compared::Byte(d, source) => {
                self.put(d);
                self.put_against(source);
            }
            Compared::Pair(d, low, high) => {
                self.put_pair(d);
                self.put_against(low);
                self.put(high);
            }
            Compared::Result(d, _, _) => self.put(d),
            Compared::PairResult(d, _, _) => self.put_pair(d),
            Compared::Value(d) => self.put(d),
        }
    }
}

/// The registers of which the address of a store comes, or the target of a jump.
fn wanted_by(e: Effect) -> Wanted {
    let mut wanted = Wanted::none();
    match e {
        Effect::Store { to, r: _ } => wanted.put_pointer(to),
        Effect::Jump {
            target: JumpTarget::Indirect,
            call: _,
        } => wanted.put_pair(30),
        _ => {}
    }
    wanted
}

/// Adds the registers that a branch or a skip on the way asks.
fn ask_way(e: Effect, at: &Instance, wanted: &mut Wanted) {
    match e {
        Effect::Branch { .. } => wanted.put_compared(at.compared),
        Effect::SkipIf {
            test: SkipTest::Equal { d, r },
        } => {
            wanted.put(d);
            wanted.put(r);
        }
        _ => {}
    }
}

/// A register takes the value of an operand: that is asked for in place of it.
fn copy_back(d: u8, source: Operand, wanted: &mut Wanted) {
    if wanted.has(d) {
        wanted.take(d);
        wanted.put_operand(source);
    }
}

/// A pair takes the value of another.
fn pair_back(d: u8, r: u8, wanted: &mut Wanted) {
    let low = wanted.has(d);
    let high = wanted.has(d.saturating_add(1));
    wanted.take(d);
    wanted.take(d.saturating_add(1));
    if low {
        wanted.put(r);
    }
    if high {
        wanted.put(r.saturating_add(1));
    }
}

/// A product in R1:R0 comes of its factors.
fn product_back(d: u8, r: u8, wanted: &mut Wanted) {
    if wanted.has(0) || wanted.has(1) {
        wanted.take(0);
        wanted.take(1);
        wanted.put(d);
        wanted.put(r);
    }
}

/// A byte of flash comes of the pointer Z.
fn flash_back(d: u8, wanted: &mut Wanted) {
    if wanted.has(d) {
        wanted.take(d);
        wanted.put_pair(30);
    }
}

/// The registers of which those that are asked for come by an effect.
fn come_from(e: Effect, wanted: &mut Wanted) {
    match e {
        Effect::CopyByte { d, source } => copy_back(d, source, wanted),
        Effect::CopyPair { d, r } => pair_back(d, r, wanted),
        Effect::Binary {
            op: _,
            d,
            source,
            compare,
        } => {
            if !compare && wanted.has(d) {
                wanted.put_operand(source);
            }
        }
        Effect::Multiply { d, r, .. } => product_back(d, r, wanted),
        Effect::Load { d, from: _ } => wanted.take(d),
        Effect::PopByte { d } => wanted.take(d),
        Effect::LoadProgram { d, increment: _ } => flash_back(d, wanted),
        _ => {}
    }
}

/// Whether an effect leads to few places, which are known.
fn is_followed(e: Effect) -> bool {
    !matches!(
        e,
        Effect::Jump {
            target: JumpTarget::Indirect,
            ..
        } | Effect::Return { .. }
    )
}

/// Whether a range is as narrow as the one that is chosen, or narrower.
fn is_narrow(width: u8, best: Option<Choice>) -> bool {
    match best {
        Some(choice) => width <= choice.width,
        None => true,
    }
}

/// The better one of a choice and a register after the instruction at a program counter.
fn better(pc: u16, register: u8, after: &Instance, best: Option<Choice>) -> Option<Choice> {
    let range = range_at(after, register);
    let width = range.hi().saturating_sub(range.lo());
    if is_split(range) && is_narrow(width, best) {
        Some(Choice {
            width,
            split: Split { pc, register },
        })
    } else {
        best
    }
}

/// The best of a choice and the registers that are asked for after the instruction at a program counter.
fn best_after(pc: u16, after: &Instance, wanted: &Wanted, best: Option<Choice>) -> Option<Choice> {
    let mut best = best;
    for register in 0..32u8 {
        if wanted.has(register) {
            best = better(pc, register, after, best);
        }
    }
    best
}

/// The best of a choice and what an instruction of a trail gives, which leads from one instance to the next.
fn step_back(
    splits: &[Split],
    e: Effect,
    before: &Instance,
    after: &Instance,
    wanted: &mut Wanted,
    best: Option<Choice>,
) -> Option<Choice> {
    let free = is_followed(e) && is_main(before) && split_in(splits, before.pc).is_none();
    let chosen = if free {
        best_after(before.pc, after, wanted, best)
    } else {
        best
    };
    ask_way(e, before, wanted);
    come_from(e, wanted);
    chosen
}

/// The effect of the instruction at an instance; none where there is none.
fn effect_at(image: &Image, at: &Instance) -> Effect {
    match read_at(image, at.pc) {
        Some(i) => effect(&i),
        None => Effect::NoOperation,
    }
}

/// A register that may be split next, where a trail of main is refused at its last instance: one of which the address of its store comes,
/// or the target of its jump, after an instruction where none is split yet by these. Of the ranges of 2 to 64 values the narrowest is taken.
/// Nothing is said of how good the choice is. Time is linear in the trail.
pub fn candidate(image: &Image, splits: &[Split], trail: &[Instance]) -> Option<Split> {
    let mut number = trail.len().saturating_sub(1);
    let mut wanted = match trail.last() {
        Some(last) => wanted_by(effect_at(image, last)),
        None => return None,
    };
    let mut best = None;
    for _ in 0..MOST_STEPS {
        if number == 0 {
            break;
        }
        best = match (trail.get(number - 1), trail.get(number)) {
            (Some(before), Some(after)) => step_back(
                splits,
                effect_at(image, before),
                before,
                after,
                &mut wanted,
                best,
            ),
            _ => best,
        };
        number -= 1;
    }
    match best {
        Some(choice) => Some(choice.split),
        None => None,
    }
}
