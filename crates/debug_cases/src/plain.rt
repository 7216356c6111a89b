//! A plain debugger: its state is a turn number, breakpoints and slots, and for each command it runs a console from reset. It
//! keeps no state of the console, and shares no code with the debugger of uz_debug.

use std::alloc::{AllocError, Global};
use uz_console::{Console, Response};
use uz_debug::Command;
use uz_hex::Image;
use uz_pads::Pad;

/// The greatest turn number.
const LAST_TURN: u32 = 100_000_000;

/// The pairs of the pads.
pub(crate) fn pads(alloc: Global) -> Result<Vec<Pad>, AllocError> {
    let mut list = Vec::new(alloc);
    for (one, two) in [(0x0001, 0x0800), (0x0F0F, 0), (0xFFFF, 0x1234)] {
        list.push(Pad { one, two })?;
    }
    Ok(list)
}

/// The console after so many turns from reset, or after those that there are.
fn console_at(alloc: Global, image: &Image, turn: u32) -> Result<Console, AllocError> {
    let mut console = Console::reset(alloc, image.copy(alloc)?, pads(alloc)?, Response::Five)?;
    for _ in 0..turn {
        let _made = go_on(&mut console);
    }
    Ok(console)
}

/// Makes a turn, and answers whether there was one.
fn go_on(console: &mut Console) -> bool {
    console.clock() < 1 << 40 && console.pass_turn().is_none()
}

fn place(alloc: Global, turn: u32, console: &Console) -> Result<String, AllocError> {
    format!(in alloc;
        "at {} clock {} pc 0x{:04X}",
        turn,
        console.clock(),
        console.pc()
    )
}

fn fine(alloc: Global) -> Result<String, AllocError> {
    format!(in alloc; "ok\n")
}

fn refused(alloc: Global, why: &str) -> Result<String, AllocError> {
    format!(in alloc; "refused {}\n", why)
}

/// So many bytes of the data space, with a space between.
fn bytes(alloc: Global, console: &Console, at: u16, count: u8) -> Result<String, AllocError> {
    let mut text = String::new(alloc);
    for n in 0..count {
        let gap = if n == 0 { "" } else { " " };
        write!(
            text,
            "{}{:02X}",
            gap,
            console.byte(at.wrapping_add(u16::from(n)))
        )?;
    }
    writeln!(text)?;
    Ok(text)
}

/// A debugger without states of the console.
#[derive(Drop)]
pub(crate) struct Plain {
    turn: u32,
    breakpoints: Vec<u16>,
    slots: [Option<u32>; 10],
}

impl Plain {
    /// At reset.
    pub(crate) fn new(alloc: Global) -> Plain {
        Plain {
            turn: 0,
            breakpoints: Vec::new(alloc),
            slots: [None; 10],
        }
    }

    /// The turn number.
    pub(crate) fn turn(&self) -> u32 {
        self.turn
    }

    fn is_breakpoint(&self, pc: u16) -> bool {
        self.breakpoints.iter().any(|stop| *stop == pc)
    }

    /// So many turns on, or to the first breakpoint where they are heeded.
    fn go(
        &mut self,
        alloc: Global,
        image: &Image,
        count: u32,
        heeds: bool,
    ) -> Result<String, AllocError> {
        if self.turn.saturating_add(count) > LAST_TURN {
            return refused(alloc, "Limit");
        }
        let mut console = console_at(alloc, image, self.turn)?;
        for _ in 0..count {
            if !go_on(&mut console) {
                return format!(in alloc;
                    "stopped at {} pc 0x{:04X} word 0x{:04X}\n",
                    self.turn,
                    console.pc(),
                    console.word()
                );
            }
            self.turn = self.turn.saturating_add(1);
            if heeds && self.is_breakpoint(console.pc()) {
                break;
            }
        }
        format!(in alloc; "{}\n", place(alloc, self.turn, &console)?)
    }

    /// At another turn.
    fn go_to(&mut self, alloc: Global, image: &Image, turn: u32) -> Result<String, AllocError> {
        self.turn = turn;
        let console = console_at(alloc, image, turn)?;
        format!(in alloc; "{}\n", place(alloc, turn, &console)?)
    }

    fn set(&mut self, alloc: Global, pc: u16) -> Result<String, AllocError> {
        if !self.is_breakpoint(pc) {
            if self.breakpoints.len() >= 64 {
                return refused(alloc, "Breaks");
            }
            self.breakpoints.push(pc)?;
        }
        fine(alloc)
    }

    fn clear(&mut self, alloc: Global, pc: u16) -> Result<String, AllocError> {
        if !self.is_breakpoint(pc) {
            return refused(alloc, "Unset");
        }
        let mut others = Vec::new(alloc);
        for stop in self.breakpoints.as_slice() {
            if *stop != pc {
                others.push(*stop)?;
            }
        }
        self.breakpoints = others;
        fine(alloc)
    }

    fn save(&mut self, alloc: Global, slot: u8) -> Result<String, AllocError> {
        if let Some(place) = self.slots.get_mut(slot as usize) {
            *place = Some(self.turn);
        }
        fine(alloc)
    }

    fn load(&mut self, alloc: Global, image: &Image, slot: u8) -> Result<String, AllocError> {
        match self.slots.get(slot as usize) {
            Some(Some(turn)) => {
                let turn = *turn;
                self.go_to(alloc, image, turn)
            }
            _ => refused(alloc, "Unset"),
        }
    }

    /// The place, SREG, SP and the registers.
    fn show(&self, alloc: Global, image: &Image) -> Result<String, AllocError> {
        let console = console_at(alloc, image, self.turn)?;
        let at = place(alloc, self.turn, &console)?;
        let sreg = console.byte(0x5F);
        let high = console.byte(0x5E);
        let low = console.byte(0x5D);
        let row = bytes(alloc, &console, 0, 32)?;
        format!(in alloc;
            "{} sreg 0x{:02X} sp 0x{:02X}{:02X}\n{}",
            at, sreg, high, low, row
        )
    }

    /// Does a command, and answers its lines.
    pub(crate) fn act(
        &mut self,
        alloc: Global,
        image: &Image,
        command: Command,
    ) -> Result<String, AllocError> {
        match command {
            Command::Step(count) => self.go(alloc, image, count, false),
            Command::Run(count) => self.go(alloc, image, count, true),
            Command::Back(count) => {
                if count > self.turn {
                    return refused(alloc, "Far");
                }
                self.go_to(alloc, image, self.turn.saturating_sub(count))
            }
            Command::Break(pc) => self.set(alloc, pc),
            Command::Clear(pc) => self.clear(alloc, pc),
            Command::Save(slot) => self.save(alloc, slot),
            Command::Load(slot) => self.load(alloc, image, slot),
            Command::Show => self.show(alloc, image),
            Command::Mem(at, count) => {
                let console = console_at(alloc, image, self.turn)?;
                bytes(alloc, &console, at, count)
            }
        }
    }
}
