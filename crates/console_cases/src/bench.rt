//! A console, its copy and its saved state.

use crate::command::Command;
use crate::report::{print_edges, print_place, print_stop};
use anyhow::Result;
use arrayvec::ArrayVec;
use std::alloc::{AllocError, Global};
use uz_console::{Console, Paged, Response, SaveState, Turn};
use uz_hex::Image;

/// No clock of a case comes so far.
const LAST_CLOCK: u64 = 1 << 40;

/// What the commands act on.
#[derive(Drop)]
pub(crate) struct Bench {
    flash: Image,
    console: Console,
    copy: Console,
    save: SaveState,
}

fn set_word(image: &mut Image, at: u16, word: u16) {
    let low = at % 32768 * 2;
    image.set(low, (word % 256) as u8);
    image.set(low + 1, (word / 256) as u8);
}

fn reset(alloc: Global, flash: &Image, irq: Response) -> Result<Console, AllocError> {
    Console::reset(alloc, flash.copy(alloc)?, Vec::new(alloc), irq)
}

/// The run of so many clocks from reset, from where the console is.
fn run(rt: &impl Print, console: &mut Console, clocks: u32) -> Result<()> {
    let mut page = ArrayVec::new();
    for _ in 0..clocks {
        let paged = console.advance_page(u64::from(clocks), &mut page);
        print_edges(rt, page.as_slice())?;
        match paged {
            Paged::Full => {}
            Paged::Over => break,
            Paged::Stopped(why) => {
                print_stop(rt, why)?;
                break;
            }
        }
    }
    Ok(())
}

fn turns(rt: &impl Print, console: &mut Console, count: u16) -> Result<()> {
    for _ in 0..count {
        if console.clock() >= LAST_CLOCK {
            break;
        }
        match console.turn() {
            Turn::Took { edges } => print_edges(rt, edges.as_slice())?,
            Turn::Stopped(why) => {
                print_stop(rt, why)?;
                break;
            }
        }
    }
    Ok(())
}

fn pass(rt: &impl Print, console: &mut Console, count: u16) -> Result<()> {
    for _ in 0..count {
        if console.clock() >= LAST_CLOCK {
            break;
        }
        if let Some(why) = console.pass_turn() {
            print_stop(rt, why)?;
            break;
        }
    }
    Ok(())
}

impl Bench {
    /// An erased flash, and consoles of it.
    pub(crate) fn new(alloc: Global) -> Result<Bench, AllocError> {
        let flash = Image::empty(alloc)?;
        let console = reset(alloc, &flash, Response::Four)?;
        let copy = console.copy(alloc)?;
        let save = console.save(alloc)?;
        Ok(Bench {
            flash,
            console,
            copy,
            save,
        })
    }

    fn set_words(&mut self, at: u16, words: [u16; 4]) {
        let mut place = at;
        for word in words {
            set_word(&mut self.flash, place, word);
            place = place.wrapping_add(1);
        }
    }

    fn exchange(&mut self, alloc: Global) -> Result<(), AllocError> {
        let copy = self.copy.copy(alloc)?;
        self.copy = self.console.copy(alloc)?;
        self.console = copy;
        Ok(())
    }

    /// Does a command.
    pub(crate) fn act(&mut self, rt: &HostRuntime, command: Command) -> Result<()> {
        let alloc = rt.alloc();
        match command {
            Command::Words { at, words } => self.set_words(at, words),
            Command::Nops { from, to } => {
                for at in from..to {
                    set_word(&mut self.flash, at, 0);
                }
            }
            Command::Reset(irq) => self.console = reset(alloc, &self.flash, irq)?,
            Command::Run(clocks) => run(rt, &mut self.console, clocks)?,
            Command::Turns(count) => turns(rt, &mut self.console, count)?,
            Command::Pass(count) => pass(rt, &mut self.console, count)?,
            Command::Copy => self.copy = self.console.copy(alloc)?,
            Command::Other => self.exchange(alloc)?,
            Command::Save => self.save = self.console.save(alloc)?,
            Command::Load => self.console.load(&self.save),
            Command::Where => print_place(rt, &self.console)?,
        }
        Ok(())
    }
}
