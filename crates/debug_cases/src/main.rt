//! Draws scripts of commands, 2,000 in all and the same in every run, does them with the debugger and with a plain one that
//! runs from reset for each command, and compares the lines. Standard input is the image in Intel HEX. For each script it
//! prints how many lines of each kind there were, and a difference where there is one.
#![tactic(auto)]

ghost use Rattle.std.specs.Prelude.{◌<◌, ◌≤◌};
ghost use Rattle.uz_debug.specs.Sessions.{IsInRange};

mod draw;
mod plain;

use anyhow::Result;
use plain::{Plain, pads};
use random_numbers::Random;
use std::alloc::Global;
use uz_console::Response;
use uz_debug::{Command, Debugger, session_text};
use uz_hex::{Image, read_hex};

/// How many commands a script has.
const COMMANDS: u32 = 500;

/// The lines of one command.
fn lines(alloc: Global, debugger: &mut Debugger, command: Command) -> Result<Vec<u8>>
    requires { IsInRange command }
{
    let text = session_text(alloc, debugger, &[command])?;
    Ok(text)
}

/// How many lines of each kind.
#[derive(Drop)]
struct Counts {
    at: u32,
    stopped: u32,
    fine: u32,
    refused: u32,
    shown: u32,
}

impl Counts {
    fn count(&mut self, line: &[u8]) {
        let place = match line {
            [b'o', ..] => &mut self.fine,
            [b'r', ..] => &mut self.refused,
            [b's', ..] => &mut self.stopped,
            [b'a', .., b'\n'] => &mut self.at,
            _ => &mut self.shown,
        };
        *place = place.wrapping_add(1);
    }
}

/// Does a script of commands with both, with breakpoints below a word address. Answers whether all lines were alike.
fn compare(rt: &HostRuntime, image: &Image, random: &mut Random, limit: u16) -> Result<bool>
    requires low { 0 < limit }
    requires high { limit ≤ 32768 }
{
    let alloc = rt.alloc();
    let mut debugger = Debugger::new(alloc, image.copy(alloc)?, pads(alloc)?, Response::Five)?;
    let mut plain = Plain::new(alloc);
    let mut counts = Counts {
        at: 0,
        stopped: 0,
        fine: 0,
        refused: 0,
        shown: 0,
    };
    for number in 1..COMMANDS + 1 {
        let command = draw::command(random, plain.turn(), limit);
        let wanted = plain.act(alloc, image, command)?;
        let got = lines(alloc, &mut debugger, command)?;
        if got.as_slice() != wanted.as_bytes() {
            println!(rt; "command {} {:?}: {}", number, command, wanted)?;
            return Ok(false);
        }
        counts.count(got.as_slice());
    }
    println!(rt;
        "below {}: at {} stopped {} ok {} refused {} shown {}",
        limit, counts.at, counts.stopped, counts.fine, counts.refused, counts.shown
    )?;
    Ok(true)
}

fn main(rt: HostRuntime) -> Result<()> {
    let alloc = rt.alloc();
    let mut text = Vec::new(alloc);
    for line in rt.lines(alloc) {
        text.extend_from_slice(line?.as_bytes())?;
        text.push(b'\n')?;
    }
    if text.len() > 1_000_000 {
        return Ok(());
    }
    match read_hex(alloc, text.as_slice()) {
        Ok(image) => {
            let mut random = Random::new(1);
            for limit in [30000, 400, 137, 80] {
                let _alike = compare(&rt, &image, &mut random, limit)?;
            }
        }
        Err(fault) => println!(rt; "line {} {:?}", fault.line, fault.why)?,
    }
    Ok(())
}
