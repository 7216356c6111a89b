//! The text of a session.

ghost use Rattle.std.specs.Prelude.{◌≡◌, ◌<◌, ◌++◌, List, All, IfOk, OnOk, codes, decimal};
ghost use Rattle.uz_core.specs.PadLine.{PadHistory};
ghost use Rattle.uz_core.specs.Turn.{State};
ghost use Rattle.uz_debug.specs.Debuggers.{Debugs, read_of, session_of};
ghost use Rattle.uz_hex.specs.Hexadecimals.{hex_byte, hex_word};
ghost use Rattle.uz_debug.specs.SessionText.{AddsLine, Prints, at_text, bytes_text, gap, show_text, shown_text};
ghost use Rattle.uz_debug.specs.SessionText.{status_text, stopped_at, stopped_line, why_name as name_of_why};
ghost use Rattle.uz_debug.specs.Sessions.{IsInRange};
ghost use Rattle.uz_debug.specs.declared.command.Command.{Command};
ghost use Rattle.uz_debug.specs.declared.command.Reply.{Reply};

use crate::command::{Command, DebugWhy, Reply};
use crate::debugger::Debugger;
use itoa::Buffer;
use std::alloc::{AllocError, Global};
use uz_console::Console;
use uz_hex::{byte_digits, word_digits};

/// The data addresses of SPL, SPH and SREG (ATmega644 data sheet, "Register Summary").
const SPL: u16 = 0x5D;

const SPH: u16 = 0x5E;

const SREG: u16 = 0x5F;

/// Adds one piece and another behind it.
fn add_both(text: &mut Vec<u8>, first: &[u8], second: &[u8]) -> Result<(), AllocError>
    ensures { OnOk result (text.new.items ≡ text.old.items ++ (first.now ++ second.now)) }
{
    text.extend_from_slice(first)?;
    text.extend_from_slice(second)
}

/// Adds a name and a number in decimal.
fn add_number(text: &mut Vec<u8>, name: &[u8], value: u64) -> Result<(), AllocError>
    ensures { OnOk result (text.new.items ≡ text.old.items ++ (name.now ++ decimal value)) }
{
    add_both(text, name, Buffer::new().format(value).as_bytes())
}

/// Adds a name and a word in hexadecimal.
fn add_word(text: &mut Vec<u8>, name: &[u8], value: u16) -> Result<(), AllocError>
    ensures { OnOk result (text.new.items ≡ text.old.items ++ (name.now ++ hex_word value)) }
{
    add_both(text, name, &word_digits(value))
}

/// Adds where the debugger is, without the LF.
fn add_place(text: &mut Vec<u8>, turn: u32, clock: u64, pc: u16) -> Result<(), AllocError>
    ensures { OnOk result (text.new.items ≡ text.old.items ++ at_text turn clock pc) }
{
    add_number(text, b"at ", u64::from(turn))?;
    add_number(text, b" clock ", clock)?;
    add_word(text, b" pc 0x", pc)
}

/// Adds the line of where the debugger is.
fn add_at(text: &mut Vec<u8>, turn: u32, clock: u64, pc: u16) -> Result<(), AllocError>
    ensures { OnOk result (text.new.items ≡ text.old.items ++ (at_text turn clock pc ++ codes "\n")) }
{
    add_place(text, turn, clock, pc)?;
    text.extend_from_slice(b"\n")
}

fn add_stop_place(text: &mut Vec<u8>, turn: u32, pc: u16) -> Result<(), AllocError>
    ensures { OnOk result (text.new.items ≡ text.old.items ++ stopped_at turn pc) }
{
    add_number(text, b"stopped at ", u64::from(turn))?;
    add_word(text, b" pc 0x", pc)
}

fn add_stop(text: &mut Vec<u8>, turn: u32, pc: u16, word: u16) -> Result<(), AllocError>
    ensures { OnOk result (text.new.items ≡ text.old.items ++ stopped_line turn pc word) }
{
    add_stop_place(text, turn, pc)?;
    add_word(text, b" word 0x", word)?;
    text.extend_from_slice(b"\n")
}

/// The name of a why, as it is printed.
fn why_name(why: DebugWhy) -> &'static [u8]
    ensures { result.now ≡ name_of_why why }
{
    match why {
        DebugWhy::Limit => b"Limit",
        DebugWhy::Far => b"Far",
        DebugWhy::Breaks => b"Breaks",
        DebugWhy::Unset => b"Unset",
    }
}

fn add_refusal(text: &mut Vec<u8>, why: DebugWhy) -> Result<(), AllocError>
    ensures { OnOk result (text.new.items ≡ text.old.items ++ (codes "refused " ++ name_of_why why ++ codes "\n")) }
{
    add_both(text, b"refused ", why_name(why))?;
    text.extend_from_slice(b"\n")
}

/// What stands before byte number n of a row.
fn gap_before(n: u8) -> &'static [u8]
    ensures { result.now ≡ gap n }
{
    if n == 0 { b"" } else { b" " }
}

/// Adds a name and the byte at a data address.
fn add_byte(text: &mut Vec<u8>, name: &[u8], console: &Console, at: u16) -> Result<(), AllocError>
    ensures { OnOk result (text.new.items ≡ text.old.items ++ (name.now ++ hex_byte (read_of console.now at))) }
{
    add_both(text, name, &byte_digits(console.byte(at)))
}

/// Adds so many bytes of the data space, with a space between.
fn add_bytes(text: &mut Vec<u8>, console: &Console, at: u16, count: u8) -> Result<(), AllocError>
    ensures { OnOk result (text.new.items ≡ text.old.items ++ bytes_text (read_of console.now) at count) }
{
    for n in 0..count {
        add_byte(text, gap_before(n), console, at.wrapping_add(u16::from(n)))?;
    }
    Ok(())
}

/// Adds a row of bytes.
fn add_row(text: &mut Vec<u8>, console: &Console, at: u16, count: u8) -> Result<(), AllocError>
    ensures { OnOk result (text.new.items ≡ text.old.items ++ (bytes_text (read_of console.now) at count ++ codes "\n")) }
{
    add_bytes(text, console, at, count)?;
    text.extend_from_slice(b"\n")
}

/// Adds the status register and the stack pointer.
fn add_status(text: &mut Vec<u8>, console: &Console) -> Result<(), AllocError>
    ensures { OnOk result (text.new.items ≡ text.old.items ++ status_text (read_of console.now)) }
{
    add_byte(text, b" sreg 0x", console, SREG)?;
    add_byte(text, b" sp 0x", console, SPH)?;
    add_byte(text, b"", console, SPL)?;
    text.extend_from_slice(b"\n")
}

/// Adds what `show` shows.
fn add_registers(
    text: &mut Vec<u8>,
    console: &Console,
    turn: u32,
    clock: u64,
    pc: u16,
) -> Result<(), AllocError>
    ensures { OnOk result (text.new.items ≡ text.old.items ++ show_text turn clock pc (read_of console.now)) }
{
    add_place(text, turn, clock, pc)?;
    add_status(text, console)?;
    add_row(text, console, 0, 32)
}

/// Adds what a command shows of a console.
fn add_console(
    text: &mut Vec<u8>,
    console: &Console,
    turn: u32,
    clock: u64,
    pc: u16,
    command: Command,
) -> Result<(), AllocError>
    ensures { OnOk result (text.new.items ≡ text.old.items ++ shown_text command turn clock pc (read_of console.now)) }
{
    match command {
        Command::Show => add_registers(text, console, turn, clock, pc),
        Command::Mem(at, count) => add_row(text, console, at, count),
        _ => Ok(()),
    }
}

/// Adds what a command shows of the console.
fn add_shown(text: &mut Vec<u8>, debugger: &Debugger, command: Command) -> Result<(), AllocError>
    ensures { OnOk result ((start : State PadHistory) (done : List (Command × Reply)) → Debugs start done debugger.now
        → AddsLine start (session_of debugger.now).turn command Reply.Shown text.old.items text.new.items) }
{
    let console = debugger.console();
    add_console(
        text,
        console,
        debugger.turn(),
        console.clock(),
        console.pc(),
        command,
    )
}

/// Adds the line of a reply.
fn add_line(
    text: &mut Vec<u8>,
    debugger: &Debugger,
    command: Command,
    reply: Reply,
) -> Result<(), AllocError>
    ensures { OnOk result ((start : State PadHistory) (done : List (Command × Reply)) → Debugs start done debugger.now
        → AddsLine start (session_of debugger.now).turn command reply text.old.items text.new.items) }
{
    match reply {
        Reply::At { turn, clock, pc } => add_at(text, turn, clock, pc),
        Reply::Stopped { turn, pc, word } => add_stop(text, turn, pc, word),
        Reply::Fine => text.extend_from_slice(b"ok\n"),
        Reply::Shown => add_shown(text, debugger, command),
        Reply::Refused(why) => add_refusal(text, why),
    }
}

/// Does commands in order, and answers their lines.
pub fn session_text(
    alloc: Global,
    debugger: &mut Debugger,
    commands: &[Command],
) -> Result<Vec<u8>, AllocError>
    requires { All IsInRange commands.now }
    ensures { IfOk result (λ text. (start : State PadHistory) (done : List (Command × Reply)) → Debugs start done debugger.old
        → Prints start (session_of debugger.old) commands.now text.items (session_of debugger.new)) }
{
    let mut text = Vec::new(alloc);
    for command in commands {
        let reply = debugger.act(alloc, *command)?;
        add_line(&mut text, debugger, *command, reply)?;
    }
    Ok(text)
}
