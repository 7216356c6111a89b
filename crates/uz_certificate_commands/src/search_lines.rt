//! The line that says why no certificate is found.

ghost use Rattle.std.specs.Prelude.{◌≡◌, IfOk};
ghost use Rattle.uz_certificate_commands.specs.SearchLines.{last_clock as clock_of_last, last_line as line_of_last};
ghost use Rattle.uz_certificate_commands.specs.SearchLines.{last_pc as pc_of_last, not_found_line};
ghost use Rattle.uz_certificate_commands.specs.SearchLines.{split_line, stuck_line};

use crate::verdict_lines::reason_name;
use std::alloc::{AllocError, Global};
use uz_check::Fail;
use uz_files::{number_line, put_number, put_value};
use uz_hex::word_digits;
use uz_paths::NotFound;
use uz_schedule::Instance;

/// The word address of a trail's last instance.
fn last_pc(trail: &[Instance]) -> u16
    ensures { result ≡ pc_of_last trail.now }
{
    match trail.last() {
        Some(at) => at.pc,
        None => 0,
    }
}

/// The line of a trail's last instance.
fn last_line(trail: &[Instance]) -> u16
    ensures { result ≡ line_of_last trail.now }
{
    match trail.last() {
        Some(at) => at.line,
        None => 0,
    }
}

/// The clock at which a trail's last instance starts.
fn last_clock(trail: &[Instance]) -> u16
    ensures { result ≡ clock_of_last trail.now }
{
    match trail.last() {
        Some(at) => at.clock,
        None => 0,
    }
}

/// The line of a trail whose last instance can't be certified.
fn stuck_line(alloc: Global, trail: &[Instance], why: Fail) -> Result<Vec<u8>, AllocError>
    ensures { IfOk result (λ line. line.items ≡ stuck_line trail.now why) }
{
    let mut line = Vec::new(alloc);
    put_value(
        &mut line,
        b"refused stuck pc 0x",
        &word_digits(last_pc(trail)),
    )?;
    put_number(&mut line, b" line ", u64::from(last_line(trail)))?;
    put_number(&mut line, b" clock ", u64::from(last_clock(trail)))?;
    put_value(&mut line, b" ", reason_name(why))?;
    line.extend_from_slice(b"\n")?;
    Ok(line)
}

/// The line of two trails that differ.
fn split_line(alloc: Global, first: &[Instance], second: &[Instance]) -> Result<Vec<u8>, AllocError>
    ensures { IfOk result (λ line. line.items ≡ split_line first.now second.now) }
{
    let mut line = Vec::new(alloc);
    put_number(
        &mut line,
        b"refused split line ",
        u64::from(last_line(first)),
    )?;
    put_number(&mut line, b" clock ", u64::from(last_clock(first)))?;
    put_number(&mut line, b" and clock ", u64::from(last_clock(second)))?;
    line.extend_from_slice(b"\n")?;
    Ok(line)
}

/// The line that says why no certificate is found.
pub fn not_found_line(alloc: Global, why: &NotFound) -> Result<Vec<u8>, AllocError>
    ensures { IfOk result (λ line. line.items ≡ not_found_line why.now) }
{
    match why {
        NotFound::Stuck { trail, why } => stuck_line(alloc, trail.as_slice(), *why),
        NotFound::Split { first, second } => split_line(alloc, first.as_slice(), second.as_slice()),
        NotFound::Full { instances } => {
            number_line(alloc, b"refused full ", instances.len() as u64)
        }
        NotFound::Hint { index } => number_line(alloc, b"refused hint ", u64::from(*index)),
        NotFound::NoRest { .. } => Vec::from_slice(alloc, b"refused no rest\n"),
        NotFound::Memory => Ok(Vec::new(alloc)),
    }
}
