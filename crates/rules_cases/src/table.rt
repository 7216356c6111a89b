//! A table of instances on standard input.
//!
//! Its rows:
//!
//! - `|LINE`: a line of a certificate's text. The points of the certificate are the instances.
//! - `read`: the certificate of the lines so far.
//! - `word AT WORD`: a word of the flash, both as decimal numbers.
//! - `ask N`: what `uz_rules::local` and `uz_rules::after` answer of point N at the first line and the first count of its box.
//! - `rest N C`: the handler's first state after rest N, where its interrupt is taken at clock C of the next line: pc, line, clock,
//!   level, pending, OCR1A and TEMP.
//! - `rules V`: the certificate is judged by version V of the rules, 2 or 3.
//! - `split N R`: point N has register R for a cover.
//! - `flags N WORD`: at point N the flags tell this (`facts`).
//! - `step NAME; VERSION KIND WORD WORD; ITEMS`: what `uz_rules::after` answers of one instruction (`steps`).
//!
//! Other rows are printed as they are.

ghost use Rattle.std.specs.Prelude.{◌≡◌, ◌<◌, ◌≤◌, length, true};
ghost use Rattle.uz_schedule.specs.Limits.{most_lines};
ghost use Rattle.uz_schedule.specs.Schedule.{scanline, length_of};

use crate::facts::compared_of;
use crate::report::{tell_answer, tell_first_state, tell_reason};
use crate::steps::{tell_step, version_of};
use crate::three::{Given, judged_by, with_given};
use anyhow::Result;
use std::alloc::Global;
use uz_cert::read_cert;
use uz_hex::Image;
use uz_rules::{after, local};
use uz_schedule::{
    Cert, Head, Instance, MOST_LINES, RuleVersion, SCANLINE, Schedule, schedule_fits, well_formed,
};

/// What the table has said so far.
#[derive(Drop)]
pub(crate) struct Table {
    text: Vec<u8>,
    flash: Image,
    cert: Option<Cert>,
}

/// Sets the word at a word address, round the flash.
pub(crate) fn set_word(flash: &mut Image, at: u16, word: u16) {
    let low = at % 32768 * 2;
    flash.set(low, (word % 256) as u8);
    flash.set(low + 1, (word / 256) as u8);
}

/// Two numbers with a space between.
fn two_numbers(text: &str) -> Option<(u16, u16)> {
    let (a, b) = text.split_once(" ")?;
    Some((a.parse().ok()?, b.parse().ok()?))
}

/// The number of a point and what a row gives it.
fn given_of(row: &str) -> Option<(usize, Given)> {
    let (name, rest) = row.split_once(" ")?;
    let (id, word) = rest.split_once(" ")?;
    let id = id.parse().ok()?;
    match name {
        "split" => Some((id, Given::Split(word.parse().ok()?))),
        "flags" => Some((id, Given::Told(compared_of(word)?))),
        _ => None,
    }
}

/// Whether an instance stands at a clock of a line of a frame, of which there are at most 525, none longer than a scanline.
pub(crate) fn is_on_line(frame: &Schedule, at: &Instance) -> bool
    ensures count { result ≡ true → length frame.now.lines ≤ most_lines }
    ensures line { result ≡ true → at.now.line < length frame.now.lines }
    ensures long { result ≡ true → length_of frame.now at.now.line ≤ scanline }
    ensures clock { result ≡ true → at.now.clock < length_of frame.now at.now.line }
{
    let length = frame.length(at.line);
    frame.lines.len() <= MOST_LINES
        && usize::from(at.line) < frame.lines.len()
        && length <= SCANLINE
        && at.clock < length
}

/// Tells the abstract results of an instance of a frame.
#[tactic(auto, using(crate::proofs::Depth::depth_fits))]
fn tell_results(
    rt: &HostRuntime,
    flash: &Image,
    head: &Head,
    frame: &Schedule,
    at: &Instance,
) -> Result<()> {
    if head.main > 32 || head.handler > 32 {
        println!(rt; "beyond the limits")?;
    } else if is_on_line(frame, at) {
        tell_answer(rt, at, &after(flash, head, frame, at))?;
    } else {
        println!(rt; "off its line")?;
    }
    Ok(())
}

/// Tells the answers of a point at its box's first line and count.
fn tell_point(rt: &HostRuntime, flash: &Image, cert: &Cert, id: u32) -> Result<()> {
    if !well_formed(cert) {
        println!(rt; "not well formed")?;
        return Ok(());
    }
    let Some(point) = cert.points.as_slice().get(id as usize) else {
        println!(rt; "{} is no point", id)?;
        return Ok(());
    };
    let mut looked = 0;
    let reason = local(flash, cert, id, point.l0, point.c0, &mut looked);
    print!(rt; "{}: ", id)?;
    tell_reason(rt, reason)?;
    print!(rt; "; ")?;
    match cert.instance(id, point.l0, point.c0) {
        Some(at) => tell_results(rt, flash, &cert.head, &cert.schedule, &at),
        None => {
            println!(rt; "no instance")?;
            Ok(())
        }
    }
}

/// Tells the handler's first state after a rest, at clock `c` of the next line.
fn tell_rest(rt: &HostRuntime, cert: &Cert, n: u16, c: u16) -> Result<()> {
    let Some(rest) = cert.rests.as_slice().get(usize::from(n)) else {
        println!(rt; "{} is no rest", n)?;
        return Ok(());
    };
    let is_line = usize::from(rest.line) < cert.schedule.lines.len();
    if c > 255 || !is_line || !schedule_fits(&cert.schedule) {
        println!(rt; "not well formed")?;
        return Ok(());
    }
    print!(rt; "rest {} {}: ", n, c)?;
    tell_first_state(rt, &cert.rest_instance(rest, c as u8))
}

impl Table {
    /// An empty table.
    pub(crate) fn new(alloc: Global) -> Result<Table> {
        Ok(Table {
            text: Vec::new(alloc),
            flash: Image::empty(alloc)?,
            cert: None,
        })
    }

    /// Reads the certificate of the lines so far.
    fn read(&mut self, rt: &HostRuntime) -> Result<()> {
        if self.text.len() >= u32::MAX as usize {
            println!(rt; "too long")?;
            return Ok(());
        }
        match read_cert(rt.alloc(), self.text.as_slice()) {
            Ok(cert) => self.cert = Some(cert),
            Err(error) => println!(rt; "line {} {:?}", error.line, error.why)?,
        }
        self.text.clear();
        Ok(())
    }

    /// Has the certificate judged by the rules of a version.
    fn judge_by(&mut self, version: RuleVersion) {
        if let Some(cert) = self.cert.take() {
            self.cert = Some(judged_by(cert, version));
        }
    }

    /// Gives a point of the certificate something.
    fn give(&mut self, id: usize, given: Given) {
        if let Some(cert) = self.cert.take() {
            self.cert = Some(with_given(cert, id, given));
        }
    }

    /// Does a row that changes the certificate, and answers whether it is one.
    fn change(&mut self, row: &str) -> bool {
        if let Some(word) = row.strip_prefix("rules ")
            && let Some(version) = version_of(word)
        {
            self.judge_by(version);
            return true;
        }
        match given_of(row) {
            Some((id, given)) => {
                self.give(id, given);
                true
            }
            None => false,
        }
    }

    /// Does a row of two words or more.
    fn act(&mut self, rt: &HostRuntime, row: &str) -> Result<()> {
        if let Some(rest) = row.strip_prefix("word ") {
            if let Some((at, word)) = two_numbers(rest) {
                set_word(&mut self.flash, at, word);
                return Ok(());
            }
        }
        if let Some(rest) = row.strip_prefix("ask ") {
            if let (Ok(id), Some(cert)) = (rest.parse::<u32>(), &self.cert) {
                return tell_point(rt, &self.flash, cert, id);
            }
        }
        if let Some(rest) = row.strip_prefix("rest ") {
            if let (Some((n, c)), Some(cert)) = (two_numbers(rest), &self.cert) {
                return tell_rest(rt, cert, n, c);
            }
        }
        if let Some(rest) = row.strip_prefix("step ") {
            return tell_step(rt, &mut self.flash, rest);
        }
        if !self.change(row) {
            println!(rt; "{}", row)?;
        }
        Ok(())
    }

    /// Does a row.
    pub(crate) fn row(&mut self, rt: &HostRuntime, row: &str) -> Result<()> {
        if let Some(line) = row.strip_prefix("|") {
            self.text.extend_from_slice(line.as_bytes())?;
            self.text.push(b'\n')?;
            return Ok(());
        }
        if row == "read" {
            return self.read(rt);
        }
        self.act(rt, row)
    }
}
