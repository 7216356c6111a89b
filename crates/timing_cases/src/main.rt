//! Tells the schedules of certificates as a person reads them, as a script on standard input says. What is to be printed is
//! worked out by tests/timing_answers.py.
//!
//! The script's lines:
//!
//! - `text`: a new text of a certificate. `|LINE`: a line at the end of the text.
//! - `tell`: the text is read, and its schedule is told, or what is wrong with the text.
//!
//! Other lines are printed as they are.
#![tactic(auto)]

ghost use Rattle.std.specs.Prelude.{IfOk, IfSome};
ghost use Rattle.uz_schedule.specs.WellFormed.{WellFormed};

use anyhow::Result;
use std::io::{self, Write};
use uz_cert::{CertError, read_cert};
use uz_report::timing;
use uz_schedule::Cert;

/// Says what is wrong with a text that is no certificate.
fn tell_fault(rt: HostRuntime, fault: CertError) -> Result<()> {
    println!(rt; "line {} {}", fault.line, fault.why.name())?;
    Ok(())
}

/// The certificate of a text. Says what is wrong with a text that is none.
fn read(rt: HostRuntime, text: &[u8]) -> Result<Option<Cert>>
    ensures { IfOk result (λ cert. IfSome cert WellFormed) }
{
    if text.len() >= 1_000_000 {
        return Ok(None);
    }
    let fault = match read_cert(rt.alloc(), text) {
        Ok(cert) => return Ok(Some(cert)),
        Err(fault) => fault,
    };
    tell_fault(rt, fault)?;
    Ok(None)
}

/// Tells the schedule of a text's certificate.
fn tell(rt: HostRuntime, text: &[u8]) -> Result<()> {
    if let Some(cert) = read(rt, text)? {
        let told = timing(rt.alloc(), &cert)?;
        io::writer(&rt).write_all(told.as_slice())?;
    }
    Ok(())
}

fn main(rt: HostRuntime) -> Result<()> {
    let mut text: Vec<u8> = Vec::new(rt.alloc());
    for line in rt.lines(rt.alloc()) {
        let line = line?;
        let line = line.as_str();
        if let Some(part) = line.strip_prefix("|") {
            text.extend_from_slice(part.as_bytes())?;
            text.push(b'\n')?;
        } else if line == "text" {
            text.clear();
        } else if line == "tell" {
            tell(rt, text.as_slice())?;
        } else {
            println!(rt; "{line}")?;
        }
    }
    Ok(())
}
