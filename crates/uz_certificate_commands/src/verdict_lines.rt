//! The lines of a verdict.

ghost use Rattle.std.specs.Prelude.{◌≡◌, IfOk};
ghost use Rattle.uz_schedule.specs.Limits.{ScheduleFits};
ghost use Rattle.uz_certificate_commands.specs.VerdictLines.{accepted_line, fail_name, point_pc, refused_line};

use std::alloc::{AllocError, Global};
use uz_cert::Cert;
use uz_check::{Fail, RefusedWhy};
use uz_files::{put_number, put_value};
use uz_hex::word_digits;

/// The name of a reason, as it is printed.
pub fn reason_name(why: Fail) -> &'static [u8]
    ensures { result.now ≡ fail_name why }
{
    match why {
        Fail::Opcode => b"Opcode",
        Fail::Box => b"Box",
        Fail::Flag => b"Flag",
        Fail::Mask => b"Mask",
        Fail::Stack => b"Stack",
        Fail::Return => b"Return",
        Fail::Store => b"Store",
        Fail::Io => b"Io",
        Fail::Edge => b"Edge",
        Fail::Clock => b"Clock",
        Fail::Successor => b"Successor",
        Fail::Restore => b"Restore",
    }
}

/// The line of an accepted pair.
pub fn accepted_line(alloc: Global, cert: &Cert) -> Result<Vec<u8>, AllocError>
    requires { ScheduleFits cert.now.schedule }
    ensures { IfOk result (λ line. line.items ≡ accepted_line cert.now) }
{
    let mut line = Vec::new(alloc);
    put_number(
        &mut line,
        b"accepted lines ",
        cert.schedule.lines.len() as u64,
    )?;
    put_number(&mut line, b" clocks ", u64::from(cert.schedule.frame()))?;
    line.extend_from_slice(b"\n")?;
    Ok(line)
}

/// The word address of a point.
fn pc_of(cert: &Cert, id: u32) -> u16
    ensures { result ≡ point_pc cert.now id }
{
    match cert.points.as_slice().get(id as usize) {
        Some(point) => point.pc,
        None => 0,
    }
}

/// The line of a point that is refused.
fn refused_point(
    alloc: Global,
    cert: &Cert,
    id: u32,
    l: u16,
    c: u8,
    why: Fail,
) -> Result<Vec<u8>, AllocError>
    ensures { IfOk result (λ line. line.items ≡ refused_line cert.now (RefusedWhy.Point id l c why)) }
{
    let mut line = Vec::new(alloc);
    put_number(&mut line, b"refused point ", u64::from(id))?;
    put_value(&mut line, b" pc 0x", &word_digits(pc_of(cert, id)))?;
    put_number(&mut line, b" line ", u64::from(l))?;
    put_number(&mut line, b" count ", u64::from(c))?;
    put_value(&mut line, b" ", reason_name(why))?;
    line.extend_from_slice(b"\n")?;
    Ok(line)
}

/// The line of a pair that is refused, with the first failing item.
pub fn refused_line(alloc: Global, cert: &Cert, why: RefusedWhy) -> Result<Vec<u8>, AllocError>
    ensures { IfOk result (λ line. line.items ≡ refused_line cert.now why) }
{
    let mut text = Vec::new(alloc);
    match why {
        RefusedWhy::Schedule { line, clock } => {
            put_number(&mut text, b"refused schedule line ", u64::from(line))?;
            put_number(&mut text, b" clock ", u64::from(clock))?;
            text.extend_from_slice(b"\n")?;
        }
        RefusedWhy::Rest { line } => {
            put_number(&mut text, b"refused rest line ", u64::from(line))?;
            text.extend_from_slice(b"\n")?;
        }
        RefusedWhy::Entry => text.extend_from_slice(b"refused entry\n")?,
        RefusedWhy::Point { id, l, c, why } => return refused_point(alloc, cert, id, l, c, why),
    }
    Ok(text)
}
