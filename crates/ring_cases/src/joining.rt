//! A ring of two lines, with a point for each line and clock, whose points are joined.

ghost use Rattle.uz_schedule.specs.WellFormed.{WellFormed};

use crate::checked::set_word;
use anyhow::Result;
use std::alloc::Global;
use uz_cert::read_cert;
use uz_check::{RefusedWhy, check};
use uz_hex::Image;
use uz_join::joined;
use uz_schedule::{Cert, Fact, Point, Span};

/// The points of a line.
const COUNT: u32 = 1819;

/// Word 2 `out PORTB,r16`, word 3 `subi r18,128`, NOPs, word 138 `out PORTB,r17`, NOPs, and at word 1820 `rjmp` to word 2.
fn image(alloc: Global) -> Result<Image> {
    let mut image = Image::empty(alloc)?;
    for at in 0..1820 {
        set_word(&mut image, at, 0);
    }
    set_word(&mut image, 2, 0xb905);
    set_word(&mut image, 3, 0x5820);
    set_word(&mut image, 138, 0xb915);
    set_word(&mut image, 1820, 0xc8e5);
    Ok(image)
}

/// What r18 is at a clock of a line: it grows by 128 in each line.
fn value(line: u32, clock: u32) -> u8 {
    let early = clock < 2;
    if line == 1 {
        if early { 128 } else { 0 }
    } else if early {
        0
    } else {
        128
    }
}

/// Two lines, on each of which sync falls at clock 1 and rises at 137.
fn text(alloc: Global) -> Result<String> {
    let mut text = String::from_str(
        alloc,
        "uzcert 2\nsize 1 2 0 3638 0\nirq 4\nstack 4350 4351 0 0\nkind 2 1820\n1 sync 0\n137 sync 1\nfall 1\n",
    )?;
    text.push_str("run 2 0\nentry alone 0 2 0 0 r16=0 r17=1 r18=0\n")?;
    for id in 0..2 * COUNT {
        let line = id / COUNT;
        let clock = id % COUNT;
        let point = format!(in alloc;
            "point alone {} {} {} 0 0 {} 0 0 r16=0 r17=1 r18={} >{}\n",
            clock + 2,
            line,
            line,
            clock,
            value(line, clock),
            (id + 1) % (2 * COUNT)
        )?;
        text.push_str(point.as_str())?;
    }
    text.push_str("end\n")?;
    Ok(text)
}

/// Whether a point stands for both lines, with r18 a fact by line, and one successor.
fn is_joined(point: &Point) -> bool {
    let before = if point.clock < 2 { 0 } else { 128 };
    point.l0 == 0
        && point.l1 == 1
        && point.regs[16] == Fact::Between(Span::single(0))
        && point.regs[18] == Fact::Line(128, before)
        && point.next.len() == 1
}

/// How many points stand for both lines.
fn count_joined(points: &[Point]) -> usize {
    let mut count = 0usize;
    for point in points {
        if is_joined(point) {
            count = count.saturating_add(1);
        }
    }
    count
}

/// How many points the ring's certificate has once they are joined, and how many of them stand for both lines. None are left where the
/// joined certificate isn't accepted.
fn counts(
    alloc: Global,
    image: Image,
    cert: Cert,
) -> std::result::Result<(usize, usize), RefusedWhy>
    requires { WellFormed cert }
{
    match check(image, cert) {
        Ok(accepted) => {
            let (image, cert) = accepted.into_parts();
            match joined(alloc, &image, cert) {
                Ok(cert) => {
                    let points = cert.points.as_slice();
                    Ok((points.len(), count_joined(points)))
                }
                Err(why) => {
                    drop(why);
                    Ok((0, 0))
                }
            }
        }
        Err(refused) => Err(refused.why),
    }
}

/// How many points the joined certificate has, and how many stand for both lines.
fn tell_joined(rt: HostRuntime, cert: Cert) -> Result<()>
    requires { WellFormed cert }
{
    match counts(rt.alloc(), image(rt.alloc())?, cert) {
        Ok((points, both)) => println!(rt; "points {} of both lines {}", points, both)?,
        Err(why) => println!(rt; "{:?}", why)?,
    }
    Ok(())
}

/// The same of the ring, whose text is read.
pub(crate) fn tell(rt: HostRuntime) -> Result<()> {
    let text = text(rt.alloc())?;
    if text.len() >= 1_000_000 {
        return Ok(());
    }
    match read_cert(rt.alloc(), text.as_bytes()) {
        Ok(cert) => tell_joined(rt, cert),
        Err(error) => {
            println!(rt; "line {} {:?}", error.line, error.why)?;
            Ok(())
        }
    }
}
