//! A ring of NOPs, as an image and a certificate, changed in one place or none.

ghost use Rattle.std.specs.Prelude.{◌<◌};
ghost use Rattle.uz_schedule.specs.WellFormed.{WellFormed};

use anyhow::Result;
use std::alloc::Global;
use table_rows::Row;
use uz_cert::read_cert;
use uz_check::{RefusedWhy, check, check_counted, verdict};
use uz_hex::Image;
use uz_schedule::Cert;

/// A ring and its certificate.
#[derive(Drop)]
struct Ring {
    /// The word of the jump.
    jump: u16,
    /// What word 3 is.
    third: u16,
    /// How many lines the frame has.
    lines: u16,
    /// How many points there are.
    points: u16,
    /// The schedule's fall.
    fall: u16,
    /// The clock at which sync rises.
    rise: u16,
    /// The entry's pc.
    pc: u16,
}

/// Writes a word of the flash.
pub(crate) fn set_word(image: &mut Image, at: u16, word: u16)
    requires { at < 32768 }
{
    image.set(2 * at, (word % 256) as u8);
    image.set(2 * at + 1, (word / 256) as u8);
}

/// Word 0 `ldi r16,0`, word 1 `ldi r17,1`, word 2 `out PORTB,r16`, NOPs but for word 3, word 138 `out PORTB,r17`, and the
/// `rjmp` to word 2.
fn image(alloc: Global, jump: u16, third: u16) -> Result<Image>
    requires { jump < 4096 }
{
    let mut image = Image::empty(alloc)?;
    for at in 4..jump {
        set_word(&mut image, at, 0);
    }
    set_word(&mut image, 0, 0xe000);
    set_word(&mut image, 1, 0xe011);
    set_word(&mut image, 2, 0xb905);
    set_word(&mut image, 3, third);
    set_word(&mut image, 138, 0xb915);
    set_word(&mut image, jump, 0xd001 - jump);
    Ok(image)
}

/// The text of the certificate: a point for each instruction, on each line of the frame.
fn text(alloc: Global, ring: &Ring) -> Result<String> {
    let last = ring.lines.saturating_sub(1);
    let mut text = format!(in alloc;
        "uzcert 2\nsize 1 {} 0 {} 0\nirq 4\nstack 4350 4351 0 0\n",
        ring.lines, ring.points
    )?;
    let kind = format!(in alloc;
        "kind 2 1820\n1 sync 0\n{} sync 1\nfall {}\nrun {} 0\nentry alone 0 {} 0 0 r16=0 r17=1\n",
        ring.rise, ring.fall, ring.lines, ring.pc
    )?;
    text.push_str(kind.as_str())?;
    for k in 0..u32::from(ring.points) {
        let next = if k + 1 == u32::from(ring.points) {
            0
        } else {
            k + 1
        };
        let point = format!(in alloc;
            "point alone {} 0 {} 0 0 {} 0 0 r16=0 r17=1 >{}\n",
            k + 2,
            last,
            k,
            next
        )?;
        text.push_str(point.as_str())?;
    }
    text.push_str("end\n")?;
    Ok(text)
}

/// The pair again, after a check that counts.
fn counted(image: Image, cert: Cert, looked: &mut u64) -> (Image, Cert)
    requires { WellFormed cert }
    ensures { WellFormed result.1 }
{
    match check_counted(image, cert, looked) {
        Ok(accepted) => accepted.into_parts(),
        Err(refused) => (refused.image, refused.cert),
    }
}

/// The first refusal of a pair, if there is one.
fn first_refusal(image: Image, cert: Cert) -> Option<RefusedWhy>
    requires { WellFormed cert }
{
    match check(image, cert) {
        Ok(_accepted) => None,
        Err(refused) => Some(refused.why),
    }
}

/// What the three calls answer.
fn tell_checks(rt: HostRuntime, image: Image, cert: Cert) -> Result<()>
    requires { WellFormed cert }
{
    let first = verdict(&image, &cert);
    let mut looked = 0;
    let (image, cert) = counted(image, cert, &mut looked);
    let same = first == first_refusal(image, cert);
    println!(rt; "{:?} looked {} the same {}", first, looked, same)?;
    Ok(())
}

/// The first refusal of a ring, if there is one.
pub(crate) fn tell(rt: HostRuntime, row: &mut Row) -> Result<()> {
    let ring = Ring {
        jump: row.short(),
        third: row.short(),
        lines: row.short(),
        points: row.short(),
        fall: row.short(),
        rise: row.short(),
        pc: row.short(),
    };
    let text = text(rt.alloc(), &ring)?;
    if ring.jump >= 4096 || text.len() >= 1_000_000 {
        return Ok(());
    }
    match read_cert(rt.alloc(), text.as_bytes()) {
        Ok(cert) => tell_checks(rt, image(rt.alloc(), ring.jump, ring.third)?, cert)?,
        Err(error) => println!(rt; "line {} {:?}", error.line, error.why)?,
    }
    Ok(())
}
