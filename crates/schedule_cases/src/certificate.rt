//! What a certificate answers.

ghost use Rattle.uz_schedule.specs.Limits.{ScheduleFits};
ghost use Rattle.uz_schedule.specs.WellFormed.{WellFormed};

use crate::instance;
use anyhow::Result;
use table_rows::Row;
use uz_schedule::{Cert, Kind, Owner, Schedule, schedule_fits, tracks, well_formed};

/// The answer to a row that asks a certificate. Answers whether there is one, and the row does.
pub(crate) fn tell(rt: HostRuntime, cert: &Option<Cert>, line: &str) -> Result<bool> {
    if let Some(cert) = cert {
        if well_formed(cert) {
            let mut row = Row::new(line);
            let word = row.word();
            if tell_point(rt, cert, word, &mut row)? {
                return Ok(true);
            }
            if schedule_fits(&cert.schedule) {
                return tell_schedule(rt, &cert.schedule, word, &mut row);
            }
        }
    }
    Ok(false)
}

fn tell_point(rt: HostRuntime, cert: &Cert, word: &str, row: &mut Row) -> Result<bool>
    requires { WellFormed cert.now }
{
    match word {
        "instance" => {
            let id = row.number();
            let line = row.short();
            instance::tell(rt, &cert.instance(id, line, row.byte()))?;
        }
        "entry" => tell_entry(rt, cert)?,
        "vector" => tell_vector(rt, cert, row)?,
        _ => return Ok(false),
    }
    Ok(true)
}

fn tell_entry(rt: HostRuntime, cert: &Cert) -> Result<()> {
    if schedule_fits(&cert.schedule) {
        instance::tell(rt, &Some(cert.entry_instance()))?;
    }
    Ok(())
}

fn tell_vector(rt: HostRuntime, cert: &Cert, row: &mut Row) -> Result<()> {
    if let Some(rest) = cert.rests.as_slice().get(row.number() as usize) {
        if schedule_fits(&cert.schedule) && (rest.line as usize) < cert.schedule.lines.len() {
            instance::tell(rt, &Some(cert.rest_instance(rest, row.byte())))?;
        }
    }
    Ok(())
}

fn tell_schedule(rt: HostRuntime, schedule: &Schedule, word: &str, row: &mut Row) -> Result<bool>
    requires { ScheduleFits schedule.now }
{
    match word {
        "at" => println!(rt; "{:?}", schedule.at(row.number()))?,
        "level" => println!(rt; "{:?}", schedule.level(row.number()))?,
        "place" => println!(rt; "{:?}", schedule.place(row.number()))?,
        "frame" => println!(rt; "{} {}", schedule.frame(), schedule.lines.len())?,
        "line" => {
            let line = row.short();
            println!(rt; "{} {}", schedule.length(line), schedule.start(line))?;
        }
        "clock" => {
            let line = row.short();
            let clock = row.short();
            let event = schedule.at_clock(line, clock);
            println!(rt; "{event:?} {:?}", schedule.level_at_clock(line, clock))?;
        }
        "advance" => tell_advance(rt, schedule, row)?,
        _ => return Ok(false),
    }
    Ok(true)
}

fn tell_advance(rt: HostRuntime, schedule: &Schedule, row: &mut Row) -> Result<()>
    requires { ScheduleFits schedule.now }
{
    let line = row.short();
    if usize::from(line) < schedule.lines.len() {
        let (line, clock) = schedule.advance(line, row.short());
        println!(rt; "({line}, {clock})")?;
    }
    Ok(())
}

/// Whether a program that is alone, and main, track the handler's cells.
pub(crate) fn tell_tracks(rt: HostRuntime) -> Result<()> {
    println!(rt;
        "alone {} main {}",
        tracks(Kind::Alone, Owner::Handler),
        tracks(Kind::Main, Owner::Handler)
    )?;
    Ok(())
}
