//! Plays kernels a frame at a time, as a script on standard input says, and prints what each call gives. What is to be printed
//! is worked out by tests/frame_answers.py, from the records that `uzebox play` writes over a pad file with the pairs that are
//! held, and from the edges that `uzebox trace` lists.
//!
//! The script's rows:
//!
//! - `:..`: a line of an Intel HEX text, which isn't printed. `reset`: the play at reset of the text so far, where an entry of
//!   the interrupt takes 4 clocks.
//! - `frame ONE TWO CLOCKS`: the players' buttons are held, and a frame is played, in so many clocks.
//! - `hold ONE TWO`: buttons are held. `advance CLOCKS`: the next record within so many clocks.
//! - `clock`: the clock since reset.
//! - `again`: goes on with a play that is made of the plain fields of this one. What comes after it is as without it.
//!
//! Other rows are printed as they are.
#![tactic(auto)]

mod playing;

use anyhow::Result;
use playing::{advance, frame};
use std::alloc::Global;
use table_rows::Row;
use uz_console::Response;
use uz_hex::{Image, read_hex};
use uz_pads::Pad;
use uz_player::Play;

/// The image of a text, where it is one.
fn image_of(alloc: Global, text: &[u8]) -> Option<Image> {
    if text.is_empty() || text.len() > 1_000_000 {
        return None;
    }
    read_hex(alloc, text).ok()
}

/// A play with its flash.
#[derive(Drop)]
struct Played {
    image: Image,
    play: Play,
}

/// The play at reset of an image.
fn start(alloc: Global, image: Image) -> Result<Played> {
    let play = Play::reset(alloc, image.copy(alloc)?, Response::Four)?;
    Ok(Played { image, play })
}

/// The play at reset of a text's image.
fn reset(rt: &HostRuntime, text: &[u8], played: &mut Played) -> Result<()> {
    match image_of(rt.alloc(), text) {
        Some(image) => *played = start(rt.alloc(), image)?,
        None => println!(rt; "no image")?,
    }
    Ok(())
}

/// The play that its plain fields give.
fn again(alloc: Global, played: &mut Played) -> Result<()> {
    let image = played.image.copy(alloc)?;
    let state = played.play.state();
    played.play = Play::of_state(alloc, image, &state)?;
    Ok(())
}

/// The pair of buttons that a row goes on with.
fn pad_of(row: &mut Row) -> Pad {
    let one = row.short();
    let two = row.short();
    Pad { one, two }
}

/// Does what a row says.
fn act(rt: &HostRuntime, line: &str, text: &mut Vec<u8>, played: &mut Played) -> Result<()> {
    let mut row = Row::new(line);
    match row.word() {
        "reset" => {
            reset(rt, text.as_slice(), played)?;
            text.clear();
        }
        "frame" => {
            let pad = pad_of(&mut row);
            frame(rt, &mut played.play, pad, row.number())?;
        }
        "hold" => played.play.hold(rt.alloc(), pad_of(&mut row))?,
        "advance" => advance(rt, &mut played.play, row.number())?,
        "clock" => println!(rt; "{}", played.play.clock())?,
        "again" => again(rt.alloc(), played)?,
        _ => {}
    }
    Ok(())
}

fn main(rt: HostRuntime) -> Result<()> {
    let alloc = rt.alloc();
    let mut played = start(alloc, Image::empty(alloc)?)?;
    let mut text = Vec::new(alloc);
    for line in rt.lines(alloc) {
        let line = line?;
        if line.starts_with(":") {
            text.extend_from_slice(line.as_bytes())?;
            text.push(b'\n')?;
        } else {
            println!(rt; "{}", line)?;
            act(&rt, line.as_str(), &mut text, &mut played)?;
        }
    }
    Ok(())
}
