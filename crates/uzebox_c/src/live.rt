//! Live play: the calls that play a console a frame at a time.

ghost use Rattle.std.specs.Prelude.{◌≡◌, ◌++◌, ◌⊎◌, IfErr, IfOk};
ghost use Rattle.uz_hex.specs.HexText.{IsHexOf};
ghost use Rattle.uz_pads.specs.declared.pads.Pad.{Pad};
ghost use Rattle.uzebox_c.specs.Live.{FrameAnswers, NoHex, Played as IsPlayed, Refuses, ResetAnswers, StartsAt, number_of, response_named};
ghost use Rattle.uz_schedule.specs.Schedule.{response_clocks};

use std::alloc::Global;
use uz_console::Response;
use uz_hex::{HexWhy, Image, read_hex};
use uz_pads::Pad;
use uz_player::{Called, Frame, Play, State, play_frame};

/// How a call of live play ended.
#[repr(C)]
#[derive(Clone, Copy)]
pub struct Answer {
    /// 0: a frame is over, or the state is at reset. 1: so many clocks passed. 2: there is no next instruction. 3: the text isn't
    /// Intel HEX. 4: the records need more room. 5: memory was lacking. From 3 on nothing has changed.
    pub status: u32,
    /// So many latches found the pair that was held.
    pub latches: u32,
    /// So many bytes the records have.
    pub length: u64,
}

const NO_HEX: u32 = 3;

const SHORT: u32 = 4;

const NO_MEMORY: u32 = 5;

/// The longest text that is read.
const LONGEST: usize = 0xFFFF_FFFE;

/// A call that changed nothing.
fn refusal(status: u32) -> Answer
    ensures { result.status ≡ status }
{
    Answer {
        status,
        latches: 0,
        length: 0,
    }
}

fn number_of(frame: Frame) -> u32
    ensures { result ≡ number_of frame }
{
    match frame {
        Frame::Over => 0,
        Frame::Quiet => 1,
        Frame::Stopped => 2,
    }
}

/// The flash of an Intel HEX text, or the status.
fn image_of(alloc: Global, hex: &[u8]) -> Result<Image, u32>
    ensures found { IfOk result (λ image. IsHexOf hex.now image) }
    ensures refused { IfErr result (Refuses hex.now) }
{
    if hex.len() > LONGEST {
        return Err(NO_HEX);
    }
    match read_hex(alloc, hex) {
        Ok(image) => Ok(image),
        Err(error) => Err(match error.why {
            HexWhy::Memory => NO_MEMORY,
            _ => NO_HEX,
        }),
    }
}

/// 5 clocks, or 4.
fn response_of(clocks: u32) -> Response
    ensures { response_clocks result ≡ response_named clocks }
{
    if clocks == 5 {
        Response::Five
    } else {
        Response::Four
    }
}

fn reset(alloc: Global, hex: &[u8], response: u32) -> Result<State, u32>
    ensures at { IfOk result (StartsAt hex.now response) }
    ensures refused { IfErr result (Refuses hex.now) }
{
    let image = image_of(alloc, hex)?;
    match Play::reset(alloc, image, response_of(response)) {
        Ok(play) => Ok(play.state()),
        Err(_) => Err(NO_MEMORY),
    }
}

/// The state at reset of the console with this flash, an Intel HEX text. An interrupt is entered in 5 clocks, or in 4 where the
/// number isn't 5. Where the call is refused the state stays.
#[unsafe(no_mangle)]
pub extern "C" fn uzebox_reset(
    alloc: Global,
    hex: &[u8],
    response: u32,
    state: &mut State,
) -> Answer
    ensures { ResetAnswers hex.now response state.old state.new result }
{
    match reset(alloc, hex, response) {
        Ok(start) => {
            *state = start;
            refusal(0)
        }
        Err(status) => refusal(status),
    }
}

/// A call with its records.
#[derive(Drop)]
struct Played {
    called: Called,
    records: Vec<u8>,
}

fn play(alloc: Global, hex: &[u8], state: &State, pad: Pad, clocks: u32) -> Result<Played, u32>
    ensures played { IfOk result (λ played. IsPlayed hex.now pad clocks state.now played.called played.records.items) }
    ensures refused { IfErr result (Refuses hex.now) }
{
    let image = image_of(alloc, hex)?;
    let mut records = Vec::new(alloc);
    match play_frame(alloc, image, state, pad, clocks, &mut records) {
        Ok(called) => Ok(Played { called, records }),
        Err(_) => Err(NO_MEMORY),
    }
}

/// Goes on to the end of a frame, or for so many clocks, while these buttons are held. The records of the rows that ended, each with
/// the sound value at its line's end, and of the frame's end come first in the caller's bytes. Where they have no room, or the call is
/// refused, state and bytes stay.
#[unsafe(no_mangle)]
pub extern "C" fn uzebox_frame(
    alloc: Global,
    hex: &[u8],
    state: &mut State,
    one: u16,
    two: u16,
    clocks: u32,
    records: &mut [u8],
) -> Answer
    ensures { FrameAnswers hex.now (record { one = one; two = two }) clocks state.old state.new records.old records.new result }
{
    match play(alloc, hex, state, Pad { one, two }, clocks) {
        Ok(played) => {
            let length = played.records.len();
            if length > records.len() {
                return Answer {
                    status: SHORT,
                    latches: 0,
                    length: length as u64,
                };
            }
            records[..length].copy_from_slice(played.records.as_slice());
            *state = played.called.state;
            Answer {
                status: number_of(played.called.frame),
                latches: played.called.latches,
                length: length as u64,
            }
        }
        Err(status) => refusal(status),
    }
}
