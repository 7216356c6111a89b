//! Draws commands.

ghost use Rattle.std.specs.Prelude.{◌<◌, ◌≤◌};
ghost use Rattle.uz_debug.specs.Sessions.{IsInRange};

use random_numbers::Random;
use uz_debug::Command;

/// A number of turns, mostly a small one.
fn turns(random: &mut Random) -> u32
    ensures low { 1 ≤ result }
    ensures high { result ≤ 100000000 }
{
    let most = match random.below(8) {
        0 => 6000,
        1 => 1000,
        2 | 3 => 100,
        _ => 20,
    };
    1 + random.below(most)
}

/// The greatest number of turns where some are made, and else one.
fn too_many(turn: u32) -> u32
    ensures low { 1 ≤ result }
    ensures high { result ≤ 100000000 }
{
    if turn == 0 { 1 } else { 100_000_000 }
}

/// A word address below a limit.
fn address(random: &mut Random, limit: u16) -> u16
    requires low { 0 < limit }
    requires high { limit ≤ 32768 }
    ensures { result < 32768 }
{
    random.below(u32::from(limit)) as u16
}

fn slot(random: &mut Random) -> u8
    ensures { result < 10 }
{
    random.below(10) as u8
}

/// The next command of a debugger at a turn, with breakpoints below a word address.
pub(crate) fn command(random: &mut Random, turn: u32, limit: u16) -> Command
    requires low { 0 < limit }
    requires high { limit ≤ 32768 }
    ensures { IsInRange result }
{
    match random.below(32) {
        0..=3 => Command::Step(turns(random)),
        4 => Command::Step(too_many(turn)),
        5..=9 => Command::Run(turns(random)),
        10..=13 => Command::Back(turns(random)),
        14..=19 => Command::Break(address(random, limit)),
        20..=22 => Command::Clear(address(random, limit)),
        23 | 24 => Command::Save(slot(random)),
        25 | 26 => Command::Load(slot(random)),
        27 | 28 => Command::Show,
        29 => Command::Run(too_many(turn)),
        _ => Command::Mem(random.word(), 1 + random.below(16) as u8),
    }
}
