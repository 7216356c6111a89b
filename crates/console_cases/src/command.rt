//! The commands, one a line.

use uz_console::Response;

/// What a line says.
#[derive(Clone, Copy)]
pub(crate) enum Command {
    /// `words AT W W W W`: four words of the flash, in hexadecimal, from a word address on.
    Words { at: u16, words: [u16; 4] },
    /// `nops FROM TO`: NOPs, in hexadecimal, up to before a word address.
    Nops { from: u16, to: u16 },
    /// `reset 4` or `reset 5`: a console of the flash, with no pads.
    Reset(Response),
    /// `run N`: the run of N clocks from reset, from where the console is.
    Run(u32),
    /// `turns N`: N turns, each by itself.
    Turns(u16),
    /// `pass N`: N turns whose edges aren't wanted.
    Pass(u16),
    /// `copy`: a copy of the console, in place of the last one.
    Copy,
    /// `other`: the console and its copy change places.
    Other,
    /// `save`: the console's state, in place of the last one.
    Save,
    /// `load`: to the saved state.
    Load,
    /// `where`: the clock, pc and the word there.
    Where,
}

impl Command {
    /// The command of a line.
    pub(crate) fn read(line: &str) -> Option<Command> {
        let mut words = line.split_whitespace();
        match words.next()? {
            "words" => Some(Command::Words {
                at: hex_word(words.next()?)?,
                words: [
                    hex_word(words.next()?)?,
                    hex_word(words.next()?)?,
                    hex_word(words.next()?)?,
                    hex_word(words.next()?)?,
                ],
            }),
            "nops" => Some(Command::Nops {
                from: hex_word(words.next()?)?,
                to: hex_word(words.next()?)?,
            }),
            "reset" => Some(Command::Reset(response(words.next()?)?)),
            "run" => Some(Command::Run(words.next()?.parse::<u32>().ok()?)),
            "turns" => Some(Command::Turns(words.next()?.parse::<u16>().ok()?)),
            "pass" => Some(Command::Pass(words.next()?.parse::<u16>().ok()?)),
            "copy" => Some(Command::Copy),
            "other" => Some(Command::Other),
            "save" => Some(Command::Save),
            "load" => Some(Command::Load),
            "where" => Some(Command::Where),
            _ => None,
        }
    }
}

fn hex_word(text: &str) -> Option<u16> {
    u16::from_str_radix(text, 16).ok()
}

fn response(text: &str) -> Option<Response> {
    match text {
        "4" => Some(Response::Four),
        "5" => Some(Response::Five),
        _ => None,
    }
}
