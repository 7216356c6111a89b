//! Which words are which command.

ghost use Rattle.std.specs.Prelude.{◌≡◌, ◌∷◌, ◌||◌, bytes_eq, map, not, option_map, string_bytes};
ghost use Rattle.uz_top.specs.CommandValues.{value_of};
ghost use Rattle.uz_hex.specs.Numbers.{number_below, number_within as number_from_low};
ghost use Rattle.uz_top.specs.Words.{asm_words, build_words, certify_with as certify_with_response, certify_words};
ghost use Rattle.uz_top.specs.Words.{check_words, command_of, debug_with as debug_with_response, debug_words};
ghost use Rattle.uz_top.specs.Words.{demo_with as demo_with_number, demo_words, dis_words, expand_words, migrate_words};
ghost use Rattle.uz_top.specs.Words.{find_with as find_with_response, find_words, help_words};
ghost use Rattle.uz_top.specs.Words.{hints_with as hints_with_numbers, hints_words};
ghost use Rattle.uz_top.specs.Words.{play_with as play_with_clocks, play_words, report_words, response_of, timing_words};
ghost use Rattle.uz_top.specs.Words.{trace_with as trace_with_numbers, trace_words, version_words};
ghost use Rattle.uz_top.specs.Words.{wave_with as wave_with_numbers, wave_words, why_with as why_with_response, why_words};

use crate::{help_text, text_of, version_text};
use uz_cert::Response;
use uz_certificate_commands::{Clocks, number_of_clocks};
use uz_hex::{number, number_within};

/// A command, with the names of its files.
#[derive(Clone, Copy)]
pub(crate) enum Command<'a> {
    Check {
        hex: &'a str,
        cert: &'a str,
    },
    Dis {
        hex: &'a str,
    },
    Asm {
        source: &'a str,
        hex: &'a str,
    },
    Trace {
        hex: &'a str,
        pads: &'a str,
        irq: Response,
        clocks: u32,
    },
    Expand {
        source: &'a str,
        flat: &'a str,
    },
    Build {
        source: &'a str,
        hex: &'a str,
    },
    Play {
        hex: &'a str,
        cert: &'a str,
        pads: &'a str,
        clocks: Clocks,
        frames: &'a str,
    },
    Debug {
        hex: &'a str,
        pads: &'a str,
        irq: Response,
        script: &'a str,
    },
    Certify {
        source: &'a str,
        irq: Response,
        hex: &'a str,
        cert: &'a str,
    },
    Demo {
        number: u16,
    },
    Migrate {
        older: &'a str,
        newer: &'a str,
    },
    Report {
        hex: &'a str,
        cert: &'a str,
    },
    Timing {
        hex: &'a str,
        cert: &'a str,
    },
    Wave {
        hex: &'a str,
        pads: &'a str,
        irq: Response,
        clocks: u32,
        wav: &'a str,
    },
    Prints {
        text: &'a str,
    },
    Find {
        hex: &'a str,
        hints: &'a str,
        irq: Response,
        cert: &'a str,
    },
    Hints {
        hex: &'a str,
        pads: &'a str,
        irq: Response,
        clocks: u32,
        hints: &'a str,
    },
    Why {
        hex: &'a str,
        hints: &'a str,
        irq: Response,
    },
}

/// The command of these words, without the program's name, or `None` where they are no command.
pub(crate) fn parse(words: &[String]) -> Option<Command<'_>>
    ensures { option_map value_of result ≡ command_of (map string_bytes words.now) }
{
    match words {
        [verb, rest @ ..] => parse_after(verb.as_str(), rest),
        [] => None,
    }
}

/// The command of a verb and the words after it.
fn parse_after<'a>(verb: &str, rest: &'a [String]) -> Option<Command<'a>>
    ensures { option_map value_of result ≡ command_of (verb.now ∷ map string_bytes rest.now) }
{
    match verb {
        "check" => check(rest),
        "dis" => dis(rest),
        "asm" => asm(rest),
        "trace" => trace(rest),
        "play" => play(rest),
        "debug" => debug(rest),
        "expand" => expand(rest),
        "build" => build(rest),
        "certify" => certify(rest),
        "demo" => demo(rest),
        "migrate" => migrate(rest),
        "report" => report(rest),
        "timing" => timing(rest),
        "wave" => wave(rest),
        "help" => help(rest),
        "version" => version(rest),
        "find" => find(rest),
        "hints" => hints(rest),
        "why" => why(rest),
        _ => None,
    }
}

/// Whether two names differ.
fn differ(first: &str, second: &str) -> bool
    ensures { result ≡ not (bytes_eq first.now second.now) }
{
    first != second
}

/// Whether a name is one of three others.
fn is_among(name: &str, first: &str, second: &str, third: &str) -> bool
    ensures { result ≡ (bytes_eq name.now first.now || (bytes_eq name.now second.now || bytes_eq name.now third.now)) }
{
    name == first || name == second || name == third
}

/// Whether two of three names are the same.
fn are_some_same(first: &str, second: &str, third: &str) -> bool
    ensures { result ≡ (bytes_eq first.now second.now || (bytes_eq first.now third.now || bytes_eq second.now third.now)) }
{
    first == second || first == third || second == third
}

/// `check HEX CERT`, of two files.
fn check(words: &[String]) -> Option<Command<'_>>
    ensures { option_map value_of result ≡ check_words (map string_bytes words.now) }
{
    match words {
        [hex, cert] if differ(hex.as_str(), cert.as_str()) => Some(Command::Check {
            hex: hex.as_str(),
            cert: cert.as_str(),
        }),
        _ => None,
    }
}

/// `dis HEX`.
fn dis(words: &[String]) -> Option<Command<'_>>
    ensures { option_map value_of result ≡ dis_words (map string_bytes words.now) }
{
    match words {
        [hex] => Some(Command::Dis { hex: hex.as_str() }),
        _ => None,
    }
}

/// The clocks of an interrupt's entry, 4 or 5.
fn response(word: &str) -> Option<Response>
    ensures { result ≡ response_of word.now }
{
    match word {
        "4" => Some(Response::Four),
        "5" => Some(Response::Five),
        _ => None,
    }
}

/// The command once its files are known to differ.
fn trace_with<'a>(hex: &'a str, pads: &'a str, irq: &str, clocks: &str) -> Option<Command<'a>>
    ensures { option_map value_of result ≡ trace_with_numbers hex.now pads.now (response_of irq.now)
        (number_from_low 1 1000000001 clocks.now) }
{
    match (
        response(irq),
        number_within(clocks.as_bytes(), 1, 1_000_000_001),
    ) {
        (Some(irq), Some(clocks)) => Some(Command::Trace {
            hex,
            pads,
            irq,
            clocks,
        }),
        _ => None,
    }
}

/// `trace HEX PADS IRQ CLOCKS`, of two files, for 1 to 1,000,000,000 clocks.
fn trace(words: &[String]) -> Option<Command<'_>>
    ensures { option_map value_of result ≡ trace_words (map string_bytes words.now) }
{
    match words {
        [hex, pads, irq, clocks] if differ(hex.as_str(), pads.as_str()) => {
            trace_with(hex.as_str(), pads.as_str(), irq.as_str(), clocks.as_str())
        }
        _ => None,
    }
}

/// The command once its files are known to differ.
fn play_with<'a>(
    hex: &'a str,
    cert: &'a str,
    pads: &'a str,
    clocks: &str,
    frames: &'a str,
) -> Option<Command<'a>>
    ensures { option_map value_of result ≡ play_with_clocks hex.now cert.now pads.now (number_from_low 1 1000000001 clocks.now) frames.now }
{
    match number_of_clocks(clocks) {
        Some(clocks) => Some(Command::Play {
            hex,
            cert,
            pads,
            clocks,
            frames,
        }),
        None => None,
    }
}

/// `play HEX CERT PADS CLOCKS FRAMES`, of four files, for 1 to 1,000,000,000 clocks.
fn play(words: &[String]) -> Option<Command<'_>>
    ensures { option_map value_of result ≡ play_words (map string_bytes words.now) }
{
    match words {
        [hex, cert, pads, clocks, frames] => {
            if is_among(hex.as_str(), cert.as_str(), pads.as_str(), frames.as_str()) {
                None
            } else if are_some_same(cert.as_str(), pads.as_str(), frames.as_str()) {
                None
            } else {
                play_with(
                    hex.as_str(),
                    cert.as_str(),
                    pads.as_str(),
                    clocks.as_str(),
                    frames.as_str(),
                )
            }
        }
        _ => None,
    }
}

/// The command once its files are known to differ.
fn debug_with<'a>(hex: &'a str, pads: &'a str, irq: &str, script: &'a str) -> Option<Command<'a>>
    ensures { option_map value_of result ≡ debug_with_response hex.now pads.now (response_of irq.now) script.now }
{
    match response(irq) {
        Some(irq) => Some(Command::Debug {
            hex,
            pads,
            irq,
            script,
        }),
        None => None,
    }
}

/// `debug HEX PADS IRQ SCRIPT`, of three files.
fn debug(words: &[String]) -> Option<Command<'_>>
    ensures { option_map value_of result ≡ debug_words (map string_bytes words.now) }
{
    match words {
        [hex, pads, irq, script] => {
            if are_some_same(hex.as_str(), pads.as_str(), script.as_str()) {
                None
            } else {
                debug_with(hex.as_str(), pads.as_str(), irq.as_str(), script.as_str())
            }
        }
        _ => None,
    }
}

/// The command once its files are known to differ.
fn certify_with<'a>(source: &'a str, irq: &str, hex: &'a str, cert: &'a str) -> Option<Command<'a>>
    ensures { option_map value_of result ≡ certify_with_response source.now (response_of irq.now) hex.now cert.now }
{
    match response(irq) {
        Some(irq) => Some(Command::Certify {
            source,
            irq,
            hex,
            cert,
        }),
        None => None,
    }
}

/// `certify SRC IRQ HEX CERT`, of three files.
fn certify(words: &[String]) -> Option<Command<'_>>
    ensures { option_map value_of result ≡ certify_words (map string_bytes words.now) }
{
    match words {
        [source, irq, hex, cert] => {
            if are_some_same(source.as_str(), hex.as_str(), cert.as_str()) {
                None
            } else {
                certify_with(source.as_str(), irq.as_str(), hex.as_str(), cert.as_str())
            }
        }
        _ => None,
    }
}

/// `asm SRC HEX`, of two files.
fn asm(words: &[String]) -> Option<Command<'_>>
    ensures { option_map value_of result ≡ asm_words (map string_bytes words.now) }
{
    match words {
        [source, hex] if differ(source.as_str(), hex.as_str()) => Some(Command::Asm {
            source: source.as_str(),
            hex: hex.as_str(),
        }),
        _ => None,
    }
}

/// `expand SRC FLAT`, of two files.
fn expand(words: &[String]) -> Option<Command<'_>>
    ensures { option_map value_of result ≡ expand_words (map string_bytes words.now) }
{
    match words {
        [source, flat] if differ(source.as_str(), flat.as_str()) => Some(Command::Expand {
            source: source.as_str(),
            flat: flat.as_str(),
        }),
        _ => None,
    }
}

/// `build SRC HEX`, of two files.
fn build(words: &[String]) -> Option<Command<'_>>
    ensures { option_map value_of result ≡ build_words (map string_bytes words.now) }
{
    match words {
        [source, hex] if differ(source.as_str(), hex.as_str()) => Some(Command::Build {
            source: source.as_str(),
            hex: hex.as_str(),
        }),
        _ => None,
    }
}

/// The command, if the word is a number from 0 to 65,535.
fn demo_with(word: &str) -> Option<Command<'_>>
    ensures { option_map value_of result ≡ demo_with_number (number_below 65536 word.now) }
{
    match number(word.as_bytes(), 65_536) {
        Some(number) => Some(Command::Demo {
            number: number as u16,
        }),
        None => None,
    }
}

/// `demo NUMBER`.
fn demo(words: &[String]) -> Option<Command<'_>>
    ensures { option_map value_of result ≡ demo_words (map string_bytes words.now) }
{
    match words {
        [number] => demo_with(number.as_str()),
        _ => None,
    }
}

/// `migrate OLD NEW`, of two files.
fn migrate(words: &[String]) -> Option<Command<'_>>
    ensures { option_map value_of result ≡ migrate_words (map string_bytes words.now) }
{
    match words {
        [older, newer] if differ(older.as_str(), newer.as_str()) => Some(Command::Migrate {
            older: older.as_str(),
            newer: newer.as_str(),
        }),
        _ => None,
    }
}

/// `report HEX CERT`, of two files.
fn report(words: &[String]) -> Option<Command<'_>>
    ensures { option_map value_of result ≡ report_words (map string_bytes words.now) }
{
    match words {
        [hex, cert] if differ(hex.as_str(), cert.as_str()) => Some(Command::Report {
            hex: hex.as_str(),
            cert: cert.as_str(),
        }),
        _ => None,
    }
}

/// `timing HEX CERT`, of two files.
fn timing(words: &[String]) -> Option<Command<'_>>
    ensures { option_map value_of result ≡ timing_words (map string_bytes words.now) }
{
    match words {
        [hex, cert] if differ(hex.as_str(), cert.as_str()) => Some(Command::Timing {
            hex: hex.as_str(),
            cert: cert.as_str(),
        }),
        _ => None,
    }
}

/// The command once its files are known to differ.
fn wave_with<'a>(
    hex: &'a str,
    pads: &'a str,
    irq: &str,
    clocks: &str,
    wav: &'a str,
) -> Option<Command<'a>>
    ensures { option_map value_of result ≡ wave_with_numbers hex.now pads.now (response_of irq.now)
        (number_from_low 1 1000000001 clocks.now) wav.now }
{
    match (
        response(irq),
        number_within(clocks.as_bytes(), 1, 1_000_000_001),
    ) {
        (Some(irq), Some(clocks)) => Some(Command::Wave {
            hex,
            pads,
            irq,
            clocks,
            wav,
        }),
        _ => None,
    }
}

/// `wave HEX PADS IRQ CLOCKS WAV`, of three files, for 1 to 1,000,000,000 clocks.
fn wave(words: &[String]) -> Option<Command<'_>>
    ensures { option_map value_of result ≡ wave_words (map string_bytes words.now) }
{
    match words {
        [hex, pads, irq, clocks, wav] => {
            if are_some_same(hex.as_str(), pads.as_str(), wav.as_str()) {
                None
            } else {
                wave_with(
                    hex.as_str(),
                    pads.as_str(),
                    irq.as_str(),
                    clocks.as_str(),
                    wav.as_str(),
                )
            }
        }
        _ => None,
    }
}

/// `help`, or `help COMMAND`.
fn help(words: &[String]) -> Option<Command<'_>>
    ensures { option_map value_of result ≡ help_words (map string_bytes words.now) }
{
    match words {
        [] => Some(Command::Prints { text: help_text() }),
        [name] => match text_of(name.as_str()) {
            Some(text) => Some(Command::Prints { text }),
            None => None,
        },
        _ => None,
    }
}

/// `version`.
fn version(words: &[String]) -> Option<Command<'_>>
    ensures { option_map value_of result ≡ version_words (map string_bytes words.now) }
{
    match words {
        [] => Some(Command::Prints {
            text: version_text(),
        }),
        _ => None,
    }
}

/// The command once its files are known to differ.
fn find_with<'a>(hex: &'a str, hints: &'a str, irq: &str, cert: &'a str) -> Option<Command<'a>>
    ensures { option_map value_of result ≡ find_with_response hex.now hints.now (response_of irq.now) cert.now }
{
    match response(irq) {
        Some(irq) => Some(Command::Find {
            hex,
            hints,
            irq,
            cert,
        }),
        None => None,
    }
}

/// `find HEX HINTS IRQ CERT`, of three files.
fn find(words: &[String]) -> Option<Command<'_>>
    ensures { option_map value_of result ≡ find_words (map string_bytes words.now) }
{
    match words {
        [hex, hints, irq, cert] => {
            if are_some_same(hex.as_str(), hints.as_str(), cert.as_str()) {
                None
            } else {
                find_with(hex.as_str(), hints.as_str(), irq.as_str(), cert.as_str())
            }
        }
        _ => None,
    }
}

/// The command once its files are known to differ.
fn hints_with<'a>(
    hex: &'a str,
    pads: &'a str,
    irq: &str,
    clocks: &str,
    hints: &'a str,
) -> Option<Command<'a>>
    ensures { option_map value_of result ≡ hints_with_numbers hex.now pads.now (response_of irq.now)
        (number_from_low 1 1000000001 clocks.now) hints.now }
{
    match (
        response(irq),
        number_within(clocks.as_bytes(), 1, 1_000_000_001),
    ) {
        (Some(irq), Some(clocks)) => Some(Command::Hints {
            hex,
            pads,
            irq,
            clocks,
            hints,
        }),
        _ => None,
    }
}

/// `hints HEX PADS IRQ CLOCKS HINTS`, of three files, for 1 to 1,000,000,000 clocks.
fn hints(words: &[String]) -> Option<Command<'_>>
    ensures { option_map value_of result ≡ hints_words (map string_bytes words.now) }
{
    match words {
        [hex, pads, irq, clocks, hints] => {
            if are_some_same(hex.as_str(), pads.as_str(), hints.as_str()) {
                None
            } else {
                hints_with(
                    hex.as_str(),
                    pads.as_str(),
                    irq.as_str(),
                    clocks.as_str(),
                    hints.as_str(),
                )
            }
        }
        _ => None,
    }
}

/// The command once its files are known to differ.
fn why_with<'a>(hex: &'a str, hints: &'a str, irq: &str) -> Option<Command<'a>>
    ensures { option_map value_of result ≡ why_with_response hex.now hints.now (response_of irq.now) }
{
    match response(irq) {
        Some(irq) => Some(Command::Why { hex, hints, irq }),
        None => None,
    }
}

/// `why HEX HINTS IRQ`, of two files.
fn why(words: &[String]) -> Option<Command<'_>>
    ensures { option_map value_of result ≡ why_words (map string_bytes words.now) }
{
    match words {
        [hex, hints, irq] if differ(hex.as_str(), hints.as_str()) => {
            why_with(hex.as_str(), hints.as_str(), irq.as_str())
        }
        _ => None,
    }
}
