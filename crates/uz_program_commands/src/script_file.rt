//! Loading and reading a script.

use std::alloc::Global;
use uz_debug::{Command, ScriptError, ScriptWhy, read_script};
use uz_files::{Format, TEXT_LIMIT, TextFault};

/// A script of the debugger.
pub(crate) struct Script;

impl Format for Script {
    ghost use Rattle.std.specs.Prelude.{All};
    ghost use Rattle.uz_debug.specs.Sessions.{IsInRange};
    ghost use Rattle.uz_files.specs.Reading.{text_limit};
    ghost use Rattle.uz_program_commands.specs.ScriptFile.{RefusesScript, SpellsScript};

    type Value = Vec<Command>;

    const LIMIT: u32 = TEXT_LIMIT;

    ghost LIMIT = { text_limit };

    ghost spells = { λ text commands. SpellsScript text commands.items };

    ghost refuses = { RefusesScript };

    ghost formed = { λ commands. All IsInRange commands.items };

    fn read(alloc: Global, text: &[u8]) -> Result<Vec<Command>, TextFault> {
        match read_script(alloc, text) {
            Ok(commands) => Ok(commands),
            Err(
                ScriptError {
                    why: ScriptWhy::Memory,
                    ..
                },
            ) => Err(TextFault::Memory),
            Err(ScriptError { line, why }) => Err(TextFault::At {
                line,
                why: why.name(),
            }),
        }
    }
}
