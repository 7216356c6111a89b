//! How a run ended.

ghost use Rattle.std.specs.Prelude.{◌≡◌};
ghost use Rattle.uz_player.specs.Endings.{played_of};

use crate::player::Played;

/// How a run ended: `Played` without its records.
#[derive(Clone, Copy)]
pub(crate) enum Ending {
    Over,
    Stopped { pc: u16, word: u16 },
}

/// The answer at a run's end.
pub(crate) fn ended(ending: Ending) -> Played
    ensures { result ≡ played_of ending }
{
    match ending {
        Ending::Over => Played::Over,
        Ending::Stopped { pc, word } => Played::Stopped { pc, word },
    }
}
