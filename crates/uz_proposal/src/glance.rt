//! What is read of a console before its turn.

ghost use Rattle.std.specs.Prelude.{◌≡◌, ◌<◌, ◌≤◌, IfSome};
ghost use Rattle.uz_core.specs.PadLine.{PadHistory};
ghost use Rattle.uz_core.specs.Turn.{State};
ghost use Rattle.uz_console.specs.Consoles.{StandsFor, clock_of, state_of};
ghost use Rattle.uz_proposal.specs.Matches.{clocks_left, clocks_to_match};
ghost use Rattle.uz_proposal.specs.Windows.{IsGlance};

use crate::stores::{Stored, next_store};
use uz_console::Console;
use uz_core::address::{SPH, SPL};
use uz_timer::Timer1;

/// What is read of a console before its turn.
#[derive(Clone, Copy)]
pub(crate) struct Glance {
    pub clock: u64,
    /// The clocks until TCNT1 goes from OCR1A to 0, while the timer counts.
    pub left: Option<u32>,
    /// What the turn stores from a register.
    pub store: Option<Stored>,
    /// Whether the turn is an entry of the interrupt.
    pub entering: bool,
}

/// SP of a console.
#[tactic(auto, using(crate::proofs::GlanceLemmas::sp_of_core))]
pub(crate) fn stack_pointer(console: &Console) -> u16
    ensures own { result ≡ (state_of console.now).core.sp }
    ensures stands { (s : State PadHistory) → StandsFor console.now s → result ≡ s.core.sp }
{
    u16::from(console.byte(SPL)) + 256 * u16::from(console.byte(SPH))
}

/// The clocks until the count goes from the top to 0.
fn until_match(count: u16, top: u16) -> u32
    ensures clocks { result ≡ clocks_to_match count top }
    ensures most { result ≤ 131072 }
{
    if count <= top {
        u32::from(top) + 1 - u32::from(count)
    } else {
        65536 + u32::from(top) + 1 - u32::from(count)
    }
}

pub(crate) fn left(timer: &Timer1) -> Option<u32>
    ensures left { result ≡ clocks_left timer.now }
    ensures most { IfSome result (λ n. n ≤ 131072) }
{
    if timer.counting() {
        Some(until_match(timer.phase(), timer.top()))
    } else {
        None
    }
}

/// Reads a console before its turn.
pub(crate) fn look(console: &Console) -> Glance
    ensures glance { (s : State PadHistory) → StandsFor console.now s → IsGlance s result }
    ensures clock { result.clock ≡ clock_of console.now }
    ensures most { IfSome result.left (λ n. n ≤ 131072) }
{
    Glance {
        clock: console.clock(),
        left: left(console.timer()),
        store: next_store(console),
        entering: console.is_entering(),
    }
}
