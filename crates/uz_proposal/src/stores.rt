//! The byte that an instruction stores.

ghost use Rattle.std.specs.Prelude.{◌≡◌, ◌<◌, ◌+◌};
ghost use Rattle.avr_table.specs.declared.Instr.{Instr};
ghost use Rattle.uz_core.specs.Core.{effective_address, pair as register_pair};
ghost use Rattle.uz_core.specs.OperandRanges.{AddressModeFits, EffectFits};
ghost use Rattle.uz_core.specs.PadLine.{PadHistory};
ghost use Rattle.uz_core.specs.Turn.{State};
ghost use Rattle.uz_core.specs.Steps.{ReadsHere};
ghost use Rattle.uz_console.specs.Consoles.{StandsFor, state_of};
ghost use Rattle.uz_proposal.specs.Stores.{StoresOf, instruction_store, store_part, stored_by};

use avr_decode::decode;
use uz_console::Console;
use uz_core::{AddressMode, Effect, effect};
use uz_hex::FLASH_WORDS;

/// A byte that an instruction stores from a register.
#[derive(Clone, Copy)]
pub(crate) struct Stored {
    /// The data address.
    pub at: u16,
    /// The byte.
    pub value: u8,
}

/// A pair of registers, by the number of the low one.
fn pair(console: &Console, low: u8) -> u16
    requires { low + 1 < 32 }
    ensures { result ≡ register_pair (state_of console.now).core low }
{
    u16::from(console.reg(low)) + 256 * u16::from(console.reg(low + 1))
}

/// The data address at which a load or a store acts.
fn address(console: &Console, mode: AddressMode) -> u16
    requires { AddressModeFits mode }
    ensures { result ≡ effective_address mode (state_of console.now).core }
{
    match mode {
        AddressMode::Direct(at) => at,
        AddressMode::Displacement { pointer, offset } => {
            pair(console, pointer).wrapping_add(u16::from(offset))
        }
        AddressMode::PostIncrement { pointer } => pair(console, pointer),
        AddressMode::PreDecrement { pointer } => pair(console, pointer).wrapping_sub(1),
    }
}

/// What an effect stores.
fn effect_store(console: &Console, effect: Effect) -> Option<Stored>
    requires { EffectFits effect }
    ensures { result ≡ stored_by (state_of console.now).core (store_part effect) }
{
    match effect {
        Effect::Store { to, r } => Some(Stored {
            at: address(console, to),
            value: console.reg(r),
        }),
        _ => None,
    }
}

/// What the instruction at pc stores.
fn stored_here(console: &Console) -> Option<Stored>
    ensures { (i : Instr) → ReadsHere (state_of console.now).image (state_of console.now).core i
        → result ≡ instruction_store (state_of console.now).core i }
{
    let image = console.image();
    let row = decode(console.word(), image.word((console.pc() + 1) % FLASH_WORDS))?;
    effect_store(console, effect(&row))
}

/// What the instruction at pc does.
pub(crate) fn next_effect(console: &Console) -> Option<Effect> {
    let image = console.image();
    let row = decode(console.word(), image.word((console.pc() + 1) % FLASH_WORDS))?;
    Some(effect(&row))
}

/// What the next turn stores from a register.
#[tactic(auto, using(crate::proofs::GlanceLemmas::entry_stores, crate::proofs::GlanceLemmas::row_stores))]
pub(crate) fn next_store(console: &Console) -> Option<Stored>
    ensures { (s : State PadHistory) → StandsFor console.now s → StoresOf s result }
{
    if console.is_entering() {
        None
    } else {
        stored_here(console)
    }
}
