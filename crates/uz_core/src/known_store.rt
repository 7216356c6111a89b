//! Instructions that make one store, to an address that is known when they are decoded, and nothing else.

ghost use Rattle.std.specs.Prelude.{◌≡◌, ◌<◌, ◌∷◌, [], IfNone, IfSome};
ghost use Rattle.uz_core.specs.OperandRanges.{EffectFits};
ghost use Rattle.uz_core.specs.RowClocks.{clocks_in};

use crate::address::is_core_address;
use crate::decoded::{Decoded, Reading};
use crate::program::Program;
use crate::{AddressMode, Cpu, Effect, HeldStore};
use uz_hex::FLASH_WORDS;

/// Where such an instruction stores, and what. No address is one of the core's own.
#[derive(Clone, Copy)]
pub(crate) enum Target {
    /// STS and OUT: register r.
    Byte { at: u16, r: u8 },
    /// SBI and CBI.
    Bit { at: u8, bit: u8, set: bool },
}

/// Such an instruction, at a word address.
#[derive(Clone, Copy)]
pub(crate) struct KnownStore {
    pub(crate) target: Target,
    /// The word address of the following instruction.
    pub(crate) following: u16,
    pub(crate) clocks: u8,
    ghost following_below: { following < 32768 },
}

impl Target {
    ghost use Rattle.uz_core.specs.KnownStores.{IsOutside, storing};

    /// Where an effect stores, if it makes one store to an address that is known and not one of the core's own.
    fn of(effect: Effect) -> Option<Target>
        ensures effect { IfSome result (λ target. effect ≡ storing target) }
        ensures outside { IfSome result IsOutside }
    {
        match effect {
            Effect::Store {
                to: AddressMode::Direct(at),
                r,
            } => {
                if is_core_address(at) {
                    None
                } else {
                    Some(Target::Byte { at, r })
                }
            }
            Effect::WriteIoBit { address, bit, set } => Some(Target::Bit {
                at: address,
                bit,
                set,
            }),
            _ => None,
        }
    }
}

impl KnownStore {
    ghost use Rattle.uz_core.specs.KnownStores.{IsKnownStore};

    /// The instruction that was decoded at a word address, where it makes one store that is known.
    pub(crate) fn of(at: u16, decoded: &Decoded) -> Option<KnownStore>
        requires { at < 32768 }
        ensures { IfSome result (IsKnownStore at decoded.now.effect decoded.now.words (clocks_in decoded.now.clocks)) }
    {
        match Target::of(decoded.effect) {
            None => None,
            Some(target) => Some(KnownStore {
                target,
                following: (at + u16::from(decoded.words)) % FLASH_WORDS,
                clocks: decoded.clocks.next,
            }),
        }
    }
}

impl Cpu {
    ghost use Rattle.uz_core.specs.KnownStores.{StoreFits, store_to, storing};
    ghost use Rattle.uz_core.specs.PlainSteps.{IsPlainStep};

    /// Runs an instruction that makes a known store, and answers the store, which isn't made yet.
    #[inline(always)]
    pub(crate) fn pass_store(&mut self, known: &KnownStore) -> HeldStore
        requires { EffectFits (storing known.now.target) }
        ensures core { self.new ≡ record self.old { pc = known.now.following } }
        ensures store { result ≡ store_to known.now.target self.old }
        ensures fits { StoreFits result }
    {
        let store = match known.target {
            Target::Byte { at, r } => HeldStore::Byte {
                at,
                value: self.reg(r),
            },
            Target::Bit { at, bit, set } => HeldStore::Bit {
                at: u16::from(at),
                bit,
                set,
            },
        };
        self.set_pc(known.following);
        store
    }

    /// Runs the instruction at pc, where it makes one store that was known when it was decoded. Answers the store, which isn't made
    /// yet, and the instruction's clocks; `None` where it is another instruction, and all is unchanged then.
    #[inline(always)]
    pub fn step_store(&mut self, program: &Program) -> Option<(HeldStore, u8)>
        ensures none { IfNone result (self.new ≡ self.old) }
        ensures step { IfSome result (λ made. IsPlainStep program.now self.old self.new (made.0 ∷ []) made.1) }
        ensures fits { IfSome result (λ made. StoreFits made.0) }
    {
        match program.reading(self.pc()) {
            Reading::Stores(known) => {
                let store = self.pass_store(known);
                Some((store, known.clocks))
            }
            _ => None,
        }
    }
}
