//! The data space as the core sees it.

ghost use Rattle.std.specs.Prelude.{◌≡◌, ◌<◌, ◌++◌, ◌∷◌, [], length, List};
ghost use Rattle.uz_core.specs.Core.{LoadModel};
ghost use Rattle.uz_core.specs.declared.machine.HeldStore.{HeldStore};
ghost use Rattle.uz_core.specs.declared.machine.HeldStore.TheVariants.{Byte, Bit};

/// What lies behind the core: all data addresses but 0x00 to 0x1F (registers) and 0x5D to 0x5F (SPL, SPH, SREG).
///
/// Stores are held until the turn ends, and act in the order in which they were made.
pub trait Data {
    /// What the implementation holds, as plain data.
    ghost Content: { Type 0 };

    /// the content of a value
    ghost content: { Self → Content };

    /// the stores that are held for the turn's end
    ghost held: { Self → List HeldStore };

    /// for each content, address and clock the byte that a load gives, and the content after it
    ghost model: { LoadModel Content };

    /// The byte at a data address, as it is `late` clocks after the start of the instruction.
    fn load(&mut self, at: u16, late: u8) -> u8
        ensures byte { result ≡ model.byte (content self.old) at late }
        ensures after { content self.new ≡ model.content_after (content self.old) at late }
        ensures held { held self.new ≡ held self.old };

    /// Holds a store of a byte.
    fn store(&mut self, at: u16, value: u8)
        requires { length (held self.old) < 2 }
        ensures held { held self.new ≡ held self.old ++ Byte at value ∷ [] }
        ensures content { content self.new ≡ content self.old };

    /// Holds a store of one bit, as SBI (`set`) and CBI make it.
    fn bit(&mut self, at: u16, bit: u8, set: bool)
        requires room { length (held self.old) < 2 }
        requires below { bit < 8 }
        ensures held { held self.new ≡ held self.old ++ Bit at bit set ∷ [] }
        ensures content { content self.new ≡ content self.old };
}
