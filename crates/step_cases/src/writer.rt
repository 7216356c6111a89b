//! Writes the words of instructions one after another (encodings: AVR Instruction Set Manual). All but `load` use r16 alone.

use uz_core::address::IO_BASE;
use uz_hex::Image;

/// IJMP.
pub(crate) const IJMP: u16 = 0x9409;

/// `rjmp .`, which takes two clocks and does nothing else.
pub(crate) const PAUSE: u16 = 0xC000;

/// `sbi TIFR1,1`, which clears OCF1A. It takes two clocks.
pub(crate) const CLEAR_MATCH: u16 = 0x9AB1;

/// Sets the word at a word address, round the flash.
pub(crate) fn set_word(image: &mut Image, at: u16, word: u16) {
    let low = at % 32768 * 2;
    image.set(low, (word % 256) as u8);
    image.set(low + 1, (word / 256) as u8);
}

/// Words that follow one another.
#[derive(Drop)]
pub(crate) struct Writer<'a> {
    image: &'a mut Image,
    at: u16,
}

impl Writer<'_> {
    /// Words from an address on.
    pub(crate) fn new(image: &mut Image, at: u16) -> Writer<'_> {
        Writer { image, at }
    }

    /// The next word.
    pub(crate) fn word(&mut self, word: u16) {
        set_word(self.image, self.at, word);
        self.at = self.at.wrapping_add(1);
    }

    /// `ldi`, of r16 to r31.
    pub(crate) fn load(&mut self, r: u8, value: u8) {
        let high = u16::from(value / 16) * 256;
        let d = u16::from(r % 16) * 16;
        self.word(0xE000 + high + d + u16::from(value % 16));
    }

    /// `mov`, of r0 to r15 from r16.
    pub(crate) fn move_to(&mut self, r: u8) {
        self.word(0x2E00 + u16::from(r % 16) * 16);
    }

    /// `ldi r16,value` and `out`.
    pub(crate) fn put_out(&mut self, at: u16, value: u8) {
        let io = at.wrapping_sub(IO_BASE) % 64;
        self.load(16, value);
        self.word(0xB900 + io / 16 * 512 + io % 16);
    }

    /// `sts`, of what r16 has.
    pub(crate) fn store_again(&mut self, at: u16) {
        self.word(0x9300);
        self.word(at);
    }

    /// `ldi r16,value` and `sts`.
    pub(crate) fn store(&mut self, at: u16, value: u8) {
        self.load(16, value);
        self.store_again(at);
    }

    /// `ldi r16,value` and `push r16`.
    pub(crate) fn push(&mut self, value: u8) {
        self.load(16, value);
        self.word(0x930F);
    }

    /// `jmp`.
    pub(crate) fn jump(&mut self, pc: u16) {
        self.word(0x940C);
        self.word(pc % 32768);
    }

    /// `adiw r30,value`.
    pub(crate) fn add_to_z(&mut self, value: u8) {
        let value = u16::from(value % 64);
        self.word(0x9630 + value / 16 * 64 + value % 16);
    }
}
