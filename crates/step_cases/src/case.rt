//! One draw: a state of a console at an instruction, and an instance that it meets.

use arrayvec::ArrayVec;
use uz_schedule::Instance;

/// The registers, and the flags C, Z, N, V, S, H and T from bit 0 on.
#[derive(Drop)]
pub(crate) struct Core {
    /// R0 to R31.
    pub regs: [u8; 32],
    /// Bits 0 to 6 of SREG.
    pub flags: u8,
}

/// One draw.
#[derive(Drop)]
pub(crate) struct Case {
    /// The words at the pc.
    pub words: [u16; 2],
    /// The core at the instruction.
    pub core: Core,
    /// The core that a handler has interrupted.
    pub before: Core,
    /// What lies on the stack under the instance's own slots, from the bottom: under a handler main's bytes and the two of the
    /// interrupted pc.
    pub below: ArrayVec<u8, 8>,
    /// The bytes of the instance's slots, from the bottom.
    pub slots: ArrayVec<u8, 8>,
    /// The bytes of the header's cells.
    pub cells: [u8; 4],
    /// TCNT1.
    pub count: u16,
    /// TEMP.
    pub temp: u8,
    /// PORTB, whose bit 0 is the level of sync.
    pub port_b: u8,
    /// A byte of PORTC and of RAM that isn't tracked.
    pub filler: u8,
    /// An instance that the state meets.
    pub at: Instance,
}
