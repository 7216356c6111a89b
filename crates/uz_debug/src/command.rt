//! Commands and replies.

/// A command of the debugger. Turns are counted from reset; a turn is one instruction or one interrupt entry.
#[derive(Clone, Copy, Debug)]
pub enum Command {
    /// So many turns on, 1 to 100,000,000.
    Step(u32),
    /// So many turns on, 1 to 100,000,000, or up to the first breakpoint behind the turn where it begins.
    Run(u32),
    /// So many turns back, 1 to 100,000,000.
    Back(u32),
    /// A breakpoint at a word address below 32,768.
    Break(u16),
    /// No breakpoint at a word address below 32,768.
    Clear(u16),
    /// Keeps the turn in a slot, 0 to 9.
    Save(u8),
    /// Goes to the turn that a slot keeps, 0 to 9.
    Load(u8),
    /// Shows the registers.
    Show,
    /// Shows 1 to 16 bytes of the data space from an address on.
    Mem(u16, u8),
}

/// Why a command is refused.
#[derive(Clone, Copy, Debug)]
pub enum DebugWhy {
    /// Step or Run past turn 100,000,000.
    Limit,
    /// Back behind the reset.
    Far,
    /// Break of a new address where 64 are set.
    Breaks,
    /// Clear of an address that isn't set, or Load of an empty slot.
    Unset,
}

/// What a command answers.
#[derive(Clone, Copy)]
pub enum Reply {
    /// The turn where the debugger is now, with the clock and the program counter (a word address).
    At { turn: u32, clock: u64, pc: u16 },
    /// The turn where it is now, which has no next one: no row of the instruction table reads the words at pc, of which the
    /// first is given, or they are SPM.
    Stopped { turn: u32, pc: u16, word: u16 },
    /// Break, Clear or Save is done.
    Fine,
    /// Show and Mem: nothing changes, and the console is read.
    Shown,
    /// Nothing changes.
    Refused(DebugWhy),
}
