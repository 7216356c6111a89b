//! The first fault of a text, by its why's name.

/// Why a text isn't read: the line that its reader names, with the name of the why; or want of memory.
#[derive(Drop)]
pub enum TextFault {
    At { line: u32, why: &'static str },
    Memory,
}
