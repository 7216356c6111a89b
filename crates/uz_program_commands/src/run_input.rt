//! What a run from reset is made of.

use uz_schedule::Response;

/// What a run from reset is made of.
#[derive(Clone, Copy)]
pub struct RunInput<'a> {
    /// The file of its image.
    pub hex: &'a str,
    /// The file of its pads.
    pub pads: &'a str,
    /// The response of its interrupt.
    pub irq: Response,
    /// How many clocks it takes, unless it stops before.
    pub clocks: u32,
}
