//! What files expand to.

use crate::origin::Origin;

/// A text without macros, blocks and includes.
#[derive(Drop)]
pub struct Flat {
    /// Its bytes, of which there are at most 1,048,576. Each line ends in LF.
    pub text: Vec<u8>,
    /// For each line of the text the line of a file that it comes from; inside of blocks and calls that is the line at
    /// which the outermost one begins.
    pub origins: Vec<Origin>,
}
