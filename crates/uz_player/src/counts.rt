//! The numbers of a run.

/// The numbers of a run.
#[derive(Clone, Copy)]
pub struct Counts {
    /// The clock and the line of the first state that meets the entry condition, if one does.
    pub entered: Option<(u64, u16)>,
    /// Records of frames' ends.
    pub frames: u64,
    /// Records of rows.
    pub rows: u64,
    /// Sync edges.
    pub sync: u64,
    /// Pixel edges.
    pub pixels: u64,
    /// Sound edges.
    pub sounds: u64,
}
