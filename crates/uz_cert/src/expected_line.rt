//! The kinds of line of a certificate's text.

/// A kind of line that may be due, after the first line.
#[derive(Clone, Copy)]
pub enum ExpectedLine {
    /// `size KINDS LINES RESTS POINTS CELLS`
    Size,
    /// `irq R`
    Irq,
    /// `stack LO HI MAIN HANDLER`
    Stack,
    /// `cell ADDRESS OWNER LO HI`
    Cell,
    /// `kind EVENTS`
    Kind,
    /// `CLOCK sync V`, `CLOCK pixel`, `CLOCK sound` and `CLOCK leave`
    Event,
    /// `fall CLOCK`
    Fall,
    /// `run COUNT KIND`
    Run,
    /// `rest LINE CLOCK VECTOR SPANS`
    Rest,
    /// `entry KIND ID PC LINE CLOCK ITEMS`
    Entry,
    /// `point KIND PC L0 L1 C0 C1 CLOCK SLOPE PENDING ITEMS`
    Point,
    /// `end`
    End,
}
