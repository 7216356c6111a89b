//! The exit statuses.

/// How a command ended. The exit status is the variant's place, counted from 0.
#[derive(Clone, Copy)]
pub enum Status {
    /// All was done.
    Done,
    /// The words are no command.
    Usage,
    /// A file could not be read.
    Unread,
    /// A file is longer than its limit or not in its grammar.
    BadInput,
    /// The certificate is refused.
    Refused,
    /// A file or the output could not be written.
    Unwritten,
    /// The machine stopped.
    Stopped,
    /// The run never met the entry condition.
    NotEntered,
    /// There was not enough memory.
    NoMemory,
}
