//! How a call ends.

/// The status of a call, a number from 0 to 6 in this order.
#[derive(Clone, Copy, Debug, PartialEq, Eq)]
pub enum Status {
    /// The command succeeded, and its run, if it has one, ended where no event is possible.
    Done,
    /// The words are no command.
    Usage,
    /// A text was refused.
    Refused,
    /// The schedule is used up, and an event is still possible.
    Stopped,
    /// A file couldn't be read.
    ReadFault,
    /// A file, or the output, couldn't be written.
    WriteFault,
    /// Memory was refused.
    Memory,
}
