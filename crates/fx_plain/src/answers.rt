//! How a run ended.

/// How a run ended. The exit statuses of the program are 0, 2, 3, 4, 5 and 6 in this order.
#[derive(Clone, Copy, PartialEq, Eq, Debug)]
pub enum Status {
    /// Every script line was taken and everything was written.
    Done,
    /// The words ask for no run.
    Usage,
    /// A file was refused, with a line `fault KIND FILE LINE COLUMN`.
    Refused,
    /// A file could not be read.
    ReadFault,
    /// The output could not be written.
    WriteFault,
    NoMemory,
}
