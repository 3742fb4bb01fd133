//! How the tool ends.

/// The numbers are the exit statuses of the program.
#[derive(Clone, Copy, Debug, PartialEq, Eq)]
pub enum Status {
    Done = 0,
    Refused = 1,
    Trapped = 2,
    Usage = 3,
    FileFault = 4,
    SinkFault = 5,
    NoMemory = 6,
    Absent = 7,
}
