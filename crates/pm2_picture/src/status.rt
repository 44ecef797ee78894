//! How the program ends.

ghost use Rattle.std.specs.Prelude.{◌≡◌};
ghost use Rattle.pm2_picture.specs.Statuses.{status_number};

/// How the program ends.
#[derive(Clone, Copy)]
pub enum Status {
    /// The picture is written.
    Done,
    /// The words ask for no picture.
    Usage,
    /// This line of the trace, counted from 1, is the first that isn't of the grammar.
    BadTrace(u32),
    /// The window has too many entries.
    TooMany,
    /// The trace wasn't read.
    ReadFault,
    /// The picture wasn't written.
    WriteFault,
    /// There was not enough memory.
    NoMemory,
}

/// The number by which the process ends.
pub(crate) fn status_number(status: &Status) -> u8
    ensures { result ≡ status_number status.now }
{
    match status {
        Status::Done => 0,
        Status::Usage => 1,
        Status::BadTrace(_) => 2,
        Status::TooMany => 3,
        Status::ReadFault => 5,
        Status::WriteFault => 6,
        Status::NoMemory => 7,
    }
}
