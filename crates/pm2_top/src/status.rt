//! How a command ends.

ghost use Rattle.std.specs.Prelude.{◌≡◌, ◌↔◌};
ghost use Rattle.pm2_top.specs.Number.{status_number};
ghost use Rattle.pm2_top.specs.Delivery.{is_told};

use outside::WriteRefusal;
use rv_asm::AsmError;
use simulation::RunEnd;

/// How a command ends.
#[derive(Clone, Copy, PartialEq, Eq)]
pub enum Status {
    /// The program has ended, or the listing is written.
    Done,
    /// The words ask for nothing that there is.
    Usage,
    /// The source has no image.
    BadSource(AsmError),
    /// Threads live, and each waits for what doesn't come.
    Stalled,
    /// The program goes on after all its turns.
    OutOfTurns,
    /// A file wasn't read.
    ReadFault,
    /// An output or a file wasn't written.
    WriteFault,
    /// There was not enough memory.
    NoMemory,
    /// The act of this line of the schedule isn't possible.
    NotPossible(u32),
    /// This line of the schedule, counted from 1, is the first that isn't of the grammar; 0 where the file is too long.
    BadScheduleText(u32),
}

impl Status {
    /// The number by which the process ends.
    pub fn number(&self) -> u8
        ensures { result ≡ status_number self.now }
    {
        match self {
            Status::Done => 0,
            Status::Usage => 1,
            Status::BadSource(_) => 2,
            Status::Stalled => 3,
            Status::OutOfTurns => 4,
            Status::ReadFault => 5,
            Status::WriteFault => 6,
            Status::NoMemory => 7,
            Status::NotPossible(_) => 8,
            Status::BadScheduleText(_) => 9,
        }
    }

    /// Whether a listing was written or a run has come to its end, so that what is asked for is told.
    pub(crate) fn is_told(&self) -> bool
        ensures { result ≡ is_told self.now }
    {
        matches!(
            self,
            Status::Done | Status::Stalled | Status::OutOfTurns | Status::NotPossible(_)
        )
    }
}

impl From<WriteRefusal> for Status {
    ghost use Rattle.pm2_top.specs.Number.{refusal_status};

    ghost from_gives = { λ refusal status. status ≡ refusal_status refusal };

    fn from(refusal: WriteRefusal) -> Status {
        match refusal {
            WriteRefusal::Failed => Status::WriteFault,
            WriteRefusal::NoMemory => Status::NoMemory,
        }
    }
}

impl From<RunEnd> for Status {
    ghost use Rattle.pm2_top.specs.Number.{end_status};

    ghost from_gives = { λ end status. status ≡ end_status end };

    fn from(end: RunEnd) -> Status {
        match end {
            RunEnd::Done => Status::Done,
            RunEnd::Stalled => Status::Stalled,
            RunEnd::OutOfTurns => Status::OutOfTurns,
            RunEnd::NotPossible(line) => Status::NotPossible(line),
            RunEnd::WriteFault => Status::WriteFault,
            RunEnd::NoMemory => Status::NoMemory,
        }
    }
}
