//! How a run ends.
ghost use Rattle.std.specs.Prelude.{◌≡◌};
ghost use Rattle.magex_top.specs.Statuses.{code_of};

use session_model::Halt;

/// How a run ended. Its number is the exit status of the program.
#[derive(Clone, Copy, Debug, PartialEq, Eq)]
pub enum Status {
    /// The run came to its end, and no line of its report tells of something refused, offending or unsettled.
    Done = 0,
    /// The run came to its end, and its report has a line that tells of something refused, offending or unsettled.
    Told = 1,
    /// The words after the program's name are not of its form.
    Usage = 2,
    /// The script or a file could not be read.
    ReadFault = 3,
    /// The report or a file could not be written.
    WriteFault = 4,
    /// There was not enough memory.
    Memory = 5,
    /// The script has more than 16 MiB.
    ScriptTooLong = 6,
}

impl Status {
    /// The exit status of the program.
    pub fn code(self) -> u8
        ensures { result ≡ code_of self }
    {
        self as u8
    }
}

/// The status of a run that is ended in the midst of its script.
impl From<Halt> for Status {
    ghost use Rattle.std.specs.Prelude.{◌≡◌};
    ghost use Rattle.magex_top.specs.Statuses.{status_of};

    ghost from_gives = { λ halt status. status ≡ status_of halt };

    fn from(halt: Halt) -> Status {
        match halt {
            Halt::ReadFault => Status::ReadFault,
            Halt::WriteFault => Status::WriteFault,
            Halt::Memory => Status::Memory,
        }
    }
}
