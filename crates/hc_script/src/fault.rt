ghost use Rattle.std.specs.Prelude.{◌≡◌};
ghost use Rattle.hc_script.specs.Status.{number_of_status};

use thiserror::Error;

/// Why a line is refused.
#[derive(Clone, Copy, Debug, PartialEq, Eq)]
pub enum What {
    Form,
    Long,
    Size,
    Names,
    Unbuilt,
}

/// Why a script gives no further command.
#[derive(Clone, Copy, Debug, PartialEq, Eq, Error)]
pub enum ScriptFault {
    /// The line of this number, counted from 1, is refused.
    #[error("line {0} is refused: {1:?}")]
    Bad(u64, What),
    #[error("a read failed")]
    Read,
    #[error("out of memory")]
    Memory,
}

/// How a run of the program ended.
#[derive(Clone, Copy, Debug, PartialEq, Eq)]
pub enum Status {
    Done,
    BadWords,
    /// The line of this number, counted from 1, was refused.
    BadScript(u64, What),
    ReadFault,
    WriteFault,
    Memory,
}

impl Status {
    /// The exit status of the program.
    pub fn number(self) -> u8
        ensures { result ≡ number_of_status self }
    {
        match self {
            Status::Done => 0,
            Status::BadWords => 2,
            Status::BadScript(_, _) => 3,
            Status::ReadFault => 4,
            Status::WriteFault => 5,
            Status::Memory => 6,
        }
    }
}
