//! How the program ends.
ghost use Rattle.std.specs.Prelude.{◌≡◌};
ghost use Rattle.std.specs.Process.{exit_status};
ghost use Rattle.command_answers.specs.Status.{exit_number};

use std::process::ExitCode;

/// How the program ends. This project's own.
#[derive(Clone, Copy, Debug, PartialEq, Eq)]
pub enum Status {
    Ok,
    NoMemory,
    /// The words of the command line are no command.
    Usage,
    ReadFault,
    WriteFault,
    /// The plant file has a fault.
    Refused,
    /// The input is longer than the limit.
    TooLong,
    /// The journal is not that of a complete run of the plant.
    Illegal,
    /// A run was found that comes to what is never to be.
    Found,
}

impl From<Status> for ExitCode {
    ghost from_gives = { λ status code. exit_status code ≡ exit_number status };

    fn from(status: Status) -> ExitCode {
        ExitCode::from(match status {
            Status::Ok => 0,
            Status::NoMemory => 1,
            Status::Usage => 2,
            Status::ReadFault => 3,
            Status::WriteFault => 4,
            Status::Refused => 5,
            Status::TooLong => 6,
            Status::Illegal => 7,
            Status::Found => 9,
        })
    }
}
