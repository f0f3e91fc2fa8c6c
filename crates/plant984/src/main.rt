// Runs a plant of programmable controllers from its file.
#![tactic(auto)]

ghost use Rattle.std.specs.Prelude.{◌≡◌, ◌⊎◌, IfErr};

#[cfg(test)]
mod calls;
mod live;
mod serial;
#[cfg(test)]
mod threads;
mod top;
mod writing;

use command_answers::Status;
use live_run::NoMeet;
use plant_io::{StdSink, StdSource};
use std::io::ErrorKind;
use std::process::ExitCode;
use std::{env, io};
use top::exit_by;

/// The words after the program's name. Usage tells of a word that is no text.
fn command_line(rt: &HostRuntime) -> Result<Vec<String>, Status>
    ensures { IfErr result (λ status. (status ≡ Status.NoMemory) ⊎ (status ≡ Status.Usage)) }
{
    match env::args(rt) {
        Ok(words) => words
            .skip(1)
            .collect(rt.alloc())
            .map_err(|_| Status::NoMemory),
        Err(error) if error.kind() == ErrorKind::OutOfMemory => Err(Status::NoMemory),
        Err(_) => Err(Status::Usage),
    }
}

fn main(rt: HostRuntime) -> ExitCode {
    let words = command_line(&rt);
    let mut source = StdSource::new(rt.reader());
    let mut sink = StdSink::new(io::writer(&rt));
    exit_by(&rt, rt.alloc(), words, &mut source, &mut sink, &NoMeet)
}
