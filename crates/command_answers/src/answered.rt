//! An answer to a command.
ghost use Rattle.std.specs.Prelude.{◌≡◌, true};
ghost use Rattle.command_answers.specs.Status.{goes_with_text};

use crate::status::Status;

/// A status, and the text that goes with it: Ok, Refused, Illegal or Found.
#[derive(Drop)]
pub struct Answer {
    pub status: Status,
    pub text: Vec<u8>,
    ghost with_text: { goes_with_text status ≡ true },
}
