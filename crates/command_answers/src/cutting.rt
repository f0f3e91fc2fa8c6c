//! Where the input of a command is cut.
ghost use Rattle.command_answers.specs.Cut.{IsCut, IsCutAtNew, IsCutAtPort, IsCutAtWires};

use input_cuts::{cut_after, cut_before};

/// The line with which a journal begins.
const JOURNAL_MARK: &[u8] = b"%JOURNAL";

/// The line after which the bytes of a port stand.
const PORT_MARK: &[u8] = b"%SESSION";

/// The line after which wires stand.
const WIRES_MARK: &[u8] = b"%COP";

/// The line after which a new plant stands.
const NEW_MARK: &[u8] = b"%NEW";

/// The plant file of an input, and the journal after it.
pub fn cut(input: &[u8]) -> (&[u8], &[u8])
    ensures { IsCut input.now result.0.now result.1.now }
{
    cut_before(JOURNAL_MARK, input)
}

/// The plant file of an input, and the bytes of the port after it.
pub fn cut_at_port(input: &[u8]) -> (&[u8], &[u8])
    ensures { IsCutAtPort input.now result.0.now result.1.now }
{
    cut_after(PORT_MARK, input)
}

/// The plant file of an input, and the wires after it.
pub fn cut_at_wires(input: &[u8]) -> (&[u8], &[u8])
    ensures { IsCutAtWires input.now result.0.now result.1.now }
{
    cut_after(WIRES_MARK, input)
}

/// The plant file of an old plant, and that of a new one after it.
pub fn cut_at_new(input: &[u8]) -> (&[u8], &[u8])
    ensures { IsCutAtNew input.now result.0.now result.1.now }
{
    cut_after(NEW_MARK, input)
}
