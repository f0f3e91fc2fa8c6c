//! The answer to a question for global words.
ghost use Rattle.std.specs.Prelude.{◌≡◌, ◌≤◌, length};
ghost use Rattle.ring_core.specs.Scratch.{global_answer};

use mstr_block::MstrResult;
use plant_types::Block;

// The error word of too many words.
const TOO_MANY: u16 = 0x200a;

// How many words were heard, and the first of them.
pub(crate) fn global_answer(heard: &[u16], size: usize) -> MstrResult
    requires { length heard.now ≤ 32 }
    ensures { result ≡ global_answer heard.now size }
{
    if size > heard.len() {
        return MstrResult::Bad(TOO_MANY);
    }
    let mut words = [0; 33];
    words[0] = heard.len() as u16;
    words[1..size + 1].copy_from_slice(&heard[..size]);
    MstrResult::Good(Block::of(&words[..size + 1]))
}
