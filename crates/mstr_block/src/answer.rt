//! What a good result leaves in the registers of its block.
ghost use Rattle.std.specs.Prelude.{◌≡◌, ◌≤◌, length, drop};
ghost use Rattle.plant_types.specs.Power.{bits_of};
ghost use Rattle.plant_types.specs.Slots.{control_block};
ghost use Rattle.plant_types.specs.Store.{HasRegisters, Keeps};
ghost use Rattle.mstr_block.specs.Solve.{words_answered, available, area_words, after_answer};
ghost use Rattle.mstr_block.specs.Solve.{power_of, with_outcome};

use crate::call::MstrResult;
use crate::control::{start_register, status_register};
use crate::operation::Operation;
use crate::site::Site;
use crate::state::Kept;
use plant_types::{NodePower, RefStore, store_words};

// The outputs of a block.
pub(crate) const SILENT: NodePower = NodePower::OFF;

pub(crate) const ACTIVE: NodePower = NodePower::TOP;

pub(crate) const ERROR: NodePower = NodePower::MIDDLE;

const SUCCESS: NodePower = NodePower::BOTTOM;

impl Operation {
    /// The words that it answers, of those of a good result.
    fn answered(self, start: u16, words: &[u16]) -> &[u16]
        ensures { result.now ≡ words_answered self start words.now }
    {
        match self {
            Operation::ReadData => words,
            Operation::LocalStatistics => words_from(usize::from(start), words),
            Operation::RemoteStatistics => words_from(usize::from(start), words),
            Operation::ReadGlobal => words_from(1, words),
            _ => &words[..0],
        }
    }

    /// The number of words available, if it answers one and the result has it.
    fn available(self, words: &[u16]) -> &[u16]
        ensures available { result.now ≡ available self words.now }
        ensures one { length result.now ≤ 1 }
    {
        match self {
            Operation::ReadGlobal => &words[..words.len().min(1)],
            _ => &words[..0],
        }
    }
}

/// The words from a place on; none where it stands behind them.
fn words_from(place: usize, words: &[u16]) -> &[u16]
    ensures { result.now ≡ drop place words.now }
{
    &words[place.min(words.len())..]
}

impl Kept {
    /// The words for the data area.
    fn area_words(self, room: u16, words: &[u16]) -> &[u16]
        ensures words { result.now ≡ area_words self room words.now }
        ensures fits { length result.now ≤ room }
    {
        let answered = self.operation.answered(self.start, words);
        let most = usize::from(self.length.min(room));
        &answered[..answered.len().min(most)]
    }

    /// Stores the words of a good result: the status first, the data area last.
    fn store<R: RefStore>(self, words: &[u16], site: Site, ram: &mut R)
        requires control { HasRegisters (R.contents ram.old) site.control control_block }
        requires area { HasRegisters (R.contents ram.old) site.area site.room }
        ensures stored { R.contents ram.new ≡
            after_answer self words.now site (R.contents ram.old) }
        ensures keeps { Keeps (R.contents ram.old) (R.contents ram.new) }
    {
        ram.set_word(status_register(site.control), 0);
        let available = self.operation.available(words);
        store_words(ram, start_register(site.control), available);
        store_words(ram, site.area, self.area_words(site.room, words));
    }

    /// Stores what the call came to, and answers the outputs as bits.
    pub fn answer<R: RefStore>(self, outcome: &MstrResult, site: Site, ram: &mut R) -> u8
        requires control { HasRegisters (R.contents ram.old) site.control control_block }
        requires area { HasRegisters (R.contents ram.old) site.area site.room }
        ensures outputs { result ≡ bits_of (power_of outcome.now) }
        ensures stored { R.contents ram.new ≡
            with_outcome self outcome.now site (R.contents ram.old) }
        ensures keeps { Keeps (R.contents ram.old) (R.contents ram.new) }
    {
        match outcome {
            MstrResult::Good(words) => {
                self.store(words.words(), site, ram);
                SUCCESS.bits()
            }
            MstrResult::Bad(word) => {
                ram.set_word(status_register(site.control), *word);
                ERROR.bits()
            }
        }
    }
}
