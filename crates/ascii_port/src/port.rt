//! A port that takes a stream of bytes and finds the frames on it.
ghost use Rattle.std.specs.Prelude.{◌≡◌, ◌≤◌, ℕ, List, [], ◌↔◌, length};
ghost use Rattle.plant_types.specs.Words.{IsPduLength};
ghost use Rattle.ascii_port.specs.Frames.{frame_of};
ghost use Rattle.ascii_port.specs.Hearing.{HasFrame, HasHeard, HearsByte, HasCome, StandsBehind};
ghost use Rattle.ascii_port.specs.declared.port.Fed.TheVariants.{Frame as FrameCame};
ghost use Rattle.ascii_port.specs.declared.port.Stage.TheVariants.{Whole};

use crate::digits::{Digit, digit_of};
use crate::gathered::Gathered;

/// What a byte brought.
#[derive(Clone, Copy, Debug, PartialEq, Eq)]
pub enum Fed {
    More,
    Frame,
}

/// What the bytes since the last colon are.
#[derive(Clone, Copy)]
enum Stage {
    /// There was none, or they are no frame however they go on, or no frame any more.
    Outside,
    /// Pairs of digits.
    Pairs,
    /// Pairs of digits, and then the high digit of a pair.
    High(Digit),
    /// Pairs of digits, and then a carriage return.
    Return,
    /// A frame, up to its end.
    Whole,
}

/// The stage behind one more byte.
fn stage_after(stage: Stage, bytes: &mut Gathered, byte: u8) -> Stage
    ensures fits { result ≡ Whole → 3 ≤ length bytes.new }
    ensures stands { (stream : List ℕ) → HasCome stage bytes.old stream →
        StandsBehind result bytes.new stream byte }
{
    if byte == b':' {
        bytes.clear();
        return Stage::Pairs;
    }
    match (stage, digit_of(byte)) {
        (Stage::Pairs, Some(digit)) => Stage::High(digit),
        (Stage::High(high), Some(low)) if !bytes.is_full() => {
            bytes.push(high.joined(low));
            Stage::Pairs
        }
        (Stage::Pairs, None) if byte == b'\r' => Stage::Return,
        (Stage::Return, None) if byte == b'\n' && bytes.is_frame() => Stage::Whole,
        _ => Stage::Outside,
    }
}

/// A port that finds the frames on a stream, whose bytes come one after another. It keeps one
/// frame.
#[derive(Drop)]
pub struct Port {
    stage: Stage,
    bytes: Gathered,
}

impl Port {
    /// A port that has heard nothing yet. Takes no memory.
    pub fn new() -> Port
        ensures { HasHeard result [] }
    {
        Port {
            stage: Stage::Outside,
            bytes: Gathered::new(),
        }
    }

    /// Takes the next byte of a stream. Takes no memory.
    pub fn feed(&mut self, byte: u8) -> Fed
        ensures frame { (result ≡ FrameCame) ↔ HasFrame self.new }
        ensures hears { (stream : List ℕ) → HasHeard self.old stream →
            HearsByte self.new stream byte result }
    {
        self.stage = stage_after(self.stage, &mut self.bytes, byte);
        match self.stage {
            Stage::Whole => Fed::Frame,
            _ => Fed::More,
        }
    }

    /// The address of the frame that came with the last byte.
    pub fn address(&self) -> u8
        requires { HasFrame self.now }
        ensures { result ≡ (frame_of self.now.bytes).address }
    {
        self.bytes.address()
    }

    /// The PDU of the frame that came with the last byte.
    pub fn pdu(&self) -> &[u8]
        requires { HasFrame self.now }
        ensures pdu { result.now ≡ (frame_of self.now.bytes).pdu }
        ensures fits { IsPduLength result.now }
    {
        self.bytes.pdu()
    }
}
