//! The digits of a frame.
ghost use Rattle.std.specs.Prelude.{◌≡◌, ◌+◌, ◌*◌, ◌<◌, option_map};
ghost use Rattle.ascii_port.specs.Frames.{frame_digit};

/// What a digit counts.
#[derive(Clone, Copy)]
pub(crate) struct Digit {
    value: u8,
    ghost small: { value < 16 },
}

impl Digit {
    /// The byte that this digit and a low one stand for.
    pub(crate) fn joined(self, low: Digit) -> u8
        ensures { result ≡ 16 * self.value + low.value }
    {
        16 * self.value + low.value
    }
}

/// A digit is 0 to 9 or a capital A to F.
pub(crate) fn digit_of(byte: u8) -> Option<Digit>
    ensures { option_map (λ digit. digit.value) result ≡ frame_digit byte }
{
    match byte {
        b'0'..=b'9' => Some(Digit { value: byte - b'0' }),
        b'A'..=b'F' => Some(Digit {
            value: byte - b'A' + 10,
        }),
        _ => None,
    }
}
