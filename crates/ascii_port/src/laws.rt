//! What holds of every stream.
ghost use Rattle.std.specs.Prelude.{◌≡◌, ◌<◌, ◌++◌, ◌∷◌, [], ℕ, List};
ghost use Rattle.hex.specs.Hex.{IsBytes};
ghost use Rattle.plant_types.specs.Words.{IsPduLength};
ghost use Rattle.ascii_port.specs.Frames.{frames, frame_text};

/// Behind any stream the text of a frame is one more frame, that one.
pub fn one_more_frame()
    ensures { (stream : List ℕ) (address : ℕ) (pdu : List ℕ) →
        address < 256 → IsBytes pdu → IsPduLength pdu →
        frames (stream ++ frame_text address pdu)
        ≡ frames stream ++ record { address = address; pdu = pdu } ∷ [] }
{}
