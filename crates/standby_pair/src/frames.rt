//! The frames that are left of those on a stream.
ghost use Rattle.std.specs.Prelude.{◌≡◌, drop};
ghost use Rattle.panel_session.specs.Asked.{frames_heard};

use panel_session::PortFrame;

/// The frames after so many.
pub(crate) fn frames_behind(frames: &[PortFrame], many: usize) -> &[PortFrame]
    ensures { frames_heard result.now ≡ drop many (frames_heard frames.now) }
{
    &frames[frames.len().min(many)..]
}
