//! What holds of all verdicts.
ghost use Rattle.joint_law.specs.Agreement.{VerdictsAgree};

use controller_core::fronts_are_legal;

/// A joint history has one verdict: what is said of a spot is true of no other.
pub fn verdicts_agree()
    ensures { VerdictsAgree }
{
    fronts_are_legal();
}
