//! What solves and scans keep of states that agree on a closed set of references.
ghost use Rattle.cone_laws.specs.Agree.{SolvesKeepAgreement};

/// States that agree on a closed set agree on it after the solve of a segment.
pub fn solves_keep_agreement()
    ensures { SolvesKeepAgreement }
{}
