//! What scans keep of states that are alike on a closed set of references.
ghost use Rattle.cone_runs.specs.AlikeIn.{AlikeInStay};

use cone_laws::solves_keep_agreement;
use field_runs::alike_states_stay;
use plant_types::discretes_are_on;

/// States that are alike on a closed set stay so under each scan in which the field brings both the
/// same, whatever else differs.
pub fn alike_in_stay()
    ensures { AlikeInStay }
{
    solves_keep_agreement();
    alike_states_stay();
    discretes_are_on();
}
