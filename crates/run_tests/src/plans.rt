//! Plans of networks.
ghost use Rattle.std.specs.Prelude.{◌≡◌, [], IfOk};

use plant_types::{Fate, List, NetPlan};
use std::alloc::{AllocError, Global};

/// The one network, of these members, of which none is the end of a bridge: what becomes of what
/// they send, how often the token goes round after each scan, and after how many Passes a node
/// leaves in any case.
pub(crate) fn net_of(
    alloc: Global,
    members: &[u8],
    fates: &[Fate],
    rotations: u32,
    holds: u32,
) -> Result<NetPlan, AllocError>
    ensures members { IfOk result (λ net. net.members ≡ members.now) }
    ensures number { IfOk result (λ net. net.number ≡ 0) }
    ensures no_bridge { IfOk result (λ net. net.bridges ≡ []) }
    ensures fates { IfOk result (λ net. net.fates ≡ fates.now) }
{
    Ok(NetPlan {
        number: 0,
        members: List::from_vec(Vec::from_slice(alloc, members)?),
        bridges: List::new(alloc),
        fates: List::from_vec(Vec::from_slice(alloc, fates)?),
        answer: 20,
        rotations,
        rounds: 1,
        holds,
    })
}
