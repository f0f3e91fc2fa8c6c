//! How loading ends without a plant.
ghost use Rattle.std.specs.Prelude.{◌≡◌};
ghost use Rattle.plant_tables.specs.declared.refusal.LoadEnd.TheVariants.{Refused, NoMemory};
ghost use Rattle.plant_tables.specs.Refusals.{Refusal, plant_place, net_place, network_place};
ghost use Rattle.plant_tables.specs.Refusals.{host_table_place, request_place, bridge_place};

use plant_types::{Part, Place, PlantFault};
use std::alloc::AllocError;

/// The first fault of what is read, and where it is.
pub type Refusal = (PlantFault, Place);

/// Why there is no plant.
#[derive(Clone, Copy, Debug, PartialEq, Eq)]
pub enum LoadEnd {
    /// The first fault of the file, and where it is.
    Refused(PlantFault, Place),
    /// Memory was refused.
    NoMemory,
}

impl From<AllocError> for LoadEnd {
    ghost from_gives = { λ _ end. end ≡ NoMemory };

    fn from(_: AllocError) -> LoadEnd {
        LoadEnd::NoMemory
    }
}

impl From<Refusal> for LoadEnd {
    ghost from_gives = { λ refusal end. end ≡ Refused refusal.0 refusal.1 };

    fn from(refusal: Refusal) -> LoadEnd {
        LoadEnd::Refused(refusal.0, refusal.1)
    }
}

/// The bytes are no document.
pub fn bad_toml() -> LoadEnd
    ensures { result ≡ LoadEnd.Refused PlantFault.BadToml plant_place }
{
    LoadEnd::Refused(PlantFault::BadToml, Place::PLANT)
}

/// The table of what all networks share.
pub fn net_place() -> Place
    ensures { result ≡ net_place }
{
    Place {
        part: Part::Net,
        at: [0; 4],
    }
}

/// The table of one network, counted from 1 in file order.
pub fn network_place(network: u32) -> Place
    ensures { result ≡ network_place network }
{
    Place {
        part: Part::Network,
        at: [network, 0, 0, 0],
    }
}

/// A host's table; hosts count from 1 in file order.
pub fn host_table_place(host: u32) -> Place
    ensures { result ≡ host_table_place host }
{
    Place {
        part: Part::Host,
        at: [host, 0, 0, 0],
    }
}

/// A request of a host, both counted from 1 in file order.
pub fn request_place(host: u32, request: u32) -> Place
    ensures { result ≡ request_place host request }
{
    Place {
        part: Part::HostRequest,
        at: [host, request, 0, 0],
    }
}

/// The text of a bridge, counted from 1 in file order.
pub fn bridge_place(bridge: u32) -> Place
    ensures { result ≡ bridge_place bridge }
{
    Place {
        part: Part::Bridge,
        at: [bridge, 0, 0, 0],
    }
}
