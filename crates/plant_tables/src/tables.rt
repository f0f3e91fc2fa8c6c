//! The keys of each table of a plant file.
ghost use Rattle.std.specs.Prelude.{◌≡◌, map};
ghost use Rattle.toml.specs.View.{table_view};
ghost use Rattle.plant_tables.specs.Tables.{keys_of, table_passes};

use crate::keys::keys_pass;
use crate::refusal::Refusal;
use plant_types::Place;
use toml::Table;

/// The versions of plant files.
#[derive(Clone, Copy, Debug, PartialEq, Eq)]
pub enum Version {
    /// One network.
    One,
    /// Several networks, bridges between them, and routes over bridges.
    Two,
}

/// The tables of a plant file.
#[derive(Clone, Copy, Debug, PartialEq, Eq)]
pub enum TableKind {
    /// The file as a whole.
    Plant(Version),
    /// What all networks share.
    Net(Version),
    /// One of several networks.
    Network,
    /// A controller.
    Controller(Version),
    /// A drop of a controller.
    Drop,
    /// A segment of a controller.
    Segment,
    /// A host.
    Host(Version),
}

const PLANT_KEYS: [&str; 6] = [
    "version",
    "scan_time",
    "watchdog",
    "net",
    "controller",
    "host",
];

const PLANT_REQUIRED: [&str; 2] = ["version", "controller"];

const NET_KEYS: [&str; 5] = ["fates", "answer", "rotations", "rounds", "holds"];

const CONTROLLER_KEYS: [&str; 10] = [
    "node",
    "coils",
    "inputs",
    "input_registers",
    "registers",
    "panel",
    "drop",
    "segment",
    "orders",
    "power",
];

const DROP_KEYS: [&str; 3] = ["number", "modules", "script"];

const DROP_REQUIRED: [&str; 2] = ["number", "modules"];

const SEGMENT_KEYS: [&str; 1] = ["networks"];

const HOST_KEYS: [&str; 2] = ["node", "requests"];

/// The one key that each station must have.
const STATION_REQUIRED: [&str; 1] = ["node"];

/// The keys of version 2, where they differ from those of version 1.
const PLANT_KEYS_TWO: [&str; 8] = [
    "version",
    "scan_time",
    "watchdog",
    "net",
    "network",
    "controller",
    "host",
    "bridges",
];

const PLANT_REQUIRED_TWO: [&str; 3] = ["version", "network", "controller"];

const NET_KEYS_TWO: [&str; 4] = ["answer", "rotations", "rounds", "holds"];

const NETWORK_KEYS: [&str; 2] = ["number", "fates"];

const NETWORK_REQUIRED: [&str; 1] = ["number"];

const CONTROLLER_KEYS_TWO: [&str; 11] = [
    "node",
    "network",
    "coils",
    "inputs",
    "input_registers",
    "registers",
    "panel",
    "drop",
    "segment",
    "orders",
    "power",
];

const HOST_KEYS_TWO: [&str; 3] = ["node", "network", "requests"];

const STATION_REQUIRED_TWO: [&str; 2] = ["node", "network"];

/// A table has no key but those of its kind, and each that it must have.
pub fn table_passes(place: Place, kind: TableKind, table: &Table) -> Result<(), Refusal>
    ensures { result ≡ table_passes place kind (table_view table.now) }
{
    match kind {
        TableKind::Plant(Version::One) => keys_pass(place, &PLANT_KEYS, &PLANT_REQUIRED, table),
        TableKind::Plant(Version::Two) => {
            keys_pass(place, &PLANT_KEYS_TWO, &PLANT_REQUIRED_TWO, table)
        }
        TableKind::Net(Version::One) => keys_pass(place, &NET_KEYS, &[], table),
        TableKind::Net(Version::Two) => keys_pass(place, &NET_KEYS_TWO, &[], table),
        TableKind::Network => keys_pass(place, &NETWORK_KEYS, &NETWORK_REQUIRED, table),
        TableKind::Controller(Version::One) => {
            keys_pass(place, &CONTROLLER_KEYS, &STATION_REQUIRED, table)
        }
        TableKind::Controller(Version::Two) => {
            keys_pass(place, &CONTROLLER_KEYS_TWO, &STATION_REQUIRED_TWO, table)
        }
        TableKind::Drop => keys_pass(place, &DROP_KEYS, &DROP_REQUIRED, table),
        TableKind::Segment => keys_pass(place, &SEGMENT_KEYS, &SEGMENT_KEYS, table),
        TableKind::Host(Version::One) => keys_pass(place, &HOST_KEYS, &STATION_REQUIRED, table),
        TableKind::Host(Version::Two) => {
            keys_pass(place, &HOST_KEYS_TWO, &STATION_REQUIRED_TWO, table)
        }
    }
}
