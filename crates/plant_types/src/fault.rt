//! Why a plant file is refused, and where.
ghost use Rattle.std.specs.Prelude.{◌≡◌, Some};
ghost use Rattle.plant_types.specs.Fault.{fault_number, fault_name, fault_text, place_text};
ghost use Rattle.plant_types.specs.Fault.{controller_place, segment_place, cell_place, order_place};
ghost use Rattle.plant_types.specs.Fault.{power_place, panel_place, at_place, behind_text};

use std::fmt;

/// What is wrong with a plant file. This project's own.
#[derive(Clone, Copy, Debug, PartialEq, Eq)]
pub enum PlantFault {
    BadToml,
    BadKey,
    BadValue,
    BadVersion,
    BadRef,
    BadCell,
    BadShape,
    CoilTwice,
    BadOrder,
    BadDrop,
    BadScript,
    BadNode,
    TooLarge,
    BadPower,
    BadNetwork,
}

impl PlantFault {
    /// The number that a refusal line shows.
    pub fn number(self) -> u8
        ensures { result ≡ fault_number self }
    {
        match self {
            PlantFault::BadToml => 1,
            PlantFault::BadKey => 2,
            PlantFault::BadValue => 3,
            PlantFault::BadVersion => 4,
            PlantFault::BadRef => 5,
            PlantFault::BadCell => 6,
            PlantFault::BadShape => 7,
            PlantFault::CoilTwice => 8,
            PlantFault::BadOrder => 9,
            PlantFault::BadDrop => 10,
            PlantFault::BadScript => 11,
            PlantFault::BadNode => 12,
            PlantFault::TooLarge => 13,
            PlantFault::BadPower => 15,
            PlantFault::BadNetwork => 16,
        }
    }

    /// The name that a refusal line shows.
    pub fn name(self) -> &'static str
        ensures { result.now ≡ fault_name self }
    {
        match self {
            PlantFault::BadToml => "BadToml",
            PlantFault::BadKey => "BadKey",
            PlantFault::BadValue => "BadValue",
            PlantFault::BadVersion => "BadVersion",
            PlantFault::BadRef => "BadRef",
            PlantFault::BadCell => "BadCell",
            PlantFault::BadShape => "BadShape",
            PlantFault::CoilTwice => "CoilTwice",
            PlantFault::BadOrder => "BadOrder",
            PlantFault::BadDrop => "BadDrop",
            PlantFault::BadScript => "BadScript",
            PlantFault::BadNode => "BadNode",
            PlantFault::TooLarge => "TooLarge",
            PlantFault::BadPower => "BadPower",
            PlantFault::BadNetwork => "BadNetwork",
        }
    }
}

/// The number and the name, as in `8 CoilTwice`.
impl fmt::Display for PlantFault {
    ghost output = { λ fault. Some (fault_text fault) };

    fn fmt<W: fmt::Write>(&self, f: &mut fmt::Formatter<W>) -> fmt::Result {
        let number = self.number();
        let name = self.name();
        write!(f, "{number} {name}")
    }
}

/// The part of a plant file that a place is in. This project's own.
#[derive(Clone, Copy, Debug, PartialEq, Eq)]
pub enum Part {
    /// The file as a whole.
    Plant,
    /// The table of what all networks share.
    Net,
    /// The table of one network.
    Network,
    /// A controller's table.
    Controller,
    /// A drop of a controller.
    Drop,
    /// A module of a drop.
    Module,
    /// A script row of a drop.
    Script,
    /// A segment of a controller.
    Segment,
    /// A piece of a network's text.
    Cell,
    /// An order row of a controller.
    Order,
    /// A power row of a controller.
    Power,
    /// A panel reference of a controller.
    Panel,
    /// A host's table.
    Host,
    /// A request of a host.
    HostRequest,
    /// A bridge's text.
    Bridge,
}

/// A place in a plant file: the numbers of its text in order, from 1 in file order, 0 where unused.
#[derive(Clone, Copy, Debug, PartialEq, Eq)]
pub struct Place {
    pub part: Part,
    pub at: [u32; 4],
}

impl Place {
    /// The file as a whole.
    pub const PLANT: Place = Place {
        part: Part::Plant,
        at: [0; 4],
    };

    /// The table of a controller.
    pub fn controller(controller: u32) -> Place
        ensures { result ≡ controller_place controller }
    {
        Place {
            part: Part::Controller,
            at: [controller, 0, 0, 0],
        }
    }

    /// The table of a segment.
    pub fn segment(controller: u32, segment: u32) -> Place
        ensures { result ≡ segment_place controller segment }
    {
        Place {
            part: Part::Segment,
            at: [controller, segment, 0, 0],
        }
    }

    /// A piece of a network of a segment.
    pub fn cell(controller: u32, segment: u32, network: u32, cell: u32) -> Place
        ensures { result ≡ cell_place controller segment network cell }
    {
        Place {
            part: Part::Cell,
            at: [controller, segment, network, cell],
        }
    }

    /// An order row.
    pub fn order(controller: u32, order: u32) -> Place
        ensures { result ≡ order_place controller order }
    {
        Place {
            part: Part::Order,
            at: [controller, order, 0, 0],
        }
    }

    /// A power row.
    pub fn power(controller: u32, row: u32) -> Place
        ensures { result ≡ power_place controller row }
    {
        Place {
            part: Part::Power,
            at: [controller, row, 0, 0],
        }
    }

    /// A panel reference.
    pub fn panel(controller: u32, reference: u32) -> Place
        ensures { result ≡ panel_place controller reference }
    {
        Place {
            part: Part::Panel,
            at: [controller, reference, 0, 0],
        }
    }

    /// Where a test failed here, its fault and this place.
    pub fn locate(self, tested: Result<(), PlantFault>) -> Result<(), (PlantFault, Place)>
        ensures { result ≡ at_place self tested }
    {
        match tested {
            Ok(()) => Ok(()),
            Err(fault) => Err((fault, self)),
        }
    }
}

/// The numbers behind a controller's, by the names of a part.
#[derive(Clone, Copy)]
struct Behind {
    part: Part,
    second: u32,
    third: u32,
    fourth: u32,
}

/// As in ` segment 1 network 1 cell 4`.
impl fmt::Display for Behind {
    ghost output = { λ behind. Some (behind_text behind) };

    fn fmt<W: fmt::Write>(&self, f: &mut fmt::Formatter<W>) -> fmt::Result {
        let Behind {
            part,
            second,
            third,
            fourth,
        } = self;
        match part {
            Part::Drop => write!(f, " drop {second}"),
            Part::Module => write!(f, " drop {second} module {third}"),
            Part::Script => write!(f, " drop {second} script {third}"),
            Part::Segment => write!(f, " segment {second}"),
            Part::Cell => write!(f, " segment {second} network {third} cell {fourth}"),
            Part::Order => write!(f, " order {second}"),
            Part::Power => write!(f, " power {second}"),
            Part::Panel => write!(f, " panel {second}"),
            _ => Ok(()),
        }
    }
}

/// As in `controller 1 segment 1 network 1 cell 4`.
impl fmt::Display for Place {
    ghost output = { λ place. Some (place_text place) };

    fn fmt<W: fmt::Write>(&self, f: &mut fmt::Formatter<W>) -> fmt::Result {
        let [first, second, third, fourth] = self.at;
        match self.part {
            Part::Plant => write!(f, "plant"),
            Part::Net => write!(f, "net"),
            Part::Network => write!(f, "network {first}"),
            Part::Bridge => write!(f, "bridge {first}"),
            Part::Host => write!(f, "host {first}"),
            Part::HostRequest => write!(f, "host {first} request {second}"),
            part => {
                let behind = Behind {
                    part,
                    second,
                    third,
                    fourth,
                };
                write!(f, "controller {first}{behind}")
            }
        }
    }
}
