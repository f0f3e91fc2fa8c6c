//! The segments of a controller while they are read.
ghost use Rattle.std.specs.Prelude.{◌≡◌, ◌<◌, ◌≤◌, ◌+◌, ◌||◌, ◌&&◌, ◌==◌, not, nat_lt, ◌++◌, ◌∷◌};
ghost use Rattle.std.specs.Prelude.{[], length, Ok, if◌then◌else◌};
ghost use Rattle.std.specs.List.{cons_option, list_any};
ghost use Rattle.plant_types.specs.FirstFault.{first_failed};
ghost use Rattle.plant_types.specs.Standing.{is_message, repeats_label};
ghost use Rattle.plant_types.specs.Standing.{standing_of, coils_in, is_driven, message_count};
ghost use Rattle.plant_types.specs.Standing.{message_limit};
ghost use Rattle.plant_types.specs.Network.{driven_by};
ghost use Rattle.plant_types.specs.PlanTests.{site_cell_tests};
ghost use Rattle.plant_types.specs.FirstFault.{short_tests};
ghost use Rattle.controller_tables.specs.Driven.{GainsLabel, HoldsJust};
ghost use Rattle.plant_tables.specs.Refusals.{Gives, Makes};
ghost use Rattle.controller_tables.specs.Program.{ReadProgram, cells_read, nothing_read};
ghost use Rattle.controller_tables.specs.Program.{piece_count, place_of_next, site_of, with_cell};
ghost use Rattle.controller_tables.specs.Program.{with_network, with_segment, with_short};

use plant_tables::LoadEnd;
use plant_types::{
    Cell, Element, List, MESSAGE_LIMIT, NETWORK_LIMIT, Network, Place, PlantFault, Ref,
    SEGMENT_LIMIT, Segment, Short, Sizes, Standing, driven_by, is_label, is_message,
};
use std::alloc::Global;
use std::collections::BTreeSet;
use std::marker::Model;

/// How many segments there are in all, those that are whole, the networks of the next one that are
/// whole, the cells and shorts of the network that is being read, the coils that all cells drive,
/// the numbers of their labels, and how many messages they are.
pub struct Program {
    count: usize,
    segments: List<Segment>,
    networks: List<Network>,
    cells: List<Cell>,
    shorts: List<Short>,
    driven: BTreeSet<Ref>,
    labels: BTreeSet<u16>,
    messages: usize,
}

impl Model for Program {
    ghost use Rattle.controller_tables.specs.Program.{ReadProgram};
    ghost use Rattle.controller_tables.specs.Kept.{KeepsProgram};

    ghost Value = { ReadProgram };

    ghost view = { λ p. record {
      count = p.count;
      segments = p.segments;
      networks = p.networks;
      cells = p.cells;
      shorts = p.shorts;
    } };

    ghost invariant = { λ p. KeepsProgram p.driven.keys p.labels.keys p.messages
        (record {
          count = p.count;
          segments = p.segments;
          networks = p.networks;
          cells = p.cells;
          shorts = p.shorts;
        }) };
}

impl Drop for Program {
    fn drop(self) {
        let Program {
            count: _,
            segments: _,
            networks: _,
            cells: _,
            shorts: _,
            driven: _,
            labels: _,
            messages: _,
        } = self;
    }
}

/// The references of a set, and one more, if there is one.
fn with_coil(mut driven: BTreeSet<Ref>, coil: Option<Ref>) -> Result<BTreeSet<Ref>, LoadEnd>
    ensures { Makes result (λ new. HoldsJust new.keys (driven.keys ++ cons_option coil [])) }
{
    let Some(coil) = coil else {
        return Ok(driven);
    };
    match driven.insert(coil) {
        Ok(_) => Ok(driven),
        Err(_) => Err(LoadEnd::NoMemory),
    }
}

/// The numbers of a set, and that of an element that is a LAB.
fn with_label(mut labels: BTreeSet<u16>, element: Element) -> Result<BTreeSet<u16>, LoadEnd>
    ensures { Makes result (λ new. GainsLabel new.keys labels.keys element) }
{
    let Element::Label(number) = element else {
        return Ok(labels);
    };
    match labels.insert(number) {
        Ok(_) => Ok(labels),
        Err(_) => Err(LoadEnd::NoMemory),
    }
}

/// How many messages there are with an element more.
fn messages_with(messages: usize, element: Element) -> usize
    requires { messages ≤ MESSAGE_LIMIT }
    ensures { result ≡ messages + (if is_message element then 1 else 0) }
{
    if is_message(element) {
        messages + 1
    } else {
        messages
    }
}

impl Program {
    /// No network yet of so many segments.
    pub fn new(alloc: Global, count: usize) -> Program
        ensures { result ≡ nothing_read count }
    {
        Program {
            count,
            segments: List::new(alloc),
            networks: List::new(alloc),
            cells: List::new(alloc),
            shorts: List::new(alloc),
            driven: BTreeSet::new(alloc),
            labels: BTreeSet::new(alloc),
            messages: 0,
        }
    }

    fn drives(&self, coil: Option<Ref>) -> bool
        ensures { result ≡ is_driven (coils_in (cells_read self.now)) coil }
    {
        match coil {
            Some(coil) => self.driven.contains(&coil),
            None => false,
        }
    }

    /// Whether an element is a LAB whose number one before it has.
    fn has_label(&self, element: Element) -> bool
        ensures { result ≡ repeats_label (cells_read self.now) element }
    {
        match element {
            Element::Label(number) => self.labels.contains(&number),
            _ => false,
        }
    }

    fn is_in_last(&self) -> bool
        ensures { result ≡ (length self.now.segments + 1 == self.now.count) }
    {
        self.segments.as_slice().len() + 1 == self.count
    }

    /// Whether an element is a message behind as many as there can be.
    fn exceeds_messages(&self, element: Element) -> bool
        ensures { result ≡ (is_message element
            && not (nat_lt (message_count (cells_read self.now)) message_limit)) }
    {
        is_message(element) && !(self.messages < MESSAGE_LIMIT)
    }

    /// How an element stands behind all cells so far.
    fn standing(&self, element: Element) -> Standing
        ensures { result ≡ standing_of (length self.now.segments + 1 == self.now.count)
            (cells_read self.now) element }
    {
        Standing {
            is_stray_label: is_label(element) && !self.is_in_last(),
            repeats_label: self.has_label(element),
            drives_again: self.drives(driven_by(element)),
            exceeds_messages: self.exceeds_messages(element),
        }
    }

    fn test_cell(&self, sizes: Sizes, cell: Cell) -> Result<(), PlantFault>
        ensures { result ≡ first_failed
            (site_cell_tests (site_of sizes self.now) self.now.cells cell) }
    {
        cell.check(sizes, self.cells.as_slice())?;
        self.standing(cell.element).check()
    }

    fn put_cell(self, sizes: Sizes, cell: Cell) -> Result<Program, LoadEnd>
        requires { first_failed (site_cell_tests (site_of sizes self) self.cells cell) ≡ Ok tt }
        ensures { Makes result (λ program. program
            ≡ record self { cells = self.cells ++ cell ∷ [] }) }
    {
        let Program {
            count,
            segments,
            networks,
            mut cells,
            shorts,
            driven,
            labels,
            messages,
        } = self;
        let driven = with_coil(driven, driven_by(cell.element))?;
        let labels = with_label(labels, cell.element)?;
        let messages = messages_with(messages, cell.element);
        cells.push(cell)?;
        Ok(Program {
            count,
            segments,
            networks,
            cells,
            shorts,
            driven,
            labels,
            messages,
        })
    }

    /// One more cell of the network that is being read, or the first of its faults.
    #[tactic(auto, unfolding(crate::specs::Pieces::cell_behind))]
    pub fn with_cell(self, sizes: Sizes, place: Place, cell: Cell) -> Result<Program, LoadEnd>
        ensures { Gives (λ program. program) result (with_cell sizes place self cell) }
    {
        match self.test_cell(sizes, cell) {
            Ok(()) => self.put_cell(sizes, cell),
            Err(fault) => Err(LoadEnd::Refused(fault, place)),
        }
    }

    fn put_short(self, short: Short) -> Result<Program, LoadEnd>
        requires { first_failed (short_tests self.shorts short) ≡ Ok tt }
        ensures { Makes result (λ program. program
            ≡ record self { shorts = self.shorts ++ short ∷ [] }) }
    {
        let Program {
            count,
            segments,
            networks,
            cells,
            mut shorts,
            driven,
            labels,
            messages,
        } = self;
        shorts.push(short)?;
        Ok(Program {
            count,
            segments,
            networks,
            cells,
            shorts,
            driven,
            labels,
            messages,
        })
    }

    /// One more short of the network that is being read, or the first of its faults.
    #[tactic(auto, unfolding(crate::specs::Pieces::short_behind))]
    pub fn with_short(self, place: Place, short: Short) -> Result<Program, LoadEnd>
        ensures { Gives (λ program. program) result (with_short place self short) }
    {
        match short.check(self.shorts.as_slice()) {
            Ok(()) => self.put_short(short),
            Err(fault) => Err(LoadEnd::Refused(fault, place)),
        }
    }

    /// The number of the segment that is being read, or comes next.
    pub fn segment_number(&self) -> u32
        ensures { result ≡ length self.now.segments + 1 }
    {
        self.segments.as_slice().len() as u32 + 1
    }

    fn network_number(&self) -> u32
        ensures { result ≡ length self.now.networks + 1 }
    {
        self.networks.as_slice().len() as u32 + 1
    }

    fn piece_number(&self) -> u32
        ensures { result ≡ piece_count self.now + 1 }
    {
        let count = self.cells.as_slice().len() + self.shorts.as_slice().len();
        count as u32 + 1
    }

    /// The place of the piece that comes next, in the controller at a position.
    pub fn place_of_next(&self, controller: u32) -> Place
        ensures { result ≡ place_of_next controller self.now }
    {
        let segment = self.segment_number();
        let network = self.network_number();
        Place::cell(controller, segment, network, self.piece_number())
    }

    /// The network that was being read is whole.
    pub fn with_network(self, alloc: Global) -> Result<Program, LoadEnd>
        requires { length self.networks < NETWORK_LIMIT }
        ensures { Makes result (λ program. program ≡ with_network self) }
    {
        let Program {
            count,
            segments,
            mut networks,
            cells,
            shorts,
            driven,
            labels,
            messages,
        } = self;
        networks.push(Network { cells, shorts })?;
        Ok(Program {
            count,
            segments,
            networks,
            cells: List::new(alloc),
            shorts: List::new(alloc),
            driven,
            labels,
            messages,
        })
    }

    /// The segment whose networks were being read is whole.
    pub fn with_segment(self, alloc: Global) -> Result<Program, LoadEnd>
        requires { length self.segments < SEGMENT_LIMIT }
        ensures { Makes result (λ program. program ≡ with_segment self) }
    {
        let Program {
            count,
            mut segments,
            networks,
            cells,
            shorts,
            driven,
            labels,
            messages,
        } = self;
        segments.push(Segment { networks })?;
        Ok(Program {
            count,
            segments,
            networks: List::new(alloc),
            cells,
            shorts,
            driven,
            labels,
            messages,
        })
    }

    /// The segments that are whole, in their order.
    pub fn into_segments(self) -> List<Segment>
        ensures { result ≡ self.segments }
    {
        let Program {
            count: _,
            segments,
            networks: _,
            cells: _,
            shorts: _,
            driven: _,
            labels: _,
            messages: _,
        } = self;
        segments
    }
}
