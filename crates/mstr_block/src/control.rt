//! The control block of an MSTR block, and the tests of a start.
ghost use Rattle.std.specs.Prelude.{◌≡◌, ◌+◌, ◌<◌, ◌≤◌, ◌^◌, nat_lt, length, IfOk};
ghost use Rattle.std.specs.List.{list_any, list_all, position, position_or_len, after_first};
ghost use Rattle.plant_types.specs.Limits.{most_address};
ghost use Rattle.plant_types.specs.Reference.{ref_from};
ghost use Rattle.plant_types.specs.Slots.{control_block};
ghost use Rattle.plant_types.specs.Store.{HasRegisters, word_at, words_from};
ghost use Rattle.mstr_block.specs.Control.{control_block_of, has_bad_length, has_bad_start};
ghost use Rattle.mstr_block.specs.Control.{has_bad_end, has_small_area, is_no_hop, has_bad_hops};
ghost use Rattle.mstr_block.specs.Control.{has_bad_route, asks_itself, route_of, start_of, ask_of};
ghost use Rattle.mstr_block.specs.Control.{AreLow, FitsStart};

use crate::call::MstrAsk;
use crate::operation::Operation;
use plant_types::{
    BLOCK_LIMIT, Block, NODE_LIMIT, REFERENCE_LIMIT, ROUTE_LIMIT, Ref, RefStore, Route,
    STATISTICS_WORDS, load_words, ref_after,
};

/// The registers of a route behind its first address.
const HOP_COUNT: usize = ROUTE_LIMIT - 1;

/// What the registers of a control block say, but for its status.
#[derive(Clone, Copy, Drop)]
pub(crate) struct Control {
    pub code: u16,
    pub length: u16,
    /// The first register there, or the first word of the statistics.
    pub start: u16,
    pub node: u16,
    /// The hops of a route behind the node.
    pub hops: [u16; HOP_COUNT],
}

// The places of the registers.
const CODE: u16 = 0;

const STATUS: u16 = 1;

const LENGTH: u16 = 2;

const START: u16 = 3;

const NODE: u16 = 4;

const ROUTE_BEHIND: u16 = 5;

// The error words of a start.
const ILLEGAL_OPERATION: u16 = 0x2001;

const INVALID_LENGTH: u16 = 0x2003;

const INVALID_START: u16 = 0x2004;

const INVALID_END: u16 = 0x2005;

const INVALID_AREA: u16 = 0x2006;

const INVALID_ROUTE: u16 = 0x2008;

const OWN_ADDRESS: u16 = 0x2009;

/// The status of a control block.
pub(crate) fn status_register(control: Ref) -> Ref
    requires { control.number + 1 < 2 ^ 16 }
    ensures { result ≡ ref_from control 1 }
{
    ref_after(control, STATUS)
}

/// The register of a control block for the number of words available.
pub(crate) fn start_register(control: Ref) -> Ref
    requires { control.number + 3 < 2 ^ 16 }
    ensures { result ≡ ref_from control 3 }
{
    ref_after(control, START)
}

/// The number in one of the nine registers.
fn number_in<R: RefStore>(control: Ref, place: u16, ram: &R) -> u16
    requires place { place < control_block }
    requires control { HasRegisters (R.contents ram.now) control control_block }
    ensures { result ≡ word_at (R.contents ram.now) (ref_from control place) }
{
    ram.word(ref_after(control, place))
}

/// The hops behind the node.
fn hops_in<R: RefStore>(control: Ref, ram: &R) -> [u16; HOP_COUNT]
    requires { HasRegisters (R.contents ram.now) control control_block }
    ensures { result ≡ words_from (R.contents ram.now) (ref_from control 5) 4 }
{
    let mut hops = [0; HOP_COUNT];
    load_words(ram, ref_after(control, ROUTE_BEHIND), &mut hops);
    hops
}

/// The place of the first of these that is 0.
fn route_end(hops: &[u16]) -> Option<usize>
    ensures { result ≡ position is_no_hop hops.now }
{
    hops.iter().position(|hop| *hop == 0)
}

/// How many hops a route has, which ends before the first that is 0.
fn hop_count(hops: &[u16]) -> usize
    ensures count { result ≡ position_or_len is_no_hop hops.now }
    ensures fits { result ≤ length hops.now }
{
    route_end(hops).unwrap_or(hops.len())
}

/// Whether all of these are 0.
fn are_no_hops(hops: &[u16]) -> bool
    ensures { result ≡ list_all is_no_hop hops.now }
{
    hops.iter().all(|hop| *hop == 0)
}

/// Whether all hops behind the first that is 0 are 0 too.
fn end_once(hops: &[u16]) -> bool
    ensures { result ≡ list_all is_no_hop (after_first is_no_hop hops.now) }
{
    let behind = (hop_count(hops) + 1).min(hops.len());
    are_no_hops(&hops[behind..])
}

/// The registers of the data area, which a call writes.
fn words_to_write<R: RefStore>(area: Ref, count: u16, ram: &R) -> Block
    requires count { count < 101 }
    requires area { HasRegisters (R.contents ram.now) area count }
    ensures { result ≡ words_from (R.contents ram.now) area count }
{
    let mut words = [0; BLOCK_LIMIT];
    let run = &mut words[..usize::from(count)];
    load_words(ram, area, run);
    Block::of(run)
}

impl Control {
    /// The control block whose first register is `control`.
    pub fn read<R: RefStore>(control: Ref, ram: &R) -> Control
        requires { HasRegisters (R.contents ram.now) control control_block }
        ensures { result ≡ control_block_of (R.contents ram.now) control }
    {
        Control {
            code: number_in(control, CODE, ram),
            length: number_in(control, LENGTH, ram),
            start: number_in(control, START, ram),
            node: number_in(control, NODE, ram),
            hops: hops_in(control, ram),
        }
    }

    fn has_bad_length(&self, operation: Operation) -> bool
        ensures { result ≡ has_bad_length operation self.now }
    {
        match operation.most_words() {
            Some(most) => self.length < 1 || self.length > most,
            None => false,
        }
    }

    fn has_bad_start(&self, operation: Operation) -> bool
        ensures { result ≡ has_bad_start operation self.now }
    {
        operation.moves_registers() && self.start == 0
            || operation.reads_statistics() && self.start >= STATISTICS_WORDS
    }

    fn has_bad_end(&self, operation: Operation) -> bool
        ensures { result ≡ has_bad_end operation self.now }
    {
        let end = u32::from(self.start) + u32::from(self.length);
        operation.moves_registers() && end.saturating_sub(1) > u32::from(REFERENCE_LIMIT)
            || operation.reads_statistics() && end > u32::from(STATISTICS_WORDS)
    }

    fn has_small_area(&self, room: u16, operation: Operation) -> bool
        ensures { result ≡ has_small_area room operation self.now }
    {
        operation.most_words().is_some() && self.length > room
    }

    /// Whether a hop is no address.
    fn has_high_hop(&self) -> bool
        ensures { result ≡ list_any (nat_lt most_address) self.now.hops }
    {
        self.hops.iter().any(|hop| *hop > u16::from(NODE_LIMIT))
    }

    fn has_bad_hops(&self, routed: bool) -> bool
        ensures { result ≡ has_bad_hops routed self.now.hops }
    {
        if routed {
            self.has_high_hop() || !end_once(&self.hops)
        } else {
            !are_no_hops(&self.hops)
        }
    }

    fn has_bad_route(&self, routed: bool, operation: Operation) -> bool
        ensures { result ≡ has_bad_route routed operation self.now }
    {
        operation.names_node() && (self.node < 1 || self.node > u16::from(NODE_LIMIT))
            || operation.uses_network() && self.has_bad_hops(routed)
    }

    /// The node, and the hops behind it up to the first that is 0.
    fn route(&self) -> Route
        requires { AreLow (route_of self.now) }
        ensures { result ≡ route_of self.now }
    {
        let mut addresses = [self.node as u8; ROUTE_LIMIT];
        let count = hop_count(&self.hops);
        for place in 0..count {
            addresses[place + 1] = self.hops[place] as u8;
        }
        Route::of(&addresses[..count + 1])
    }

    fn asks_itself(&self, own: u8, operation: Operation) -> bool
        ensures { result ≡ asks_itself own operation self.now }
    {
        operation.uses_network() && self.node == u16::from(own)
    }

    /// The operation of a start, or the error word of the first test that fails.
    pub fn start(&self, routed: bool, own: u8, room: u16) -> Result<Operation, u16>
        ensures start { result ≡ start_of routed own room self.now }
        ensures fits { IfOk result (λ operation. FitsStart room operation self.now) }
    {
        let operation = Operation::of_code(self.code).ok_or(ILLEGAL_OPERATION)?;
        if self.has_bad_length(operation) {
            return Err(INVALID_LENGTH);
        }
        if self.has_bad_start(operation) {
            return Err(INVALID_START);
        }
        if self.has_bad_end(operation) {
            return Err(INVALID_END);
        }
        if self.has_small_area(room, operation) {
            return Err(INVALID_AREA);
        }
        if self.has_bad_route(routed, operation) {
            return Err(INVALID_ROUTE);
        }
        if self.asks_itself(own, operation) {
            return Err(OWN_ADDRESS);
        }
        Ok(operation)
    }

    /// The call of an operation, with the words that the data area has now.
    pub fn ask<R: RefStore>(&self, operation: Operation, area: Ref, room: u16, ram: &R) -> MstrAsk
        requires fits { FitsStart room operation self.now }
        requires area { HasRegisters (R.contents ram.now) area room }
        ensures { result ≡
            ask_of operation self.now (words_from (R.contents ram.now) area self.now.length) }
    {
        match operation {
            Operation::WriteData => MstrAsk::Write {
                route: self.route(),
                start: self.start,
                words: words_to_write(area, self.length, ram),
            },
            Operation::ReadData => MstrAsk::Read {
                route: self.route(),
                start: self.start,
                length: self.length,
            },
            Operation::LocalStatistics => MstrAsk::LocalStats,
            Operation::ClearLocal => MstrAsk::ClearLocal,
            Operation::WriteGlobal => { MstrAsk::PutGlobal(words_to_write(area, self.length, ram)) }
            Operation::ReadGlobal => MstrAsk::GetGlobal {
                node: self.node as u8,
                length: self.length,
            },
            Operation::RemoteStatistics => MstrAsk::RemoteStats {
                route: self.route(),
            },
            Operation::ClearRemote => MstrAsk::ClearRemote {
                route: self.route(),
            },
        }
    }
}
