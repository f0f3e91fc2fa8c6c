//! The networks of a plant: the rules that all share, and the number and the fates of each.
ghost use Rattle.std.specs.Prelude.{◌≡◌, ◌≤◌, ◌∷◌, [], ◌==◌, codes, length, map, option_map, IfOk};
ghost use Rattle.std.specs.List.{list_any};
ghost use Rattle.toml.specs.Data.{get_member};
ghost use Rattle.toml.specs.View.{view, table_view};
ghost use Rattle.plant_tables.specs.Given.{table_in, tables_in};
ghost use Rattle.plant_tables.specs.Refusals.{Gives, Makes};
ghost use Rattle.plant_tables.specs.InOrder.{each_of};
ghost use Rattle.plant_tables.specs.Net.{fate_of, fates_in, fates_or, fates_at, rules_at, has_net};
ghost use Rattle.plant_tables.specs.Net.{net_table, net_behind, net_tables, read_nets, only_net};
ghost use Rattle.plant_tables.specs.Net.{numbered_nets, nets_in, nets_of, one_of_nets};
ghost use Rattle.plant_tables.specs.Net.{network_named, network_at};

use crate::keys::{number_at_key, number_at_or, number_from, value_at};
use crate::refusal::{LoadEnd, Refusal, net_place, network_place};
use crate::tables::{TableKind, Version, table_passes};
use plant_types::{
    ANSWER_LIMIT, FATE_LIMIT, Fate, HOLD_LIMIT, List, NET_LIMIT, Place, PlantFault, ROTATION_LIMIT,
    ROUND_LIMIT,
};
use std::alloc::Global;
use std::collections::BTreeMap;
use toml::{Table, Value};

/// How every network treats its members.
#[derive(Clone, Copy)]
pub struct NetRules {
    /// After how many own Passes a call without a reply is given up, 2 to 1000.
    pub answer: u32,
    /// Rounds of the token after each scan, 1 to 10.
    pub rotations: u32,
    /// How many Passes in a row every member has to be done before a node leaves, 1 to 100.
    pub rounds: u32,
    /// After how many Passes a node with a budget leaves in any case, 1 to 100,000.
    pub holds: u32,
}

/// A network by its number, which is 0 in version 1, and what becomes of its transmissions.
#[derive(Drop)]
pub struct NetTable {
    pub number: u8,
    /// 1 to 1000 letters; the transmissions take them in turn, again and again.
    pub fates: List<Fate>,
}

/// The rules of all networks of a plant, and its networks in file order.
#[derive(Drop)]
pub struct Nets {
    pub rules: NetRules,
    pub tables: Vec<NetTable>,
}

fn fate_of(letter: u8) -> Option<Fate>
    ensures { result ≡ fate_of letter }
{
    match letter {
        b'D' => Some(Fate::D),
        b'L' => Some(Fate::L),
        b'A' => Some(Fate::A),
        _ => None,
    }
}

fn fates_in(alloc: Global, place: Place, letters: &[u8]) -> Result<List<Fate>, LoadEnd>
    ensures { Gives (λ fates. fates) result (fates_in place letters.now) }
{
    let refused = LoadEnd::Refused(PlantFault::BadValue, place);
    let mut fates = List::new(alloc);
    for letter in letters {
        let Some(fate) = fate_of(*letter) else {
            return Err(refused);
        };
        fates.push(fate)?;
    }
    Ok(fates)
}

fn delivered(alloc: Global) -> Result<List<Fate>, LoadEnd>
    ensures { Makes result (λ fates. fates ≡ Fate.D ∷ []) }
{
    let mut fates = List::new(alloc);
    fates.push(Fate::D)?;
    Ok(fates)
}

/// The fates of a text of 1 to 1000 letters, or the default.
#[tactic(auto, unfolding(crate::specs::Net::fates_or))]
fn fates_or(alloc: Global, place: Place, value: Option<&Value>) -> Result<List<Fate>, LoadEnd>
    ensures { Gives (λ fates. fates) result
        (fates_or place (option_map (λ v. view v.now) value.entry)) }
{
    let Some(value) = value else {
        return delivered(alloc);
    };
    let refused = LoadEnd::Refused(PlantFault::BadValue, place);
    let Some(text) = value.as_str() else {
        return Err(refused);
    };
    let letters = text.as_bytes();
    if letters.is_empty() || letters.len() > FATE_LIMIT {
        return Err(refused);
    }
    fates_in(alloc, place, letters)
}

fn fates_at(alloc: Global, place: Place, table: &Table) -> Result<List<Fate>, LoadEnd>
    ensures { Gives (λ fates. fates) result (fates_at place (table_view table.now)) }
{
    fates_or(alloc, place, value_at(table, "fates"))
}

#[tactic(auto, unfolding(crate::specs::Net::rules_at))]
fn rules_at(table: &Table) -> Result<NetRules, Refusal>
    ensures { result ≡ rules_at (table_view table.now) }
{
    let place = net_place();
    let answer = number_at_or(place, "answer", 20, 2, ANSWER_LIMIT, table)?;
    let rotations = number_at_or(place, "rotations", 4, 1, ROTATION_LIMIT, table)?;
    let rounds = number_at_or(place, "rounds", 2, 1, ROUND_LIMIT, table)?;
    let holds = number_at_or(place, "holds", HOLD_LIMIT, 1, HOLD_LIMIT, table)?;
    Ok(NetRules {
        answer,
        rotations,
        rounds,
        holds,
    })
}

/// Whether one of these networks has this number.
fn has_net(nets: &[NetTable], number: u8) -> bool
    ensures { result ≡ has_net nets.now number }
{
    nets.iter().any(|net| net.number == number)
}

#[tactic(auto, unfolding(crate::specs::Net::net_behind))]
fn net_behind(
    alloc: Global,
    earlier: &[NetTable],
    position: u32,
    table: &Table,
) -> Result<NetTable, LoadEnd>
    ensures { Gives (λ net. net) result
        (net_behind earlier.now (position, table_view table.now)) }
{
    let place = network_place(position);
    let most = u32::from(NET_LIMIT);
    table_passes(place, TableKind::Network, table)?;
    let number = number_at_key(place, PlantFault::BadValue, "number", 1, most, table)? as u8;
    let fates = fates_at(alloc, place, table)?;
    if has_net(earlier, number) {
        return Err(LoadEnd::Refused(PlantFault::BadNetwork, place));
    }
    Ok(NetTable { number, fates })
}

/// The networks of tables, in file order.
#[tactic(auto, unfolding(crate::specs::InOrder::each_behind))]
fn net_tables(alloc: Global, tables: &[&Table]) -> Result<Vec<NetTable>, LoadEnd>
    requires { length tables.now ≤ NET_LIMIT }
    ensures { Gives (λ nets. nets.items) result (net_tables (tables_in tables.now)) }
{
    let mut nets = Vec::new(alloc);
    let mut position = 0;
    for table in tables {
        position += 1;
        let next = net_behind(alloc, nets.as_slice(), position, table)?;
        if nets.push(next).is_err() {
            return Err(LoadEnd::NoMemory);
        }
    }
    Ok(nets)
}

/// The list of a network without a number.
fn one_table(alloc: Global, fates: List<Fate>) -> Result<Vec<NetTable>, LoadEnd>
    ensures { Makes result (λ tables. tables.items ≡ net_table 0 fates ∷ []) }
{
    let mut tables = Vec::new(alloc);
    if tables.push(NetTable { number: 0, fates }).is_err() {
        return Err(LoadEnd::NoMemory);
    }
    Ok(tables)
}

#[tactic(auto, unfolding(crate::specs::Net::only_net))]
fn only_net(alloc: Global, shared: &Table) -> Result<Nets, LoadEnd>
    ensures { Gives read_nets result (only_net (table_view shared.now)) }
{
    let place = net_place();
    table_passes(place, TableKind::Net(Version::One), shared)?;
    let fates = fates_at(alloc, place, shared)?;
    let rules = rules_at(shared)?;
    let tables = one_table(alloc, fates)?;
    Ok(Nets { rules, tables })
}

#[tactic(auto, unfolding(crate::specs::Net::numbered_nets))]
fn numbered_nets(alloc: Global, shared: &Table, tables: &[&Table]) -> Result<Nets, LoadEnd>
    requires { length tables.now ≤ NET_LIMIT }
    ensures { Gives read_nets result
        (numbered_nets (table_view shared.now) (tables_in tables.now)) }
{
    table_passes(net_place(), TableKind::Net(Version::Two), shared)?;
    let rules = rules_at(shared)?;
    let tables = net_tables(alloc, tables)?;
    Ok(Nets { rules, tables })
}

fn nets_in(
    alloc: Global,
    version: Version,
    shared: &Table,
    tables: &[&Table],
) -> Result<Nets, LoadEnd>
    requires { length tables.now ≤ NET_LIMIT }
    ensures { Gives read_nets result
        (nets_in version (table_view shared.now) (tables_in tables.now)) }
{
    match version {
        Version::One => only_net(alloc, shared),
        Version::Two => numbered_nets(alloc, shared, tables),
    }
}

/// The networks of a plant by the table of what all share, or its defaults, and those of each.
pub fn nets_of(
    alloc: Global,
    version: Version,
    shared: Option<&Table>,
    tables: &[&Table],
) -> Result<Nets, LoadEnd>
    requires { length tables.now ≤ NET_LIMIT }
    ensures { Gives read_nets result
        (nets_of version (table_in shared.entry) (tables_in tables.now)) }
{
    match shared {
        Some(shared) => nets_in(alloc, version, shared, tables),
        None => nets_in(alloc, version, &BTreeMap::new(alloc), tables),
    }
}

/// This number, where it is that of one of these networks.
pub fn one_of_nets(nets: &[NetTable], number: u32) -> Option<u8>
    requires { number ≤ NET_LIMIT }
    ensures { result ≡ one_of_nets nets.now number }
{
    let number = number as u8;
    if has_net(nets, number) {
        Some(number)
    } else {
        None
    }
}

/// The network that the table of a station names, if there is one.
#[tactic(auto, unfolding(crate::specs::Net::network_named))]
fn network_named(nets: &[NetTable], place: Place, table: &Table) -> Result<Option<u8>, Refusal>
    ensures { result ≡ network_named nets.now place (table_view table.now) }
{
    let Some(value) = value_at(table, "network") else {
        return Err((PlantFault::BadKey, place));
    };
    let Some(number) = value.as_integer() else {
        return Err((PlantFault::BadValue, place));
    };
    match number_from(1, u32::from(NET_LIMIT), number) {
        Some(number) => Ok(one_of_nets(nets, number)),
        None => Ok(None),
    }
}

/// The network of a station: in version 1 the one that there is.
pub fn network_at(
    version: Version,
    nets: &[NetTable],
    place: Place,
    table: &Table,
) -> Result<Option<u8>, Refusal>
    ensures { result ≡ network_at version nets.now place (table_view table.now) }
{
    match version {
        Version::One => Ok(Some(0)),
        Version::Two => network_named(nets, place, table),
    }
}
