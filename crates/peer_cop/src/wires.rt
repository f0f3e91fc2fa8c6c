//! The wires of a word exchange, read line by line.
ghost use Rattle.std.specs.Prelude.{◌≡◌, ℕ, List, length, MatchOption, IfOk, IfErr};
ghost use Rattle.peer_cop.specs.declared.wire.Wire.{Wire};
ghost use Rattle.peer_cop.specs.Lines.{BeginsWithWire, lines_of};
ghost use Rattle.peer_cop.specs.Plants.{CanBeWired, FitsPlant};
ghost use Rattle.peer_cop.specs.Places.{IsFree, place_count};
ghost use Rattle.peer_cop.specs.Wires.{AreRefused, AreWires, TakesWire};

use crate::fitting::fits_plant;
use crate::flags::{PLACE_COUNT, flag, is_free};
use crate::reading::read_wire;
use crate::wire::{Wire, WireEnd};
use plant_types::{List, Plant};
use std::alloc::Global;

/// The wire with whose line a text begins, where it fits a plant and feeds no word that is flagged,
/// and what stands after that line. Its words are flagged then.
fn take_wire<'a>(plant: &Plant, flags: &mut [bool], text: &'a [u8]) -> Option<(Wire, &'a [u8])>
    requires plant { CanBeWired plant.now }
    requires size { length flags.old ≡ place_count }
    ensures { MatchOption result
        ((wire : Wire) (rest : List ℕ) → BeginsWithWire text.now wire rest
        → FitsPlant plant.now wire → ¬ (IsFree flags.old wire))
        (λ taken. TakesWire plant.now flags.old flags.new text.now taken.0 taken.1.now) }
{
    let (wire, rest) = read_wire(text)?;
    if !fits_plant(plant, wire) || !is_free(flags, wire) {
        return None;
    }
    flag(flags, wire);
    Some((wire, rest))
}

/// The wires of lines `<node> <drop> <word> <from node> <from drop> <from word> <count>`, each ended
/// by a line feed. BadWire comes at the first line, counted from 1, that is no such line, does not
/// fit the plant, or wires an input word that a line before it wires. NoMemory comes where memory
/// ran out. Takes time that grows linearly with the bytes. This project's own.
pub fn read_wires(alloc: Global, bytes: &[u8], plant: &Plant) -> Result<List<Wire>, WireEnd>
    requires { CanBeWired plant.now }
    ensures wires { IfOk result (λ wires. AreWires plant.now (lines_of bytes.now) wires) }
    ensures refused { IfErr result (λ end. AreRefused plant.now (lines_of bytes.now) end) }
{
    let mut wires = List::new(alloc);
    let mut flags = vec![in alloc; false; PLACE_COUNT]?;
    let mut rest = bytes;
    while !rest.is_empty() {
        match take_wire(plant, &mut flags, rest) {
            Some((wire, later)) => {
                wires.push(wire)?;
                rest = later;
            }
            None => return Err(WireEnd::BadWire(wires.as_slice().len() as u32 + 1)),
        }
    }
    Ok(wires)
}
